ghost use Rattle.std.specs.Prelude.{◌≡◌, ◌∷◌, ◌==◌, ◌||◌, ℕ, OnOk, OnErr};
ghost use Rattle.cc_whole.specs.Statements as spec;
ghost use Rattle.cc_whole_valid.specs.Checking.{with_default};
ghost use Rattle.cc_whole_valid.specs.Labels.{noted};

use cf_base::Memory;
use std::alloc::Global;
use std::collections::HashMap;
use std::marker::Model;

/// The labels of a `switch` so far, and a table that finds those of cases.
#[derive(Drop)]
pub struct Labels {
    cases: Vec<u32>,
    table: HashMap<u32, bool>,
    has_default: bool,
}

impl Model for Labels {
    ghost use Rattle.std.specs.Prelude.{◌≡◌, ℕ, reverse};
    ghost use Rattle.cc_whole.specs.Statements.{Labels as Seen, has_case};
    ghost use Rattle.cc_whole_valid.specs.Labels.{noted};

    ghost Value = { Seen };

    ghost view = { λ l. record { cases = reverse l.cases.items; has_default = l.has_default } };

    ghost invariant = { λ l. (q : ℕ) → noted l.table q ≡ has_case (reverse l.cases.items) q };
}

/// Whether a table has a label.
fn is_noted(table: &HashMap<u32, bool>, label: u32) -> bool
    ensures { result ≡ noted table.now label }
{
    table.get(&label).copied().unwrap_or(false)
}

/// Has a table have a label.
fn note(table: &mut HashMap<u32, bool>, label: u32) -> Result<(), Memory>
    ensures ok { (q : ℕ) → OnOk result (noted table.new q ≡ (label == q || noted table.old q)) }
    ensures err { (q : ℕ) → OnErr result (noted table.new q ≡ noted table.old q) }
{
    table.insert(label, true)?;
    Ok(())
}

impl Labels {
    pub fn new(alloc: Global) -> Labels
        ensures { result ≡ spec.no_labels }
    {
        Labels {
            cases: Vec::new(alloc),
            table: HashMap::new(alloc),
            has_default: false,
        }
    }

    /// Whether there is a case of this label.
    pub fn has_case(&self, label: u32) -> bool
        ensures { result ≡ spec.has_case self.now.cases label }
    {
        is_noted(&self.table, label)
    }

    pub fn has_default(&self) -> bool
        ensures { result ≡ self.now.has_default }
    {
        self.has_default
    }

    pub fn add_case(&mut self, label: u32) -> Result<(), Memory>
        ensures { OnOk result (self.new ≡ record { cases = label ∷ self.old.cases; has_default = self.old.has_default }) }
    {
        self.cases.reserve(1)?;
        note(&mut self.table, label)?;
        self.cases.push(label).unwrap();
        Ok(())
    }

    pub fn add_default(&mut self)
        ensures { self.new ≡ with_default self.old }
    {
        self.has_default = true;
    }
}
