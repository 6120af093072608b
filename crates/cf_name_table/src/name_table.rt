ghost use Rattle.std.specs.Prelude.{◌≡◌, ℕ, List, IfOk, bytes_eq};
ghost use Rattle.std.specs.List.{list_any};

use cf_base::{Items, Memory, Name};
use indexmap::IndexSet;
use std::alloc::Global;
use std::marker::Model;

/// Names in order. A name may stand there more than once, and a table finds it.
#[derive(Drop)]
pub struct NameTable {
    names: Items<Name>,
    table: IndexSet<Vec<u8>>,
}

impl Model for NameTable {
    ghost use Rattle.std.specs.Prelude.{◌≡◌, ℕ, List, bytes_eq};
    ghost use Rattle.std.specs.List.{list_any};

    ghost Value = { List (List ℕ) };

    ghost view = { λ n. n.names };

    ghost invariant = { λ n. (q : List ℕ) → list_any (λ k. bytes_eq q k.items) n.table.keys ≡ list_any (bytes_eq q) n.names };
}

impl NameTable {
    /// These names.
    pub fn of(alloc: Global, names: Items<Name>) -> Result<NameTable, Memory>
        ensures { IfOk result (λ made. made ≡ names) }
    {
        let table = table_of(alloc, names.as_slice())?;
        Ok(NameTable { names, table })
    }

    /// The names, in order.
    pub fn as_slice(&self) -> &[Name]
        ensures { result.now ≡ self.now }
    {
        self.names.as_slice()
    }

    /// Whether it is one of them.
    pub fn has(&self, name: &[u8]) -> bool
        ensures { result ≡ list_any (bytes_eq name.now) self.now }
    {
        self.table.contains(name)
    }
}

/// A table that finds these names.
fn table_of(alloc: Global, names: &[Name]) -> Result<IndexSet<Vec<u8>>, Memory>
    ensures { (q : List ℕ) → IfOk result (λ table. list_any (λ k. bytes_eq q k.items) table.keys ≡ list_any (bytes_eq q) names.now) }
{
    let mut table = IndexSet::new(alloc);
    for name in names {
        let own = Vec::from_slice(alloc, name.as_slice())?;
        table.insert(own)?;
    }
    Ok(table)
}
