ghost use Rattle.std.specs.Prelude.{◌≡◌, ◌<◌, ◌++◌, ◌∷◌, [], length, slice_get, slice_set, Some, IfOk, OnOk, OnErr};
ghost use Rattle.cf_elab_env.specs.Entries.{numbers_named, HasName};

use crate::env::next_number;
use crate::functions::FunctionEntry;
use cf_base::Memory;
use cf_lookup::{EntityId, Scopes};
use std::alloc::Global;
use std::marker::Model;

/// Declared functions, in order of declaration, and a table that finds the numbers of a name.
#[derive(Drop)]
pub(crate) struct Entries {
    entries: Vec<FunctionEntry>,
    table: Scopes,
}

impl Model for Entries {
    ghost use Rattle.std.specs.Prelude.{List};
    ghost use Rattle.std.specs.Coded.{codes};
    ghost use Rattle.cf_core.specs.contracts.node.Core as core;
    ghost use Rattle.cf_elab.specs.Env.{FunctionEntry};

    ghost Value = { List FunctionEntry };

    ghost coded = { Prim.hlevel (codes, core.the_row.coded) };

    ghost use Rattle.cf_elab_env.specs.Entries.{TellsEntries};

    ghost view = { λ e. e.entries.items };

    ghost invariant = { λ e. TellsEntries e.table e.entries.items };
}

impl Entries {
    /// None.
    pub(crate) fn new(alloc: Global) -> Entries
        ensures { result ≡ [] }
    {
        Entries {
            entries: Vec::new(alloc),
            table: Scopes::new(alloc),
        }
    }

    /// They themselves, in order of declaration.
    pub(crate) fn as_slice(&self) -> &[FunctionEntry]
        ensures { result.now ≡ self.now }
    {
        self.entries.as_slice()
    }

    /// That of this number.
    pub(crate) fn get(&self, number: u32) -> &FunctionEntry
        requires { number < length self.now }
        ensures { slice_get self.now number ≡ Some result.now }
    {
        &self.entries[number as usize]
    }

    /// The numbers of those of this name, in order.
    pub(crate) fn numbers_named(&self, alloc: Global, name: &[u8]) -> Result<Vec<u32>, Memory>
        ensures { IfOk result (λ numbers. numbers.items ≡ numbers_named name.now self.now) }
    {
        let ids = self.table.find_all(name)?;
        let numbers = ids.iter().map(|id| id.number()).collect(alloc)?;
        Ok(numbers)
    }

    /// The number of one more.
    pub(crate) fn add(&mut self, entry: FunctionEntry) -> Result<u32, Memory>
        ensures number { IfOk result (λ number. number ≡ length self.old) }
        ensures ok { OnOk result (self.new ≡ self.old ++ entry ∷ []) }
        ensures err { OnErr result (self.new ≡ self.old) }
    {
        let number = next_number(self.entries.len())?;
        self.entries.reserve(1)?;
        self.table
            .declare(entry.name.as_slice(), EntityId::new(number))?;
        self.entries.push(entry).unwrap();
        Ok(number)
    }

    /// The function of this number is declared so from here on, by the name that it has.
    pub(crate) fn set(&mut self, number: u32, entry: FunctionEntry)
        requires place { number < length self.old }
        requires name { HasName self.old number entry.name }
        ensures { self.new ≡ slice_set self.old number entry }
    {
        self.entries[number as usize] = entry;
    }
}
