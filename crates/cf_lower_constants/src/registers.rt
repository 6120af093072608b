//! What all registers hold.

ghost use Rattle.std.specs.Prelude.{◌≡◌, ◌<◌, ℕ, [], length, slice_set, IfOk, OnOk};
ghost use Rattle.cf_core.specs.FromTypes.{Tables as TablesOf};
ghost use Rattle.cf_lower.specs.Constants as definition;
ghost use Rattle.cf_lower_constants.specs.Knowing.{known_at, known_in, knowing};

use crate::known::{Fact, Known, copied, nameless};
use cf_base::Memory;
use std::alloc::Global;

/// What is known of each register, by its number; nothing behind the last.
#[derive(Drop)]
pub struct Knowns {
    known: Vec<Known>,
}

/// Makes room up to an index, with nothing known there.
fn reach(alloc: Global, all: &mut Vec<Known>, index: usize) -> Result<(), Memory>
    ensures same { (q : ℕ) → OnOk result (known_at all.new.items q ≡ known_at all.old.items q) }
    ensures long { OnOk result (index < length all.new.items) }
{
    while all.len() <= index {
        all.push(nameless(alloc, Fact::Nothing))?;
    }
    Ok(())
}

/// Something else is known at an index.
fn put(all: &mut Vec<Known>, index: usize, known: Known)
    requires { index < length all.old.items }
    ensures { all.new.items ≡ slice_set all.old.items index known }
{
    all[index] = known;
}

impl Knowns {
    /// Nothing is known.
    pub fn new(alloc: Global) -> Knowns
        ensures { result.known.items ≡ [] }
    {
        Knowns {
            known: Vec::new(alloc),
        }
    }

    /// What is known of a register, in a value of its own.
    pub fn get(&self, alloc: Global, register: u32) -> Result<Known, Memory>
        ensures { IfOk result (λ known. known ≡ known_at self.now.known.items register) }
    {
        match self.known.as_slice().get(register as usize) {
            Some(known) => {
                let made = copied(alloc, known)?;
                Ok(made)
            }
            None => Ok(nameless(alloc, Fact::Nothing)),
        }
    }

    /// This is known of a register from now on.
    #[tactic(auto, using(crate::proofs::Lists::know_one))]
    pub fn know(&mut self, alloc: Global, register: u32, known: Known) -> Result<(), Memory>
        ensures { (tables : TablesOf) → OnOk result (knowing tables self.new ≡ definition.know (knowing tables self.old) register (known_in tables known)) }
    {
        let index = register as usize;
        reach(alloc, &mut self.known, index)?;
        put(&mut self.known, index, known);
        Ok(())
    }

    /// Nothing is known any more.
    pub fn forget(&mut self)
        ensures { self.new.known.items ≡ [] }
    {
        self.known.truncate(0);
    }
}
