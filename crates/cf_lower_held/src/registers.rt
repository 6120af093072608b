//! What all registers hold.

ghost use Rattle.std.specs.Prelude.{◌≡◌, ◌==◌, ◌<◌, ℕ, [], length, slice_set, IfOk, OnOk};
ghost use Rattle.cf_core.specs.FromTypes.{Tables as TablesOf};
ghost use Rattle.cf_lower.specs.Kept as definition;
ghost use Rattle.cf_lower_held.specs.Holds.{held_at, kept_in, keeping, without};
ghost use Rattle.cf_lower_held.specs.declared.held.Held.TheVariants as held;

use crate::held::Held;
use crate::meeting::both;
use cf_base::Memory;
use cf_lower_types::Tables;
use std::alloc::Global;

/// What each register holds, by its number; nothing behind the last.
#[derive(Drop)]
pub struct Registers {
    held: Vec<Held>,
}

/// What stands at an index; nothing behind the last.
fn at(all: &[Held], index: usize) -> Held
    ensures { result ≡ held_at all.now index }
{
    match all.get(index) {
        Some(held) => *held,
        None => Held::Nothing,
    }
}

/// Makes room up to an index, with nothing held there.
fn reach(all: &mut Vec<Held>, index: usize) -> Result<(), Memory>
    ensures same { (q : ℕ) → OnOk result (held_at all.new.items q ≡ held_at all.old.items q) }
    ensures long { OnOk result (index < length all.new.items) }
{
    while all.len() <= index {
        all.push(Held::Nothing)?;
    }
    Ok(())
}

/// Something else is held at an index.
fn put(all: &mut Vec<Held>, index: usize, kept: Held)
    requires { index < length all.old.items }
    ensures { all.new.items ≡ slice_set all.old.items index kept }
{
    all[index] = kept;
}

impl Registers {
    /// No register holds anything.
    pub fn new(alloc: Global) -> Registers
        ensures { result.held.items ≡ [] }
    {
        Registers {
            held: Vec::new(alloc),
        }
    }

    /// What a register holds.
    pub fn get(&self, register: u32) -> Held
        ensures { result ≡ held_at self.now.held.items register }
    {
        at(self.held.as_slice(), register as usize)
    }

    /// The same in a list of its own.
    #[tactic(auto, using(crate::proofs::Keepings::same_items))]
    pub fn copied(&self, alloc: Global) -> Result<Registers, Memory>
        ensures { (tables : TablesOf) → IfOk result (λ made. keeping tables made ≡ keeping tables self.now) }
    {
        Ok(Registers {
            held: Vec::from_slice(alloc, self.held.as_slice())?,
        })
    }

    /// A register holds this from now on.
    pub fn keep(&mut self, register: u32, kept: Held) -> Result<(), Memory>
        ensures { (tables : TablesOf) → OnOk result (keeping tables self.new ≡ definition.keep (keeping tables self.old) register (kept_in tables kept)) }
    {
        let index = register as usize;
        reach(&mut self.held, index)?;
        put(&mut self.held, index, kept);
        Ok(())
    }

    /// A register holds nothing from now on.
    #[tactic(auto, using(crate::proofs::Keepings::clear_one, crate::proofs::Keepings::clear_none))]
    pub fn clear(&mut self, register: u32)
        ensures { (tables : TablesOf) → keeping tables self.new ≡ without (λ r. register == r) (keeping tables self.old) }
    {
        let index = register as usize;
        if index < self.held.len() {
            put(&mut self.held, index, Held::Nothing);
        }
    }

    /// No register holds anything any more.
    pub fn clear_all(&mut self)
        ensures { self.new.held.items ≡ [] }
    {
        self.held.truncate(0);
    }

    /// Each register holds what it holds here and there.
    pub fn meet(&mut self, tables: &Tables<'_>, other: &Registers) -> Result<(), Memory>
        ensures { OnOk result (keeping tables.now self.new ≡ definition.common (keeping tables.now self.old) (keeping tables.now other.now)) }
    {
        for index in 0..self.held.len() {
            let here = at(self.held.as_slice(), index);
            let there = at(other.held.as_slice(), index);
            let kept = both(tables, &here, &there)?;
            put(&mut self.held, index, kept);
        }
        Ok(())
    }
}
