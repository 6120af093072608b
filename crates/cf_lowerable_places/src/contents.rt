//! What all registers hold.

ghost use Rattle.std.specs.Prelude.{◌≡◌, ◌<◌, ℕ, length, slice_set, IfOk, OnOk};
ghost use Rattle.cf_core.specs.FromTypes.{Tables as TablesOf};
ghost use Rattle.cf_lower.specs.Kept as definition;
ghost use Rattle.cf_lower_held.specs.Holds.{kept_in};
ghost use Rattle.cf_lower_held.specs.Scenes.{locals_in, statements_in};
ghost use Rattle.cf_lowerable_types.specs.Kinds.{both_kinds, has_kind};
ghost use Rattle.cf_lowerable_places.specs.Contents.{contents_in, kinds_at, known, knowing, restored};

use crate::content::{Content, content_of};
use cf_base::{Items, Memory};
use cf_lower_held::{Held, Registers, Scene, forget};
use cf_lower_types::Tables;
use cf_lowerable_types::{Kinds, meet_kinds, no_kinds};
use cf_plain::Plain;
use std::alloc::Global;

/// What each register holds, by its number, and the types of the integers; nothing behind the last.
#[derive(Drop)]
pub struct Contents {
    registers: Registers,
    kinds: Vec<Kinds>,
}

/// The types of the integer at an index; none behind the last.
#[tactic(auto, using(crate::proofs::Holding::none_at))]
fn at(all: &[Kinds], index: usize) -> Kinds
    ensures { has_kind result ≡ kinds_at all.now index }
{
    match all.get(index) {
        Some(kinds) => *kinds,
        None => no_kinds(),
    }
}

/// Makes room up to an index.
fn reach(all: &mut Vec<Kinds>, index: usize) -> Result<(), Memory>
    ensures same { (q : ℕ) → OnOk result (kinds_at all.new.items q ≡ kinds_at all.old.items q) }
    ensures long { OnOk result (index < length all.new.items) }
{
    while all.len() <= index {
        all.push(no_kinds())?;
    }
    Ok(())
}

/// Other types stand at an index.
fn put(all: &mut Vec<Kinds>, index: usize, kinds: Kinds)
    requires { index < length all.old.items }
    ensures { all.new.items ≡ slice_set all.old.items index kinds }
{
    all[index] = kinds;
}

/// At each index the types that stand there in both lists.
fn meet_all(all: &mut Vec<Kinds>, other: &[Kinds])
    ensures { (q : ℕ) → kinds_at all.new.items q ≡ both_kinds (kinds_at all.old.items q) (kinds_at other.now q) }
{
    for index in 0..all.len() {
        let here = at(all.as_slice(), index);
        let there = at(other, index);
        put(all, index, meet_kinds(&here, &there));
    }
}

impl Contents {
    /// No register holds anything.
    #[tactic(auto, using(crate::proofs::Holding::nothing_known))]
    pub fn new(alloc: Global) -> Contents
        ensures { (tables : TablesOf) → contents_in tables result ≡ definition.nothing_kept }
    {
        Contents {
            registers: Registers::new(alloc),
            kinds: Vec::new(alloc),
        }
    }

    /// What a register holds.
    pub fn get(&self, register: u32) -> Content
        ensures { (tables : TablesOf) → known tables result ≡ contents_in tables self.now register }
    {
        let held = self.registers.get(register);
        let kinds = at(self.kinds.as_slice(), register as usize);
        content_of(&held, kinds)
    }

    /// What the registers hold, without the types of integers.
    pub fn registers(&self) -> &Registers
        ensures { result.now ≡ self.now.registers }
    {
        &self.registers
    }

    /// The same in lists of their own.
    pub fn copied(&self, alloc: Global) -> Result<Contents, Memory>
        ensures { (tables : TablesOf) → IfOk result (λ made. contents_in tables made ≡ contents_in tables self.now) }
    {
        let registers = self.registers.copied(alloc)?;
        let kinds = Vec::from_slice(alloc, self.kinds.as_slice())?;
        Ok(Contents { registers, kinds })
    }

    /// A register holds this from now on, and an integer of these types.
    pub fn keep(&mut self, register: u32, held: Held, kinds: Kinds) -> Result<(), Memory>
        ensures { (tables : TablesOf) → OnOk result (contents_in tables self.new ≡ definition.keep (contents_in tables self.old) register (restored (kept_in tables held) (has_kind kinds))) }
    {
        let index = register as usize;
        reach(&mut self.kinds, index)?;
        put(&mut self.kinds, index, kinds);
        self.registers.keep(register, held)?;
        Ok(())
    }

    /// No register holds anything any more.
    #[tactic(auto, using(crate::proofs::Holding::nothing_known))]
    pub fn clear_all(&mut self)
        ensures { (tables : TablesOf) → contents_in tables self.new ≡ definition.nothing_kept }
    {
        self.registers.clear_all();
    }

    /// Each register holds what it holds here and there.
    pub fn meet(&mut self, tables: &Tables<'_>, other: &Contents) -> Result<(), Memory>
        ensures { OnOk result (contents_in tables.now self.new ≡ definition.common (contents_in tables.now self.old) (contents_in tables.now other.now)) }
    {
        self.registers.meet(tables, &other.registers)?;
        meet_all(&mut self.kinds, other.kinds.as_slice());
        Ok(())
    }

    /// The registers that statements set hold nothing any more.
    pub fn forget(&mut self, x: &Scene<'_>, all: &Items<Plain>)
        ensures { knowing x.now self.new ≡ definition.untouched (locals_in x.now) (knowing x.now self.old) (statements_in x.now all.now) }
    {
        forget(x, all, &mut self.registers);
    }
}
