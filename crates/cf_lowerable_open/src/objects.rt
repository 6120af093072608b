//! Which object without a first value each register holds.

ghost use Rattle.std.specs.Prelude.{◌≡◌, ◌==◌, ◌<◌, ℕ, None, [], length, slice_set, OnOk, IfOk};
ghost use Rattle.cf_lowerable_open.specs.Objects as spec;
ghost use Rattle.cf_lowerable_open.specs.Views.{holding, object_at};

use crate::opened::same_begun;
use cf_base::Memory;
use std::alloc::Global;

/// The local whose object each register holds, by its number; none behind the last.
#[derive(Drop)]
pub struct Objects {
    held: Vec<Option<u32>>,
}

/// What stands at an index; nothing behind the last.
fn at(all: &[Option<u32>], index: usize) -> Option<u32>
    ensures { result ≡ object_at all.now index }
{
    match all.get(index) {
        Some(held) => *held,
        None => None,
    }
}

/// Makes room up to an index, with nothing held there.
fn reach(all: &mut Vec<Option<u32>>, index: usize) -> Result<(), Memory>
    ensures same { (q : ℕ) → OnOk result (object_at all.new.items q ≡ object_at all.old.items q) }
    ensures long { OnOk result (index < length all.new.items) }
{
    while all.len() <= index {
        all.push(None)?;
    }
    Ok(())
}

/// Something else is held at an index.
fn put(all: &mut Vec<Option<u32>>, index: usize, held: Option<u32>)
    requires { index < length all.old.items }
    ensures { all.new.items ≡ slice_set all.old.items index held }
{
    all[index] = held;
}

impl Objects {
    /// No register holds an object.
    #[tactic(auto, using(crate::proofs::Holding::none_held))]
    pub fn new(alloc: Global) -> Objects
        ensures { holding result ≡ spec.no_objects }
    {
        Objects {
            held: Vec::new(alloc),
        }
    }

    /// The local whose object a register holds.
    pub fn get(&self, register: u32) -> Option<u32>
        ensures { result ≡ holding self.now register }
    {
        at(self.held.as_slice(), register as usize)
    }

    /// The same in a list of its own.
    #[tactic(auto, using(crate::proofs::Holding::same_items))]
    pub fn copied(&self, alloc: Global) -> Result<Objects, Memory>
        ensures { IfOk result (λ made. holding made ≡ holding self.now) }
    {
        Ok(Objects {
            held: Vec::from_slice(alloc, self.held.as_slice())?,
        })
    }

    /// A register holds this from now on.
    pub fn place(&mut self, register: u32, held: Option<u32>) -> Result<(), Memory>
        ensures { OnOk result (holding self.new ≡ spec.placed (holding self.old) register held) }
    {
        let index = register as usize;
        reach(&mut self.held, index)?;
        put(&mut self.held, index, held);
        Ok(())
    }

    /// A register holds no object from now on.
    #[tactic(auto, using(crate::proofs::Holding::clear_one, crate::proofs::Holding::clear_none))]
    pub fn clear(&mut self, register: u32)
        ensures { holding self.new ≡ spec.without (λ r. register == r) (holding self.old) }
    {
        let index = register as usize;
        if index < self.held.len() {
            put(&mut self.held, index, None);
        }
    }

    /// No register holds an object any more.
    #[tactic(auto, using(crate::proofs::Holding::none_held))]
    pub fn clear_all(&mut self)
        ensures { holding self.new ≡ spec.no_objects }
    {
        self.held.truncate(0);
    }

    /// Each register holds what it holds here and there.
    pub fn share(&mut self, other: &Objects)
        ensures { holding self.new ≡ spec.shared (holding self.old) (holding other.now) }
    {
        for index in 0..self.held.len() {
            let here = at(self.held.as_slice(), index);
            let there = at(other.held.as_slice(), index);
            put(&mut self.held, index, same_begun(here, there));
        }
    }
}
