//! What all registers hold.

ghost use Rattle.std.specs.Prelude.{◌≡◌, ◌==◌, ◌<◌, ℕ, length, slice_set, IfOk, OnOk};
ghost use Rattle.cf_core.specs.FromTypes.{Tables as TablesOf};
ghost use Rattle.cf_plain_kept.specs.Kept as definition;
ghost use Rattle.cf_lowerable_ready.specs.Contents.{content_at, keeping, known, put as put_in, without};

use crate::content::Content;
use crate::meeting::both;
use cf_base::Memory;
use cf_lower_types::Tables;
use std::alloc::Global;

/// What each register holds, by its number; nothing behind the last.
#[derive(Drop)]
pub struct Contents {
    held: Vec<Content>,
}

/// What stands at an index; nothing behind the last.
fn at(all: &[Content], index: usize) -> Content
    ensures { result ≡ content_at all.now index }
{
    match all.get(index) {
        Some(content) => *content,
        None => Content::Unset,
    }
}

/// Something else is held at an index.
fn put(all: &mut Vec<Content>, index: usize, content: Content)
    requires { index < length all.old.items }
    ensures { all.new.items ≡ slice_set all.old.items index content }
{
    all[index] = content;
}

impl Contents {
    /// No register is set.
    #[tactic(auto, using(crate::proofs::Keepings::none_set))]
    pub fn new(alloc: Global) -> Contents
        ensures { (tables : TablesOf) → keeping tables result ≡ definition.nothing_set }
    {
        Contents {
            held: Vec::new(alloc),
        }
    }

    /// What a register holds.
    pub fn get(&self, register: u32) -> Content
        ensures { (tables : TablesOf) → known tables result ≡ keeping tables self.now register }
    {
        at(self.held.as_slice(), register as usize)
    }

    /// The same in a list of its own.
    #[tactic(auto, using(crate::proofs::Keepings::same_items))]
    pub fn copied(&self, alloc: Global) -> Result<Contents, Memory>
        ensures { (tables : TablesOf) → IfOk result (λ made. keeping tables made ≡ keeping tables self.now) }
    {
        Ok(Contents {
            held: Vec::from_slice(alloc, self.held.as_slice())?,
        })
    }

    /// Makes room up to an index, with nothing held there.
    fn reach(&mut self, index: usize) -> Result<(), Memory>
        ensures same { (q : ℕ) → OnOk result (content_at self.new.held.items q ≡ content_at self.old.held.items q) }
        ensures long { OnOk result (index < length self.new.held.items) }
    {
        while self.held.as_slice().len() <= index {
            self.held.push(Content::Unset)?;
        }
        Ok(())
    }

    /// A register holds this from now on.
    pub fn keep(&mut self, register: u32, content: Content) -> Result<(), Memory>
        ensures { (tables : TablesOf) → OnOk result (keeping tables self.new ≡ put_in (keeping tables self.old) register (known tables content)) }
    {
        let index = register as usize;
        self.reach(index)?;
        put(&mut self.held, index, content);
        Ok(())
    }

    /// A register holds nothing from now on.
    #[tactic(auto, using(crate::proofs::Keepings::clear_one, crate::proofs::Keepings::clear_none))]
    pub fn clear(&mut self, register: u32)
        ensures { (tables : TablesOf) → keeping tables self.new ≡ without (λ r. register == r) (keeping tables self.old) }
    {
        let index = register as usize;
        if index < self.held.len() {
            put(&mut self.held, index, Content::Unset);
        }
    }

    /// No register holds anything any more.
    #[tactic(auto, using(crate::proofs::Keepings::none_set))]
    pub fn clear_all(&mut self)
        ensures { (tables : TablesOf) → keeping tables self.new ≡ definition.nothing_set }
    {
        self.held.truncate(0);
    }

    /// Each register holds what it holds here and there.
    pub fn meet(&mut self, tables: &Tables<'_>, other: &Contents) -> Result<(), Memory>
        ensures { OnOk result (keeping tables.now self.new ≡ definition.common (keeping tables.now self.old) (keeping tables.now other.now)) }
    {
        for index in 0..self.held.len() {
            let here = at(self.held.as_slice(), index);
            let there = at(other.held.as_slice(), index);
            let content = both(tables, &here, &there)?;
            put(&mut self.held, index, content);
        }
        Ok(())
    }
}
