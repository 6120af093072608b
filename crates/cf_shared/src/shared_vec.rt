ghost use Rattle.std.specs.Prelude.{◌≡◌, [], ◌∷◌, ◌++◌, length, slice_get, slice_set, IfOk, OnOk, OnErr};
ghost use Rattle.std.specs.Option.{option_copied};

use crate::tree::{Tree, copy, get, put};
use cf_base::Memory;
use std::alloc::Global;
use std::marker::Model;

/// A list whose copies share their items, which contracts see as the list. A copy takes constant time, and a
/// write as many steps as the index has bits.
#[derive(Drop)]
pub struct SharedVec<T> {
    alloc: Global,
    tree: Tree<T>,
    count: usize,
}

impl<T> Model for SharedVec<T> {
    ghost use Rattle.std.specs.Prelude.{List};
    ghost use Rattle.std.specs.Coded.{coded_list};
    ghost use Rattle.cf_shared.specs.At.{listed, IsFull};

    ghost Value = { List T };

    ghost coded = { coded_list T.code };

    ghost view = { λ v. listed v.count v.tree };

    ghost invariant = { λ v. IsFull v.count v.tree };
}

impl<T> SharedVec<T> {
    /// The list with no items. It takes no memory.
    pub fn new(alloc: Global) -> SharedVec<T>
        ensures { result ≡ [] }
    {
        SharedVec {
            alloc,
            tree: Tree::Empty,
            count: 0,
        }
    }

    #[tactic(auto, using(crate::proofs::Lists::length_listed))]
    pub fn len(&self) -> usize
        ensures { result ≡ length self.now }
    {
        self.count
    }

    /// The item at this index, if there is one.
    #[tactic(auto, using(crate::proofs::Lists::get_listed, crate::proofs::Lists::get_none))]
    pub fn get(&self, index: usize) -> Option<&T>
        ensures { option_copied result ≡ slice_get self.now index }
    {
        if index < self.count {
            get(&self.tree, index)
        } else {
            None
        }
    }
}

impl<T: Drop> SharedVec<T> {
    /// The same list, in constant time.
    pub fn copy(&self) -> Result<SharedVec<T>, Memory>
        ensures { IfOk result (λ made. made ≡ self.now) }
    {
        Ok(SharedVec {
            alloc: self.alloc,
            tree: copy(&self.tree)?,
            count: self.count,
        })
    }

    /// Puts an item at the end.
    #[tactic(auto, using(crate::proofs::Lists::push_listed, crate::proofs::Lists::push_full))]
    pub fn push(&mut self, item: T) -> Result<(), Memory>
        ensures ok { OnOk result (self.new ≡ self.old ++ item ∷ []) }
        ensures err { OnErr result (self.new ≡ self.old) }
    {
        let Some(count) = self.count.checked_add(1) else {
            return Err(Memory);
        };
        let tree = put(self.alloc, &self.tree, self.count, item)?;
        *self = SharedVec {
            alloc: self.alloc,
            tree,
            count,
        };
        Ok(())
    }

    /// Sets the item at this index, if there is one.
    #[tactic(auto, using(crate::proofs::Lists::set_listed, crate::proofs::Lists::set_full, crate::proofs::Lists::set_beyond))]
    pub fn set(&mut self, index: usize, item: T) -> Result<(), Memory>
        ensures ok { OnOk result (self.new ≡ slice_set self.old index item) }
        ensures err { OnErr result (self.new ≡ self.old) }
    {
        if index >= self.count {
            return Ok(());
        }
        let tree = put(self.alloc, &self.tree, index, item)?;
        *self = SharedVec {
            alloc: self.alloc,
            tree,
            count: self.count,
        };
        Ok(())
    }
}
