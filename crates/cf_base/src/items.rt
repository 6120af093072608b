ghost use Rattle.std.specs.Prelude.{◌≡◌, ◌+◌, ◌<◌, ◌↔◌, [], ◌∷◌, ◌++◌, length, slice_get, IsTrue, IfOk, OnOk, OnErr};
ghost use Rattle.std.specs.Option.{option_copied};

use crate::memory::Memory;
use std::alloc::Global;
use std::marker::Model;

/// A growing list, which contracts see as the list of its items. A tree of such lists is plain data.
#[derive(Debug, Drop)]
pub struct Items<T> {
    list: Vec<T>,
}

/// A list of bytes.
pub type Bytes = Items<u8>;

/// A name, by its bytes.
pub type Name = Items<u8>;

impl<T> Model for Items<T> {
    ghost use Rattle.std.specs.Prelude.{List};
    ghost use Rattle.std.specs.Coded.{coded_list};

    ghost Value = { List T };

    ghost coded = { coded_list T.code };

    ghost view = { λ held. held.list.items };
}

impl<T> Items<T> {
    /// The list with no items, which takes no memory yet.
    pub fn new(alloc: Global) -> Items<T>
        ensures { result ≡ [] }
    {
        Items {
            list: Vec::new(alloc),
        }
    }

    /// The same items, held by a `Vec` so far.
    pub fn from_vec(list: Vec<T>) -> Items<T>
        ensures { result ≡ list.items }
    {
        Items { list }
    }

    /// The same items in a `Vec`.
    pub fn into_vec(self) -> Vec<T>
        ensures { result.items ≡ self }
    {
        let Items { list } = self;
        list
    }

    pub fn as_slice(&self) -> &[T]
        ensures { result.now ≡ self.now }
    {
        self.list.as_slice()
    }

    pub fn len(&self) -> usize
        ensures { result ≡ length self.now }
    {
        self.list.len()
    }

    pub fn is_empty(&self) -> bool
        ensures { IsTrue result ↔ (self.now ≡ []) }
    {
        self.list.is_empty()
    }

    /// The item at this index, if there is one.
    pub fn get(&self, index: usize) -> Option<&T>
        ensures { option_copied result ≡ slice_get self.now index }
    {
        self.list.get(index)
    }
}

impl<T: Drop> Items<T> {
    /// Puts an item at the end. After an error the list is as before.
    pub fn push(&mut self, item: T) -> Result<(), Memory>
        ensures ok { OnOk result (self.new ≡ self.old ++ item ∷ []) }
        ensures err { OnErr result (self.new ≡ self.old) }
    {
        self.list.push(item)?;
        Ok(())
    }
}

impl<T: Copy> Items<T> {
    /// A list of copies of these items.
    pub fn from_slice(alloc: Global, items: &[T]) -> Result<Items<T>, Memory>
        ensures { IfOk result (λ made. made ≡ items.now) }
    {
        let list = Vec::from_slice(alloc, items)?;
        Ok(Items { list })
    }
}
