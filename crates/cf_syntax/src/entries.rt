//! Entries of a scope, found by their names.

ghost use Rattle.std.specs.Prelude.{◌≡◌, [], ◌∷◌, ◌++◌, bytes_eq, IfOk, OnOk, OnErr};
ghost use Rattle.cf_syntax.specs.Kinds.{kind_of};
ghost use Rattle.cf_syntax.specs.Slots.{renewed, entries_at};

use crate::slot::slot_of;
use crate::type_names::{Entry, NameKind};
use cf_base::{Items, Memory};
use cf_shared::tree::{Tree, copy, get, put};
use cf_shared::{Shared, SharedVec};
use std::alloc::Global;
use std::marker::Model;

/// The entries of a scope, the oldest first. A copy takes constant time; to enter a name and to find one
/// take a time that doesn't grow with their number as long as few names share a slot.
#[derive(Drop)]
pub struct Entries {
    alloc: Global,
    all: SharedVec<Shared<Entry>>,
    slots: Tree<Items<Shared<Entry>>>,
}

impl Model for Entries {
    ghost use Rattle.std.specs.Prelude.{List};
    ghost use Rattle.cf_syntax.specs.declared.type_names.Entry.{Entry};
    ghost use Rattle.cf_syntax.specs.Slots.{IsTable};

    ghost Value = { List Entry };

    ghost view = { λ e. e.all };

    ghost invariant = { λ e. IsTable e.slots e.all };
}

impl Entries {
    /// No entries. It takes no memory.
    pub fn new(alloc: Global) -> Entries
        ensures { result ≡ [] }
    {
        Entries {
            alloc,
            all: SharedVec::new(alloc),
            slots: Tree::Empty,
        }
    }

    /// The same entries, in constant time.
    pub fn copy(&self) -> Result<Entries, Memory>
        ensures { IfOk result (λ made. made ≡ self.now) }
    {
        Ok(Entries {
            alloc: self.alloc,
            all: self.all.copy()?,
            slots: copy(&self.slots)?,
        })
    }

    /// What the newest entry of this name says.
    pub fn kind(&self, name: &[u8]) -> Option<NameKind>
        ensures { result ≡ kind_of self.now name.now }
    {
        kind_in_slot(&self.slots, slot_of(name), name)
    }

    /// Puts an entry at the end.
    pub fn push(&mut self, entry: Entry) -> Result<(), Memory>
        ensures ok { OnOk result (self.new ≡ self.old ++ entry ∷ []) }
        ensures err { OnErr result (self.new ≡ self.old) }
    {
        let slot = slot_of(entry.name.as_slice());
        let entry = Shared::new(self.alloc, entry)?;
        let found = slot_with(self.alloc, &self.slots, slot, &entry)?;
        let slots = put(self.alloc, &self.slots, slot, found)?;
        self.all.push(entry)?;
        self.slots = slots;
        Ok(())
    }
}

/// Whether two names are the same bytes.
fn is_same(a: &[u8], b: &[u8]) -> bool
    ensures { result ≡ bytes_eq a.now b.now }
{
    a == b
}

/// What the newest of these entries says of a name.
fn kind_among(entries: &[Shared<Entry>], name: &[u8]) -> Option<NameKind>
    ensures { result ≡ kind_of entries.now name.now }
{
    let mut left = entries.len();
    while left > 0 {
        left -= 1;
        let entry = entries[left].get();
        if is_same(entry.name.as_slice(), name) {
            return Some(entry.kind);
        }
    }
    None
}

/// What the entries of a slot say of a name.
fn kind_in_slot(slots: &Tree<Items<Shared<Entry>>>, slot: usize, name: &[u8]) -> Option<NameKind>
    ensures { result ≡ kind_of (entries_at slots.now slot) name.now }
{
    match get(slots, slot) {
        Some(found) => kind_among(found.as_slice(), name),
        None => None,
    }
}

/// These entries without those of the entry's name, and the entry behind them.
fn with_entry(
    alloc: Global,
    entries: &[Shared<Entry>],
    entry: &Shared<Entry>,
) -> Result<Items<Shared<Entry>>, Memory>
    ensures { IfOk result (λ made. made ≡ renewed entries.now entry.now) }
{
    let name = entry.get().name.as_slice();
    let mut made = Items::new(alloc);
    for one in entries {
        if !is_same(one.get().name.as_slice(), name) {
            made.push(one.another()?)?;
        }
    }
    made.push(entry.another()?)?;
    Ok(made)
}

/// The entries of a slot with one more.
fn slot_with(
    alloc: Global,
    slots: &Tree<Items<Shared<Entry>>>,
    slot: usize,
    entry: &Shared<Entry>,
) -> Result<Items<Shared<Entry>>, Memory>
    ensures { IfOk result (λ made. made ≡ renewed (entries_at slots.now slot) entry.now) }
{
    match get(slots, slot) {
        Some(found) => with_entry(alloc, found.as_slice(), entry),
        None => with_entry(alloc, &[], entry),
    }
}
