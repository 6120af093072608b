ghost use Rattle.std.specs.Prelude.{◌≡◌, ◌∷◌, ◌<◌, ◌≤◌, ◌-◌, [], drop, length, OnOk};
ghost use Rattle.cc_whole.specs.Known as spec;
ghost use Rattle.cc_whole_valid.specs.Memory.{meant, named_of, last_first};

use cc_whole::{CPrototype, CVariableType};
use cf_base::Memory;
use cf_name_places::Places;
use std::alloc::Global;
use std::marker::Model;

/// What a name means.
#[derive(Clone, Copy)]
pub enum Entity<'a> {
    Function(&'a CPrototype),
    /// A variable, local or parameter of this type.
    Object(CVariableType),
}

/// A name, and what it means.
#[derive(Clone, Copy)]
pub struct Entry<'a> {
    pub name: &'a [u8],
    pub entity: Entity<'a>,
}

/// The names in scope. The last one hides equal earlier ones, and a table finds it.
#[derive(Drop)]
pub struct Scope<'a> {
    list: Vec<Entry<'a>>,
    places: Places<'a>,
}

impl<'a> Model for Scope<'a> {
    ghost use Rattle.std.specs.Prelude.{◌≡◌, List};
    ghost use Rattle.cc_whole.specs.Known.{Named};
    ghost use Rattle.cc_whole_valid.specs.Memory.{last_first, names_of};

    ghost Value = { List Named };

    ghost view = { λ s. last_first s.list.items };

    ghost invariant = { λ s. s.places ≡ names_of (last_first s.list.items) };
}

impl<'a> Scope<'a> {
    /// No names.
    pub fn new(alloc: Global) -> Scope<'a>
        ensures { result ≡ [] }
    {
        Scope {
            list: Vec::new(alloc),
            places: Places::new(alloc),
        }
    }

    /// How many names there are.
    pub fn len(&self) -> usize
        ensures { result ≡ length self.now }
    {
        self.list.len()
    }

    /// What a name means.
    pub fn find(&self, name: &[u8]) -> Option<Entity<'a>>
        ensures { meant result ≡ spec.lookup self.now name.now }
    {
        match self.places.find(name) {
            None => None,
            Some(place) => {
                let entry = self.list[place];
                Some(entry.entity)
            }
        }
    }

    /// Puts a name in front of all others.
    pub fn add(&mut self, entry: Entry<'a>) -> Result<(), Memory>
        ensures { OnOk result (self.new ≡ named_of entry.entry ∷ self.old) }
    {
        self.list.reserve(1)?;
        self.places.add(entry.name)?;
        self.list.push(entry).unwrap();
        Ok(())
    }

    /// Takes the last names out, so that this many are left.
    pub fn cut(&mut self, len: usize)
        requires { len ≤ length self.old }
        ensures { self.new ≡ drop (length self.old - len) self.old }
    {
        self.places.cut(len);
        self.list.truncate(len);
    }
}
