ghost use Rattle.std.specs.Prelude.{◌≡◌, ◌∷◌, ◌<◌, ◌≤◌, ◌-◌, [], drop, length, OnOk, OnErr};
ghost use Rattle.cf_name_places.specs.Places.{last_place};

use crate::latest::{enter, latest, put_back};
use cf_base::Memory;
use std::alloc::Global;
use std::collections::HashMap;
use std::marker::Model;

/// A name, and where the last equal one before it stands.
#[derive(Clone, Copy)]
struct Place<'a> {
    name: &'a [u8],
    before: Option<usize>,
}

/// Names, the last one first. A name may stand there more than once, and a table says where the last one of it stands.
#[derive(Drop)]
pub struct Places<'a> {
    list: Vec<Place<'a>>,
    last: HashMap<&'a [u8], Option<usize>>,
}

impl<'a> Model for Places<'a> {
    ghost use Rattle.std.specs.Prelude.{List, ℕ};
    ghost use Rattle.cf_name_places.specs.Memory.{names_of, Known};

    ghost Value = { List (List ℕ) };

    ghost view = { λ p. names_of p.list.items };

    ghost invariant = { λ p. Known p.list.items p.last };
}

impl<'a> Places<'a> {
    /// No names.
    pub fn new(alloc: Global) -> Places<'a>
        ensures { result ≡ [] }
    {
        Places {
            list: Vec::new(alloc),
            last: HashMap::new(alloc),
        }
    }

    /// How many names stand there.
    pub fn len(&self) -> usize
        ensures { result ≡ length self.now }
    {
        self.list.len()
    }

    /// Where the last one of a name stands, the first name of all at 0.
    pub fn find(&self, name: &[u8]) -> Option<usize>
        ensures { result ≡ last_place name.now self.now }
    {
        latest(&self.last, name)
    }

    /// Puts a name in front of all others.
    pub fn add(&mut self, name: &'a [u8]) -> Result<(), Memory>
        ensures ok { OnOk result (self.new ≡ name.now ∷ self.old) }
        ensures err { OnErr result (self.new ≡ self.old) }
    {
        self.list.reserve(1)?;
        let before = latest(&self.last, name);
        enter(&mut self.last, name, Some(self.list.len()))?;
        self.list.push(Place { name, before }).unwrap();
        Ok(())
    }

    fn remove_last(&mut self)
        requires { 0 < length self.old }
        ensures { self.new ≡ drop 1 self.old }
    {
        let place = self.list.pop().unwrap();
        put_back(&mut self.last, place.name, place.before);
    }

    /// Takes the last names out, so that this many are left.
    pub fn cut(&mut self, len: usize)
        requires { len ≤ length self.old }
        ensures { self.new ≡ drop (length self.old - len) self.old }
    {
        while self.len() > len {
            self.remove_last();
        }
    }
}
