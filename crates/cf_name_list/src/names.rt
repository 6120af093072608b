ghost use Rattle.std.specs.Prelude.{◌≡◌, ◌∷◌, ◌<◌, ◌≤◌, ◌-◌, [], drop, length, OnOk};
ghost use Rattle.cf_name_list.specs.Names.{is_in, last_first};

use crate::counts::{count, lower, raise};
use cf_base::Memory;
use std::alloc::Global;
use std::collections::HashMap;
use std::marker::Model;

/// Names, the last one first. A name may stand there more than once, and a table says how often.
#[derive(Drop)]
pub struct Names<'a> {
    list: Vec<&'a [u8]>,
    counts: HashMap<&'a [u8], usize>,
}

impl<'a> Model for Names<'a> {
    ghost use Rattle.std.specs.Prelude.{◌≡◌, List, ℕ};
    ghost use Rattle.std.specs.Borrow.{Bor};
    ghost use Rattle.cf_name_list.specs.Names.{last_first, counted, count_of};

    ghost Value = { List (List ℕ) };

    ghost view = { λ n. last_first n.list.items };

    ghost invariant = { λ n. (q : Bor (List ℕ)) → counted n.counts q ≡ count_of q.now (last_first n.list.items) };
}

impl<'a> Names<'a> {
    /// No names.
    pub fn new(alloc: Global) -> Names<'a>
        ensures { result ≡ [] }
    {
        Names {
            list: Vec::new(alloc),
            counts: HashMap::new(alloc),
        }
    }

    /// How many names stand there.
    pub fn len(&self) -> usize
        ensures { result ≡ length self.now }
    {
        self.list.len()
    }

    /// The names, the last one last.
    pub fn as_slice(&self) -> &[&'a [u8]]
        ensures { last_first result.now ≡ self.now }
    {
        self.list.as_slice()
    }

    /// Whether the name stands there.
    pub fn has(&self, name: &[u8]) -> bool
        ensures { result ≡ is_in self.now name.now }
    {
        count(&self.counts, name) > 0
    }

    /// Puts a name in front of all others.
    pub fn add(&mut self, name: &'a [u8]) -> Result<(), Memory>
        ensures { OnOk result (self.new ≡ name.now ∷ self.old) }
    {
        self.list.reserve(1)?;
        raise(&mut self.counts, name)?;
        self.list.push(name).unwrap();
        Ok(())
    }

    fn remove_last(&mut self)
        requires { 0 < length self.old }
        ensures { self.new ≡ drop 1 self.old }
    {
        let name = self.list.pop().unwrap();
        lower(&mut self.counts, name);
    }

    /// Takes the last names out, so that this many are left.
    pub fn cut(&mut self, len: usize)
        requires { len ≤ length self.old }
        ensures { self.new ≡ drop (length self.old - len) self.old }
    {
        while self.len() > len {
            self.remove_last();
        }
    }
}
