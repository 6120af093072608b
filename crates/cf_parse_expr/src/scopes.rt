//! The names that are known where a phrase is read.

ghost use Rattle.std.specs.Prelude.{◌≡◌, ◌++◌, IfOk};
ghost use Rattle.cf_syntax.specs.Names.{find, find_in, find_in_file, newest};
ghost use Rattle.cf_parse_expr.specs.Named.{within};

use cf_base::{Items, Memory};
use cf_syntax::{NameKind, TypeNames};
use std::alloc::Global;
use std::marker::Model;

/// The names of a file, with the scopes of the classes of these numbers open besides, the last innermost.
#[derive(Drop)]
pub struct Scopes<'a> {
    names: &'a TypeNames,
    classes: Items<u32>,
}

impl<'a> Model for Scopes<'a> {
    ghost use Rattle.cf_syntax.specs.NamesData.{Names};
    ghost use Rattle.cf_syntax.specs.Named.{opened};

    ghost Value = { Names };

    ghost view = { λ s. opened s.names.now s.classes };
}

impl<'a> Scopes<'a> {
    /// The names of a file as they are.
    pub fn new(alloc: Global, names: &'a TypeNames) -> Scopes<'a>
        ensures { result ≡ names.now }
    {
        Scopes {
            names,
            classes: Items::new(alloc),
        }
    }

    /// The same with the scopes of these classes open too.
    #[tactic(auto, unfolding(crate::specs::Named::within), using(crate::proofs::Opened::opened_twice))]
    pub fn open(&self, alloc: Global, more: &[u32]) -> Result<Scopes<'a>, Memory>
        ensures { IfOk result (λ inner. inner ≡ within self.now more.now) }
    {
        Ok(Scopes {
            names: self.names,
            classes: appended(alloc, self.classes.as_slice(), more)?,
        })
    }

    /// What the innermost open scope that has the name says of it.
    #[tactic(auto, using(crate::proofs::Opened::find_opened))]
    pub fn find(&self, name: &[u8]) -> Option<NameKind>
        ensures { result ≡ find self.now name.now }
    {
        match kind_in_classes(self.names, self.classes.as_slice(), name) {
            Some(kind) => Some(kind),
            None => self.names.find(name),
        }
    }

    /// What the file's scope says of a name.
    pub fn find_in_file(&self, name: &[u8]) -> Option<NameKind>
        ensures { result ≡ find_in_file self.now name.now }
    {
        self.names.find_in_file(name)
    }

    /// What a class, or else its bases, says of a name.
    pub fn find_in(&self, class: u32, name: &[u8]) -> Option<NameKind>
        ensures { result ≡ find_in self.now class name.now }
    {
        self.names.find_in(class, name)
    }
}

/// What the last of these classes that has the name says of it.
fn kind_in_classes(names: &TypeNames, classes: &[u32], name: &[u8]) -> Option<NameKind>
    ensures { result ≡ newest (λ class. find_in names.now class name.now) classes.now }
{
    let mut left = classes.len();
    while left > 0 {
        left -= 1;
        if let Some(kind) = names.find_in(classes[left], name) {
            return Some(kind);
        }
    }
    None
}

/// The numbers of the first list and then those of the second.
fn appended(alloc: Global, first: &[u32], second: &[u32]) -> Result<Items<u32>, Memory>
    ensures { IfOk result (λ all. all ≡ first.now ++ second.now) }
{
    let mut list = Vec::from_slice(alloc, first)?;
    list.extend_from_slice(second)?;
    Ok(Items::from_vec(list))
}
