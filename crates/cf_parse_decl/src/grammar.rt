//! The rules take the function that reads what stands inside as a parameter, so that each is proved by itself.

ghost use Rattle.cf_parse_decl.specs.Insides.{insides};
ghost use Rattle.cf_parse_decl.specs.Reads.{Gives};
ghost use Rattle.cf_parse_decl.specs.Nests.{Nests};

use crate::known::Known;
use cf_base::Boxed;
use cf_parse_expr::{Cursor, Stop};
use cf_syntax::NameKind;
use cf_unit::{ClassDef, Declaration, Stmt};
use std::alloc::Global;

/// What can stand inside a phrase.
#[derive(Clone, Copy)]
pub enum Wanted {
    Statement,
    Class,
    /// A declaration with one specifier at least.
    Declaration,
}

/// What was read inside a phrase.
#[derive(Drop)]
pub enum Node {
    Statement(Boxed<Stmt>),
    /// A class that is defined, and what its name stands for.
    Class(Boxed<ClassDef>, NameKind),
    Declaration(Boxed<Declaration>),
}

/// The rules at a depth.
#[derive(Clone, Copy)]
pub struct Grammar<F> {
    pub alloc: Global,
    /// How deep phrases may still stand inside one another.
    pub depth: usize,
    pub inside: F,
}

impl<F: Fn(Global, usize, Wanted, &mut Known, &mut Cursor<'_>) -> Result<Node, Stop>> Grammar<F> {
    pub fn inner_statement(
        &self,
        known: &mut Known,
        c: &mut Cursor<'_>,
    ) -> Result<Boxed<Stmt>, Stop>
        requires { Nests self.now.depth (F.pre self.now.inside) (F.post self.now.inside) }
        ensures { Gives ((insides self.now.depth).statement known.old c.old) result known.new c.new }
    {
        match (self.inside)(self.alloc, self.depth, Wanted::Statement, known, c)? {
            Node::Statement(x) => Ok(x),
            _ => Err(Stop::Nothing),
        }
    }

    pub fn inner_class(
        &self,
        known: &mut Known,
        c: &mut Cursor<'_>,
    ) -> Result<(Boxed<ClassDef>, NameKind), Stop>
        requires { Nests self.now.depth (F.pre self.now.inside) (F.post self.now.inside) }
        ensures { Gives ((insides self.now.depth).class known.old c.old) result known.new c.new }
    {
        match (self.inside)(self.alloc, self.depth, Wanted::Class, known, c)? {
            Node::Class(x, kind) => Ok((x, kind)),
            _ => Err(Stop::Nothing),
        }
    }

    pub fn inner_declaration(
        &self,
        known: &mut Known,
        c: &mut Cursor<'_>,
    ) -> Result<Boxed<Declaration>, Stop>
        requires { Nests self.now.depth (F.pre self.now.inside) (F.post self.now.inside) }
        ensures { Gives ((insides self.now.depth).declaration known.old c.old) result known.new c.new }
    {
        match (self.inside)(self.alloc, self.depth, Wanted::Declaration, known, c)? {
            Node::Declaration(x) => Ok(x),
            _ => Err(Stop::Nothing),
        }
    }
}
