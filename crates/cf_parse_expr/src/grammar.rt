//! The rules take the function that reads what stands inside as a parameter, so that each is proved by itself.

ghost use Rattle.cf_syntax.specs.Reading.{readers};
ghost use Rattle.cf_parse_expr.specs.Reads.{Reads};
ghost use Rattle.cf_parse_expr.specs.Nests.{Nests};

use crate::cursor::Cursor;
use crate::scopes::Scopes;
use crate::stop::Stop;
use cf_base::{Boxed, Items};
use cf_syntax::{DeclTree, DeclaratorKind, Expr, Param, TypeId};
use std::alloc::Global;

/// What can stand inside a production.
#[derive(Clone, Copy)]
pub enum Wanted {
    Commas,
    Assign,
    Condition,
    Cast,
    Unary,
    TypeId,
    Params,
    Declarator(DeclaratorKind),
}

/// What was read inside a production.
#[derive(Drop)]
pub enum Node {
    Expr(Boxed<Expr>),
    TypeId(Boxed<TypeId>),
    Params(Items<Param>),
    /// A declarator, and the numbers of the classes that qualify its name.
    Declarator(Boxed<DeclTree>, Items<u32>),
}

/// The rules at a depth.
#[derive(Clone, Copy)]
pub struct Grammar<F> {
    pub alloc: Global,
    /// How deep phrases may still stand inside one another.
    pub depth: usize,
    pub inside: F,
}

impl<F: Fn(Global, usize, Wanted, &Scopes<'_>, &mut Cursor<'_>) -> Result<Node, Stop>> Grammar<F> {
    pub fn inner_commas(&self, names: &Scopes<'_>, c: &mut Cursor<'_>) -> Result<Boxed<Expr>, Stop>
        requires { Nests self.now.depth (F.pre self.now.inside) (F.post self.now.inside) }
        ensures { Reads ((readers self.now.depth).commas names.now c.old) result c.new }
    {
        match (self.inside)(self.alloc, self.depth, Wanted::Commas, names, c)? {
            Node::Expr(x) => Ok(x),
            _ => Err(Stop::Nothing),
        }
    }

    pub fn inner_assign(&self, names: &Scopes<'_>, c: &mut Cursor<'_>) -> Result<Boxed<Expr>, Stop>
        requires { Nests self.now.depth (F.pre self.now.inside) (F.post self.now.inside) }
        ensures { Reads ((readers self.now.depth).assign names.now c.old) result c.new }
    {
        match (self.inside)(self.alloc, self.depth, Wanted::Assign, names, c)? {
            Node::Expr(x) => Ok(x),
            _ => Err(Stop::Nothing),
        }
    }

    pub fn inner_condition(
        &self,
        names: &Scopes<'_>,
        c: &mut Cursor<'_>,
    ) -> Result<Boxed<Expr>, Stop>
        requires { Nests self.now.depth (F.pre self.now.inside) (F.post self.now.inside) }
        ensures { Reads ((readers self.now.depth).condition names.now c.old) result c.new }
    {
        match (self.inside)(self.alloc, self.depth, Wanted::Condition, names, c)? {
            Node::Expr(x) => Ok(x),
            _ => Err(Stop::Nothing),
        }
    }

    pub fn inner_cast(&self, names: &Scopes<'_>, c: &mut Cursor<'_>) -> Result<Boxed<Expr>, Stop>
        requires { Nests self.now.depth (F.pre self.now.inside) (F.post self.now.inside) }
        ensures { Reads ((readers self.now.depth).cast names.now c.old) result c.new }
    {
        match (self.inside)(self.alloc, self.depth, Wanted::Cast, names, c)? {
            Node::Expr(x) => Ok(x),
            _ => Err(Stop::Nothing),
        }
    }

    pub fn inner_unary(&self, names: &Scopes<'_>, c: &mut Cursor<'_>) -> Result<Boxed<Expr>, Stop>
        requires { Nests self.now.depth (F.pre self.now.inside) (F.post self.now.inside) }
        ensures { Reads ((readers self.now.depth).unary names.now c.old) result c.new }
    {
        match (self.inside)(self.alloc, self.depth, Wanted::Unary, names, c)? {
            Node::Expr(x) => Ok(x),
            _ => Err(Stop::Nothing),
        }
    }

    pub fn inner_type_id(
        &self,
        names: &Scopes<'_>,
        c: &mut Cursor<'_>,
    ) -> Result<Boxed<TypeId>, Stop>
        requires { Nests self.now.depth (F.pre self.now.inside) (F.post self.now.inside) }
        ensures { Reads ((readers self.now.depth).type_id names.now c.old) result c.new }
    {
        match (self.inside)(self.alloc, self.depth, Wanted::TypeId, names, c)? {
            Node::TypeId(x) => Ok(x),
            _ => Err(Stop::Nothing),
        }
    }

    pub fn inner_params(&self, names: &Scopes<'_>, c: &mut Cursor<'_>) -> Result<Items<Param>, Stop>
        requires { Nests self.now.depth (F.pre self.now.inside) (F.post self.now.inside) }
        ensures { Reads ((readers self.now.depth).params names.now c.old) result c.new }
    {
        match (self.inside)(self.alloc, self.depth, Wanted::Params, names, c)? {
            Node::Params(x) => Ok(x),
            _ => Err(Stop::Nothing),
        }
    }

    pub fn inner_declarator(
        &self,
        names: &Scopes<'_>,
        c: &mut Cursor<'_>,
        kind: DeclaratorKind,
    ) -> Result<(Boxed<DeclTree>, Items<u32>), Stop>
        requires { Nests self.now.depth (F.pre self.now.inside) (F.post self.now.inside) }
        ensures { Reads ((readers self.now.depth).declarator kind names.now c.old) result c.new }
    {
        match (self.inside)(self.alloc, self.depth, Wanted::Declarator(kind), names, c)? {
            Node::Declarator(x, classes) => Ok((x, classes)),
            _ => Err(Stop::Nothing),
        }
    }
}
