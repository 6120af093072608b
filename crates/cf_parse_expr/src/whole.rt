//! What is read at a cursor, to a depth that no phrase passes.

ghost use Rattle.cf_parse_expr.specs.Reads.{Reads};
ghost use Rattle.cf_parse_expr.specs.Whole.{commas_at, assign_at, condition_at, declarator_at, params_at, type_id_at};

use crate::cursor::Cursor;
use crate::grammar::Grammar;
use crate::knot::inside;
use crate::scopes::Scopes;
use crate::stop::Stop;
use cf_base::{Boxed, Items};
use cf_syntax::{DeclTree, DeclaratorKind, Expr, Param, TypeId};
use std::alloc::Global;

/// Expressions with commas between them, or one (5.18).
pub fn commas(alloc: Global, names: &Scopes<'_>, c: &mut Cursor<'_>) -> Result<Boxed<Expr>, Stop>
    ensures { Reads (commas_at names.now c.old) result c.new }
{
    let depth = c.depth();
    Grammar {
        alloc,
        depth,
        inside,
    }
    .inner_commas(names, c)
}

/// An expression without commas outside brackets (5.17).
pub fn assign(alloc: Global, names: &Scopes<'_>, c: &mut Cursor<'_>) -> Result<Boxed<Expr>, Stop>
    ensures { Reads (assign_at names.now c.old) result c.new }
{
    let depth = c.depth();
    Grammar {
        alloc,
        depth,
        inside,
    }
    .inner_assign(names, c)
}

/// An expression that assigns nothing outside brackets (5.16).
pub fn condition(alloc: Global, names: &Scopes<'_>, c: &mut Cursor<'_>) -> Result<Boxed<Expr>, Stop>
    ensures { Reads (condition_at names.now c.old) result c.new }
{
    let depth = c.depth();
    Grammar {
        alloc,
        depth,
        inside,
    }
    .inner_condition(names, c)
}

/// A declarator with a name (8), and the numbers of the classes that qualify it.
pub fn declarator(
    alloc: Global,
    names: &Scopes<'_>,
    c: &mut Cursor<'_>,
) -> Result<(Boxed<DeclTree>, Items<u32>), Stop>
    ensures { Reads (declarator_at names.now c.old) result c.new }
{
    let depth = c.depth();
    Grammar {
        alloc,
        depth,
        inside,
    }
    .inner_declarator(names, c, DeclaratorKind::Named)
}

/// Parameters (8.2.5), or none.
pub fn params(alloc: Global, names: &Scopes<'_>, c: &mut Cursor<'_>) -> Result<Items<Param>, Stop>
    ensures { Reads (params_at names.now c.old) result c.new }
{
    let depth = c.depth();
    Grammar {
        alloc,
        depth,
        inside,
    }
    .inner_params(names, c)
}

/// A type as it stands in brackets (8.1).
pub fn type_id(alloc: Global, names: &Scopes<'_>, c: &mut Cursor<'_>) -> Result<Boxed<TypeId>, Stop>
    ensures { Reads (type_id_at names.now c.old) result c.new }
{
    let depth = c.depth();
    Grammar {
        alloc,
        depth,
        inside,
    }
    .inner_type_id(names, c)
}
