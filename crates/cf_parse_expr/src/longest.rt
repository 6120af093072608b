//! The longest phrase at a cursor.

ghost use Rattle.std.specs.Prelude.{List};
ghost use Rattle.cf_syntax.specs.Grammar.{SpellsCommas, SpellsAssign, SpellsCondition, SpellsDeclarator, SpellsParams, SpellsTypeId};
ghost use Rattle.cf_parse_expr.specs.Answers.{TakesLongest, SpellsLevel};

use crate::cursor::Cursor;
use crate::level::Level;
use crate::scopes::Scopes;
use crate::stop::Stop;
use crate::whole;
use cf_base::{Boxed, Items};
use cf_syntax::{DeclTree, Expr, Param, TypeId};
use std::alloc::Global;

/// Expressions with commas between them, or one (5.18).
pub fn commas(alloc: Global, names: &Scopes<'_>, c: &mut Cursor<'_>) -> Result<Boxed<Expr>, Stop>
    ensures { TakesLongest (SpellsCommas names.now) c.old result c.new }
{
    whole::commas(alloc, names, c)
}

/// An expression without commas outside brackets (5.17).
pub fn assign(alloc: Global, names: &Scopes<'_>, c: &mut Cursor<'_>) -> Result<Boxed<Expr>, Stop>
    ensures { TakesLongest (SpellsAssign names.now) c.old result c.new }
{
    whole::assign(alloc, names, c)
}

/// An expression that assigns nothing outside brackets (5.16).
pub fn condition(alloc: Global, names: &Scopes<'_>, c: &mut Cursor<'_>) -> Result<Boxed<Expr>, Stop>
    ensures { TakesLongest (SpellsCondition names.now) c.old result c.new }
{
    whole::condition(alloc, names, c)
}

/// A declarator with a name (8), and the numbers of the classes that qualify it.
pub fn declarator(
    alloc: Global,
    names: &Scopes<'_>,
    c: &mut Cursor<'_>,
) -> Result<(Boxed<DeclTree>, Items<u32>), Stop>
    ensures { TakesLongest (SpellsDeclarator names.now) c.old result c.new }
{
    whole::declarator(alloc, names, c)
}

/// Parameters (8.2.5), or none.
pub fn params(alloc: Global, names: &Scopes<'_>, c: &mut Cursor<'_>) -> Result<Items<Param>, Stop>
    ensures { TakesLongest (SpellsParams names.now) c.old result c.new }
{
    whole::params(alloc, names, c)
}

/// A type as it stands in brackets (8.1).
pub fn type_id(alloc: Global, names: &Scopes<'_>, c: &mut Cursor<'_>) -> Result<Boxed<TypeId>, Stop>
    ensures { TakesLongest (SpellsTypeId names.now) c.old result c.new }
{
    whole::type_id(alloc, names, c)
}

/// An expression of a level.
pub fn expression(
    alloc: Global,
    names: &Scopes<'_>,
    c: &mut Cursor<'_>,
    level: Level,
) -> Result<Boxed<Expr>, Stop>
    ensures { TakesLongest (SpellsLevel level names.now) c.old result c.new }
{
    match level {
        Level::Commas => commas(alloc, names, c),
        Level::Assign => assign(alloc, names, c),
        Level::Condition => condition(alloc, names, c),
    }
}
