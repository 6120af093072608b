//! Arguments in brackets (12.6.2).

ghost use Rattle.cf_parse_expr.specs.Reads.{Reads};
ghost use Rattle.cf_parse_body.specs.Inits as spec;

use cf_base::Items;
use cf_parse_decl::initialiser;
use cf_parse_expr::words::{LEFT_PAREN, RIGHT_PAREN};
use cf_parse_expr::{Cursor, Scopes, Stop};
use cf_syntax::Expr;
use cf_unit::Initialiser;
use std::alloc::Global;

/// What initialises a declarator, with no list in braces.
#[tactic(auto, unfolding(crate::specs::Inits::flat_initialiser))]
fn flat_initialiser(
    alloc: Global,
    names: &Scopes<'_>,
    c: &mut Cursor<'_>,
) -> Result<Option<Initialiser>, Stop>
    ensures { Reads (spec.flat_initialiser names.now c.old) result c.new }
{
    initialiser(alloc, 0, names, c)
}

/// Arguments in brackets, one at least, and the place of the bracket. They are read as those behind a declarator.
#[tactic(auto, unfolding(crate::specs::Inits::some_arguments))]
fn some_arguments(
    alloc: Global,
    names: &Scopes<'_>,
    c: &mut Cursor<'_>,
) -> Result<(u32, Items<Expr>), Stop>
    ensures { Reads (spec.some_arguments names.now c.old) result c.new }
{
    if c.front() != LEFT_PAREN {
        return Err(Stop::Nothing);
    }
    match flat_initialiser(alloc, names, c)? {
        Some(Initialiser::Arguments(at, all)) => Ok((at, all)),
        Some(Initialiser::Equals(_, _)) | None => Err(Stop::Nothing),
    }
}

/// Arguments in brackets, or brackets alone, and the place of the bracket.
#[tactic(auto, unfolding(crate::specs::Inits::maybe_arguments))]
pub fn maybe_arguments(
    alloc: Global,
    names: &Scopes<'_>,
    c: &mut Cursor<'_>,
) -> Result<(u32, Items<Expr>), Stop>
    ensures { Reads (spec.maybe_arguments names.now c.old) result c.new }
{
    if c.second() == RIGHT_PAREN {
        let at = c.word(LEFT_PAREN)?;
        c.word(RIGHT_PAREN)?;
        return Ok((at, Items::new(alloc)));
    }
    some_arguments(alloc, names, c)
}
