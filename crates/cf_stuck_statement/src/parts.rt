//! What a statement has beside statements, and what of it is read past.

ghost use Rattle.cf_parse_expr.specs.Reads.{Reads};
ghost use Rattle.cf_stuck_statement.specs.Finds.{Passes};
ghost use Rattle.cf_stuck_statement.specs.Statements as spec;

use cf_base::Boxed;
use cf_parse_decl::{Known, commas, condition};
use cf_parse_expr::words::{CASE, COLON, DEFAULT, LEFT_PAREN, RIGHT_PAREN, SEMICOLON};
use cf_parse_expr::{Cursor, Stop};
use cf_syntax::Expr;
use std::alloc::Global;

/// A condition in brackets.
#[tactic(auto, unfolding(crate::specs::Statements::in_brackets))]
pub fn in_brackets(alloc: Global, known: &Known, c: &mut Cursor<'_>) -> Result<Boxed<Expr>, Stop>
    ensures { Reads (spec.in_brackets known.now.names c.old) result c.new }
{
    c.word(LEFT_PAREN)?;
    let x = commas(alloc, known, c)?;
    c.word(RIGHT_PAREN)?;
    Ok(x)
}

/// An expression, or none, up to this word, which is taken.
#[tactic(auto, unfolding(crate::specs::Statements::maybe_comma))]
pub fn maybe_comma(
    alloc: Global,
    known: &Known,
    c: &mut Cursor<'_>,
    word: u16,
) -> Result<Option<Boxed<Expr>>, Stop>
    ensures { Reads (spec.maybe_comma known.now.names word c.old) result c.new }
{
    if c.front() == word {
        c.word(word)?;
        return Ok(None);
    }
    let x = commas(alloc, known, c)?;
    c.word(word)?;
    Ok(Some(x))
}

/// Goes past an expression or nothing, and a `;` (6.2).
#[tactic(auto, unfolding(crate::specs::Statements::past_expression))]
pub fn past_expression(alloc: Global, known: &Known, c: &mut Cursor<'_>) -> Result<(), Stop>
    ensures { Passes (spec.past_expression known.now c.old) result known.now c.new }
{
    if c.front() == SEMICOLON {
        c.word(SEMICOLON)?;
        return Ok(());
    }
    commas(alloc, known, c)?;
    c.word(SEMICOLON)?;
    Ok(())
}

/// Goes past `case` with its constant (6.1).
#[tactic(auto, unfolding(crate::specs::Statements::past_case))]
pub fn past_case(alloc: Global, known: &Known, c: &mut Cursor<'_>) -> Result<(), Stop>
    ensures { Passes (spec.past_case known.now c.old) result known.now c.new }
{
    c.word(CASE)?;
    condition(alloc, known, c)?;
    c.word(COLON)?;
    Ok(())
}

/// Goes past `default:` (6.1).
#[tactic(auto, unfolding(crate::specs::Statements::past_default))]
pub fn past_default(known: &Known, c: &mut Cursor<'_>) -> Result<(), Stop>
    ensures { Passes (spec.past_default known.now c.old) result known.now c.new }
{
    c.word(DEFAULT)?;
    c.word(COLON)?;
    Ok(())
}
