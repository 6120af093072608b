//! Statements that hold no other statement (6.2, 6.6), and conditions in brackets.

ghost use Rattle.cf_parse_expr.specs.Reads.{Reads};
ghost use Rattle.cf_parse_decl.specs.Statements as spec;
ghost use Rattle.cf_parse_decl.specs.Reads.{Gives};

use crate::known::{Known, commas, condition};
use cf_base::Boxed;
use cf_parse_expr::words::{
    BREAK, CASE, COLON, CONTINUE, DEFAULT, LEFT_PAREN, RETURN, RIGHT_PAREN, SEMICOLON,
};
use cf_parse_expr::{Cursor, Stop};
use cf_syntax::Expr;
use cf_unit::Stmt;
use std::alloc::Global;

/// A condition in brackets.
#[tactic(auto, unfolding(crate::specs::Statements::in_brackets))]
pub fn in_brackets(alloc: Global, known: &Known, c: &mut Cursor<'_>) -> Result<Boxed<Expr>, Stop>
    ensures { Reads (spec.in_brackets known.now.names c.old) result c.new }
{
    c.word(LEFT_PAREN)?;
    let x = commas(alloc, known, c)?;
    c.word(RIGHT_PAREN)?;
    Ok(x)
}

/// An expression, or none, up to this word, which is taken.
#[tactic(auto, unfolding(crate::specs::Statements::maybe_comma))]
pub fn maybe_comma(
    alloc: Global,
    known: &Known,
    c: &mut Cursor<'_>,
    word: u16,
) -> Result<Option<Boxed<Expr>>, Stop>
    ensures { Reads (spec.maybe_comma known.now.names word c.old) result c.new }
{
    if c.front() == word {
        c.word(word)?;
        return Ok(None);
    }
    let x = commas(alloc, known, c)?;
    c.word(word)?;
    Ok(Some(x))
}

/// An expression or nothing, and a `;` (6.2).
#[tactic(auto, unfolding(crate::specs::Statements::expression_at, crate::specs::Statements::expression_statement))]
pub fn expression_statement(
    alloc: Global,
    known: &Known,
    c: &mut Cursor<'_>,
) -> Result<Boxed<Stmt>, Stop>
    ensures { Gives (spec.expression_statement known.now c.old) result known.now c.new }
{
    let at = c.place();
    if c.front() == SEMICOLON {
        c.word(SEMICOLON)?;
        return Ok(Boxed::new(alloc, Stmt::Empty(at))?);
    }
    let x = commas(alloc, known, c)?;
    c.word(SEMICOLON)?;
    Ok(Boxed::new(alloc, Stmt::Expression(at, x))?)
}

/// `break;` (6.6.1)
#[tactic(auto, unfolding(crate::specs::Statements::break_statement))]
pub fn break_statement(
    alloc: Global,
    known: &Known,
    c: &mut Cursor<'_>,
) -> Result<Boxed<Stmt>, Stop>
    ensures { Gives (spec.break_statement known.now c.old) result known.now c.new }
{
    let at = c.word(BREAK)?;
    c.word(SEMICOLON)?;
    Ok(Boxed::new(alloc, Stmt::Break(at))?)
}

/// `continue;` (6.6.2)
#[tactic(auto, unfolding(crate::specs::Statements::continue_statement))]
pub fn continue_statement(
    alloc: Global,
    known: &Known,
    c: &mut Cursor<'_>,
) -> Result<Boxed<Stmt>, Stop>
    ensures { Gives (spec.continue_statement known.now c.old) result known.now c.new }
{
    let at = c.word(CONTINUE)?;
    c.word(SEMICOLON)?;
    Ok(Boxed::new(alloc, Stmt::Continue(at))?)
}

/// `return`, with what it returns, if anything (6.6.3).
#[tactic(auto, unfolding(crate::specs::Statements::return_statement))]
pub fn return_statement(
    alloc: Global,
    known: &Known,
    c: &mut Cursor<'_>,
) -> Result<Boxed<Stmt>, Stop>
    ensures { Gives (spec.return_statement known.now c.old) result known.now c.new }
{
    let at = c.word(RETURN)?;
    let x = maybe_comma(alloc, known, c, SEMICOLON)?;
    Ok(Boxed::new(alloc, Stmt::Return(at, x))?)
}

/// `case` with its constant (6.1).
#[tactic(auto, unfolding(crate::specs::Statements::case_label))]
pub fn case_label(alloc: Global, known: &Known, c: &mut Cursor<'_>) -> Result<Boxed<Stmt>, Stop>
    ensures { Gives (spec.case_label known.now c.old) result known.now c.new }
{
    let at = c.word(CASE)?;
    let x = condition(alloc, known, c)?;
    c.word(COLON)?;
    Ok(Boxed::new(alloc, Stmt::Case(at, x))?)
}

/// `default:` (6.1)
#[tactic(auto, unfolding(crate::specs::Statements::default_label))]
pub fn default_label(alloc: Global, known: &Known, c: &mut Cursor<'_>) -> Result<Boxed<Stmt>, Stop>
    ensures { Gives (spec.default_label known.now c.old) result known.now c.new }
{
    let at = c.word(DEFAULT)?;
    c.word(COLON)?;
    Ok(Boxed::new(alloc, Stmt::Default(at))?)
}
