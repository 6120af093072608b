//! Phrases at a place among the tokens of a file.

ghost use Rattle.std.specs.Prelude.{◌≤◌, ◌<◌, ◌^◌, length, List};
ghost use Rattle.cf_syntax.specs.Grammar.{SpellsDeclarator, SpellsParams, SpellsTypeId};
ghost use Rattle.cf_parse_expr.specs.Answers.{Answers, SpellsLevel, end_of};

use crate::cursor::Cursor;
use crate::fault::{ExprFault, outside_at};
use crate::level::Level;
use crate::longest;
use crate::scopes::Scopes;
use crate::stop::Stop;
use cf_base::{Boxed, Items};
use cf_syntax::{DeclTree, Expr, Param, TypeId, TypeNames};
use cf_tokens::Token;
use std::alloc::Global;

/// The longest expression of a level (5) at the token of this number, and the tokens behind it. K6 where none begins,
/// at the place of the token, or at the end of the last one where there are no more.
pub fn expr<'a>(
    alloc: Global,
    tokens: &'a [Token],
    at: usize,
    names: &TypeNames,
    level: Level,
) -> Result<(Boxed<Expr>, &'a [Token]), ExprFault>
    requires within { at ≤ length tokens.now }
    requires fits { end_of tokens.now < 2 ^ 32 }
    ensures { Answers (SpellsLevel level names.now) tokens.now at result }
{
    let scopes = Scopes::new(alloc, names);
    let mut c = Cursor::new(&tokens[at..]);
    match longest::expression(alloc, &scopes, &mut c, level) {
        Ok(x) => Ok((x, c.rest())),
        Err(Stop::Nothing) => Err(ExprFault::Broken(outside_at(tokens, at))),
        Err(Stop::Memory) => Err(ExprFault::Memory),
    }
}

/// The longest declarator with a name (8) at the token of this number, with the numbers of the classes that
/// qualify the name, and the tokens behind it. K6 where none begins,
/// at the place of the token, or at the end of the last one where there are no more.
pub fn declarator<'a>(
    alloc: Global,
    tokens: &'a [Token],
    at: usize,
    names: &TypeNames,
) -> Result<((Boxed<DeclTree>, Items<u32>), &'a [Token]), ExprFault>
    requires within { at ≤ length tokens.now }
    requires fits { end_of tokens.now < 2 ^ 32 }
    ensures { Answers (SpellsDeclarator names.now) tokens.now at result }
{
    let scopes = Scopes::new(alloc, names);
    let mut c = Cursor::new(&tokens[at..]);
    match longest::declarator(alloc, &scopes, &mut c) {
        Ok(x) => Ok((x, c.rest())),
        Err(Stop::Nothing) => Err(ExprFault::Broken(outside_at(tokens, at))),
        Err(Stop::Memory) => Err(ExprFault::Memory),
    }
}

/// The longest list of parameters (8.2.5) at the token of this number, and the tokens behind it. K6 where none begins,
/// at the place of the token, or at the end of the last one where there are no more.
pub fn params<'a>(
    alloc: Global,
    tokens: &'a [Token],
    at: usize,
    names: &TypeNames,
) -> Result<(Items<Param>, &'a [Token]), ExprFault>
    requires within { at ≤ length tokens.now }
    requires fits { end_of tokens.now < 2 ^ 32 }
    ensures { Answers (SpellsParams names.now) tokens.now at result }
{
    let scopes = Scopes::new(alloc, names);
    let mut c = Cursor::new(&tokens[at..]);
    match longest::params(alloc, &scopes, &mut c) {
        Ok(x) => Ok((x, c.rest())),
        Err(Stop::Nothing) => Err(ExprFault::Broken(outside_at(tokens, at))),
        Err(Stop::Memory) => Err(ExprFault::Memory),
    }
}

/// The longest type as it stands in brackets (8.1) at the token of this number, and the tokens behind it. K6 where none begins,
/// at the place of the token, or at the end of the last one where there are no more.
pub fn type_id<'a>(
    alloc: Global,
    tokens: &'a [Token],
    at: usize,
    names: &TypeNames,
) -> Result<(Boxed<TypeId>, &'a [Token]), ExprFault>
    requires within { at ≤ length tokens.now }
    requires fits { end_of tokens.now < 2 ^ 32 }
    ensures { Answers (SpellsTypeId names.now) tokens.now at result }
{
    let scopes = Scopes::new(alloc, names);
    let mut c = Cursor::new(&tokens[at..]);
    match longest::type_id(alloc, &scopes, &mut c) {
        Ok(x) => Ok((x, c.rest())),
        Err(Stop::Nothing) => Err(ExprFault::Broken(outside_at(tokens, at))),
        Err(Stop::Memory) => Err(ExprFault::Memory),
    }
}
