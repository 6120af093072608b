//! A file's tree, or the one reason why there is none.

ghost use Rattle.std.specs.Prelude.{◌≡◌, length, false, None, IsSome, IfOk};
ghost use Rattle.cf_unit.specs.Files.{file};
ghost use Rattle.cf_unit.specs.Nesting.{passes, unmatched};
ghost use Rattle.cf_unit.specs.Read.{reading};
ghost use Rattle.cf_parse_expr.specs.Answers.{outside};
ghost use Rattle.cf_parse_file.specs.Tells.{Tells, TellsFault};

use crate::fault::ParseFault;
use cf_base::{Bound, Broken, Limit, Rule};
use cf_nesting::{Nesting, nesting_of};
use cf_parse_expr::Stop;
use cf_parse_unit::file;
use cf_stuck::stuck;
use cf_tokens::Token;
use cf_unit::Unit;
use std::alloc::Global;

/// The most that the nesting may be.
const NESTING_LIMIT: u64 = 256;

/// Tokens that are not in the grammar (17), at this place.
fn outside(at: u32) -> Broken
    ensures { result ≡ outside at }
{
    Broken {
        rule: Rule::new(6),
        at,
    }
}

/// Why tokens whose brackets have partners, and that are not nested too deep, are no file.
fn misspelled(alloc: Global, tokens: &[Token]) -> ParseFault
    requires nesting { passes tokens.now ≡ false }
    requires brackets { unmatched tokens.now ≡ None }
    requires none { reading (file (length tokens.now)) tokens.now ≡ None }
    ensures { TellsFault tokens.now result }
{
    match stuck(alloc, tokens) {
        Ok(found) => ParseFault::Broken(outside(found.unwrap())),
        Err(_) => ParseFault::Memory,
    }
}

/// What tokens are whose brackets have partners, and that are not nested too deep.
fn matched(alloc: Global, tokens: &[Token]) -> Result<Unit, ParseFault>
    requires nesting { passes tokens.now ≡ false }
    requires brackets { unmatched tokens.now ≡ None }
    ensures { Tells tokens.now result }
{
    match file(alloc, tokens) {
        Ok(tree) => Ok(tree),
        Err(Stop::Nothing) => Err(misspelled(alloc, tokens)),
        Err(Stop::Memory) => Err(ParseFault::Memory),
    }
}

/// What the tokens of a file are (17): its tree, or the one reason why there is none.
///
/// The limit on the nesting comes first, exactly where it is passed. Then comes K6: at the first bracket without a partner, or else
/// at the first token of the first item that has no spelling; where that begins a function, a class or a statement, at the element in its
/// braces that has none. Tokens that have a tree give that tree, and they have no other. Want of memory may come at any point.
pub fn unit(alloc: Global, tokens: &[Token]) -> Result<Unit, ParseFault>
    ensures { Tells tokens.now result }
{
    match nesting_of(alloc, tokens)? {
        Nesting::TooDeep => Err(ParseFault::Limit(Limit {
            bound: Bound::Nesting,
            most: NESTING_LIMIT,
        })),
        Nesting::Unmatched(at) => Err(ParseFault::Broken(outside(at))),
        Nesting::Matched => matched(alloc, tokens),
    }
}
