//! Enumerations (7.2).

ghost use Rattle.std.specs.Prelude.{◌≡◌, OnOk};
ghost use Rattle.cf_parse_decl.specs.Reads.{Gives};
ghost use Rattle.cf_parse_expr.specs.Reads.{Reads};
ghost use Rattle.cf_parse_simple.specs.Enumerations as spec;
ghost use Rattle.cf_unit.specs.Declarations as rule;
ghost use Rattle.cf_unit.specs.Pieces as pieces;
ghost use Rattle.cf_unit.specs.Read.{reading};

use cf_base::{Boxed, Bytes, Items, Memory};
use cf_parse_class::maybe_identifier;
use cf_parse_decl::Known;
use cf_parse_expr::words::{COMMA, ENUM, EQUALS, LEFT_BRACE, RIGHT_BRACE};
use cf_parse_expr::{Cursor, Scopes, Stop, whole};
use cf_syntax::{Expr, NameKind};
use cf_unit::{EnumDef, Enumerator};
use std::alloc::Global;

/// The identifier that comes next, with its place.
fn identifier(alloc: Global, c: &mut Cursor<'_>) -> Result<(u32, Bytes), Stop>
    ensures { Reads (pieces.identifier c.old) result c.new }
{
    match c.ident() {
        Some(name) => {
            let at = c.place();
            let name = Bytes::from_slice(alloc, name)?;
            c.skip();
            Ok((at, name))
        }
        None => Err(Stop::Nothing),
    }
}

/// `=` with a constant behind it, if it comes next.
#[tactic(auto, unfolding(crate::specs::Enumerations::maybe_value))]
fn maybe_value(
    alloc: Global,
    known: &Known,
    c: &mut Cursor<'_>,
) -> Result<Option<(u32, Boxed<Expr>)>, Stop>
    ensures { Reads (spec.maybe_value known.now.names c.old) result c.new }
{
    if c.front() == EQUALS {
        let at = c.word(EQUALS)?;
        let scopes = Scopes::new(alloc, &known.names);
        let x = whole::condition(alloc, &scopes, c)?;
        return Ok(Some((at, x)));
    }
    Ok(None)
}

/// An enumerator. Its name is entered before its value is read.
#[tactic(auto, unfolding(crate::specs::Enumerations::enumerator))]
fn enumerator(alloc: Global, known: &mut Known, c: &mut Cursor<'_>) -> Result<Enumerator, Stop>
    ensures { Gives (spec.enumerator known.old c.old) result known.new c.new }
{
    let (at, name) = identifier(alloc, c)?;
    known.names.declare(name.as_slice(), NameKind::Value)?;
    let value = maybe_value(alloc, known, c)?;
    Ok(Enumerator { at, name, value })
}

/// A comma with an enumerator behind it.
#[tactic(auto, unfolding(crate::specs::Enumerations::next_enumerator))]
fn next_enumerator(alloc: Global, known: &mut Known, c: &mut Cursor<'_>) -> Result<Enumerator, Stop>
    ensures { Gives (spec.next_enumerator known.old c.old) result known.new c.new }
{
    c.word(COMMA)?;
    enumerator(alloc, known, c)
}

/// The `}` behind these enumerators.
#[tactic(auto, unfolding(crate::specs::Enumerations::closed))]
fn closed(all: Items<Enumerator>, c: &mut Cursor<'_>) -> Result<Items<Enumerator>, Stop>
    ensures { Reads (spec.closed all c.old) result c.new }
{
    c.word(RIGHT_BRACE)?;
    Ok(all)
}

/// Enumerators behind these, as far as commas go, and the `}`.
fn more_enumerators(
    alloc: Global,
    known: &mut Known,
    c: &mut Cursor<'_>,
    first: Items<Enumerator>,
) -> Result<Items<Enumerator>, Stop>
    ensures { Gives (spec.more_enumerators (first, known.old) c.old) result known.new c.new }
{
    let mut all = first;
    for _turn in 0..c.len() {
        if c.front() != COMMA {
            return closed(all, c);
        }
        let left = c.len();
        match next_enumerator(alloc, known, c) {
            Ok(e) => {
                if c.len() >= left {
                    return Err(Stop::Nothing);
                }
                all.push(e)?;
            }
            Err(stop) => return Err(stop),
        }
    }
    closed(all, c)
}

#[tactic(auto, unfolding(crate::specs::Enumerations::enumerators))]
fn enumerators(
    alloc: Global,
    known: &mut Known,
    c: &mut Cursor<'_>,
) -> Result<Items<Enumerator>, Stop>
    ensures { Gives (spec.enumerators known.old c.old) result known.new c.new }
{
    let first = enumerator(alloc, known, c)?;
    let mut all = Items::new(alloc);
    all.push(first)?;
    more_enumerators(alloc, known, c, all)
}

/// Enters the name of an enumeration, if it has one.
fn enter(known: &mut Known, name: &Option<(u32, Bytes)>) -> Result<(), Memory>
    ensures { OnOk result (known.new ≡ rule.enumeration_entered known.old name.now) }
{
    match name {
        Some((_, bytes)) => known.names.declare(bytes.as_slice(), NameKind::Plain),
        None => Ok(()),
    }
}

/// An enumeration, step by step.
#[tactic(auto, unfolding(crate::specs::Enumerations::enumeration))]
pub(crate) fn enumeration_read(
    alloc: Global,
    known: &mut Known,
    c: &mut Cursor<'_>,
) -> Result<EnumDef, Stop>
    ensures { Gives (spec.enumeration known.old c.old) result known.new c.new }
{
    let at = c.word(ENUM)?;
    let name = maybe_identifier(alloc, c)?;
    c.word(LEFT_BRACE)?;
    enter(known, &name)?;
    let enumerators = enumerators(alloc, known, c)?;
    Ok(EnumDef {
        at,
        name,
        enumerators,
    })
}

/// An enumeration that is defined (7.2). Its name is entered before its enumerators, and each of these before its value.
pub fn enumeration(alloc: Global, known: &mut Known, c: &mut Cursor<'_>) -> Result<EnumDef, Stop>
    ensures { Gives (reading (rule.enumeration known.old) c.old) result known.new c.new }
{
    enumeration_read(alloc, known, c)
}
