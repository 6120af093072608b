//! One more specifier (7.1).

ghost use Rattle.std.specs.Prelude.{◌≡◌, IfOk, OnOk};
ghost use Rattle.cf_parse_decl.specs.Insides.{insides};
ghost use Rattle.cf_parse_decl.specs.Nests.{Nests};
ghost use Rattle.cf_parse_expr.specs.Reads.{Reads};
ghost use Rattle.cf_parse_simple.specs.Specifiers as spec;
ghost use Rattle.cf_parse_simple.specs.Specifiers.{Takes};
ghost use Rattle.cf_unit.specs.Enters.{given_one, with_type};
ghost use Rattle.cf_unit.specs.Read.{taking};

use crate::beginnings::{begins_class, begins_enumeration};
use crate::constructors::is_constructor;
use crate::enumerations::enumeration_read;
use cf_base::Memory;
use cf_enter::give;
use cf_parse_decl::{Grammar, Known, Node, Wanted};
use cf_parse_expr::specifiers::specifier;
use cf_parse_expr::{Cursor, Scopes, Stop};
use cf_syntax::{NameKind, TypeSpecifier};
use cf_unit::{Given, Specifier};
use std::alloc::Global;

/// Adds a definition whose type stands for this.
fn define(given: &mut Given, definition: Specifier, kind: NameKind) -> Result<(), Memory>
    ensures { OnOk result (given.new ≡ with_type given.old definition kind) }
{
    given.kind = Some(kind);
    given.list.push(definition)
}

/// A specifier that defines nothing.
#[tactic(auto, unfolding(crate::specs::Specifiers::plain_specifier))]
fn plain_specifier(
    alloc: Global,
    known: &Known,
    has_type: bool,
    c: &mut Cursor<'_>,
) -> Result<TypeSpecifier, Stop>
    ensures { Reads (spec.plain_specifier known.now.names has_type c.old) result c.new }
{
    let scopes = Scopes::new(alloc, &known.names);
    let (word, _) = specifier(alloc, &scopes, c, has_type)?;
    Ok(word)
}

/// Adds a specifier that defines nothing, and enters a class that it names where that is not found.
#[tactic(auto, using(crate::proofs::Entering::given_by, crate::proofs::Entering::known_by_given))]
fn give_plain(known: &mut Known, given: &mut Given, word: TypeSpecifier) -> Result<(), Memory>
    ensures given { OnOk result (given.new ≡ (given_one given.old known.old word).0) }
    ensures known { OnOk result (known.new ≡ (given_one given.old known.old word).1) }
{
    give(&mut known.names, given, word)
}

/// Takes a specifier that defines nothing, if one comes next. Otherwise nothing has changed.
#[tactic(auto, unfolding(crate::specs::Specifiers::plain_given), using(crate::proofs::Taken::took, crate::proofs::Taken::took_none, crate::proofs::Taken::took_nothing))]
fn plain_given(
    alloc: Global,
    given: &mut Given,
    known: &mut Known,
    c: &mut Cursor<'_>,
) -> Result<bool, Memory>
    ensures { Takes (taking (spec.plain_given (given.old, known.old) c.old) c.old) result (given.old, known.old) c.old (given.new, known.new) c.new }
{
    let before = c.rest();
    match plain_specifier(alloc, known, given.kind.is_some(), c) {
        Ok(word) => {
            if c.len() >= before.len() {
                c.set(before);
                return Ok(false);
            }
            give_plain(known, given, word)?;
            Ok(true)
        }
        Err(Stop::Nothing) => {
            c.set(before);
            Ok(false)
        }
        Err(Stop::Memory) => Err(Memory),
    }
}

/// Takes the definition of an enumeration, if there is one. Otherwise nothing has changed.
#[tactic(auto, unfolding(crate::specs::Specifiers::enumeration_given), using(crate::proofs::Taken::took, crate::proofs::Taken::took_none, crate::proofs::Taken::took_nothing))]
fn enumeration_given(
    alloc: Global,
    given: &mut Given,
    known: &mut Known,
    c: &mut Cursor<'_>,
) -> Result<bool, Memory>
    ensures { Takes (taking (spec.enumeration_given (given.old, known.old) c.old) c.old) result (given.old, known.old) c.old (given.new, known.new) c.new }
{
    let before = c.rest();
    let saved = known.copy(alloc)?;
    match enumeration_read(alloc, known, c) {
        Ok(found) => {
            if c.len() >= before.len() {
                *known = saved;
                c.set(before);
                return Ok(false);
            }
            define(given, Specifier::Enumeration(found), NameKind::Plain)?;
            Ok(true)
        }
        Err(Stop::Nothing) => {
            *known = saved;
            c.set(before);
            Ok(false)
        }
        Err(Stop::Memory) => Err(Memory),
    }
}

/// Takes the definition of a class, if there is one. Otherwise nothing has changed.
#[tactic(auto, unfolding(crate::specs::Specifiers::class_given), using(crate::proofs::Taken::took, crate::proofs::Taken::took_none, crate::proofs::Taken::took_nothing))]
fn class_given<F: Fn(Global, usize, Wanted, &mut Known, &mut Cursor<'_>) -> Result<Node, Stop>>(
    grammar: &Grammar<F>,
    given: &mut Given,
    known: &mut Known,
    c: &mut Cursor<'_>,
) -> Result<bool, Memory>
    requires { Nests grammar.now.depth (F.pre grammar.now.inside) (F.post grammar.now.inside) }
    ensures { Takes (taking (spec.class_given (insides grammar.now.depth) (given.old, known.old) c.old) c.old) result (given.old, known.old) c.old (given.new, known.new) c.new }
{
    let before = c.rest();
    let saved = known.copy(grammar.alloc)?;
    match grammar.inner_class(known, c) {
        Ok((class, kind)) => {
            if c.len() >= before.len() {
                *known = saved;
                c.set(before);
                return Ok(false);
            }
            define(given, Specifier::Class(class), kind)?;
            Ok(true)
        }
        Err(Stop::Nothing) => {
            *known = saved;
            c.set(before);
            Ok(false)
        }
        Err(Stop::Memory) => Err(Memory),
    }
}

/// Takes a specifier where no type was named yet. The name of a constructor is none.
#[tactic(auto, unfolding(crate::specs::Specifiers::untyped_given), using(crate::proofs::Taken::took, crate::proofs::Taken::took_none, crate::proofs::Taken::took_nothing))]
fn untyped_given(
    alloc: Global,
    given: &mut Given,
    known: &mut Known,
    c: &mut Cursor<'_>,
) -> Result<bool, Memory>
    ensures { Takes (taking (spec.untyped_given (given.old, known.old) c.old) c.old) result (given.old, known.old) c.old (given.new, known.new) c.new }
{
    if is_constructor(alloc, known, c)? {
        return Ok(false);
    }
    plain_given(alloc, given, known, c)
}

/// Takes one more specifier, if one can be taken. Otherwise nothing has changed.
#[tactic(auto, unfolding(crate::specs::Specifiers::one_given))]
pub fn one_given<F: Fn(Global, usize, Wanted, &mut Known, &mut Cursor<'_>) -> Result<Node, Stop>>(
    grammar: &Grammar<F>,
    given: &mut Given,
    known: &mut Known,
    c: &mut Cursor<'_>,
) -> Result<bool, Memory>
    requires { Nests grammar.now.depth (F.pre grammar.now.inside) (F.post grammar.now.inside) }
    ensures { Takes (taking (spec.one_given (insides grammar.now.depth) (given.old, known.old) c.old) c.old) result (given.old, known.old) c.old (given.new, known.new) c.new }
{
    if begins_class(c) {
        return class_given(grammar, given, known, c);
    }
    if begins_enumeration(c) {
        return enumeration_given(grammar.alloc, given, known, c);
    }
    if given.kind.is_some() {
        return plain_given(grammar.alloc, given, known, c);
    }
    untyped_given(grammar.alloc, given, known, c)
}
