//! Names of constructors (12.1).

ghost use Rattle.std.specs.Prelude.{◌≡◌, ◌<◌, ◌&&◌, length, drop, IfOk};
ghost use Rattle.cf_parse_simple.specs.Constructors as spec;
ghost use Rattle.cf_syntax.specs.Grammar.{sees};
ghost use Rattle.cf_syntax.specs.Words.{ident_at, left_paren};
ghost use Rattle.cf_unit.specs.Declarations as rule;

use cf_base::{Bytes, Memory};
use cf_enter::is_bare;
use cf_parse_decl::Known;
use cf_parse_expr::specifiers::name;
use cf_parse_expr::words::LEFT_PAREN;
use cf_parse_expr::{Cursor, Scopes, Stop, whole};
use cf_syntax::{Last, Name};
use cf_tokens::Token;
use std::alloc::Global;

/// Whether the name of the class whose members are read comes next.
fn is_own(known: &Known, c: &Cursor<'_>) -> bool
    ensures { result ≡ rule.own_at known.now.own (ident_at c.now) }
{
    let Some(name) = c.ident() else {
        return false;
    };
    match &known.own {
        Some(own) => own.as_slice() == name,
        None => false,
    }
}

/// Whether this is the last of these names.
fn ends_in(names: &[Bytes], name: &[u8]) -> bool
    ensures { result ≡ rule.ends_in names.now name.now }
{
    match names {
        [] => false,
        [last] => last.as_slice() == name,
        [_, rest @ ..] => ends_in(rest, name),
    }
}

/// Whether the last two names of a qualified name are equal.
fn is_twice(n: &Name) -> bool
    ensures { result ≡ rule.is_twice n.now.scopes n.now.last }
{
    match &n.last {
        Last::Ident(name) => ends_in(n.scopes.as_slice(), name.as_slice()),
        _ => false,
    }
}

/// Whether the identifier at the front has parameters in brackets behind it: then it is a declarator with them.
#[tactic(auto, unfolding(crate::specs::Constructors::params_behind))]
fn params_behind(alloc: Global, scopes: &Scopes<'_>, c: &Cursor<'_>) -> Result<bool, Memory>
    ensures { IfOk result (λ holds. holds ≡ spec.params_behind scopes.now c.now) }
{
    if c.ident().is_none() || c.second() != LEFT_PAREN {
        return Ok(false);
    }
    let mut ahead = Cursor::new(c.rest());
    match whole::declarator(alloc, scopes, &mut ahead) {
        Ok((tree, _)) => Ok(!is_bare(tree.get())),
        Err(Stop::Nothing) => Ok(false),
        Err(Stop::Memory) => Err(Memory),
    }
}

/// The tokens from the last one on that was taken between two cursors.
fn from_last<'a>(c: &Cursor<'a>, behind: &Cursor<'_>) -> &'a [Token]
    requires { length behind.now < length c.now }
    ensures { result.now ≡ spec.from_last c.now behind.now }
{
    &c.rest()[c.len() - (behind.len() + 1)..]
}

/// Whether a qualified name comes next whose last two names are equal, with parameters behind it.
#[tactic(auto, unfolding(crate::specs::Constructors::twice_named))]
fn twice_named(alloc: Global, scopes: &Scopes<'_>, c: &Cursor<'_>) -> Result<bool, Memory>
    ensures { IfOk result (λ is. is ≡ spec.twice_named scopes.now c.now) }
{
    let mut ahead = Cursor::new(c.rest());
    match name(alloc, scopes, &mut ahead) {
        Ok((n, classes)) => {
            if !is_twice(&n) {
                return Ok(false);
            }
            let inside = scopes.open(alloc, classes.as_slice())?;
            params_behind(alloc, &inside, &Cursor::new(from_last(c, &ahead)))
        }
        Err(Stop::Nothing) => Ok(false),
        Err(Stop::Memory) => Err(Memory),
    }
}

/// The same, step by step.
#[tactic(auto, unfolding(crate::specs::Constructors::constructs))]
fn constructs(alloc: Global, known: &Known, c: &Cursor<'_>) -> Result<bool, Memory>
    ensures { IfOk result (λ is. is ≡ spec.constructs known.now c.now) }
{
    let scopes = Scopes::new(alloc, &known.names);
    if is_own(known, c) && c.second() == LEFT_PAREN {
        return params_behind(alloc, &scopes, c);
    }
    twice_named(alloc, &scopes, c)
}

/// Whether a constructor's name with parameters comes next: in a class its own name, and anywhere a qualified name whose last two names are equal (12.1).
pub fn is_constructor(alloc: Global, known: &Known, c: &Cursor<'_>) -> Result<bool, Memory>
    ensures { IfOk result (λ is. is ≡ spec.is_constructor known.now c.now) }
{
    constructs(alloc, known, c)
}
