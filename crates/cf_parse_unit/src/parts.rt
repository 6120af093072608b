//! What a file is made of, as the rules of declarations and members read it.

ghost use Rattle.cf_parse_decl.specs.Reads.{Gives};
ghost use Rattle.cf_parse_decl.specs.Nests.{Nests};
ghost use Rattle.cf_parse_unit.specs.Files as spec;

use cf_base::{Boxed, Items};
use cf_parse_decl::{Grammar, Known, Node, Wanted};
use cf_parse_expr::{Cursor, Stop};
use cf_parse_simple::Declared;
use cf_unit::{Declaration, FunctionDef, Given, InitDeclarator};
use std::alloc::Global;

/// A declaration up to its `;` (7).
#[tactic(auto, unfolding(crate::specs::Files::simple_at))]
pub fn simple<F: Fn(Global, usize, Wanted, &mut Known, &mut Cursor<'_>) -> Result<Node, Stop>>(
    grammar: &Grammar<F>,
    known: &mut Known,
    c: &mut Cursor<'_>,
) -> Result<Boxed<Declaration>, Stop>
    requires { Nests grammar.now.depth (F.pre grammar.now.inside) (F.post grammar.now.inside) }
    ensures { Gives (spec.simple_at grammar.now.depth known.old c.old) result known.new c.new }
{
    cf_parse_simple::simple(grammar, known, c)
}

/// Specifiers, as many as can be taken (7.1).
#[tactic(auto, unfolding(crate::specs::Files::specifiers_at))]
pub fn specifiers<F: Fn(Global, usize, Wanted, &mut Known, &mut Cursor<'_>) -> Result<Node, Stop>>(
    grammar: &Grammar<F>,
    known: &mut Known,
    c: &mut Cursor<'_>,
) -> Result<Given, Stop>
    requires { Nests grammar.now.depth (F.pre grammar.now.inside) (F.post grammar.now.inside) }
    ensures { Gives (spec.specifiers_at grammar.now.depth known.old c.old) result known.new c.new }
{
    cf_parse_simple::specifiers(grammar, known, c)
}

/// A declarator of a file's declaration, whose name is entered (8).
#[tactic(auto, unfolding(crate::specs::Files::declarator_at))]
pub fn declarator<F>(
    grammar: &Grammar<F>,
    given: &Given,
    known: &mut Known,
    c: &mut Cursor<'_>,
) -> Result<Declared, Stop>
    ensures { Gives (spec.declarator_at grammar.now.depth given.now known.old c.old) result known.new c.new }
{
    cf_parse_simple::one_declarator(grammar, 0, given, known, c)
}

/// A declarator with what initialises it (8.4).
#[tactic(auto, unfolding(crate::specs::Files::initialised_at))]
pub fn initialised<F>(
    grammar: &Grammar<F>,
    declared: Declared,
    known: &Known,
    c: &mut Cursor<'_>,
) -> Result<InitDeclarator, Stop>
    ensures { Gives (spec.initialised_at grammar.now.depth declared known.now c.old) result known.now c.new }
{
    cf_parse_simple::initialised(grammar, declared, known, c)
}

/// The declarators of a file's declaration behind the first, up to its `;`.
#[tactic(auto, unfolding(crate::specs::Files::more_at))]
pub fn more_declarators<F>(
    grammar: &Grammar<F>,
    given: &Given,
    first: InitDeclarator,
    known: &mut Known,
    c: &mut Cursor<'_>,
) -> Result<Items<InitDeclarator>, Stop>
    ensures { Gives (spec.more_at grammar.now.depth given.now first known.old c.old) result known.new c.new }
{
    cf_parse_simple::more_declarators(grammar, 0, given, first, known, c)
}

/// A function of a file behind its declarator (8.3).
#[tactic(auto, unfolding(crate::specs::Files::defined_at))]
pub fn defined<F: Fn(Global, usize, Wanted, &mut Known, &mut Cursor<'_>) -> Result<Node, Stop>>(
    grammar: &Grammar<F>,
    at: u32,
    given: Given,
    declared: Declared,
    known: &mut Known,
    c: &mut Cursor<'_>,
) -> Result<Boxed<FunctionDef>, Stop>
    requires { Nests grammar.now.depth (F.pre grammar.now.inside) (F.post grammar.now.inside) }
    ensures { Gives (spec.defined_at grammar.now.depth at given declared known.old c.old) result known.new c.new }
{
    cf_parse_member::defined(grammar, 0, at, given, declared, known, c)
}
