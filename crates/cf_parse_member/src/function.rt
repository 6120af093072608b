//! Functions with their bodies (8.3).

ghost use Rattle.std.specs.Prelude.{◌≡◌};
ghost use Rattle.cf_parse_decl.specs.Nests.{Nests};
ghost use Rattle.cf_parse_decl.specs.Reads.{Gives};
ghost use Rattle.cf_parse_member.specs.Members as spec;
ghost use Rattle.cf_unit.specs.Bodies as rule;
ghost use Rattle.cf_unit.specs.Files.{inner, by_tree};
ghost use Rattle.cf_unit.specs.Members as members;
ghost use Rattle.cf_unit.specs.Read.{reading};

use crate::parts::a_body;
use crate::words::BODY;
use cf_base::Boxed;
use cf_parse_body::Body;
use cf_parse_decl::{Grammar, Known, Node, Wanted};
use cf_parse_expr::words::begins;
use cf_parse_expr::{Cursor, Stop};
use cf_parse_simple::Declared;
use cf_unit::{FunctionDef, Given};
use std::alloc::Global;

/// Whether initialisers or a block come next: then the declarator before them is that of a function with its body (8.3).
pub fn begins_body(c: &Cursor<'_>) -> bool
    ensures { result ≡ members.begins_body c.now }
{
    begins(&BODY, c)
}

/// A function behind its declarator, step by step.
#[tactic(auto, unfolding(crate::specs::Members::defined))]
pub fn defined_read<
    F: Fn(Global, usize, Wanted, &mut Known, &mut Cursor<'_>) -> Result<Node, Stop>,
>(
    grammar: &Grammar<F>,
    home: usize,
    at: u32,
    given: Given,
    declared: Declared,
    known: &mut Known,
    c: &mut Cursor<'_>,
) -> Result<Boxed<FunctionDef>, Stop>
    requires { Nests grammar.now.depth (F.pre grammar.now.inside) (F.post grammar.now.inside) }
    ensures { Gives (spec.defined grammar.now.depth home at given declared known.old c.old) result known.new c.new }
{
    let Declared {
        at: declarator_at,
        tree: declarator,
    } = declared;
    let Body {
        initialisers,
        at: body_at,
        statements: body,
    } = a_body(grammar, home, declarator.get(), known, c)?;
    Ok(Boxed::new(
        grammar.alloc,
        FunctionDef {
            at,
            specifiers: given.list,
            declarator_at,
            declarator,
            initialisers,
            body_at,
            body,
        },
    )?)
}

/// A function behind its declarator (8.3), which stands behind these specifiers in the last of so many open scopes. Its body is read in the way in
/// which bodies are read, and the scopes are as before the declaration behind it. The place is the function's first token's.
pub fn defined<F: Fn(Global, usize, Wanted, &mut Known, &mut Cursor<'_>) -> Result<Node, Stop>>(
    grammar: &Grammar<F>,
    home: usize,
    at: u32,
    given: Given,
    declared: Declared,
    known: &mut Known,
    c: &mut Cursor<'_>,
) -> Result<Boxed<FunctionDef>, Stop>
    requires { Nests grammar.now.depth (F.pre grammar.now.inside) (F.post grammar.now.inside) }
    ensures { Gives (reading (rule.defined (inner by_tree grammar.now.depth) home at given (declared, known.old)) c.old) result known.new c.new }
{
    defined_read(grammar, home, at, given, declared, known, c)
}
