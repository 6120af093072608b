//! Declarations up to their `;` (7).

ghost use Rattle.std.specs.Prelude.{◌≡◌};
ghost use Rattle.cf_parse_decl.specs.Nests.{Nests};
ghost use Rattle.cf_parse_decl.specs.Reads.{Gives};
ghost use Rattle.cf_parse_simple.specs.Simple as spec;
ghost use Rattle.cf_unit.specs.Declarations as rule;
ghost use Rattle.cf_unit.specs.Files.{inner, by_tree};
ghost use Rattle.cf_unit.specs.Read.{reading};

use crate::declarator_list::declarators_read;
use crate::specifier_list::all_given;
use cf_base::Boxed;
use cf_parse_decl::{Grammar, Known, Node, Wanted};
use cf_parse_expr::{Cursor, Stop};
use cf_unit::{Declaration, Given};
use std::alloc::Global;

/// What stands behind the specifiers of a declaration that begins at this place.
#[tactic(auto, unfolding(crate::specs::Simple::behind))]
fn behind(
    alloc: Global,
    depth: usize,
    at: u32,
    home: usize,
    given: Given,
    known: &mut Known,
    c: &mut Cursor<'_>,
) -> Result<Boxed<Declaration>, Stop>
    ensures { Gives (spec.behind depth at home given known.old c.old) result known.new c.new }
{
    let declarators = declarators_read(alloc, depth, home, &given, known, c)?;
    let Given {
        list,
        kind: _,
        is_typedef: _,
        is_friend: _,
    } = given;
    Ok(Boxed::new(
        alloc,
        Declaration {
            at,
            specifiers: list,
            declarators,
        },
    )?)
}

/// Whether there is a specifier.
fn is_given(given: &Given) -> bool
    ensures { result ≡ rule.is_given given.now }
{
    match given.list.as_slice() {
        [] => false,
        _ => true,
    }
}

/// A declaration, step by step.
#[tactic(auto, unfolding(crate::specs::Simple::simple))]
fn simple_read<F: Fn(Global, usize, Wanted, &mut Known, &mut Cursor<'_>) -> Result<Node, Stop>>(
    grammar: &Grammar<F>,
    known: &mut Known,
    c: &mut Cursor<'_>,
) -> Result<Boxed<Declaration>, Stop>
    requires { Nests grammar.now.depth (F.pre grammar.now.inside) (F.post grammar.now.inside) }
    ensures { Gives (spec.simple grammar.now.depth known.old c.old) result known.new c.new }
{
    let at = c.place();
    let home = known.open_scopes();
    let given = all_given(grammar, known, c)?;
    behind(grammar.alloc, grammar.depth, at, home, given, known, c)
}

/// A declaration with one specifier at least, step by step.
#[tactic(auto, unfolding(crate::specs::Simple::specified))]
fn specified_read<F: Fn(Global, usize, Wanted, &mut Known, &mut Cursor<'_>) -> Result<Node, Stop>>(
    grammar: &Grammar<F>,
    known: &mut Known,
    c: &mut Cursor<'_>,
) -> Result<Boxed<Declaration>, Stop>
    requires { Nests grammar.now.depth (F.pre grammar.now.inside) (F.post grammar.now.inside) }
    ensures { Gives (spec.specified grammar.now.depth known.old c.old) result known.new c.new }
{
    let at = c.place();
    let home = known.open_scopes();
    let given = all_given(grammar, known, c)?;
    if !is_given(&given) {
        return Err(Stop::Nothing);
    }
    behind(grammar.alloc, grammar.depth, at, home, given, known, c)
}

/// A declaration up to its `;` (7).
pub fn simple<F: Fn(Global, usize, Wanted, &mut Known, &mut Cursor<'_>) -> Result<Node, Stop>>(
    grammar: &Grammar<F>,
    known: &mut Known,
    c: &mut Cursor<'_>,
) -> Result<Boxed<Declaration>, Stop>
    requires { Nests grammar.now.depth (F.pre grammar.now.inside) (F.post grammar.now.inside) }
    ensures { Gives (reading (rule.simple (inner by_tree grammar.now.depth) known.old) c.old) result known.new c.new }
{
    simple_read(grammar, known, c)
}

/// A declaration with one specifier at least, up to its `;` (7).
pub fn specified<F: Fn(Global, usize, Wanted, &mut Known, &mut Cursor<'_>) -> Result<Node, Stop>>(
    grammar: &Grammar<F>,
    known: &mut Known,
    c: &mut Cursor<'_>,
) -> Result<Boxed<Declaration>, Stop>
    requires { Nests grammar.now.depth (F.pre grammar.now.inside) (F.post grammar.now.inside) }
    ensures { Gives (reading (rule.specified (inner by_tree grammar.now.depth) known.old) c.old) result known.new c.new }
{
    specified_read(grammar, known, c)
}
