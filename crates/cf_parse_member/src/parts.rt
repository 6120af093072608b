//! The parts of a member by words that stay shut.

ghost use Rattle.cf_parse_body.specs.Bodies.{GivesBody};
ghost use Rattle.cf_parse_decl.specs.Nests.{Nests};
ghost use Rattle.cf_parse_decl.specs.Reads.{Gives};
ghost use Rattle.cf_parse_expr.specs.Reads.{Reads};
ghost use Rattle.cf_parse_member.specs.Members as spec;
ghost use Rattle.cf_unit.specs.Declares.{shape};

use cf_base::Items;
use cf_parse_body::{Body, body_by};
use cf_parse_class::pure_behind;
use cf_parse_decl::{Grammar, Known, Node, Wanted};
use cf_parse_expr::words::SEMICOLON;
use cf_parse_expr::{Cursor, Stop};
use cf_parse_simple::{Declared, one_declarator, specifiers};
use cf_syntax::DeclTree;
use cf_unit::{Given, MemberDeclarator};
use std::alloc::Global;

/// The specifiers of a member.
#[tactic(auto, unfolding(crate::specs::Members::some_specifiers))]
pub fn some_specifiers<
    F: Fn(Global, usize, Wanted, &mut Known, &mut Cursor<'_>) -> Result<Node, Stop>,
>(grammar: &Grammar<F>, known: &mut Known, c: &mut Cursor<'_>) -> Result<Given, Stop>
    requires { Nests grammar.now.depth (F.pre grammar.now.inside) (F.post grammar.now.inside) }
    ensures { Gives (spec.some_specifiers grammar.now.depth known.old c.old) result known.new c.new }
{
    specifiers(grammar, known, c)
}

/// A declarator of a member, in a declaration that stands in the last of so many open scopes.
#[tactic(auto, unfolding(crate::specs::Members::a_declarator))]
pub fn a_declarator<F>(
    grammar: &Grammar<F>,
    home: usize,
    given: &Given,
    known: &mut Known,
    c: &mut Cursor<'_>,
) -> Result<Declared, Stop>
    ensures { Gives (spec.a_declarator grammar.now.depth home given.now known.old c.old) result known.new c.new }
{
    one_declarator(grammar, home, given, known, c)
}

/// What stands behind the declarator of a function.
#[tactic(auto, unfolding(crate::specs::Members::a_body))]
pub fn a_body<F: Fn(Global, usize, Wanted, &mut Known, &mut Cursor<'_>) -> Result<Node, Stop>>(
    grammar: &Grammar<F>,
    home: usize,
    tree: &DeclTree,
    known: &mut Known,
    c: &mut Cursor<'_>,
) -> Result<Body, Stop>
    requires { Nests grammar.now.depth (F.pre grammar.now.inside) (F.post grammar.now.inside) }
    ensures { GivesBody (spec.a_body grammar.now.depth home (shape tree.now) known.old c.old) result known.new c.new }
{
    body_by(grammar, home, tree, known, c)
}

/// The place of `=` where `= 0` follows (10.3).
#[tactic(auto, unfolding(crate::specs::Members::pure_at))]
fn pure_at(c: &mut Cursor<'_>) -> Result<Option<u32>, Stop>
    ensures { Reads (spec.pure_at c.old) result c.new }
{
    pure_behind(c)
}

/// A declarator of a member, with `= 0` where that follows.
#[tactic(auto, unfolding(crate::specs::Members::with_pure))]
pub fn with_pure(declared: Declared, c: &mut Cursor<'_>) -> Result<MemberDeclarator, Stop>
    ensures { Reads (spec.with_pure declared c.old) result c.new }
{
    let Declared { at, tree } = declared;
    let pure = pure_at(c)?;
    Ok(MemberDeclarator {
        at,
        declarator: tree,
        pure,
    })
}

/// Takes the `;` that comes next, if one does.
#[tactic(auto, unfolding(crate::specs::Members::maybe_semicolon))]
pub fn maybe_semicolon(c: &mut Cursor<'_>) -> Result<(), Stop>
    ensures { Reads (spec.maybe_semicolon c.old) result c.new }
{
    if c.front() == SEMICOLON {
        c.word(SEMICOLON)?;
    }
    Ok(())
}

/// The `;` behind these declarators, behind which no classes of declarators are open.
#[tactic(auto, unfolding(crate::specs::Members::closed))]
pub fn closed(
    home: usize,
    all: Items<MemberDeclarator>,
    known: &mut Known,
    c: &mut Cursor<'_>,
) -> Result<Items<MemberDeclarator>, Stop>
    ensures { Gives (spec.closed home (all, known.old) c.old) result known.new c.new }
{
    c.word(SEMICOLON)?;
    known.close_to(home);
    Ok(all)
}
