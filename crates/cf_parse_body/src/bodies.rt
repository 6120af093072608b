//! Bodies in the three ways in which they are read (9.3.2), step by step.

ghost use Rattle.std.specs.Prelude.{◌≡◌, IfOk};
ghost use Rattle.cf_parse_body.specs.Bodies as spec;
ghost use Rattle.cf_parse_body.specs.Bodies.{GivesBody, ReadsBody};
ghost use Rattle.cf_parse_decl.specs.Nests.{Nests};
ghost use Rattle.cf_unit.specs.Declares.{shape};
ghost use Rattle.cf_unit.specs.Known.{in_block, late_names};

use crate::inits::inits_read;
use cf_base::{Items, Memory};
use cf_enter::enter_params;
use cf_parse_class::pass_over;
use cf_parse_decl::{Bodies, Grammar, Known, Node, Wanted};
use cf_parse_expr::{Cursor, Stop};
use cf_syntax::{DeclTree, TypeNames};
use cf_unit::{MemberInit, Stmt};
use std::alloc::Global;
use std::mem::replace;

/// What stands behind the declarator of a function (8.3).
#[derive(Drop)]
pub struct Body {
    pub initialisers: Items<MemberInit>,
    /// The place of the `{`, and 0 where the body is left out.
    pub at: u32,
    pub statements: Items<Stmt>,
}

/// What is known in a block: no class's members are read there, and bodies where they stand.
fn in_block(names: TypeNames) -> Known
    ensures { result ≡ in_block names }
{
    Known {
        names,
        bodies: Bodies::AtOnce,
        own: None,
    }
}

/// The initialisers and the block of a function, where these names are known, and what is known behind it.
#[tactic(auto, unfolding(crate::specs::Bodies::body))]
pub fn body_read<F: Fn(Global, usize, Wanted, &mut Known, &mut Cursor<'_>) -> Result<Node, Stop>>(
    grammar: &Grammar<F>,
    names: TypeNames,
    c: &mut Cursor<'_>,
) -> Result<(Body, Known), Stop>
    requires { Nests grammar.now.depth (F.pre grammar.now.inside) (F.post grammar.now.inside) }
    ensures { ReadsBody (spec.body grammar.now.depth names c.old) result c.new }
{
    let initialisers = inits_read(grammar.alloc, &names, c)?;
    let mut known = in_block(names);
    let (at, statements) = grammar.block(&mut known, c)?;
    let found = Body {
        initialisers,
        at,
        statements,
    };
    Ok((found, known))
}

/// A body that is read where it stands.
#[tactic(auto, unfolding(crate::specs::Bodies::body_at_once))]
fn body_at_once<F: Fn(Global, usize, Wanted, &mut Known, &mut Cursor<'_>) -> Result<Node, Stop>>(
    grammar: &Grammar<F>,
    home: usize,
    tree: &DeclTree,
    known: &mut Known,
    c: &mut Cursor<'_>,
) -> Result<Body, Stop>
    requires { Nests grammar.now.depth (F.pre grammar.now.inside) (F.post grammar.now.inside) }
    ensures { GivesBody (spec.body_at_once grammar.now.depth home (shape tree.now) known.old c.old) result known.new c.new }
{
    let mut names = replace(&mut known.names, TypeNames::new(grammar.alloc));
    enter_params(grammar.alloc, &mut names, tree)?;
    let (found, inner) = body_read(grammar, names, c)?;
    known.names = inner.names;
    known.close_to(home);
    Ok(found)
}

/// A body that is passed over.
#[tactic(auto, unfolding(crate::specs::Bodies::body_left_out))]
fn body_left_out(
    alloc: Global,
    home: usize,
    known: &mut Known,
    c: &mut Cursor<'_>,
) -> Result<Body, Stop>
    ensures { GivesBody (spec.body_left_out home known.old c.old) result known.new c.new }
{
    pass_over(c)?;
    known.close_to(home);
    Ok(Body {
        initialisers: Items::new(alloc),
        at: 0,
        statements: Items::new(alloc),
    })
}

/// The names for a body that is read late: these, which are known at the end of the outermost class, in the scopes that are open inside that class (9.3.2).
pub fn late_names(end: TypeNames, here: &TypeNames) -> Result<TypeNames, Memory>
    ensures { IfOk result (λ names. names ≡ late_names end here.now) }
{
    let mut names = end;
    names.open_beyond(here)?;
    Ok(names)
}

/// A body that is read with the names known at the end of the outermost class.
#[tactic(auto, unfolding(crate::specs::Bodies::body_late))]
fn body_late<F: Fn(Global, usize, Wanted, &mut Known, &mut Cursor<'_>) -> Result<Node, Stop>>(
    grammar: &Grammar<F>,
    end: TypeNames,
    home: usize,
    tree: &DeclTree,
    known: &mut Known,
    c: &mut Cursor<'_>,
) -> Result<Body, Stop>
    requires { Nests grammar.now.depth (F.pre grammar.now.inside) (F.post grammar.now.inside) }
    ensures { GivesBody (spec.body_late grammar.now.depth end home (shape tree.now) known.old c.old) result known.new c.new }
{
    let open = end.open_scopes();
    let mut names = late_names(end, &known.names)?;
    enter_params(grammar.alloc, &mut names, tree)?;
    let (found, inner) = body_read(grammar, names, c)?;
    let mut end = inner.names;
    end.leave_to(open);
    known.close_to(home);
    known.bodies = Bodies::Late(end);
    Ok(found)
}

/// A body in the way in which bodies are read.
#[tactic(auto, unfolding(crate::specs::Bodies::body_by, crate::specs::Bodies::body_late))]
pub fn body_read_by<
    F: Fn(Global, usize, Wanted, &mut Known, &mut Cursor<'_>) -> Result<Node, Stop>,
>(
    grammar: &Grammar<F>,
    home: usize,
    tree: &DeclTree,
    known: &mut Known,
    c: &mut Cursor<'_>,
) -> Result<Body, Stop>
    requires { Nests grammar.now.depth (F.pre grammar.now.inside) (F.post grammar.now.inside) }
    ensures { GivesBody (spec.body_by grammar.now.depth known.old.bodies home (shape tree.now) known.old c.old) result known.new c.new }
{
    match replace(&mut known.bodies, Bodies::AtOnce) {
        Bodies::AtOnce => body_at_once(grammar, home, tree, known, c),
        Bodies::LeftOut => {
            known.bodies = Bodies::LeftOut;
            body_left_out(grammar.alloc, home, known, c)
        }
        Bodies::Late(end) => body_late(grammar, end, home, tree, known, c),
    }
}
