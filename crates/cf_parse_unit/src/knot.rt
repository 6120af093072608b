//! The recursion: what stands inside a phrase is read by the rules, one depth further in.

ghost use Rattle.std.specs.Prelude.{suc};
ghost use Rattle.cf_parse_decl.specs.Insides.{insides};
ghost use Rattle.cf_parse_decl.specs.Reads.{Gives};
ghost use Rattle.cf_parse_decl.specs.Nests.{Nests, within};
ghost use Rattle.cf_parse_decl.specs.declared.grammar.Wanted.TheVariants as wanted;

use cf_parse_decl::{Grammar, Known, Node, Wanted};
use cf_parse_expr::{Cursor, Stop};
use cf_parse_member::class;
use cf_parse_simple::specified;
use std::alloc::Global;

/// A statement, one depth further in.
pub fn statement_node<
    F: Fn(Global, usize, Wanted, &mut Known, &mut Cursor<'_>) -> Result<Node, Stop>,
>(g: &Grammar<F>, known: &mut Known, c: &mut Cursor<'_>) -> Result<Node, Stop>
    requires { Nests g.now.depth (F.pre g.now.inside) (F.post g.now.inside) }
    ensures { Gives (within (insides (suc g.now.depth)) wanted.Statement known.old c.old) result known.new c.new }
{
    let s = g.statement(known, c)?;
    Ok(Node::Statement(s))
}

/// A class, one depth further in.
pub fn class_node<F: Fn(Global, usize, Wanted, &mut Known, &mut Cursor<'_>) -> Result<Node, Stop>>(
    g: &Grammar<F>,
    known: &mut Known,
    c: &mut Cursor<'_>,
) -> Result<Node, Stop>
    requires { Nests g.now.depth (F.pre g.now.inside) (F.post g.now.inside) }
    ensures { Gives (within (insides (suc g.now.depth)) wanted.Class known.old c.old) result known.new c.new }
{
    let (class, kind) = class(g, known, c)?;
    Ok(Node::Class(class, kind))
}

/// A declaration with one specifier at least, at the same depth.
pub fn declaration_node<
    F: Fn(Global, usize, Wanted, &mut Known, &mut Cursor<'_>) -> Result<Node, Stop>,
>(g: &Grammar<F>, known: &mut Known, c: &mut Cursor<'_>) -> Result<Node, Stop>
    requires { Nests g.now.depth (F.pre g.now.inside) (F.post g.now.inside) }
    ensures { Gives (within (insides g.now.depth) wanted.Declaration known.old c.old) result known.new c.new }
{
    let d = specified(g, known, c)?;
    Ok(Node::Declaration(d))
}

/// What stands inside a declaration that is read at its own depth. It holds classes; no rule asks for a declaration there, so
/// that want of memory, which any call may answer, is never answered for one.
#[cycle(knot)]
pub fn defining(
    alloc: Global,
    depth: usize,
    wanted: Wanted,
    known: &mut Known,
    c: &mut Cursor<'_>,
) -> Result<Node, Stop>
    ensures { Gives (within (insides depth) wanted known.old c.old) result known.new c.new }
{
    match wanted {
        Wanted::Statement => inside(alloc, depth, Wanted::Statement, known, c),
        Wanted::Class => inside(alloc, depth, Wanted::Class, known, c),
        Wanted::Declaration => Err(Stop::Memory),
    }
}

/// What is wanted, where phrases stand inside one another to this depth at most.
#[cycle(knot)]
pub fn inside(
    alloc: Global,
    depth: usize,
    wanted: Wanted,
    known: &mut Known,
    c: &mut Cursor<'_>,
) -> Result<Node, Stop>
    ensures { Gives (within (insides depth) wanted known.old c.old) result known.new c.new }
{
    match wanted {
        Wanted::Statement => {
            if depth == 0 {
                return Err(Stop::Nothing);
            }
            let g = Grammar {
                alloc,
                depth: depth - 1,
                inside,
            };
            statement_node(&g, known, c)
        }
        Wanted::Class => {
            if depth == 0 {
                return Err(Stop::Nothing);
            }
            let g = Grammar {
                alloc,
                depth: depth - 1,
                inside,
            };
            class_node(&g, known, c)
        }
        Wanted::Declaration => {
            let g = Grammar {
                alloc,
                depth,
                inside: defining,
            };
            declaration_node(&g, known, c)
        }
    }
}
