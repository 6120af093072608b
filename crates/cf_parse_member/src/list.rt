//! The members of a class up to its `}`, in the ways in which bodies are read (9.3.2).

ghost use Rattle.std.specs.Prelude.{◌≡◌};
ghost use Rattle.cf_parse_decl.specs.Nests.{Nests};
ghost use Rattle.cf_parse_decl.specs.Reads.{Gives};
ghost use Rattle.cf_parse_expr.specs.Reads.{Reads};
ghost use Rattle.cf_parse_member.specs.Classes as spec;

use crate::member::member_read;
use cf_base::Items;
use cf_parse_decl::{Bodies, Grammar, Known, Node, Wanted};
use cf_parse_expr::words::RIGHT_BRACE;
use cf_parse_expr::{Cursor, Stop};
use cf_syntax::TypeNames;
use cf_unit::Member;
use std::alloc::Global;
use std::mem::replace;

/// Members up to a `}`.
fn all_members<F: Fn(Global, usize, Wanted, &mut Known, &mut Cursor<'_>) -> Result<Node, Stop>>(
    grammar: &Grammar<F>,
    known: &mut Known,
    c: &mut Cursor<'_>,
) -> Result<Items<Member>, Stop>
    requires { Nests grammar.now.depth (F.pre grammar.now.inside) (F.post grammar.now.inside) }
    ensures { Gives (spec.all_members grammar.now.depth known.old c.old) result known.new c.new }
{
    let mut all = Items::new(grammar.alloc);
    for _turn in 0..c.len() {
        if c.front() == RIGHT_BRACE {
            return Ok(all);
        }
        let left = c.len();
        match member_read(grammar, known, c) {
            Ok(m) => {
                if c.len() >= left {
                    return Err(Stop::Nothing);
                }
                all.push(m.into_inner())?;
            }
            Err(stop) => return Err(stop),
        }
    }
    if c.front() == RIGHT_BRACE {
        Ok(all)
    } else {
        Err(Stop::Nothing)
    }
}

/// Members and the `}`.
#[tactic(auto, unfolding(crate::specs::Classes::members))]
fn members<F: Fn(Global, usize, Wanted, &mut Known, &mut Cursor<'_>) -> Result<Node, Stop>>(
    grammar: &Grammar<F>,
    known: &mut Known,
    c: &mut Cursor<'_>,
) -> Result<Items<Member>, Stop>
    requires { Nests grammar.now.depth (F.pre grammar.now.inside) (F.post grammar.now.inside) }
    ensures { Gives (spec.members grammar.now.depth known.old c.old) result known.new c.new }
{
    let all = all_members(grammar, known, c)?;
    c.word(RIGHT_BRACE)?;
    Ok(all)
}

/// The names at the end of a class whose members begin here, in the scopes that are open here.
#[tactic(auto, unfolding(crate::specs::Classes::names_at_end))]
fn names_at_end<F: Fn(Global, usize, Wanted, &mut Known, &mut Cursor<'_>) -> Result<Node, Stop>>(
    grammar: &Grammar<F>,
    known: &Known,
    c: &mut Cursor<'_>,
) -> Result<TypeNames, Stop>
    requires { Nests grammar.now.depth (F.pre grammar.now.inside) (F.post grammar.now.inside) }
    ensures { Reads (spec.names_at_end grammar.now.depth known.now c.old) result c.new }
{
    let mut ahead = known.copy(grammar.alloc)?;
    ahead.bodies = Bodies::LeftOut;
    let _ = members(grammar, &mut ahead, c)?;
    let mut names = ahead.names;
    names.leave_to(known.open_scopes());
    Ok(names)
}

/// Goes out of a class that stands in no other: the classes in its bodies are known behind it.
fn leave(home: usize, known: &mut Known)
    ensures { known.new ≡ spec.behind_outermost home known.old }
{
    if let Bodies::Late(names) = replace(&mut known.bodies, Bodies::AtOnce) {
        known.names = names;
    }
    known.close_to(home);
    known.own = None;
}

/// The members of a class that stands in no other: they are read with bodies left out, and then again with bodies by the names at the end.
#[tactic(auto, unfolding(crate::specs::Classes::outermost))]
fn outermost<F: Fn(Global, usize, Wanted, &mut Known, &mut Cursor<'_>) -> Result<Node, Stop>>(
    grammar: &Grammar<F>,
    home: usize,
    known: &mut Known,
    c: &mut Cursor<'_>,
) -> Result<Items<Member>, Stop>
    requires { Nests grammar.now.depth (F.pre grammar.now.inside) (F.post grammar.now.inside) }
    ensures { Gives (spec.outermost grammar.now.depth home known.old c.old) result known.new c.new }
{
    let begin = c.rest();
    let end = names_at_end(grammar, known, c)?;
    c.set(begin);
    known.bodies = Bodies::Late(end);
    let all = members(grammar, known, c)?;
    leave(home, known);
    Ok(all)
}

/// The members of a class in another one.
#[tactic(auto, unfolding(crate::specs::Classes::nested))]
fn nested<F: Fn(Global, usize, Wanted, &mut Known, &mut Cursor<'_>) -> Result<Node, Stop>>(
    grammar: &Grammar<F>,
    home: usize,
    known: &mut Known,
    c: &mut Cursor<'_>,
) -> Result<Items<Member>, Stop>
    requires { Nests grammar.now.depth (F.pre grammar.now.inside) (F.post grammar.now.inside) }
    ensures { Gives (spec.nested grammar.now.depth home known.old c.old) result known.new c.new }
{
    let all = members(grammar, known, c)?;
    known.close_to(home);
    Ok(all)
}

/// The members of a class, which stands in no other where bodies are read at once.
#[tactic(auto, unfolding(crate::specs::Classes::members_by))]
pub fn members_by<F: Fn(Global, usize, Wanted, &mut Known, &mut Cursor<'_>) -> Result<Node, Stop>>(
    grammar: &Grammar<F>,
    home: usize,
    known: &mut Known,
    c: &mut Cursor<'_>,
) -> Result<Items<Member>, Stop>
    requires { Nests grammar.now.depth (F.pre grammar.now.inside) (F.post grammar.now.inside) }
    ensures { Gives (spec.members_by grammar.now.depth known.old.bodies home known.old c.old) result known.new c.new }
{
    match &known.bodies {
        Bodies::AtOnce => outermost(grammar, home, known, c),
        Bodies::LeftOut => nested(grammar, home, known, c),
        Bodies::Late(_) => nested(grammar, home, known, c),
    }
}
