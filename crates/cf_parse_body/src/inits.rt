//! Initialisers of bases and members (12.6.2).

ghost use Rattle.cf_parse_expr.specs.Reads.{Always, Reads};
ghost use Rattle.cf_parse_body.specs.Inits as spec;
ghost use Rattle.cf_unit.specs.Bodies as rule;
ghost use Rattle.cf_unit.specs.Read.{reading};

use crate::arguments::maybe_arguments;
use cf_base::{Items, Memory};
use cf_parse_expr::names::ident_path;
use cf_parse_expr::words::{COLON, COMMA};
use cf_parse_expr::{Cursor, Scopes, Stop};
use cf_syntax::TypeNames;
use cf_unit::MemberInit;
use std::alloc::Global;

/// An initialiser of a base or a member.
#[tactic(auto, unfolding(crate::specs::Inits::member_init))]
fn member_init(alloc: Global, names: &Scopes<'_>, c: &mut Cursor<'_>) -> Result<MemberInit, Stop>
    ensures { Reads (spec.member_init names.now c.old) result c.new }
{
    let path = ident_path(alloc, names, c)?;
    let (at, arguments) = maybe_arguments(alloc, names, c)?;
    Ok(MemberInit {
        path,
        at,
        arguments,
    })
}

/// A comma with an initialiser behind it.
#[tactic(auto, unfolding(crate::specs::Inits::next_init))]
fn next_init(alloc: Global, names: &Scopes<'_>, c: &mut Cursor<'_>) -> Result<MemberInit, Stop>
    ensures { Reads (spec.next_init names.now c.old) result c.new }
{
    c.word(COMMA)?;
    member_init(alloc, names, c)
}

fn more_inits(
    alloc: Global,
    names: &Scopes<'_>,
    c: &mut Cursor<'_>,
    first: Items<MemberInit>,
) -> Result<Items<MemberInit>, Memory>
    ensures { Always (spec.more_inits names.now first c.old) result c.new }
{
    let mut all = first;
    for _turn in 0..c.len() {
        let before = c.rest();
        let left = c.len();
        match next_init(alloc, names, c) {
            Ok(x) => {
                if c.len() >= left {
                    c.set(before);
                    return Ok(all);
                }
                all.push(x)?;
            }
            Err(Stop::Nothing) => {
                c.set(before);
                return Ok(all);
            }
            Err(Stop::Memory) => return Err(Memory),
        }
    }
    Ok(all)
}

#[tactic(auto, unfolding(crate::specs::Inits::some_inits))]
fn some_inits(
    alloc: Global,
    names: &Scopes<'_>,
    c: &mut Cursor<'_>,
) -> Result<Items<MemberInit>, Stop>
    ensures { Reads (spec.some_inits names.now c.old) result c.new }
{
    let first = member_init(alloc, names, c)?;
    let mut all = Items::new(alloc);
    all.push(first)?;
    Ok(more_inits(alloc, names, c, all)?)
}

#[tactic(auto, unfolding(crate::specs::Inits::member_inits))]
pub fn inits_read(
    alloc: Global,
    names: &TypeNames,
    c: &mut Cursor<'_>,
) -> Result<Items<MemberInit>, Stop>
    ensures { Reads (spec.member_inits names.now c.old) result c.new }
{
    if c.front() == COLON {
        let scopes = Scopes::new(alloc, names);
        c.word(COLON)?;
        return some_inits(alloc, &scopes, c);
    }
    Ok(Items::new(alloc))
}

/// The initialisers of bases and members behind `:`, if it comes next (12.6.2).
pub fn member_inits(
    alloc: Global,
    names: &TypeNames,
    c: &mut Cursor<'_>,
) -> Result<Items<MemberInit>, Stop>
    ensures { Reads (reading (rule.member_inits names.now) c.old) result c.new }
{
    inits_read(alloc, names, c)
}
