//! The recursion: what stands inside a phrase is gone through by the finders, one depth further in.

ghost use Rattle.cf_stuck_statement.specs.Finds.{Finds};
ghost use Rattle.cf_stuck_statement.specs.Inside.{places, stuck_inside};

use crate::seeker::Seeker;
use cf_parse_decl::{Grammar, Known, Wanted};
use cf_parse_expr::{Cursor, Stop};
use cf_parse_unit::inside;
use cf_stuck_statement::{Finder, Spot};
use std::alloc::Global;

/// Where what is wanted is stuck, where phrases stand inside one another to this depth at most.
#[cycle(finding)]
pub fn find_inside(
    alloc: Global,
    depth: usize,
    wanted: Wanted,
    known: &Known,
    c: &Cursor<'_>,
) -> Result<Spot, Stop>
    ensures { Finds (stuck_inside (places depth) wanted known.now c.now) result }
{
    match wanted {
        Wanted::Statement => find_statement(alloc, depth, known, c),
        Wanted::Class => find_class(alloc, depth, known, c),
        Wanted::Declaration => {
            let grammar = Grammar {
                alloc,
                depth,
                inside,
            };
            let finder = Finder {
                grammar,
                search: find_defined,
            };
            Seeker { finder }.in_specifiers(known, c)
        }
    }
}

/// The same for what a declaration asks, at its own depth: it asks for no declaration.
#[cycle(finding)]
fn find_defined(
    alloc: Global,
    depth: usize,
    wanted: Wanted,
    known: &Known,
    c: &Cursor<'_>,
) -> Result<Spot, Stop>
    ensures { Finds (stuck_inside (places depth) wanted known.now c.now) result }
{
    match wanted {
        Wanted::Statement => find_statement(alloc, depth, known, c),
        Wanted::Class => find_class(alloc, depth, known, c),
        Wanted::Declaration => Err(Stop::Memory),
    }
}

#[cycle(finding)]
fn find_statement(alloc: Global, depth: usize, known: &Known, c: &Cursor<'_>) -> Result<Spot, Stop>
    ensures { Finds ((places depth).statement known.now c.now) result }
{
    if depth == 0 {
        return Err(Stop::Nothing);
    }
    let grammar = Grammar {
        alloc,
        depth: depth - 1,
        inside,
    };
    Finder {
        grammar,
        search: find_inside,
    }
    .statement(known, c)
}

#[cycle(finding)]
fn find_class(alloc: Global, depth: usize, known: &Known, c: &Cursor<'_>) -> Result<Spot, Stop>
    ensures { Finds ((places depth).class known.now c.now) result }
{
    if depth == 0 {
        return Err(Stop::Nothing);
    }
    let grammar = Grammar {
        alloc,
        depth: depth - 1,
        inside,
    };
    let finder = Finder {
        grammar,
        search: find_inside,
    };
    Seeker { finder }.class(known, c)
}
