//! The place where a file is refused.

ghost use Rattle.std.specs.Prelude.{◌≡◌, IfOk};
ghost use Rattle.cf_stuck.specs.Members as spec;
ghost use Rattle.cf_stuck.specs.Place.{place_of, refused_at};
ghost use Rattle.cf_stuck_statement.specs.Finds.{Finds};

use crate::knot::find_inside;
use crate::rows::Element;
use crate::seeker::Seeker;
use cf_base::Memory;
use cf_parse_decl::{Bodies, Grammar, Known};
use cf_parse_expr::{Cursor, Stop};
use cf_parse_unit::inside;
use cf_stuck_statement::{Finder, Spot};
use cf_syntax::TypeNames;
use cf_tokens::Token;
use std::alloc::Global;

/// Where the items of a file are stuck, where phrases stand inside one another to this depth at most.
#[tactic(auto, unfolding(crate::specs::Members::items_spot))]
fn items(alloc: Global, depth: usize, c: &Cursor<'_>) -> Result<Spot, Stop>
    ensures { Finds (spec.items_spot depth c.now) result }
{
    let grammar = Grammar {
        alloc,
        depth,
        inside,
    };
    let finder = Finder {
        grammar,
        search: find_inside,
    };
    let known = Known {
        names: TypeNames::new(alloc),
        bodies: Bodies::AtOnce,
        own: None,
    };
    Seeker { finder }.row(Element::Item, known, c)
}

/// Where a file is stuck: a phrase stands inside others not deeper than there are tokens.
fn file(alloc: Global, c: &Cursor<'_>) -> Result<Spot, Stop>
    ensures { Finds (spec.file_spot c.now) result }
{
    let depth = c.depth();
    items(alloc, depth, c)
}

/// The place of what is stuck.
fn place(alloc: Global, tokens: &[Token]) -> Result<Option<u32>, Memory>
    ensures { IfOk result (λ at. at ≡ place_of (spec.file_spot tokens.now)) }
{
    let c = Cursor::new(tokens);
    match file(alloc, &c) {
        Ok(spot) => Ok(Some(spot.at)),
        Err(Stop::Nothing) => Ok(None),
        Err(Stop::Memory) => Err(Memory),
    }
}

/// The place, in bytes, of the first element of a file that has no spelling (17), and `None` for a file that has one. Only want of memory
/// is an error.
///
/// Each level of nesting reads its element that has no spelling a few times more, so the time is the length of the file times
/// the nesting of that place.
pub fn stuck(alloc: Global, tokens: &[Token]) -> Result<Option<u32>, Memory>
    ensures { IfOk result (λ at. at ≡ refused_at tokens.now) }
{
    place(alloc, tokens)
}
