//! The finders take the functions for what stands inside as parameters, so that each is proved by itself.

ghost use Rattle.cf_stuck_statement.specs.Finds.{Finds};
ghost use Rattle.cf_stuck_statement.specs.Inside.{stuck_inside, places};
ghost use Rattle.cf_stuck_statement.specs.Searches.{Searches};

use crate::spot::Spot;
use cf_parse_decl::{Grammar, Known, Node, Wanted};
use cf_parse_expr::{Cursor, Stop};
use std::alloc::Global;

/// The finders at a depth. A finder answers a place, `Nothing` where no element is stuck, or want of memory.
#[derive(Clone, Copy)]
pub struct Finder<F, G> {
    /// The rules at this depth, with the function that reads what stands inside.
    pub grammar: Grammar<F>,
    /// Finds where what stands inside is stuck.
    pub search: G,
}

impl<
    F: Fn(Global, usize, Wanted, &mut Known, &mut Cursor<'_>) -> Result<Node, Stop>,
    G: Fn(Global, usize, Wanted, &Known, &Cursor<'_>) -> Result<Spot, Stop>,
> Finder<F, G> {
    /// Where what stands inside is stuck.
    pub fn inner_spot(&self, wanted: Wanted, known: &Known, c: &Cursor<'_>) -> Result<Spot, Stop>
        requires { Searches self.now.grammar.depth (G.pre self.now.search) (G.post self.now.search) }
        ensures { Finds (stuck_inside (places self.now.grammar.depth) wanted known.now c.now) result }
    {
        (self.search)(self.grammar.alloc, self.grammar.depth, wanted, known, c)
    }
}
