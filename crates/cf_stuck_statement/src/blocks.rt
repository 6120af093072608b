//! Braces with statements inside (6.3, 6.4.2).

ghost use Rattle.cf_parse_decl.specs.Insides.{insides};
ghost use Rattle.cf_parse_decl.specs.Nests.{Nests};
ghost use Rattle.cf_stuck_statement.specs.Finds.{Finds};
ghost use Rattle.cf_stuck_statement.specs.Inside.{places};
ghost use Rattle.cf_stuck_statement.specs.Searches.{Searches};
ghost use Rattle.cf_stuck_statement.specs.Statements as spec;

use crate::finder::Finder;
use crate::rows::Element;
use crate::spot::Spot;
use cf_parse_decl::{Known, Node, Wanted};
use cf_parse_expr::words::{CASE, DEFAULT, LEFT_BRACE, RIGHT_BRACE};
use cf_parse_expr::{Cursor, Stop};
use std::alloc::Global;

impl<
    F: Fn(Global, usize, Wanted, &mut Known, &mut Cursor<'_>) -> Result<Node, Stop>,
    G: Fn(Global, usize, Wanted, &Known, &Cursor<'_>) -> Result<Spot, Stop>,
> Finder<F, G> {
    /// Where what stands in the braces of a `switch` is stuck.
    #[tactic(auto, unfolding(crate::specs::Statements::switched))]
    fn switched(&self, known: &Known, c: &Cursor<'_>) -> Result<Spot, Stop>
        requires { Searches self.now.grammar.depth (G.pre self.now.search) (G.post self.now.search) }
        ensures { Finds (spec.switched (insides self.now.grammar.depth) (places self.now.grammar.depth) known.now c.now) result }
    {
        if c.front() == CASE {
            return Err(Stop::Nothing);
        }
        if c.front() == DEFAULT {
            return Err(Stop::Nothing);
        }
        self.inner_spot(Wanted::Statement, known, c)
    }

    fn in_element(&self, item: Element, known: &Known, c: &Cursor<'_>) -> Result<Spot, Stop>
        requires { Searches self.now.grammar.depth (G.pre self.now.search) (G.post self.now.search) }
        ensures { Finds (spec.in_element (insides self.now.grammar.depth) (places self.now.grammar.depth) item known.now c.now) result }
    {
        match item {
            Element::Statement => self.inner_spot(Wanted::Statement, known, c),
            Element::Switched => self.switched(known, c),
        }
    }

    /// A place in the element that begins here, and else its first token. There is none where the row ends.
    #[tactic(auto, unfolding(crate::specs::Statements::unended_at))]
    fn unended(&self, item: Element, known: Known, c: &Cursor<'_>) -> Result<Spot, Stop>
        requires { Searches self.now.grammar.depth (G.pre self.now.search) (G.post self.now.search) }
        ensures { Finds (spec.unended_at (insides self.now.grammar.depth) (places self.now.grammar.depth) item known c.now) result }
    {
        if c.front() == RIGHT_BRACE {
            return Err(Stop::Nothing);
        }
        match self.in_element(item, &known, c) {
            Ok(spot) => Ok(spot),
            Err(Stop::Nothing) => Ok(Spot {
                at: c.place(),
                names: known.names,
            }),
            Err(Stop::Memory) => Err(Stop::Memory),
        }
    }

    /// Where elements up to a `}` are stuck.
    #[tactic(auto, unfolding(crate::specs::Statements::row_of))]
    fn row(&self, item: Element, known: Known, c: &Cursor<'_>) -> Result<Spot, Stop>
        requires reads { Nests self.now.grammar.depth (F.pre self.now.grammar.inside) (F.post self.now.grammar.inside) }
        requires finds { Searches self.now.grammar.depth (G.pre self.now.search) (G.post self.now.search) }
        ensures { Finds (spec.row_of (insides self.now.grammar.depth) (places self.now.grammar.depth) item known c.now) result }
    {
        let mut last = known;
        let mut ahead = Cursor::new(c.rest());
        self.to_last(item, &mut last, &mut ahead)?;
        self.unended(item, last, &ahead)
    }

    /// Where what stands in braces is stuck, in a scope of its own.
    #[tactic(auto, unfolding(crate::specs::Statements::braced))]
    pub fn braced(&self, item: Element, known: &Known, c: &Cursor<'_>) -> Result<Spot, Stop>
        requires reads { Nests self.now.grammar.depth (F.pre self.now.grammar.inside) (F.post self.now.grammar.inside) }
        requires finds { Searches self.now.grammar.depth (G.pre self.now.search) (G.post self.now.search) }
        ensures { Finds (spec.braced (insides self.now.grammar.depth) (places self.now.grammar.depth) item known.now c.now) result }
    {
        let mut ahead = Cursor::new(c.rest());
        ahead.word(LEFT_BRACE)?;
        let mut inner = known.copy(self.grammar.alloc)?;
        inner.enter()?;
        self.row(item, inner, &ahead)
    }
}
