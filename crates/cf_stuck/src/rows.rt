//! Rows of members and of items.
//!
//! What is known before the element that cannot be read is found by reading a row twice, as in `cf_stuck_statement`.

ghost use Rattle.std.specs.Prelude.{◌≡◌, length, IfOk};
ghost use Rattle.cf_unit.specs.Read.{element, row};
ghost use Rattle.cf_parse_decl.specs.Nests.{Nests};
ghost use Rattle.cf_stuck.specs.Members as spec;
ghost use Rattle.cf_stuck_statement.specs.Finds.{Finds, Passes};
ghost use Rattle.cf_stuck_statement.specs.Inside.{places};
ghost use Rattle.cf_stuck_statement.specs.Parts.{turns};
ghost use Rattle.cf_stuck_statement.specs.Searches.{Searches};

use crate::seeker::Seeker;
use cf_base::Memory;
use cf_parse_decl::{Known, Node, Wanted};
use cf_parse_expr::words::RIGHT_BRACE;
use cf_parse_expr::{Cursor, Stop};
use cf_parse_member::one_member;
use cf_parse_unit::one_item;
use cf_stuck_statement::Spot;
use std::alloc::Global;

/// What a row is made of.
#[derive(Clone, Copy)]
pub enum Element {
    /// A member, up to the `}` of its class (9.2).
    Member,
    /// An item, up to the end of the file (17).
    Item,
}

/// Whether a row ends here.
pub fn ends(element: Element, c: &Cursor<'_>) -> bool
    ensures { result ≡ spec.ends 0 element c.now }
{
    match element {
        Element::Member => c.front() == RIGHT_BRACE,
        Element::Item => c.len() == 0,
    }
}

impl<F: Fn(Global, usize, Wanted, &mut Known, &mut Cursor<'_>) -> Result<Node, Stop>, G> Seeker<
    F,
    G,
> {
    #[tactic(auto, unfolding(crate::specs::Members::past_member))]
    fn past_member(&self, known: &mut Known, c: &mut Cursor<'_>) -> Result<(), Stop>
        requires { Nests self.now.finder.grammar.depth (F.pre self.now.finder.grammar.inside) (F.post self.now.finder.grammar.inside) }
        ensures { Passes (spec.past_member self.now.finder.grammar.depth known.old c.old) result known.new c.new }
    {
        one_member(&self.finder.grammar, known, c)?;
        Ok(())
    }

    #[tactic(auto, unfolding(crate::specs::Members::past_item))]
    fn past_item(&self, known: &mut Known, c: &mut Cursor<'_>) -> Result<(), Stop>
        requires { Nests self.now.finder.grammar.depth (F.pre self.now.finder.grammar.inside) (F.post self.now.finder.grammar.inside) }
        ensures { Passes (spec.past_item self.now.finder.grammar.depth known.old c.old) result known.new c.new }
    {
        one_item(&self.finder.grammar, known, c)?;
        Ok(())
    }

    /// Goes past an element.
    fn past(&self, item: Element, known: &mut Known, c: &mut Cursor<'_>) -> Result<(), Stop>
        requires { Nests self.now.finder.grammar.depth (F.pre self.now.finder.grammar.inside) (F.post self.now.finder.grammar.inside) }
        ensures { Passes (spec.past self.now.finder.grammar.depth item known.old c.old) result known.new c.new }
    {
        match item {
            Element::Member => self.past_member(known, c),
            Element::Item => self.past_item(known, c),
        }
    }

    /// Goes past an element that takes a token, where the row doesn't end.
    fn turn(&self, item: Element, known: &mut Known, c: &mut Cursor<'_>) -> Result<(), Stop>
        requires { Nests self.now.finder.grammar.depth (F.pre self.now.finder.grammar.inside) (F.post self.now.finder.grammar.inside) }
        ensures { Passes (element (spec.ends self.now.finder.grammar.depth item) (spec.past self.now.finder.grammar.depth item known.old) c.old) result known.new c.new }
    {
        if ends(item, c) {
            return Err(Stop::Nothing);
        }
        let left = c.len();
        match self.past(item, known, c) {
            Ok(()) => {
                if c.len() >= left {
                    return Err(Stop::Nothing);
                }
                Ok(())
            }
            Err(stop) => Err(stop),
        }
    }

    /// How many elements can be read.
    fn count(&self, item: Element, known: &mut Known, c: &mut Cursor<'_>) -> Result<usize, Memory>
        requires { Nests self.now.finder.grammar.depth (F.pre self.now.finder.grammar.inside) (F.post self.now.finder.grammar.inside) }
        ensures { IfOk result (λ n. turns (λ b. element (spec.ends self.now.finder.grammar.depth item) (spec.past self.now.finder.grammar.depth item b)) n known.old c.old
            ≡ row (λ b. element (spec.ends self.now.finder.grammar.depth item) (spec.past self.now.finder.grammar.depth item b)) (length c.old) known.old c.old) }
    {
        let most = c.len();
        for count in 0..most {
            match self.turn(item, known, c) {
                Ok(()) => {}
                Err(Stop::Nothing) => return Ok(count),
                Err(Stop::Memory) => return Err(Memory),
            }
        }
        Ok(most)
    }

    /// Goes past so many elements.
    fn past_all(
        &self,
        item: Element,
        count: usize,
        known: &mut Known,
        c: &mut Cursor<'_>,
    ) -> Result<(), Stop>
        requires { Nests self.now.finder.grammar.depth (F.pre self.now.finder.grammar.inside) (F.post self.now.finder.grammar.inside) }
        ensures { Passes (turns (λ b. element (spec.ends self.now.finder.grammar.depth item) (spec.past self.now.finder.grammar.depth item b)) count known.old c.old) result known.new c.new }
    {
        for _turn in 0..count {
            match self.turn(item, known, c) {
                Ok(()) => {}
                Err(stop) => return Err(stop),
            }
        }
        Ok(())
    }

    /// Goes past the elements that can be read.
    #[tactic(auto, unfolding(crate::specs::Members::last_of))]
    pub fn to_last(&self, item: Element, known: &mut Known, c: &mut Cursor<'_>) -> Result<(), Stop>
        requires { Nests self.now.finder.grammar.depth (F.pre self.now.finder.grammar.inside) (F.post self.now.finder.grammar.inside) }
        ensures { Passes (spec.last_of self.now.finder.grammar.depth item known.old c.old) result known.new c.new }
    {
        let before = c.rest();
        let saved = known.copy(self.finder.grammar.alloc)?;
        let count = self.count(item, known, c)?;
        *known = saved;
        c.set(before);
        self.past_all(item, count, known, c)
    }
}

impl<
    F: Fn(Global, usize, Wanted, &mut Known, &mut Cursor<'_>) -> Result<Node, Stop>,
    G: Fn(Global, usize, Wanted, &Known, &Cursor<'_>) -> Result<Spot, Stop>,
> Seeker<F, G> {
    fn in_element(&self, item: Element, known: &Known, c: &Cursor<'_>) -> Result<Spot, Stop>
        requires reads { Nests self.now.finder.grammar.depth (F.pre self.now.finder.grammar.inside) (F.post self.now.finder.grammar.inside) }
        requires finds { Searches self.now.finder.grammar.depth (G.pre self.now.finder.search) (G.post self.now.finder.search) }
        ensures { Finds (spec.in_element self.now.finder.grammar.depth (places self.now.finder.grammar.depth) item known.now c.now) result }
    {
        match item {
            Element::Member => self.member(known, c),
            Element::Item => self.item(known, c),
        }
    }

    /// A place in the element that begins here, and else its first token. There is none where the row ends.
    #[tactic(auto, unfolding(crate::specs::Members::unended_at))]
    pub fn unended(&self, item: Element, known: Known, c: &Cursor<'_>) -> Result<Spot, Stop>
        requires reads { Nests self.now.finder.grammar.depth (F.pre self.now.finder.grammar.inside) (F.post self.now.finder.grammar.inside) }
        requires finds { Searches self.now.finder.grammar.depth (G.pre self.now.finder.search) (G.post self.now.finder.search) }
        ensures { Finds (spec.unended_at self.now.finder.grammar.depth (places self.now.finder.grammar.depth) item known c.now) result }
    {
        if ends(item, c) {
            return Err(Stop::Nothing);
        }
        match self.in_element(item, &known, c) {
            Ok(spot) => Ok(spot),
            Err(Stop::Nothing) => Ok(Spot {
                at: c.place(),
                names: known.names,
            }),
            Err(Stop::Memory) => Err(Stop::Memory),
        }
    }

    /// Where the elements of a row are stuck.
    #[tactic(auto, unfolding(crate::specs::Members::row_of))]
    pub fn row(&self, item: Element, known: Known, c: &Cursor<'_>) -> Result<Spot, Stop>
        requires reads { Nests self.now.finder.grammar.depth (F.pre self.now.finder.grammar.inside) (F.post self.now.finder.grammar.inside) }
        requires finds { Searches self.now.finder.grammar.depth (G.pre self.now.finder.search) (G.post self.now.finder.search) }
        ensures { Finds (spec.row_of self.now.finder.grammar.depth (places self.now.finder.grammar.depth) item known c.now) result }
    {
        let mut last = known;
        let mut ahead = Cursor::new(c.rest());
        self.to_last(item, &mut last, &mut ahead)?;
        self.unended(item, last, &ahead)
    }
}
