//! Classes (9, 10). A class that stands in no other is gone through twice: with bodies left out, for the names at its
//! end or where a member has no spelling, and then with bodies by these names.

ghost use Rattle.cf_parse_decl.specs.Nests.{Nests};
ghost use Rattle.cf_stuck.specs.Members as spec;
ghost use Rattle.cf_stuck.specs.Names.{FindsNames};
ghost use Rattle.cf_stuck_statement.specs.Finds.{Finds, Passes};
ghost use Rattle.cf_stuck_statement.specs.Inside.{places};
ghost use Rattle.cf_stuck_statement.specs.Searches.{Searches};

use crate::rows::Element;
use crate::seeker::Seeker;
use cf_parse_decl::{Bodies, Known, Node, Wanted};
use cf_parse_expr::words::RIGHT_BRACE;
use cf_parse_expr::{Cursor, Stop};
use cf_parse_member::class_head;
use cf_stuck_statement::Spot;
use cf_syntax::TypeNames;
use std::alloc::Global;

/// Goes behind the `{` of a class, with what is known there.
#[tactic(auto, unfolding(crate::specs::Members::class_head))]
fn past_head(alloc: Global, known: &mut Known, c: &mut Cursor<'_>) -> Result<(), Stop>
    ensures { Passes (spec.class_head known.old c.old) result known.new c.new }
{
    class_head(alloc, known, c)?;
    Ok(())
}

impl<
    F: Fn(Global, usize, Wanted, &mut Known, &mut Cursor<'_>) -> Result<Node, Stop>,
    G: Fn(Global, usize, Wanted, &Known, &Cursor<'_>) -> Result<Spot, Stop>,
> Seeker<F, G> {
    /// The names at the end of the members, or else where one is stuck.
    #[tactic(auto, unfolding(crate::specs::Members::names_there))]
    fn names_there(&self, known: Known, c: &Cursor<'_>) -> Result<TypeNames, Stop>
        requires reads { Nests self.now.finder.grammar.depth (F.pre self.now.finder.grammar.inside) (F.post self.now.finder.grammar.inside) }
        requires finds { Searches self.now.finder.grammar.depth (G.pre self.now.finder.search) (G.post self.now.finder.search) }
        ensures { FindsNames (spec.names_there self.now.finder.grammar.depth (places self.now.finder.grammar.depth) known c.now) result }
    {
        if c.front() == RIGHT_BRACE {
            return Ok(known.names);
        }
        let spot = self.unended(Element::Member, known, c)?;
        Ok(spot.names)
    }

    #[tactic(auto, unfolding(crate::specs::Members::end_names))]
    fn end_names(&self, known: Known, c: &Cursor<'_>) -> Result<TypeNames, Stop>
        requires reads { Nests self.now.finder.grammar.depth (F.pre self.now.finder.grammar.inside) (F.post self.now.finder.grammar.inside) }
        requires finds { Searches self.now.finder.grammar.depth (G.pre self.now.finder.search) (G.post self.now.finder.search) }
        ensures { FindsNames (spec.end_names self.now.finder.grammar.depth (places self.now.finder.grammar.depth) known c.now) result }
    {
        let mut last = known;
        let mut ahead = Cursor::new(c.rest());
        self.to_last(Element::Member, &mut last, &mut ahead)?;
        self.names_there(last, &ahead)
    }

    /// Where members are stuck, with bodies read by the names at the end of the class.
    #[tactic(auto, unfolding(crate::specs::Members::members_late))]
    fn members_late(&self, known: &Known, end: TypeNames, c: &Cursor<'_>) -> Result<Spot, Stop>
        requires reads { Nests self.now.finder.grammar.depth (F.pre self.now.finder.grammar.inside) (F.post self.now.finder.grammar.inside) }
        requires finds { Searches self.now.finder.grammar.depth (G.pre self.now.finder.search) (G.post self.now.finder.search) }
        ensures { Finds (spec.members_late self.now.finder.grammar.depth (places self.now.finder.grammar.depth) known.now end c.now) result }
    {
        let mut names = end;
        names.leave_to(known.open_scopes());
        let mut late = known.copy(self.finder.grammar.alloc)?;
        late.bodies = Bodies::Late(names);
        self.row(Element::Member, late, c)
    }

    #[tactic(auto, unfolding(crate::specs::Members::outermost))]
    fn outermost(&self, known: &Known, c: &Cursor<'_>) -> Result<Spot, Stop>
        requires reads { Nests self.now.finder.grammar.depth (F.pre self.now.finder.grammar.inside) (F.post self.now.finder.grammar.inside) }
        requires finds { Searches self.now.finder.grammar.depth (G.pre self.now.finder.search) (G.post self.now.finder.search) }
        ensures { Finds (spec.outermost self.now.finder.grammar.depth (places self.now.finder.grammar.depth) known.now c.now) result }
    {
        let mut first = known.copy(self.finder.grammar.alloc)?;
        first.bodies = Bodies::LeftOut;
        let end = self.end_names(first, c)?;
        self.members_late(known, end, c)
    }

    /// Where the members of a class are stuck, behind its `{`.
    #[tactic(auto, unfolding(crate::specs::Members::in_braces))]
    fn in_braces(&self, known: Known, c: &Cursor<'_>) -> Result<Spot, Stop>
        requires reads { Nests self.now.finder.grammar.depth (F.pre self.now.finder.grammar.inside) (F.post self.now.finder.grammar.inside) }
        requires finds { Searches self.now.finder.grammar.depth (G.pre self.now.finder.search) (G.post self.now.finder.search) }
        ensures { Finds (spec.in_braces self.now.finder.grammar.depth (places self.now.finder.grammar.depth) known c.now) result }
    {
        match &known.bodies {
            Bodies::AtOnce => self.outermost(&known, c),
            Bodies::LeftOut => self.row(Element::Member, known, c),
            Bodies::Late(_) => self.row(Element::Member, known, c),
        }
    }

    /// Where a class is stuck (9, 17).
    #[tactic(auto, unfolding(crate::specs::Members::class))]
    pub fn class(&self, known: &Known, c: &Cursor<'_>) -> Result<Spot, Stop>
        requires reads { Nests self.now.finder.grammar.depth (F.pre self.now.finder.grammar.inside) (F.post self.now.finder.grammar.inside) }
        requires finds { Searches self.now.finder.grammar.depth (G.pre self.now.finder.search) (G.post self.now.finder.search) }
        ensures { Finds (spec.class self.now.finder.grammar.depth (places self.now.finder.grammar.depth) known.now c.now) result }
    {
        let mut inner = known.copy(self.finder.grammar.alloc)?;
        let mut ahead = Cursor::new(c.rest());
        past_head(self.finder.grammar.alloc, &mut inner, &mut ahead)?;
        self.in_braces(inner, &ahead)
    }
}
