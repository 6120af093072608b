//! Declarations: a class among their specifiers, and a function's body behind their declarator (7, 8.3).

ghost use Rattle.cf_parse_decl.specs.Nests.{Nests};
ghost use Rattle.cf_parse_decl.specs.Reads.{Gives};
ghost use Rattle.cf_stuck.specs.Members as spec;
ghost use Rattle.cf_stuck_statement.specs.Finds.{Finds};
ghost use Rattle.cf_stuck_statement.specs.Inside.{places};
ghost use Rattle.cf_stuck_statement.specs.Searches.{Searches};

use crate::seeker::Seeker;
use crate::words::{begins_access, begins_class, begins_linkage};
use cf_parse_decl::{Known, Node, Wanted};
use cf_parse_expr::words::SEMICOLON;
use cf_parse_expr::{Cursor, Stop};
use cf_parse_member::begins_body;
use cf_parse_simple::{Declared, one_declarator, specifiers};
use cf_stuck_statement::Spot;
use cf_unit::Given;
use std::alloc::Global;

impl<
    F: Fn(Global, usize, Wanted, &mut Known, &mut Cursor<'_>) -> Result<Node, Stop>,
    G: Fn(Global, usize, Wanted, &Known, &Cursor<'_>) -> Result<Spot, Stop>,
> Seeker<F, G> {
    #[tactic(auto, unfolding(crate::specs::Members::specifiers_at))]
    fn past_specifiers(&self, known: &mut Known, c: &mut Cursor<'_>) -> Result<Given, Stop>
        requires { Nests self.now.finder.grammar.depth (F.pre self.now.finder.grammar.inside) (F.post self.now.finder.grammar.inside) }
        ensures { Gives (spec.specifiers_at self.now.finder.grammar.depth known.old c.old) result known.new c.new }
    {
        specifiers(&self.finder.grammar, known, c)
    }

    #[tactic(auto, unfolding(crate::specs::Members::declarator_at))]
    fn past_declarator(
        &self,
        home: usize,
        given: &Given,
        known: &mut Known,
        c: &mut Cursor<'_>,
    ) -> Result<Declared, Stop>
        ensures { Gives (spec.declarator_at self.now.finder.grammar.depth home given.now known.old c.old) result known.new c.new }
    {
        one_declarator(&self.finder.grammar, home, given, known, c)
    }

    /// Where a class that ends specifiers is stuck.
    #[tactic(auto, unfolding(crate::specs::Members::class_here))]
    fn class_here(&self, known: &Known, c: &Cursor<'_>) -> Result<Spot, Stop>
        requires { Searches self.now.finder.grammar.depth (G.pre self.now.finder.search) (G.post self.now.finder.search) }
        ensures { Finds (spec.class_here self.now.finder.grammar.depth (places self.now.finder.grammar.depth) known.now c.now) result }
    {
        if begins_class(c) {
            return self.finder.inner_spot(Wanted::Class, known, c);
        }
        Err(Stop::Nothing)
    }

    /// Where specifiers are stuck: in the class that ends them.
    #[tactic(auto, unfolding(crate::specs::Members::in_specifiers))]
    pub fn in_specifiers(&self, known: &Known, c: &Cursor<'_>) -> Result<Spot, Stop>
        requires reads { Nests self.now.finder.grammar.depth (F.pre self.now.finder.grammar.inside) (F.post self.now.finder.grammar.inside) }
        requires finds { Searches self.now.finder.grammar.depth (G.pre self.now.finder.search) (G.post self.now.finder.search) }
        ensures { Finds (spec.in_specifiers self.now.finder.grammar.depth (places self.now.finder.grammar.depth) known.now c.now) result }
    {
        let mut after = known.copy(self.finder.grammar.alloc)?;
        let mut ahead = Cursor::new(c.rest());
        self.past_specifiers(&mut after, &mut ahead)?;
        self.class_here(&after, &ahead)
    }

    #[tactic(auto, unfolding(crate::specs::Members::behind_declarator))]
    fn behind_declarator(
        &self,
        declared: &Declared,
        known: &Known,
        c: &Cursor<'_>,
    ) -> Result<Spot, Stop>
        requires reads { Nests self.now.finder.grammar.depth (F.pre self.now.finder.grammar.inside) (F.post self.now.finder.grammar.inside) }
        requires finds { Searches self.now.finder.grammar.depth (G.pre self.now.finder.search) (G.post self.now.finder.search) }
        ensures { Finds (spec.behind_declarator self.now.finder.grammar.depth (places self.now.finder.grammar.depth) (declared.now, known.now) c.now) result }
    {
        if begins_body(c) {
            return self.defined(declared, known, c);
        }
        Err(Stop::Nothing)
    }

    /// Where what stands behind specifiers is stuck: in the body of a function.
    #[tactic(auto, unfolding(crate::specs::Members::behind_given))]
    fn behind_given(
        &self,
        home: usize,
        given: &Given,
        known: &Known,
        c: &Cursor<'_>,
    ) -> Result<Spot, Stop>
        requires reads { Nests self.now.finder.grammar.depth (F.pre self.now.finder.grammar.inside) (F.post self.now.finder.grammar.inside) }
        requires finds { Searches self.now.finder.grammar.depth (G.pre self.now.finder.search) (G.post self.now.finder.search) }
        ensures { Finds (spec.behind_given self.now.finder.grammar.depth (places self.now.finder.grammar.depth) home (given.now, known.now) c.now) result }
    {
        if c.front() == SEMICOLON {
            return Err(Stop::Nothing);
        }
        let mut after = known.copy(self.finder.grammar.alloc)?;
        let mut ahead = Cursor::new(c.rest());
        let declared = self.past_declarator(home, given, &mut after, &mut ahead)?;
        self.behind_declarator(&declared, &after, &ahead)
    }

    #[tactic(auto, unfolding(crate::specs::Members::behind_specifiers))]
    fn behind_specifiers(
        &self,
        home: usize,
        given: &Given,
        known: &Known,
        c: &Cursor<'_>,
    ) -> Result<Spot, Stop>
        requires reads { Nests self.now.finder.grammar.depth (F.pre self.now.finder.grammar.inside) (F.post self.now.finder.grammar.inside) }
        requires finds { Searches self.now.finder.grammar.depth (G.pre self.now.finder.search) (G.post self.now.finder.search) }
        ensures { Finds (spec.behind_specifiers self.now.finder.grammar.depth (places self.now.finder.grammar.depth) home (given.now, known.now) c.now) result }
    {
        match self.class_here(known, c) {
            Ok(spot) => Ok(spot),
            Err(Stop::Nothing) => self.behind_given(home, given, known, c),
            Err(Stop::Memory) => Err(Stop::Memory),
        }
    }

    /// Where a declaration or a function is stuck, that stands in the last of so many open scopes.
    #[tactic(auto, unfolding(crate::specs::Members::declared))]
    fn declared(&self, home: usize, known: &Known, c: &Cursor<'_>) -> Result<Spot, Stop>
        requires reads { Nests self.now.finder.grammar.depth (F.pre self.now.finder.grammar.inside) (F.post self.now.finder.grammar.inside) }
        requires finds { Searches self.now.finder.grammar.depth (G.pre self.now.finder.search) (G.post self.now.finder.search) }
        ensures { Finds (spec.declared self.now.finder.grammar.depth (places self.now.finder.grammar.depth) home known.now c.now) result }
    {
        let mut after = known.copy(self.finder.grammar.alloc)?;
        let mut ahead = Cursor::new(c.rest());
        let given = self.past_specifiers(&mut after, &mut ahead)?;
        self.behind_specifiers(home, &given, &after, &ahead)
    }

    /// Where a member is stuck (9.2).
    #[tactic(auto, unfolding(crate::specs::Members::member))]
    pub fn member(&self, known: &Known, c: &Cursor<'_>) -> Result<Spot, Stop>
        requires reads { Nests self.now.finder.grammar.depth (F.pre self.now.finder.grammar.inside) (F.post self.now.finder.grammar.inside) }
        requires finds { Searches self.now.finder.grammar.depth (G.pre self.now.finder.search) (G.post self.now.finder.search) }
        ensures { Finds (spec.member self.now.finder.grammar.depth (places self.now.finder.grammar.depth) known.now c.now) result }
    {
        if begins_access(c) {
            return Err(Stop::Nothing);
        }
        self.declared(known.open_scopes(), known, c)
    }

    /// Where an item of a file is stuck (17). A linkage specification is looked at as a whole.
    #[tactic(auto, unfolding(crate::specs::Members::item))]
    pub fn item(&self, known: &Known, c: &Cursor<'_>) -> Result<Spot, Stop>
        requires reads { Nests self.now.finder.grammar.depth (F.pre self.now.finder.grammar.inside) (F.post self.now.finder.grammar.inside) }
        requires finds { Searches self.now.finder.grammar.depth (G.pre self.now.finder.search) (G.post self.now.finder.search) }
        ensures { Finds (spec.item self.now.finder.grammar.depth (places self.now.finder.grammar.depth) known.now c.now) result }
    {
        if begins_linkage(c) {
            return Err(Stop::Nothing);
        }
        self.declared(0, known, c)
    }
}
