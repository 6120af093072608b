//! Functions with bodies (8.3, 9.3.2, 12.6.2).

ghost use Rattle.cf_parse_decl.specs.Nests.{Nests};
ghost use Rattle.cf_parse_expr.specs.Reads.{Reads};
ghost use Rattle.cf_stuck.specs.Members as spec;
ghost use Rattle.cf_stuck_statement.specs.Finds.{Finds};
ghost use Rattle.cf_stuck_statement.specs.Inside.{places};
ghost use Rattle.cf_stuck_statement.specs.Searches.{Searches};

use crate::seeker::Seeker;
use cf_base::Items;
use cf_enter::enter_params;
use cf_parse_body::{late_names, member_inits};
use cf_parse_decl::{Bodies, Known, Node, Wanted};
use cf_parse_expr::{Cursor, Stop};
use cf_parse_simple::Declared;
use cf_stuck_statement::Spot;
use cf_syntax::TypeNames;
use cf_unit::MemberInit;
use std::alloc::Global;

/// Goes past the initialisers of bases and members.
#[tactic(auto, unfolding(crate::specs::Members::inits_at))]
fn past_inits(
    alloc: Global,
    depth: usize,
    names: &TypeNames,
    c: &mut Cursor<'_>,
) -> Result<Items<MemberInit>, Stop>
    ensures { Reads (spec.inits_at depth names.now c.old) result c.new }
{
    member_inits(alloc, names, c)
}

impl<
    F: Fn(Global, usize, Wanted, &mut Known, &mut Cursor<'_>) -> Result<Node, Stop>,
    G: Fn(Global, usize, Wanted, &Known, &Cursor<'_>) -> Result<Spot, Stop>,
> Seeker<F, G> {
    /// Where a block is stuck.
    #[tactic(auto, unfolding(crate::specs::Members::block_at))]
    fn block(&self, names: TypeNames, c: &Cursor<'_>) -> Result<Spot, Stop>
        requires reads { Nests self.now.finder.grammar.depth (F.pre self.now.finder.grammar.inside) (F.post self.now.finder.grammar.inside) }
        requires finds { Searches self.now.finder.grammar.depth (G.pre self.now.finder.search) (G.post self.now.finder.search) }
        ensures { Finds (spec.block_at self.now.finder.grammar.depth (places self.now.finder.grammar.depth) names c.now) result }
    {
        let known = Known {
            names,
            bodies: Bodies::AtOnce,
            own: None,
        };
        self.finder.block(&known, c)
    }

    /// Where the initialisers and the block of a function are stuck.
    #[tactic(auto, unfolding(crate::specs::Members::body))]
    fn body(&self, names: TypeNames, c: &Cursor<'_>) -> Result<Spot, Stop>
        requires reads { Nests self.now.finder.grammar.depth (F.pre self.now.finder.grammar.inside) (F.post self.now.finder.grammar.inside) }
        requires finds { Searches self.now.finder.grammar.depth (G.pre self.now.finder.search) (G.post self.now.finder.search) }
        ensures { Finds (spec.body self.now.finder.grammar.depth (places self.now.finder.grammar.depth) names c.now) result }
    {
        let mut ahead = Cursor::new(c.rest());
        past_inits(
            self.finder.grammar.alloc,
            self.finder.grammar.depth,
            &names,
            &mut ahead,
        )?;
        self.block(names, &ahead)
    }

    /// Where what stands behind the declarator of a function is stuck.
    #[tactic(auto, unfolding(crate::specs::Members::defined))]
    pub fn defined(&self, declared: &Declared, known: &Known, c: &Cursor<'_>) -> Result<Spot, Stop>
        requires reads { Nests self.now.finder.grammar.depth (F.pre self.now.finder.grammar.inside) (F.post self.now.finder.grammar.inside) }
        requires finds { Searches self.now.finder.grammar.depth (G.pre self.now.finder.search) (G.post self.now.finder.search) }
        ensures { Finds (spec.defined self.now.finder.grammar.depth (places self.now.finder.grammar.depth) (declared.now, known.now) c.now) result }
    {
        let alloc = self.finder.grammar.alloc;
        match &known.bodies {
            Bodies::AtOnce => {
                let mut names = known.names.copy()?;
                enter_params(alloc, &mut names, declared.tree.get())?;
                self.body(names, c)
            }
            Bodies::LeftOut => Err(Stop::Nothing),
            Bodies::Late(end) => {
                let mut names = late_names(end.copy()?, &known.names)?;
                enter_params(alloc, &mut names, declared.tree.get())?;
                self.body(names, c)
            }
        }
    }
}
