//! Statements and parts of them that are read past.

ghost use Rattle.cf_parse_decl.specs.Insides.{insides};
ghost use Rattle.cf_parse_decl.specs.Nests.{Nests};
ghost use Rattle.cf_stuck_statement.specs.Finds.{Passes};
ghost use Rattle.cf_stuck_statement.specs.Parts.{known_at};
ghost use Rattle.cf_stuck_statement.specs.Statements as spec;

use crate::finder::Finder;
use crate::parts::{past_case, past_default, past_expression};
use cf_parse_decl::{Known, Node, Wanted};
use cf_parse_expr::words::{CASE, DEFAULT};
use cf_parse_expr::{Cursor, Stop};
use std::alloc::Global;

impl<F: Fn(Global, usize, Wanted, &mut Known, &mut Cursor<'_>) -> Result<Node, Stop>, G> Finder<
    F,
    G,
> {
    /// Goes past a statement that stands inside.
    pub fn past_inner(&self, known: &mut Known, c: &mut Cursor<'_>) -> Result<(), Stop>
        requires { Nests self.now.grammar.depth (F.pre self.now.grammar.inside) (F.post self.now.grammar.inside) }
        ensures { Passes (known_at ((insides self.now.grammar.depth).statement known.old) c.old) result known.new c.new }
    {
        self.grammar.inner_statement(known, c)?;
        Ok(())
    }

    /// Goes past a declaration.
    fn past_declaration(&self, known: &mut Known, c: &mut Cursor<'_>) -> Result<(), Stop>
        requires { Nests self.now.grammar.depth (F.pre self.now.grammar.inside) (F.post self.now.grammar.inside) }
        ensures { Passes (known_at ((insides self.now.grammar.depth).declaration known.old) c.old) result known.new c.new }
    {
        self.grammar.inner_declaration(known, c)?;
        Ok(())
    }

    /// Goes past a whole statement.
    #[tactic(auto, unfolding(crate::specs::Statements::past_statement))]
    pub fn past_statement(&self, known: &mut Known, c: &mut Cursor<'_>) -> Result<(), Stop>
        requires { Nests self.now.grammar.depth (F.pre self.now.grammar.inside) (F.post self.now.grammar.inside) }
        ensures { Passes (spec.past_statement self.now.grammar.depth known.old c.old) result known.new c.new }
    {
        self.grammar.statement(known, c)?;
        Ok(())
    }

    /// Goes past the first part of a `for` (6.5.3).
    #[tactic(auto, unfolding(crate::specs::Statements::past_first))]
    pub fn past_first(&self, known: &mut Known, c: &mut Cursor<'_>) -> Result<(), Stop>
        requires { Nests self.now.grammar.depth (F.pre self.now.grammar.inside) (F.post self.now.grammar.inside) }
        ensures { Passes (spec.past_first (insides self.now.grammar.depth) known.old c.old) result known.new c.new }
    {
        let before = c.rest();
        let saved = known.copy(self.grammar.alloc)?;
        match self.past_declaration(known, c) {
            Ok(()) => Ok(()),
            Err(Stop::Nothing) => {
                *known = saved;
                c.set(before);
                past_expression(self.grammar.alloc, known, c)
            }
            Err(Stop::Memory) => Err(Stop::Memory),
        }
    }

    /// Goes past what stands in the braces of a `switch` (6.4.2).
    #[tactic(auto, unfolding(crate::specs::Statements::past_switched))]
    pub fn past_switched(&self, known: &mut Known, c: &mut Cursor<'_>) -> Result<(), Stop>
        requires { Nests self.now.grammar.depth (F.pre self.now.grammar.inside) (F.post self.now.grammar.inside) }
        ensures { Passes (spec.past_switched (insides self.now.grammar.depth) known.old c.old) result known.new c.new }
    {
        if c.front() == CASE {
            return past_case(self.grammar.alloc, known, c);
        }
        if c.front() == DEFAULT {
            return past_default(known, c);
        }
        self.past_inner(known, c)
    }
}
