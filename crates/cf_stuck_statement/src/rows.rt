//! Rows of statements up to a `}`.
//!
//! What is known before the element that cannot be read is found by reading a row twice: once to count its elements, and once
//! more up to that element. So what is known is copied once for a row, and not once for each element.

ghost use Rattle.std.specs.Prelude.{◌≡◌, length, IfOk};
ghost use Rattle.cf_syntax.specs.Grammar.{sees};
ghost use Rattle.cf_unit.specs.Pieces.{right_brace};
ghost use Rattle.cf_unit.specs.Read.{element, row};
ghost use Rattle.cf_parse_decl.specs.Insides.{insides};
ghost use Rattle.cf_parse_decl.specs.Nests.{Nests};
ghost use Rattle.cf_stuck_statement.specs.Finds.{Passes};
ghost use Rattle.cf_stuck_statement.specs.Parts.{turns};
ghost use Rattle.cf_stuck_statement.specs.Statements as spec;

use crate::finder::Finder;
use cf_base::Memory;
use cf_parse_decl::{Known, Node, Wanted};
use cf_parse_expr::words::RIGHT_BRACE;
use cf_parse_expr::{Cursor, Stop};
use std::alloc::Global;

/// What a row in braces is made of.
#[derive(Clone, Copy)]
pub enum Element {
    /// A statement (6.3).
    Statement,
    /// A label or a statement of a `switch` (6.4.2).
    Switched,
}

impl<F: Fn(Global, usize, Wanted, &mut Known, &mut Cursor<'_>) -> Result<Node, Stop>, G> Finder<
    F,
    G,
> {
    /// Goes past an element.
    fn past(&self, element: Element, known: &mut Known, c: &mut Cursor<'_>) -> Result<(), Stop>
        requires { Nests self.now.grammar.depth (F.pre self.now.grammar.inside) (F.post self.now.grammar.inside) }
        ensures { Passes (spec.past (insides self.now.grammar.depth) element known.old c.old) result known.new c.new }
    {
        match element {
            Element::Statement => self.past_inner(known, c),
            Element::Switched => self.past_switched(known, c),
        }
    }

    /// Goes past an element that takes a token, where the row doesn't end.
    fn turn(&self, item: Element, known: &mut Known, c: &mut Cursor<'_>) -> Result<(), Stop>
        requires { Nests self.now.grammar.depth (F.pre self.now.grammar.inside) (F.post self.now.grammar.inside) }
        ensures { Passes (element (sees right_brace) (spec.past (insides self.now.grammar.depth) item known.old) c.old) result known.new c.new }
    {
        if c.front() == RIGHT_BRACE {
            return Err(Stop::Nothing);
        }
        let left = c.len();
        match self.past(item, known, c) {
            Ok(()) => {
                if c.len() >= left {
                    return Err(Stop::Nothing);
                }
                Ok(())
            }
            Err(stop) => Err(stop),
        }
    }

    /// How many elements can be read.
    fn count(&self, item: Element, known: &mut Known, c: &mut Cursor<'_>) -> Result<usize, Memory>
        requires { Nests self.now.grammar.depth (F.pre self.now.grammar.inside) (F.post self.now.grammar.inside) }
        ensures { IfOk result (λ n. turns (λ b. element (sees right_brace) (spec.past (insides self.now.grammar.depth) item b)) n known.old c.old
            ≡ row (λ b. element (sees right_brace) (spec.past (insides self.now.grammar.depth) item b)) (length c.old) known.old c.old) }
    {
        let most = c.len();
        for count in 0..most {
            match self.turn(item, known, c) {
                Ok(()) => {}
                Err(Stop::Nothing) => return Ok(count),
                Err(Stop::Memory) => return Err(Memory),
            }
        }
        Ok(most)
    }

    /// Goes past so many elements.
    fn past_all(
        &self,
        item: Element,
        count: usize,
        known: &mut Known,
        c: &mut Cursor<'_>,
    ) -> Result<(), Stop>
        requires { Nests self.now.grammar.depth (F.pre self.now.grammar.inside) (F.post self.now.grammar.inside) }
        ensures { Passes (turns (λ b. element (sees right_brace) (spec.past (insides self.now.grammar.depth) item b)) count known.old c.old) result known.new c.new }
    {
        for _turn in 0..count {
            match self.turn(item, known, c) {
                Ok(()) => {}
                Err(stop) => return Err(stop),
            }
        }
        Ok(())
    }

    /// Goes past the elements that can be read, up to a `}`.
    #[tactic(auto, unfolding(crate::specs::Statements::last_of))]
    pub fn to_last(&self, item: Element, known: &mut Known, c: &mut Cursor<'_>) -> Result<(), Stop>
        requires { Nests self.now.grammar.depth (F.pre self.now.grammar.inside) (F.post self.now.grammar.inside) }
        ensures { Passes (spec.last_of (insides self.now.grammar.depth) item known.old c.old) result known.new c.new }
    {
        let before = c.rest();
        let saved = known.copy(self.grammar.alloc)?;
        let count = self.count(item, known, c)?;
        *known = saved;
        c.set(before);
        self.past_all(item, count, known, c)
    }
}
