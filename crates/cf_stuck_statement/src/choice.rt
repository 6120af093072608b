//! Statements by their first words (6).

ghost use Rattle.cf_parse_decl.specs.Insides.{insides};
ghost use Rattle.cf_parse_decl.specs.Nests.{Nests};
ghost use Rattle.cf_stuck_statement.specs.Finds.{Finds};
ghost use Rattle.cf_stuck_statement.specs.Inside.{places};
ghost use Rattle.cf_stuck_statement.specs.Searches.{Searches};
ghost use Rattle.cf_stuck_statement.specs.Statements as spec;
ghost use Rattle.cf_unit.specs.Read.{stuck_at};
ghost use Rattle.cf_unit.specs.Files.{inner, by_tree};
ghost use Rattle.cf_unit.specs.Statements as rule;

use crate::finder::Finder;
use crate::parts::{in_brackets, maybe_comma};
use crate::rows::Element;
use crate::spot::Spot;
use cf_parse_decl::{Known, Node, Wanted};
use cf_parse_expr::words::{
    DO, ELSE, FOR, IF, LEFT_BRACE, LEFT_PAREN, RIGHT_PAREN, SEMICOLON, SWITCH, WHILE,
};
use cf_parse_expr::{Cursor, Stop};
use std::alloc::Global;

impl<
    F: Fn(Global, usize, Wanted, &mut Known, &mut Cursor<'_>) -> Result<Node, Stop>,
    G: Fn(Global, usize, Wanted, &Known, &Cursor<'_>) -> Result<Spot, Stop>,
> Finder<F, G> {
    /// Where what follows `else` is stuck, if that comes next.
    #[tactic(auto, unfolding(crate::specs::Statements::otherwise))]
    fn otherwise(&self, known: &Known, c: &Cursor<'_>) -> Result<Spot, Stop>
        requires { Searches self.now.grammar.depth (G.pre self.now.search) (G.post self.now.search) }
        ensures { Finds (spec.otherwise (insides self.now.grammar.depth) (places self.now.grammar.depth) known.now c.now) result }
    {
        if c.front() == ELSE {
            let mut ahead = Cursor::new(c.rest());
            ahead.word(ELSE)?;
            return self.inner_spot(Wanted::Statement, known, &ahead);
        }
        Err(Stop::Nothing)
    }

    /// Where what follows the condition of an `if` is stuck.
    #[tactic(auto, unfolding(crate::specs::Statements::if_behind))]
    fn if_behind(&self, known: &Known, c: &Cursor<'_>) -> Result<Spot, Stop>
        requires reads { Nests self.now.grammar.depth (F.pre self.now.grammar.inside) (F.post self.now.grammar.inside) }
        requires finds { Searches self.now.grammar.depth (G.pre self.now.search) (G.post self.now.search) }
        ensures { Finds (spec.if_behind (insides self.now.grammar.depth) (places self.now.grammar.depth) known.now c.now) result }
    {
        match self.inner_spot(Wanted::Statement, known, c) {
            Ok(spot) => Ok(spot),
            Err(Stop::Nothing) => {
                let mut after = known.copy(self.grammar.alloc)?;
                let mut ahead = Cursor::new(c.rest());
                self.past_inner(&mut after, &mut ahead)?;
                self.otherwise(&after, &ahead)
            }
            Err(Stop::Memory) => Err(Stop::Memory),
        }
    }

    /// `if` (6.4.1)
    #[tactic(auto, unfolding(crate::specs::Statements::if_statement))]
    fn if_statement(&self, known: &Known, c: &Cursor<'_>) -> Result<Spot, Stop>
        requires reads { Nests self.now.grammar.depth (F.pre self.now.grammar.inside) (F.post self.now.grammar.inside) }
        requires finds { Searches self.now.grammar.depth (G.pre self.now.search) (G.post self.now.search) }
        ensures { Finds (spec.if_statement (insides self.now.grammar.depth) (places self.now.grammar.depth) known.now c.now) result }
    {
        let mut ahead = Cursor::new(c.rest());
        ahead.word(IF)?;
        in_brackets(self.grammar.alloc, known, &mut ahead)?;
        self.if_behind(known, &ahead)
    }

    /// `while` (6.5.1)
    #[tactic(auto, unfolding(crate::specs::Statements::while_statement))]
    fn while_statement(&self, known: &Known, c: &Cursor<'_>) -> Result<Spot, Stop>
        requires { Searches self.now.grammar.depth (G.pre self.now.search) (G.post self.now.search) }
        ensures { Finds (spec.while_statement (insides self.now.grammar.depth) (places self.now.grammar.depth) known.now c.now) result }
    {
        let mut ahead = Cursor::new(c.rest());
        ahead.word(WHILE)?;
        in_brackets(self.grammar.alloc, known, &mut ahead)?;
        self.inner_spot(Wanted::Statement, known, &ahead)
    }

    /// `do` (6.5.2)
    #[tactic(auto, unfolding(crate::specs::Statements::do_statement))]
    fn do_statement(&self, known: &Known, c: &Cursor<'_>) -> Result<Spot, Stop>
        requires { Searches self.now.grammar.depth (G.pre self.now.search) (G.post self.now.search) }
        ensures { Finds (spec.do_statement (insides self.now.grammar.depth) (places self.now.grammar.depth) known.now c.now) result }
    {
        let mut ahead = Cursor::new(c.rest());
        ahead.word(DO)?;
        self.inner_spot(Wanted::Statement, known, &ahead)
    }

    /// Where what follows the first part of a `for` is stuck.
    #[tactic(auto, unfolding(crate::specs::Statements::for_behind))]
    fn for_behind(&self, known: &Known, c: &Cursor<'_>) -> Result<Spot, Stop>
        requires { Searches self.now.grammar.depth (G.pre self.now.search) (G.post self.now.search) }
        ensures { Finds (spec.for_behind (insides self.now.grammar.depth) (places self.now.grammar.depth) known.now c.now) result }
    {
        let mut ahead = Cursor::new(c.rest());
        maybe_comma(self.grammar.alloc, known, &mut ahead, SEMICOLON)?;
        maybe_comma(self.grammar.alloc, known, &mut ahead, RIGHT_PAREN)?;
        self.inner_spot(Wanted::Statement, known, &ahead)
    }

    /// Where what follows the bracket of a `for` is stuck.
    #[tactic(auto, unfolding(crate::specs::Statements::for_first))]
    fn for_first(&self, known: &Known, c: &Cursor<'_>) -> Result<Spot, Stop>
        requires reads { Nests self.now.grammar.depth (F.pre self.now.grammar.inside) (F.post self.now.grammar.inside) }
        requires finds { Searches self.now.grammar.depth (G.pre self.now.search) (G.post self.now.search) }
        ensures { Finds (spec.for_first (insides self.now.grammar.depth) (places self.now.grammar.depth) known.now c.now) result }
    {
        let mut after = known.copy(self.grammar.alloc)?;
        let mut ahead = Cursor::new(c.rest());
        match self.past_first(&mut after, &mut ahead) {
            Ok(()) => self.for_behind(&after, &ahead),
            Err(Stop::Nothing) => self.inner_spot(Wanted::Declaration, known, c),
            Err(Stop::Memory) => Err(Stop::Memory),
        }
    }

    /// `for` (6.5.3)
    #[tactic(auto, unfolding(crate::specs::Statements::for_statement))]
    fn for_statement(&self, known: &Known, c: &Cursor<'_>) -> Result<Spot, Stop>
        requires reads { Nests self.now.grammar.depth (F.pre self.now.grammar.inside) (F.post self.now.grammar.inside) }
        requires finds { Searches self.now.grammar.depth (G.pre self.now.search) (G.post self.now.search) }
        ensures { Finds (spec.for_statement (insides self.now.grammar.depth) (places self.now.grammar.depth) known.now c.now) result }
    {
        let mut ahead = Cursor::new(c.rest());
        ahead.word(FOR)?;
        ahead.word(LEFT_PAREN)?;
        self.for_first(known, &ahead)
    }

    /// `switch` (6.4.2)
    #[tactic(auto, unfolding(crate::specs::Statements::switch_statement))]
    fn switch_statement(&self, known: &Known, c: &Cursor<'_>) -> Result<Spot, Stop>
        requires reads { Nests self.now.grammar.depth (F.pre self.now.grammar.inside) (F.post self.now.grammar.inside) }
        requires finds { Searches self.now.grammar.depth (G.pre self.now.search) (G.post self.now.search) }
        ensures { Finds (spec.switch_statement (insides self.now.grammar.depth) (places self.now.grammar.depth) known.now c.now) result }
    {
        let mut ahead = Cursor::new(c.rest());
        ahead.word(SWITCH)?;
        in_brackets(self.grammar.alloc, known, &mut ahead)?;
        self.braced(Element::Switched, known, &ahead)
    }

    #[tactic(auto, unfolding(crate::specs::Statements::loop_statement))]
    fn loop_statement(&self, known: &Known, c: &Cursor<'_>) -> Result<Spot, Stop>
        requires reads { Nests self.now.grammar.depth (F.pre self.now.grammar.inside) (F.post self.now.grammar.inside) }
        requires finds { Searches self.now.grammar.depth (G.pre self.now.search) (G.post self.now.search) }
        ensures { Finds (spec.loop_statement (insides self.now.grammar.depth) (places self.now.grammar.depth) known.now c.now) result }
    {
        if c.front() == DO {
            return self.do_statement(known, c);
        }
        if c.front() == FOR {
            return self.for_statement(known, c);
        }
        if c.front() == SWITCH {
            return self.switch_statement(known, c);
        }
        Err(Stop::Nothing)
    }

    /// A statement that is no declaration.
    #[tactic(auto, unfolding(crate::specs::Statements::other_statement))]
    fn other_statement(&self, known: &Known, c: &Cursor<'_>) -> Result<Spot, Stop>
        requires reads { Nests self.now.grammar.depth (F.pre self.now.grammar.inside) (F.post self.now.grammar.inside) }
        requires finds { Searches self.now.grammar.depth (G.pre self.now.search) (G.post self.now.search) }
        ensures { Finds (spec.other_statement (insides self.now.grammar.depth) (places self.now.grammar.depth) known.now c.now) result }
    {
        if c.front() == LEFT_BRACE {
            return self.braced(Element::Statement, known, c);
        }
        if c.front() == IF {
            return self.if_statement(known, c);
        }
        if c.front() == WHILE {
            return self.while_statement(known, c);
        }
        self.loop_statement(known, c)
    }

    /// Where tokens that no statement can be read from are stuck.
    #[tactic(auto, unfolding(crate::specs::Statements::unread_statement))]
    fn unread_statement(&self, known: &Known, c: &Cursor<'_>) -> Result<Spot, Stop>
        requires reads { Nests self.now.grammar.depth (F.pre self.now.grammar.inside) (F.post self.now.grammar.inside) }
        requires finds { Searches self.now.grammar.depth (G.pre self.now.search) (G.post self.now.search) }
        ensures { Finds (spec.unread_statement (insides self.now.grammar.depth) (places self.now.grammar.depth) known.now c.now) result }
    {
        match self.inner_spot(Wanted::Declaration, known, c) {
            Ok(spot) => Ok(spot),
            Err(Stop::Nothing) => self.other_statement(known, c),
            Err(Stop::Memory) => Err(Stop::Memory),
        }
    }

    /// A statement, step by step.
    #[tactic(auto, unfolding(crate::specs::Statements::statement))]
    fn either_statement(&self, known: &Known, c: &Cursor<'_>) -> Result<Spot, Stop>
        requires reads { Nests self.now.grammar.depth (F.pre self.now.grammar.inside) (F.post self.now.grammar.inside) }
        requires finds { Searches self.now.grammar.depth (G.pre self.now.search) (G.post self.now.search) }
        ensures { Finds (spec.statement (insides self.now.grammar.depth) (places self.now.grammar.depth) self.now.grammar.depth known.now c.now) result }
    {
        let mut after = known.copy(self.grammar.alloc)?;
        let mut ahead = Cursor::new(c.rest());
        match self.past_statement(&mut after, &mut ahead) {
            Ok(()) => Err(Stop::Nothing),
            Err(Stop::Nothing) => self.unread_statement(known, c),
            Err(Stop::Memory) => Err(Stop::Memory),
        }
    }

    /// Where a statement is stuck (6, 17).
    pub fn statement(&self, known: &Known, c: &Cursor<'_>) -> Result<Spot, Stop>
        requires reads { Nests self.now.grammar.depth (F.pre self.now.grammar.inside) (F.post self.now.grammar.inside) }
        requires finds { Searches self.now.grammar.depth (G.pre self.now.search) (G.post self.now.search) }
        ensures { Finds (stuck_at (rule.statement (inner by_tree self.now.grammar.depth) known.now) c.now) result }
    {
        self.either_statement(known, c)
    }

    /// Where a block is stuck (6.3, 17).
    pub fn block(&self, known: &Known, c: &Cursor<'_>) -> Result<Spot, Stop>
        requires reads { Nests self.now.grammar.depth (F.pre self.now.grammar.inside) (F.post self.now.grammar.inside) }
        requires finds { Searches self.now.grammar.depth (G.pre self.now.search) (G.post self.now.search) }
        ensures { Finds (stuck_at (rule.block (inner by_tree self.now.grammar.depth) known.now) c.now) result }
    {
        self.braced(Element::Statement, known, c)
    }
}
