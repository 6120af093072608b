//! Declarations among statements, and statements by their first words (6, 6.8).

ghost use Rattle.cf_parse_decl.specs.Insides.{insides};
ghost use Rattle.cf_parse_decl.specs.Reads.{Gives};
ghost use Rattle.cf_parse_decl.specs.Nests.{Nests};
ghost use Rattle.cf_parse_decl.specs.Trial.{Tries};
ghost use Rattle.cf_parse_decl.specs.Statements as spec;
ghost use Rattle.cf_unit.specs.Read.{reading};
ghost use Rattle.cf_unit.specs.Files.{inner, by_tree};
ghost use Rattle.cf_unit.specs.Statements.{statement};

use crate::grammar::{Grammar, Node, Wanted};
use crate::known::Known;
use crate::simple_statements::{
    break_statement, continue_statement, expression_statement, maybe_comma, return_statement,
};
use crate::trial::may_declare;
use cf_base::{Boxed, Memory};
use cf_parse_expr::words::{
    BREAK, CONTINUE, DO, FOR, IF, LEFT_BRACE, LEFT_PAREN, RETURN, RIGHT_PAREN, SEMICOLON, SWITCH,
    WHILE,
};
use cf_parse_expr::{Cursor, Stop};
use cf_unit::Stmt;
use std::alloc::Global;

/// `break`, `continue`, `return`, or an expression.
#[tactic(auto, unfolding(crate::specs::Statements::leaf_statement))]
fn leaf_statement(alloc: Global, known: &Known, c: &mut Cursor<'_>) -> Result<Boxed<Stmt>, Stop>
    ensures { Gives (spec.leaf_statement known.now c.old) result known.now c.new }
{
    if c.front() == BREAK {
        return break_statement(alloc, known, c);
    }
    if c.front() == CONTINUE {
        return continue_statement(alloc, known, c);
    }
    if c.front() == RETURN {
        return return_statement(alloc, known, c);
    }
    expression_statement(alloc, known, c)
}

impl<F: Fn(Global, usize, Wanted, &mut Known, &mut Cursor<'_>) -> Result<Node, Stop>> Grammar<F> {
    #[tactic(auto, unfolding(crate::specs::Statements::declaration_statement))]
    fn declaration_statement(
        &self,
        known: &mut Known,
        c: &mut Cursor<'_>,
    ) -> Result<Boxed<Stmt>, Stop>
        requires { Nests self.now.depth (F.pre self.now.inside) (F.post self.now.inside) }
        ensures { Gives (spec.declaration_statement (insides self.now.depth) known.old c.old) result known.new c.new }
    {
        let d = self.inner_declaration(known, c)?;
        Ok(Boxed::new(self.alloc, Stmt::Declaration(d))?)
    }

    /// A declaration, where one can be read. Otherwise what is known and the cursor are as before.
    fn tried(&self, known: &mut Known, c: &mut Cursor<'_>) -> Result<Option<Boxed<Stmt>>, Memory>
        requires { Nests self.now.depth (F.pre self.now.inside) (F.post self.now.inside) }
        ensures { Tries (spec.declaration_statement (insides self.now.depth) known.old c.old) result known.old c.old known.new c.new }
    {
        if !may_declare(self.alloc, known, c)? {
            return Ok(None);
        }
        let before = c.rest();
        let saved = known.copy(self.alloc)?;
        match self.declaration_statement(known, c) {
            Ok(s) => Ok(Some(s)),
            Err(Stop::Nothing) => {
                *known = saved;
                c.set(before);
                Ok(None)
            }
            Err(Stop::Memory) => Err(Memory),
        }
    }

    /// The first part of a `for`.
    #[tactic(auto, unfolding(crate::specs::Statements::for_first))]
    fn for_first(&self, known: &mut Known, c: &mut Cursor<'_>) -> Result<Boxed<Stmt>, Stop>
        requires { Nests self.now.depth (F.pre self.now.inside) (F.post self.now.inside) }
        ensures { Gives (spec.for_first (insides self.now.depth) known.old c.old) result known.new c.new }
    {
        match self.tried(known, c)? {
            Some(s) => Ok(s),
            None => expression_statement(self.alloc, known, c),
        }
    }

    #[tactic(auto, unfolding(crate::specs::Statements::for_behind))]
    fn for_behind(
        &self,
        known: &mut Known,
        c: &mut Cursor<'_>,
        at: u32,
        first: Boxed<Stmt>,
    ) -> Result<Boxed<Stmt>, Stop>
        requires { Nests self.now.depth (F.pre self.now.inside) (F.post self.now.inside) }
        ensures { Gives (spec.for_behind (insides self.now.depth) at first known.old c.old) result known.new c.new }
    {
        let condition = maybe_comma(self.alloc, known, c, SEMICOLON)?;
        let last = maybe_comma(self.alloc, known, c, RIGHT_PAREN)?;
        let s = self.inner_statement(known, c)?;
        Ok(Boxed::new(self.alloc, Stmt::For(at, first, condition, last, s))?)
    }

    /// `for` (6.5.3)
    #[tactic(auto, unfolding(crate::specs::Statements::for_statement))]
    fn for_statement(&self, known: &mut Known, c: &mut Cursor<'_>) -> Result<Boxed<Stmt>, Stop>
        requires { Nests self.now.depth (F.pre self.now.inside) (F.post self.now.inside) }
        ensures { Gives (spec.for_statement (insides self.now.depth) known.old c.old) result known.new c.new }
    {
        let at = c.word(FOR)?;
        c.word(LEFT_PAREN)?;
        let first = self.for_first(known, c)?;
        self.for_behind(known, c, at, first)
    }

    #[tactic(auto, unfolding(crate::specs::Statements::loop_statement))]
    fn loop_statement(&self, known: &mut Known, c: &mut Cursor<'_>) -> Result<Boxed<Stmt>, Stop>
        requires { Nests self.now.depth (F.pre self.now.inside) (F.post self.now.inside) }
        ensures { Gives (spec.loop_statement (insides self.now.depth) known.old c.old) result known.new c.new }
    {
        if c.front() == DO {
            return self.do_statement(known, c);
        }
        if c.front() == FOR {
            return self.for_statement(known, c);
        }
        if c.front() == SWITCH {
            return self.switch_statement(known, c);
        }
        leaf_statement(self.alloc, known, c)
    }

    /// A statement that is no declaration.
    #[tactic(auto, unfolding(crate::specs::Statements::other_statement))]
    fn other_statement(&self, known: &mut Known, c: &mut Cursor<'_>) -> Result<Boxed<Stmt>, Stop>
        requires { Nests self.now.depth (F.pre self.now.inside) (F.post self.now.inside) }
        ensures { Gives (spec.other_statement (insides self.now.depth) known.old c.old) result known.new c.new }
    {
        if c.front() == LEFT_BRACE {
            return self.block_statement(known, c);
        }
        if c.front() == IF {
            return self.if_statement(known, c);
        }
        if c.front() == WHILE {
            return self.while_statement(known, c);
        }
        self.loop_statement(known, c)
    }

    /// A statement, step by step.
    #[tactic(auto, unfolding(crate::specs::Statements::statement))]
    fn either_statement(&self, known: &mut Known, c: &mut Cursor<'_>) -> Result<Boxed<Stmt>, Stop>
        requires { Nests self.now.depth (F.pre self.now.inside) (F.post self.now.inside) }
        ensures { Gives (spec.statement (insides self.now.depth) known.old c.old) result known.new c.new }
    {
        match self.tried(known, c)? {
            Some(s) => Ok(s),
            None => self.other_statement(known, c),
        }
    }

    /// A statement (6). What can be read as a declaration is one (6.8).
    pub fn statement(&self, known: &mut Known, c: &mut Cursor<'_>) -> Result<Boxed<Stmt>, Stop>
        requires { Nests self.now.depth (F.pre self.now.inside) (F.post self.now.inside) }
        ensures { Gives (reading (statement (inner by_tree self.now.depth) known.old) c.old) result known.new c.new }
    {
        self.either_statement(known, c)
    }
}
