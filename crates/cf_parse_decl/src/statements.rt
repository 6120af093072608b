//! Statements that hold others (6.3 to 6.5).

ghost use Rattle.cf_parse_decl.specs.Insides.{insides};
ghost use Rattle.cf_parse_decl.specs.Reads.{Gives};
ghost use Rattle.cf_parse_decl.specs.Nests.{Nests};
ghost use Rattle.cf_parse_decl.specs.Statements as spec;

use crate::grammar::{Grammar, Node, Wanted};
use crate::known::Known;
use crate::simple_statements::{case_label, default_label, in_brackets};
use cf_base::{Boxed, Items};
use cf_parse_expr::words::{
    CASE, DEFAULT, DO, ELSE, IF, LEFT_BRACE, RIGHT_BRACE, SEMICOLON, SWITCH, WHILE,
};
use cf_parse_expr::{Cursor, Stop};
use cf_syntax::Expr;
use cf_unit::Stmt;
use std::alloc::Global;

impl<F: Fn(Global, usize, Wanted, &mut Known, &mut Cursor<'_>) -> Result<Node, Stop>> Grammar<F> {
    /// Statements up to a `}`.
    fn statements(&self, known: &mut Known, c: &mut Cursor<'_>) -> Result<Items<Stmt>, Stop>
        requires { Nests self.now.depth (F.pre self.now.inside) (F.post self.now.inside) }
        ensures { Gives (spec.statements (insides self.now.depth) known.old c.old) result known.new c.new }
    {
        let mut all = Items::new(self.alloc);
        for _turn in 0..c.len() {
            if c.front() == RIGHT_BRACE {
                return Ok(all);
            }
            let left = c.len();
            match self.inner_statement(known, c) {
                Ok(s) => {
                    if c.len() >= left {
                        return Err(Stop::Nothing);
                    }
                    all.push(s.into_inner())?;
                }
                Err(stop) => return Err(stop),
            }
        }
        if c.front() == RIGHT_BRACE {
            Ok(all)
        } else {
            Err(Stop::Nothing)
        }
    }

    /// Statements in braces (6.3), and the place of the first brace.
    #[tactic(auto, unfolding(crate::specs::Statements::block))]
    pub fn block(&self, known: &mut Known, c: &mut Cursor<'_>) -> Result<(u32, Items<Stmt>), Stop>
        requires { Nests self.now.depth (F.pre self.now.inside) (F.post self.now.inside) }
        ensures { Gives (spec.block (insides self.now.depth) known.old c.old) result known.new c.new }
    {
        let at = c.word(LEFT_BRACE)?;
        let open = known.open_scopes();
        known.enter()?;
        let all = self.statements(known, c)?;
        c.word(RIGHT_BRACE)?;
        known.close_to(open);
        Ok((at, all))
    }

    #[tactic(auto, unfolding(crate::specs::Statements::block_statement))]
    pub fn block_statement(
        &self,
        known: &mut Known,
        c: &mut Cursor<'_>,
    ) -> Result<Boxed<Stmt>, Stop>
        requires { Nests self.now.depth (F.pre self.now.inside) (F.post self.now.inside) }
        ensures { Gives (spec.block_statement (insides self.now.depth) known.old c.old) result known.new c.new }
    {
        let (at, all) = self.block(known, c)?;
        Ok(Boxed::new(self.alloc, Stmt::Block(at, all))?)
    }

    /// What follows `else`, if that comes next.
    #[tactic(auto, unfolding(crate::specs::Statements::otherwise))]
    fn otherwise(&self, known: &mut Known, c: &mut Cursor<'_>) -> Result<Option<Boxed<Stmt>>, Stop>
        requires { Nests self.now.depth (F.pre self.now.inside) (F.post self.now.inside) }
        ensures { Gives (spec.otherwise (insides self.now.depth) known.old c.old) result known.new c.new }
    {
        if c.front() == ELSE {
            c.word(ELSE)?;
            let s = self.inner_statement(known, c)?;
            return Ok(Some(s));
        }
        Ok(None)
    }

    #[tactic(auto, unfolding(crate::specs::Statements::if_behind))]
    fn if_behind(
        &self,
        known: &mut Known,
        c: &mut Cursor<'_>,
        at: u32,
        condition: Boxed<Expr>,
    ) -> Result<Boxed<Stmt>, Stop>
        requires { Nests self.now.depth (F.pre self.now.inside) (F.post self.now.inside) }
        ensures { Gives (spec.if_behind (insides self.now.depth) at condition known.old c.old) result known.new c.new }
    {
        let s = self.inner_statement(known, c)?;
        let other = self.otherwise(known, c)?;
        Ok(Boxed::new(self.alloc, Stmt::If(at, condition, s, other))?)
    }

    /// `if` (6.4.1)
    #[tactic(auto, unfolding(crate::specs::Statements::if_statement))]
    pub fn if_statement(&self, known: &mut Known, c: &mut Cursor<'_>) -> Result<Boxed<Stmt>, Stop>
        requires { Nests self.now.depth (F.pre self.now.inside) (F.post self.now.inside) }
        ensures { Gives (spec.if_statement (insides self.now.depth) known.old c.old) result known.new c.new }
    {
        let at = c.word(IF)?;
        let condition = in_brackets(self.alloc, known, c)?;
        self.if_behind(known, c, at, condition)
    }

    /// `while` (6.5.1)
    #[tactic(auto, unfolding(crate::specs::Statements::while_statement))]
    pub fn while_statement(
        &self,
        known: &mut Known,
        c: &mut Cursor<'_>,
    ) -> Result<Boxed<Stmt>, Stop>
        requires { Nests self.now.depth (F.pre self.now.inside) (F.post self.now.inside) }
        ensures { Gives (spec.while_statement (insides self.now.depth) known.old c.old) result known.new c.new }
    {
        let at = c.word(WHILE)?;
        let condition = in_brackets(self.alloc, known, c)?;
        let s = self.inner_statement(known, c)?;
        Ok(Boxed::new(self.alloc, Stmt::While(at, condition, s))?)
    }

    #[tactic(auto, unfolding(crate::specs::Statements::do_behind))]
    fn do_behind(
        &self,
        known: &mut Known,
        c: &mut Cursor<'_>,
        at: u32,
        s: Boxed<Stmt>,
    ) -> Result<Boxed<Stmt>, Stop>
        requires { Nests self.now.depth (F.pre self.now.inside) (F.post self.now.inside) }
        ensures { Gives (spec.do_behind (insides self.now.depth) at s known.old c.old) result known.new c.new }
    {
        c.word(WHILE)?;
        let condition = in_brackets(self.alloc, known, c)?;
        c.word(SEMICOLON)?;
        Ok(Boxed::new(self.alloc, Stmt::Do(at, s, condition))?)
    }

    /// `do` (6.5.2)
    #[tactic(auto, unfolding(crate::specs::Statements::do_statement))]
    pub fn do_statement(&self, known: &mut Known, c: &mut Cursor<'_>) -> Result<Boxed<Stmt>, Stop>
        requires { Nests self.now.depth (F.pre self.now.inside) (F.post self.now.inside) }
        ensures { Gives (spec.do_statement (insides self.now.depth) known.old c.old) result known.new c.new }
    {
        let at = c.word(DO)?;
        let s = self.inner_statement(known, c)?;
        self.do_behind(known, c, at, s)
    }

    /// What stands in the braces of a `switch` (6.4.2).
    #[tactic(auto, unfolding(crate::specs::Statements::switched))]
    fn switched(&self, known: &mut Known, c: &mut Cursor<'_>) -> Result<Boxed<Stmt>, Stop>
        requires { Nests self.now.depth (F.pre self.now.inside) (F.post self.now.inside) }
        ensures { Gives (spec.switched (insides self.now.depth) known.old c.old) result known.new c.new }
    {
        if c.front() == CASE {
            return case_label(self.alloc, known, c);
        }
        if c.front() == DEFAULT {
            return default_label(self.alloc, known, c);
        }
        self.inner_statement(known, c)
    }

    fn all_switched(&self, known: &mut Known, c: &mut Cursor<'_>) -> Result<Items<Stmt>, Stop>
        requires { Nests self.now.depth (F.pre self.now.inside) (F.post self.now.inside) }
        ensures { Gives (spec.all_switched (insides self.now.depth) known.old c.old) result known.new c.new }
    {
        let mut all = Items::new(self.alloc);
        for _turn in 0..c.len() {
            if c.front() == RIGHT_BRACE {
                return Ok(all);
            }
            let left = c.len();
            match self.switched(known, c) {
                Ok(s) => {
                    if c.len() >= left {
                        return Err(Stop::Nothing);
                    }
                    all.push(s.into_inner())?;
                }
                Err(stop) => return Err(stop),
            }
        }
        if c.front() == RIGHT_BRACE {
            Ok(all)
        } else {
            Err(Stop::Nothing)
        }
    }

    #[tactic(auto, unfolding(crate::specs::Statements::switch_block))]
    fn switch_block(
        &self,
        known: &mut Known,
        c: &mut Cursor<'_>,
    ) -> Result<(u32, Items<Stmt>), Stop>
        requires { Nests self.now.depth (F.pre self.now.inside) (F.post self.now.inside) }
        ensures { Gives (spec.switch_block (insides self.now.depth) known.old c.old) result known.new c.new }
    {
        let at = c.word(LEFT_BRACE)?;
        let open = known.open_scopes();
        known.enter()?;
        let all = self.all_switched(known, c)?;
        c.word(RIGHT_BRACE)?;
        known.close_to(open);
        Ok((at, all))
    }

    /// `switch` (6.4.2)
    #[tactic(auto, unfolding(crate::specs::Statements::switch_statement))]
    pub fn switch_statement(
        &self,
        known: &mut Known,
        c: &mut Cursor<'_>,
    ) -> Result<Boxed<Stmt>, Stop>
        requires { Nests self.now.depth (F.pre self.now.inside) (F.post self.now.inside) }
        ensures { Gives (spec.switch_statement (insides self.now.depth) known.old c.old) result known.new c.new }
    {
        let at = c.word(SWITCH)?;
        let condition = in_brackets(self.alloc, known, c)?;
        let (_, all) = self.switch_block(known, c)?;
        Ok(Boxed::new(self.alloc, Stmt::Switch(at, condition, all))?)
    }
}
