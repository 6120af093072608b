//! Arguments, and types and parameters in brackets.

ghost use Rattle.cf_syntax.specs.Reading.{readers};
ghost use Rattle.cf_parse_expr.specs.Reads.{Reads, Always};
ghost use Rattle.cf_parse_expr.specs.Nests.{Nests};
ghost use Rattle.cf_parse_expr.specs.Arguments as spec;

use crate::cursor::Cursor;
use crate::grammar::{Grammar, Node, Wanted};
use crate::scopes::Scopes;
use crate::stop::Stop;
use crate::words::{COMMA, LEFT_PAREN, RIGHT_PAREN};
use cf_base::{Boxed, Items, Memory};
use cf_syntax::{Expr, Param, TypeId};
use std::alloc::Global;

impl<F: Fn(Global, usize, Wanted, &Scopes<'_>, &mut Cursor<'_>) -> Result<Node, Stop>> Grammar<F> {
    /// A comma with an expression behind it, and the comma's place.
    #[tactic(auto, unfolding(crate::specs::Arguments::next_assign))]
    pub fn next_assign(
        &self,
        names: &Scopes<'_>,
        c: &mut Cursor<'_>,
    ) -> Result<(u32, Boxed<Expr>), Stop>
        requires { Nests self.now.depth (F.pre self.now.inside) (F.post self.now.inside) }
        ensures { Reads (spec.next_assign (readers self.now.depth) names.now c.old) result c.new }
    {
        let at = c.word(COMMA)?;
        let x = self.inner_assign(names, c)?;
        Ok((at, x))
    }

    /// Expressions behind commas, as many as there are, behind these.
    pub fn more_assigns(
        &self,
        names: &Scopes<'_>,
        c: &mut Cursor<'_>,
        first: Items<Expr>,
    ) -> Result<Items<Expr>, Memory>
        requires { Nests self.now.depth (F.pre self.now.inside) (F.post self.now.inside) }
        ensures { Always (spec.more_assigns (readers self.now.depth) names.now first c.old) result c.new }
    {
        let mut all = first;
        for _turn in 0..c.len() {
            let before = c.rest();
            match self.next_assign(names, c) {
                Ok((_, x)) => all.push(x.into_inner())?,
                Err(Stop::Nothing) => {
                    c.set(before);
                    return Ok(all);
                }
                Err(Stop::Memory) => return Err(Memory),
            }
        }
        Ok(all)
    }

    #[tactic(auto, unfolding(crate::specs::Arguments::first_assigns))]
    fn first_assigns(&self, names: &Scopes<'_>, c: &mut Cursor<'_>) -> Result<Items<Expr>, Stop>
        requires { Nests self.now.depth (F.pre self.now.inside) (F.post self.now.inside) }
        ensures { Reads (spec.first_assigns (readers self.now.depth) names.now c.old) result c.new }
    {
        let x = self.inner_assign(names, c)?;
        let mut all = Items::new(self.alloc);
        all.push(x.into_inner())?;
        Ok(self.more_assigns(names, c, all)?)
    }

    #[tactic(auto, unfolding(crate::specs::Arguments::arguments_behind))]
    fn arguments_behind(
        &self,
        names: &Scopes<'_>,
        c: &mut Cursor<'_>,
        at: u32,
    ) -> Result<(u32, Items<Expr>), Stop>
        requires { Nests self.now.depth (F.pre self.now.inside) (F.post self.now.inside) }
        ensures { Reads (spec.arguments_behind (readers self.now.depth) names.now at c.old) result c.new }
    {
        if c.front() == RIGHT_PAREN {
            c.word(RIGHT_PAREN)?;
            return Ok((at, Items::new(self.alloc)));
        }
        let all = self.first_assigns(names, c)?;
        c.word(RIGHT_PAREN)?;
        Ok((at, all))
    }

    /// Arguments in brackets (5.2.2), and the bracket's place.
    #[tactic(auto, unfolding(crate::specs::Arguments::arguments))]
    pub fn arguments(
        &self,
        names: &Scopes<'_>,
        c: &mut Cursor<'_>,
    ) -> Result<(u32, Items<Expr>), Stop>
        requires { Nests self.now.depth (F.pre self.now.inside) (F.post self.now.inside) }
        ensures { Reads (spec.arguments (readers self.now.depth) names.now c.old) result c.new }
    {
        let at = c.word(LEFT_PAREN)?;
        self.arguments_behind(names, c, at)
    }

    /// A type in brackets (8.1), and the bracket's place.
    #[tactic(auto, unfolding(crate::specs::Arguments::type_in_brackets))]
    pub fn type_in_brackets(
        &self,
        names: &Scopes<'_>,
        c: &mut Cursor<'_>,
    ) -> Result<(u32, Boxed<TypeId>), Stop>
        requires { Nests self.now.depth (F.pre self.now.inside) (F.post self.now.inside) }
        ensures { Reads (spec.type_in_brackets (readers self.now.depth) names.now c.old) result c.new }
    {
        let at = c.word(LEFT_PAREN)?;
        let t = self.inner_type_id(names, c)?;
        c.word(RIGHT_PAREN)?;
        Ok((at, t))
    }

    /// Parameters in brackets (8.2.5), and the bracket's place.
    #[tactic(auto, unfolding(crate::specs::Arguments::params_in_brackets))]
    pub fn params_in_brackets(
        &self,
        names: &Scopes<'_>,
        c: &mut Cursor<'_>,
    ) -> Result<(u32, Items<Param>), Stop>
        requires { Nests self.now.depth (F.pre self.now.inside) (F.post self.now.inside) }
        ensures { Reads (spec.params_in_brackets (readers self.now.depth) names.now c.old) result c.new }
    {
        let at = c.word(LEFT_PAREN)?;
        let all = self.inner_params(names, c)?;
        c.word(RIGHT_PAREN)?;
        Ok((at, all))
    }
}
