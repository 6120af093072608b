//! Binary, conditional and assigning expressions (5.5 to 5.18).

ghost use Rattle.cf_syntax.specs.Reading.{readers};
ghost use Rattle.cf_parse_expr.specs.Reads.{Reads, Always};
ghost use Rattle.cf_parse_expr.specs.Nests.{Nests};
ghost use Rattle.cf_parse_expr.specs.Binaries as spec;
ghost use Rattle.std.specs.Prelude.{◌≡◌};
ghost use Rattle.cf_syntax.specs.Operators.{heads, assigning};

use crate::cursor::Cursor;
use crate::grammar::{Grammar, Node, Wanted};
use crate::operators::{assign_of, assign_operator, binary_operator};
use crate::scopes::Scopes;
use crate::stop::Stop;
use crate::words::{COLON, QUESTION};
use cf_base::{Boxed, Items, Memory};
use cf_syntax::{AssignOp, BinaryOp, Expr};
use std::alloc::Global;

/// Whether an assignment operator comes next.
#[tactic(auto, using(crate::proofs::Heads::heads_is))]
fn begins_assigning(c: &Cursor<'_>) -> bool
    ensures { result ≡ heads assigning c.now }
{
    assign_of(c.front()).is_some()
}

impl<F: Fn(Global, usize, Wanted, &Scopes<'_>, &mut Cursor<'_>) -> Result<Node, Stop>> Grammar<F> {
    /// An operator of a level with its right operand.
    #[tactic(auto, unfolding(crate::specs::Binaries::right_side))]
    #[cycle(levels)]
    fn right_side(
        &self,
        names: &Scopes<'_>,
        c: &mut Cursor<'_>,
        level: u8,
    ) -> Result<((u32, BinaryOp), Boxed<Expr>), Stop>
        requires { Nests self.now.depth (F.pre self.now.inside) (F.post self.now.inside) }
        ensures { Reads (spec.right_side (readers self.now.depth) names.now level (spec.joined_from (readers self.now.depth) names.now level) c.old) result c.new }
    {
        let op = binary_operator(c, level)?;
        let first = self.cast(names, c)?;
        let y = self.joined_from(names, c, level, first)?;
        Ok((op, y))
    }

    #[cycle(levels)]
    fn more_binary(
        &self,
        names: &Scopes<'_>,
        c: &mut Cursor<'_>,
        level: u8,
        first: Boxed<Expr>,
    ) -> Result<Boxed<Expr>, Memory>
        requires { Nests self.now.depth (F.pre self.now.inside) (F.post self.now.inside) }
        ensures { Always (spec.more_binary (readers self.now.depth) names.now level (spec.joined_from (readers self.now.depth) names.now level) first c.old) result c.new }
    {
        let mut a = first;
        for _turn in 0..c.len() {
            let before = c.rest();
            match self.right_side(names, c, level) {
                Ok(((at, op), y)) => a = Boxed::new(self.alloc, Expr::Binary(at, op, a, y))?,
                Err(Stop::Nothing) => {
                    c.set(before);
                    return Ok(a);
                }
                Err(Stop::Memory) => return Err(Memory),
            }
        }
        Ok(a)
    }

    /// The same with the operators of one more level.
    #[tactic(auto, unfolding(crate::specs::Binaries::joined_next))]
    #[cycle(levels)]
    fn joined_next(
        &self,
        names: &Scopes<'_>,
        c: &mut Cursor<'_>,
        level: u8,
        first: Boxed<Expr>,
    ) -> Result<Boxed<Expr>, Stop>
        requires { Nests self.now.depth (F.pre self.now.inside) (F.post self.now.inside) }
        ensures { Reads (spec.joined_next (readers self.now.depth) names.now level first c.old) result c.new }
    {
        let a = self.joined_from(names, c, level, first)?;
        Ok(self.more_binary(names, c, level, a)?)
    }

    /// A binary expression of so many levels, from its first operand on.
    #[cycle(levels)]
    fn joined_from(
        &self,
        names: &Scopes<'_>,
        c: &mut Cursor<'_>,
        level: u8,
        first: Boxed<Expr>,
    ) -> Result<Boxed<Expr>, Stop>
        requires { Nests self.now.depth (F.pre self.now.inside) (F.post self.now.inside) }
        ensures { Reads (spec.joined_from (readers self.now.depth) names.now level first c.old) result c.new }
    {
        if level == 0 {
            return Ok(first);
        }
        self.joined_next(names, c, level - 1, first)
    }

    #[tactic(auto, unfolding(crate::specs::Binaries::choice))]
    fn choice(
        &self,
        names: &Scopes<'_>,
        c: &mut Cursor<'_>,
    ) -> Result<(u32, Boxed<Expr>, Boxed<Expr>), Stop>
        requires { Nests self.now.depth (F.pre self.now.inside) (F.post self.now.inside) }
        ensures { Reads (spec.choice (readers self.now.depth) names.now c.old) result c.new }
    {
        let at = c.word(QUESTION)?;
        let a = self.inner_commas(names, c)?;
        c.word(COLON)?;
        let b = self.inner_condition(names, c)?;
        Ok((at, a, b))
    }

    #[tactic(auto, unfolding(crate::specs::Binaries::chosen))]
    fn chosen(
        &self,
        names: &Scopes<'_>,
        c: &mut Cursor<'_>,
        condition: Boxed<Expr>,
    ) -> Result<Boxed<Expr>, Stop>
        requires { Nests self.now.depth (F.pre self.now.inside) (F.post self.now.inside) }
        ensures { Reads (spec.chosen (readers self.now.depth) names.now condition c.old) result c.new }
    {
        let before = c.rest();
        match self.choice(names, c) {
            Ok((at, a, b)) => Ok(Boxed::new(self.alloc, Expr::Conditional(at, condition, a, b))?),
            Err(Stop::Nothing) => {
                c.set(before);
                Ok(condition)
            }
            Err(Stop::Memory) => Err(Stop::Memory),
        }
    }

    /// A conditional expression from its first operand on.
    #[tactic(auto, unfolding(crate::specs::Binaries::condition_from))]
    fn condition_from(
        &self,
        names: &Scopes<'_>,
        c: &mut Cursor<'_>,
        first: Boxed<Expr>,
    ) -> Result<Boxed<Expr>, Stop>
        requires { Nests self.now.depth (F.pre self.now.inside) (F.post self.now.inside) }
        ensures { Reads (spec.condition_from (readers self.now.depth) names.now first c.old) result c.new }
    {
        let a = self.joined_from(names, c, 11, first)?;
        self.chosen(names, c, a)
    }

    /// A conditional expression (5.16).
    #[tactic(auto, unfolding(crate::specs::Binaries::condition))]
    pub fn condition(&self, names: &Scopes<'_>, c: &mut Cursor<'_>) -> Result<Boxed<Expr>, Stop>
        requires { Nests self.now.depth (F.pre self.now.inside) (F.post self.now.inside) }
        ensures { Reads (spec.condition (readers self.now.depth) names.now c.old) result c.new }
    {
        let first = self.cast(names, c)?;
        self.condition_from(names, c, first)
    }

    #[tactic(auto, unfolding(crate::specs::Binaries::assigned))]
    fn assigned(
        &self,
        names: &Scopes<'_>,
        c: &mut Cursor<'_>,
    ) -> Result<((u32, AssignOp), Boxed<Expr>), Stop>
        requires { Nests self.now.depth (F.pre self.now.inside) (F.post self.now.inside) }
        ensures { Reads (spec.assigned (readers self.now.depth) names.now c.old) result c.new }
    {
        let op = assign_operator(c)?;
        let y = self.inner_assign(names, c)?;
        Ok((op, y))
    }

    #[tactic(auto, unfolding(crate::specs::Binaries::assigns))]
    fn assigns(
        &self,
        names: &Scopes<'_>,
        c: &mut Cursor<'_>,
        left: Boxed<Expr>,
    ) -> Result<Boxed<Expr>, Stop>
        requires { Nests self.now.depth (F.pre self.now.inside) (F.post self.now.inside) }
        ensures { Reads (spec.assigns (readers self.now.depth) names.now left c.old) result c.new }
    {
        let before = c.rest();
        match self.assigned(names, c) {
            Ok(((at, op), y)) => Ok(Boxed::new(self.alloc, Expr::Assign(at, op, left, y))?),
            Err(Stop::Nothing) => {
                c.set(before);
                Ok(left)
            }
            Err(Stop::Memory) => Err(Stop::Memory),
        }
    }

    #[tactic(auto, unfolding(crate::specs::Binaries::assign_from))]
    fn assign_from(
        &self,
        names: &Scopes<'_>,
        c: &mut Cursor<'_>,
        first: Boxed<Expr>,
    ) -> Result<Boxed<Expr>, Stop>
        requires { Nests self.now.depth (F.pre self.now.inside) (F.post self.now.inside) }
        ensures { Reads (spec.assign_from (readers self.now.depth) names.now first c.old) result c.new }
    {
        if begins_assigning(c) {
            self.assigns(names, c, first)
        } else {
            self.condition_from(names, c, first)
        }
    }

    /// An assigning expression (5.17).
    #[tactic(auto, unfolding(crate::specs::Binaries::assign))]
    pub fn assign(&self, names: &Scopes<'_>, c: &mut Cursor<'_>) -> Result<Boxed<Expr>, Stop>
        requires { Nests self.now.depth (F.pre self.now.inside) (F.post self.now.inside) }
        ensures { Reads (spec.assign (readers self.now.depth) names.now c.old) result c.new }
    {
        let before = c.rest();
        match self.type_in_brackets(names, c) {
            Ok((at, t)) => {
                let first = self.cast_operand(names, c, at, t)?;
                self.condition_from(names, c, first)
            }
            Err(Stop::Nothing) => {
                c.set(before);
                let first = self.unary(names, c)?;
                self.assign_from(names, c, first)
            }
            Err(Stop::Memory) => Err(Stop::Memory),
        }
    }

    #[tactic(auto, unfolding(crate::specs::Binaries::rest_of_list))]
    fn rest_of_list(
        &self,
        names: &Scopes<'_>,
        c: &mut Cursor<'_>,
        first: Boxed<Expr>,
        at: u32,
        second: Boxed<Expr>,
    ) -> Result<Boxed<Expr>, Memory>
        requires { Nests self.now.depth (F.pre self.now.inside) (F.post self.now.inside) }
        ensures { Always (spec.rest_of_list (readers self.now.depth) names.now first (at, second) c.old) result c.new }
    {
        let mut all = Items::new(self.alloc);
        all.push(first.into_inner())?;
        all.push(second.into_inner())?;
        let all = self.more_assigns(names, c, all)?;
        Ok(Boxed::new(self.alloc, Expr::Comma(at, all))?)
    }

    /// Expressions with commas between them, or one (5.18).
    #[tactic(auto, unfolding(crate::specs::Binaries::commas, crate::specs::Binaries::listed))]
    pub fn commas(&self, names: &Scopes<'_>, c: &mut Cursor<'_>) -> Result<Boxed<Expr>, Stop>
        requires { Nests self.now.depth (F.pre self.now.inside) (F.post self.now.inside) }
        ensures { Reads (spec.commas (readers self.now.depth) names.now c.old) result c.new }
    {
        let first = self.assign(names, c)?;
        let before = c.rest();
        match self.next_assign(names, c) {
            Ok((at, second)) => Ok(self.rest_of_list(names, c, first, at, second)?),
            Err(Stop::Nothing) => {
                c.set(before);
                Ok(first)
            }
            Err(Stop::Memory) => Err(Stop::Memory),
        }
    }
}
