//! Unary expressions and casts (5.3, 5.4).

ghost use Rattle.cf_syntax.specs.Reading.{readers};
ghost use Rattle.cf_parse_expr.specs.Reads.{Reads, Always};
ghost use Rattle.cf_parse_expr.specs.Nests.{Nests};
ghost use Rattle.cf_parse_expr.specs.Unaries as spec;
ghost use Rattle.std.specs.Prelude.{◌≡◌, Some};
ghost use Rattle.cf_syntax.specs.Grammar.{allocates};
ghost use Rattle.cf_syntax.specs.Operators.{heads, stepping, prefixing};
ghost use Rattle.cf_parse_expr.specs.Leaves.{a_scope, brackets};

use crate::cursor::Cursor;
use crate::grammar::{Grammar, Node, Wanted};
use crate::names::pointers;
use crate::operators::{prefix_of, prefix_operator, step_of, step_operator};
use crate::scopes::Scopes;
use crate::specifiers::specifiers;
use crate::stop::Stop;
use crate::words::{DELETE, LEFT_BRACKET, LEFT_PAREN, NEW, RIGHT_BRACKET, SCOPE, SIZEOF};
use cf_base::{Boxed, Items, Memory};
use cf_syntax::{Expr, TypeId};
use std::alloc::Global;

/// Whether `++` or `--` comes next.
#[tactic(auto, using(crate::proofs::Heads::heads_is))]
fn begins_step(c: &Cursor<'_>) -> bool
    ensures { result ≡ heads stepping c.now }
{
    step_of(c.front()).is_some()
}

/// Whether a unary operator comes next.
#[tactic(auto, using(crate::proofs::Heads::heads_is))]
fn begins_prefix(c: &Cursor<'_>) -> bool
    ensures { result ≡ heads prefixing c.now }
{
    prefix_of(c.front()).is_some()
}

/// Whether `new` or `delete` comes next, also behind `::`.
fn allocates(c: &Cursor<'_>) -> bool
    ensures { result ≡ allocates c.now }
{
    let front = c.front();
    let second = c.second();
    (front == DELETE || front == NEW) || (front == SCOPE && (second == DELETE || second == NEW))
}

/// Whether `::` comes next; it goes past it.
#[tactic(auto, unfolding(crate::specs::Leaves::a_scope))]
fn scope(c: &mut Cursor<'_>) -> bool
    ensures { a_scope c.old ≡ Some (result, c.new) }
{
    if c.front() == SCOPE {
        c.skip();
        true
    } else {
        false
    }
}

/// Whether `[` and `]` come next; it goes past them.
#[tactic(auto, unfolding(crate::specs::Leaves::brackets))]
fn brackets(c: &mut Cursor<'_>) -> bool
    ensures { brackets c.old ≡ Some (result, c.new) }
{
    if c.front() == LEFT_BRACKET && c.second() == RIGHT_BRACKET {
        c.skip_two();
        true
    } else {
        false
    }
}

impl<F: Fn(Global, usize, Wanted, &Scopes<'_>, &mut Cursor<'_>) -> Result<Node, Stop>> Grammar<F> {
    /// What stands behind `sizeof`: brackets that can hold a type hold one.
    #[tactic(auto, unfolding(crate::specs::Unaries::size_of))]
    fn size_of(&self, names: &Scopes<'_>, c: &mut Cursor<'_>, at: u32) -> Result<Boxed<Expr>, Stop>
        requires { Nests self.now.depth (F.pre self.now.inside) (F.post self.now.inside) }
        ensures { Reads (spec.size_of (readers self.now.depth) names.now at c.old) result c.new }
    {
        let before = c.rest();
        match self.type_in_brackets(names, c) {
            Ok((_, t)) => Ok(Boxed::new(self.alloc, Expr::SizeofType(at, t))?),
            Err(Stop::Nothing) => {
                c.set(before);
                let x = self.inner_unary(names, c)?;
                Ok(Boxed::new(self.alloc, Expr::SizeofExpr(at, x))?)
            }
            Err(Stop::Memory) => Err(Stop::Memory),
        }
    }

    #[tactic(auto, unfolding(crate::specs::Unaries::bound))]
    fn bound(&self, names: &Scopes<'_>, c: &mut Cursor<'_>) -> Result<Boxed<Expr>, Stop>
        requires { Nests self.now.depth (F.pre self.now.inside) (F.post self.now.inside) }
        ensures { Reads (spec.bound (readers self.now.depth) names.now c.old) result c.new }
    {
        c.word(LEFT_BRACKET)?;
        let x = self.inner_commas(names, c)?;
        c.word(RIGHT_BRACKET)?;
        Ok(x)
    }

    fn bounds(&self, names: &Scopes<'_>, c: &mut Cursor<'_>) -> Result<Items<Expr>, Memory>
        requires { Nests self.now.depth (F.pre self.now.inside) (F.post self.now.inside) }
        ensures { Always (spec.bounds (readers self.now.depth) names.now c.old) result c.new }
    {
        let mut all = Items::new(self.alloc);
        for _turn in 0..c.len() {
            let before = c.rest();
            match self.bound(names, c) {
                Ok(x) => all.push(x.into_inner())?,
                Err(Stop::Nothing) => {
                    c.set(before);
                    return Ok(all);
                }
                Err(Stop::Memory) => return Err(Memory),
            }
        }
        Ok(all)
    }

    /// The arguments of a `new`, and whether there are brackets for them.
    #[tactic(auto, unfolding(crate::specs::Unaries::initialised))]
    fn initialised(
        &self,
        names: &Scopes<'_>,
        c: &mut Cursor<'_>,
    ) -> Result<(bool, Items<Expr>), Stop>
        requires { Nests self.now.depth (F.pre self.now.inside) (F.post self.now.inside) }
        ensures { Reads (spec.initialised (readers self.now.depth) names.now c.old) result c.new }
    {
        let before = c.rest();
        match self.arguments(names, c) {
            Ok((_, all)) => Ok((true, all)),
            Err(Stop::Nothing) => {
                c.set(before);
                Ok((false, Items::new(self.alloc)))
            }
            Err(Stop::Memory) => Err(Stop::Memory),
        }
    }

    #[tactic(auto, unfolding(crate::specs::Unaries::new_bracketed))]
    fn new_bracketed(
        &self,
        names: &Scopes<'_>,
        c: &mut Cursor<'_>,
        at: u32,
        file: bool,
    ) -> Result<Boxed<Expr>, Stop>
        requires { Nests self.now.depth (F.pre self.now.inside) (F.post self.now.inside) }
        ensures { Reads (spec.new_bracketed (readers self.now.depth) names.now at file c.old) result c.new }
    {
        let (_, t) = self.type_in_brackets(names, c)?;
        let (has_arguments, all) = self.initialised(names, c)?;
        Ok(Boxed::new(
            self.alloc,
            Expr::NewBracketed(at, file, t, has_arguments, all),
        )?)
    }

    #[tactic(auto, unfolding(crate::specs::Unaries::new_plain))]
    fn new_plain(
        &self,
        names: &Scopes<'_>,
        c: &mut Cursor<'_>,
        at: u32,
        file: bool,
    ) -> Result<Boxed<Expr>, Stop>
        requires { Nests self.now.depth (F.pre self.now.inside) (F.post self.now.inside) }
        ensures { Reads (spec.new_plain (readers self.now.depth) names.now at file c.old) result c.new }
    {
        let list = specifiers(self.alloc, names, c)?;
        let ps = pointers(self.alloc, names, c)?;
        let bounds = self.bounds(names, c)?;
        let (has_arguments, all) = self.initialised(names, c)?;
        Ok(Boxed::new(
            self.alloc,
            Expr::New(at, file, list, ps, bounds, has_arguments, all),
        )?)
    }

    /// What stands behind `new` (5.3.3).
    #[tactic(auto, unfolding(crate::specs::Unaries::new_type))]
    fn new_type(
        &self,
        names: &Scopes<'_>,
        c: &mut Cursor<'_>,
        file: bool,
        at: u32,
    ) -> Result<Boxed<Expr>, Stop>
        requires { Nests self.now.depth (F.pre self.now.inside) (F.post self.now.inside) }
        ensures { Reads (spec.new_type (readers self.now.depth) names.now file at c.old) result c.new }
    {
        if c.front() == LEFT_PAREN {
            self.new_bracketed(names, c, at, file)
        } else {
            self.new_plain(names, c, at, file)
        }
    }

    /// `delete` with its operand (5.3.4).
    #[tactic(auto, unfolding(crate::specs::Unaries::deleted))]
    fn deleted(
        &self,
        names: &Scopes<'_>,
        c: &mut Cursor<'_>,
        file: bool,
    ) -> Result<Boxed<Expr>, Stop>
        requires { Nests self.now.depth (F.pre self.now.inside) (F.post self.now.inside) }
        ensures { Reads (spec.deleted (readers self.now.depth) names.now file c.old) result c.new }
    {
        let at = c.word(DELETE)?;
        let array = brackets(c);
        let x = self.inner_cast(names, c)?;
        Ok(Boxed::new(self.alloc, Expr::Delete(at, file, array, x))?)
    }

    #[tactic(auto, unfolding(crate::specs::Unaries::allocation))]
    fn allocation(
        &self,
        names: &Scopes<'_>,
        c: &mut Cursor<'_>,
        file: bool,
    ) -> Result<Boxed<Expr>, Stop>
        requires { Nests self.now.depth (F.pre self.now.inside) (F.post self.now.inside) }
        ensures { Reads (spec.allocation (readers self.now.depth) names.now file c.old) result c.new }
    {
        if c.front() == NEW {
            let at = c.word(NEW)?;
            return self.new_type(names, c, file, at);
        }
        self.deleted(names, c, file)
    }

    #[tactic(auto, unfolding(crate::specs::Unaries::stepped))]
    fn stepped(&self, names: &Scopes<'_>, c: &mut Cursor<'_>) -> Result<Boxed<Expr>, Stop>
        requires { Nests self.now.depth (F.pre self.now.inside) (F.post self.now.inside) }
        ensures { Reads (spec.stepped (readers self.now.depth) names.now c.old) result c.new }
    {
        let (at, op) = step_operator(c)?;
        let x = self.inner_unary(names, c)?;
        Ok(Boxed::new(self.alloc, Expr::StepBefore(at, op, x))?)
    }

    #[tactic(auto, unfolding(crate::specs::Unaries::prefixed))]
    fn prefixed(&self, names: &Scopes<'_>, c: &mut Cursor<'_>) -> Result<Boxed<Expr>, Stop>
        requires { Nests self.now.depth (F.pre self.now.inside) (F.post self.now.inside) }
        ensures { Reads (spec.prefixed (readers self.now.depth) names.now c.old) result c.new }
    {
        let (at, op) = prefix_operator(c)?;
        let x = self.inner_cast(names, c)?;
        Ok(Boxed::new(self.alloc, Expr::Prefix(at, op, x))?)
    }

    #[tactic(auto, unfolding(crate::specs::Unaries::sized))]
    fn sized(&self, names: &Scopes<'_>, c: &mut Cursor<'_>) -> Result<Boxed<Expr>, Stop>
        requires { Nests self.now.depth (F.pre self.now.inside) (F.post self.now.inside) }
        ensures { Reads (spec.sized (readers self.now.depth) names.now c.old) result c.new }
    {
        let at = c.word(SIZEOF)?;
        self.size_of(names, c, at)
    }

    #[tactic(auto, unfolding(crate::specs::Unaries::allocated))]
    fn allocated(&self, names: &Scopes<'_>, c: &mut Cursor<'_>) -> Result<Boxed<Expr>, Stop>
        requires { Nests self.now.depth (F.pre self.now.inside) (F.post self.now.inside) }
        ensures { Reads (spec.allocated (readers self.now.depth) names.now c.old) result c.new }
    {
        let file = scope(c);
        self.allocation(names, c, file)
    }

    /// A unary expression (5.3).
    #[tactic(auto, unfolding(crate::specs::Unaries::unary))]
    pub fn unary(&self, names: &Scopes<'_>, c: &mut Cursor<'_>) -> Result<Boxed<Expr>, Stop>
        requires { Nests self.now.depth (F.pre self.now.inside) (F.post self.now.inside) }
        ensures { Reads (spec.unary (readers self.now.depth) names.now c.old) result c.new }
    {
        if begins_step(c) {
            self.stepped(names, c)
        } else if begins_prefix(c) {
            self.prefixed(names, c)
        } else if c.front() == SIZEOF {
            self.sized(names, c)
        } else if allocates(c) {
            self.allocated(names, c)
        } else {
            self.post(names, c)
        }
    }

    /// The operand of a cast to this type, with the cast.
    #[tactic(auto, unfolding(crate::specs::Unaries::cast_operand))]
    pub fn cast_operand(
        &self,
        names: &Scopes<'_>,
        c: &mut Cursor<'_>,
        at: u32,
        t: Boxed<TypeId>,
    ) -> Result<Boxed<Expr>, Stop>
        requires { Nests self.now.depth (F.pre self.now.inside) (F.post self.now.inside) }
        ensures { Reads (spec.cast_operand (readers self.now.depth) names.now (at, t) c.old) result c.new }
    {
        let x = self.inner_cast(names, c)?;
        Ok(Boxed::new(self.alloc, Expr::Cast(at, t, x))?)
    }

    /// A cast or a unary expression (5.4): brackets that can hold a type hold one.
    #[tactic(auto, unfolding(crate::specs::Unaries::cast))]
    pub fn cast(&self, names: &Scopes<'_>, c: &mut Cursor<'_>) -> Result<Boxed<Expr>, Stop>
        requires { Nests self.now.depth (F.pre self.now.inside) (F.post self.now.inside) }
        ensures { Reads (spec.cast (readers self.now.depth) names.now c.old) result c.new }
    {
        let before = c.rest();
        match self.type_in_brackets(names, c) {
            Ok((at, t)) => self.cast_operand(names, c, at, t),
            Err(Stop::Nothing) => {
                c.set(before);
                self.unary(names, c)
            }
            Err(Stop::Memory) => Err(Stop::Memory),
        }
    }
}
