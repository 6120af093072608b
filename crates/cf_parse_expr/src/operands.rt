//! Operands and what stands behind them (5.1, 5.2).

ghost use Rattle.cf_syntax.specs.Reading.{readers};
ghost use Rattle.cf_parse_expr.specs.Reads.{Reads, Always};
ghost use Rattle.cf_parse_expr.specs.Nests.{Nests};
ghost use Rattle.cf_parse_expr.specs.Operands as spec;
ghost use Rattle.std.specs.Prelude.{◌≡◌, is_some, IfOk};
ghost use Rattle.cf_syntax.specs.Grammar.{constant_of, applied};
ghost use Rattle.cf_parse_expr.specs.Leaves.{a_constant, a_basic_word};

use crate::cursor::Cursor;
use crate::grammar::{Grammar, Node, Wanted};
use crate::names::type_path;
use crate::operators::step_operator;
use crate::scopes::Scopes;
use crate::specifiers::{basic_of, name};
use crate::stop::Stop;
use crate::words::{ARROW, DOT, LEFT_BRACKET, LEFT_PAREN, RIGHT_BRACKET, RIGHT_PAREN, THIS, TILDE};
use cf_base::{Boxed, Bytes, Memory};
use cf_syntax::{BasicType, Expr, Path, Suffix};
use cf_tokens::Word;
use std::alloc::Global;

/// The constant or the `this` that a word is, if it is one.
fn constant_of(alloc: Global, at: u32, word: &Word) -> Result<Option<Boxed<Expr>>, Memory>
    ensures { IfOk result (λ found. found ≡ constant_of at word.now) }
{
    match word {
        Word::Ident(_) => Ok(None),
        Word::Keyword(k) => {
            if *k == THIS {
                Ok(Some(Boxed::new(alloc, Expr::This(at))?))
            } else {
                Ok(None)
            }
        }
        Word::Int { value, kind } => Ok(Some(Boxed::new(alloc, Expr::Int(at, *value, *kind))?)),
        Word::Char(value) => Ok(Some(Boxed::new(alloc, Expr::Char(at, *value))?)),
        Word::Text(bytes) => {
            let bytes = Bytes::from_slice(alloc, bytes.as_slice())?;
            Ok(Some(Boxed::new(alloc, Expr::Text(at, bytes))?))
        }
        Word::Sign(_) => Ok(None),
    }
}

/// A constant or `this`.
#[tactic(auto, unfolding(crate::specs::Leaves::a_constant))]
fn constant(alloc: Global, c: &mut Cursor<'_>) -> Result<Boxed<Expr>, Stop>
    ensures { Reads (a_constant c.old) result c.new }
{
    match c.rest() {
        [token, behind @ ..] => match constant_of(alloc, token.at, &token.word)? {
            Some(x) => {
                c.set(behind);
                Ok(x)
            }
            None => Err(Stop::Nothing),
        },
        [] => Err(Stop::Nothing),
    }
}

/// The name of a fundamental type or a part of one, with its place.
#[tactic(auto, unfolding(crate::specs::Leaves::a_basic_word))]
fn basic_word(c: &mut Cursor<'_>) -> Result<(u32, BasicType), Stop>
    ensures { Reads (a_basic_word c.old) result c.new }
{
    let at = c.place();
    match basic_of(c.front()) {
        Some(basic) => {
            c.skip();
            Ok((at, basic))
        }
        None => Err(Stop::Nothing),
    }
}

/// A name that begins with no `~`.
#[tactic(auto, unfolding(crate::specs::Operands::named))]
fn named(alloc: Global, names: &Scopes<'_>, c: &mut Cursor<'_>) -> Result<Boxed<Expr>, Stop>
    ensures { Reads (spec.named names.now c.old) result c.new }
{
    if c.front() == TILDE {
        return Err(Stop::Nothing);
    }
    let (n, _) = name(alloc, names, c)?;
    Ok(Boxed::new(alloc, Expr::Named(n))?)
}

#[tactic(auto, unfolding(crate::specs::Operands::dot_member))]
fn dot_member(alloc: Global, names: &Scopes<'_>, c: &mut Cursor<'_>) -> Result<Suffix, Stop>
    ensures { Reads (spec.dot_member names.now c.old) result c.new }
{
    let at = c.word(DOT)?;
    let (n, _) = name(alloc, names, c)?;
    Ok(Suffix::Dot(at, n))
}

#[tactic(auto, unfolding(crate::specs::Operands::arrow_member))]
fn arrow_member(alloc: Global, names: &Scopes<'_>, c: &mut Cursor<'_>) -> Result<Suffix, Stop>
    ensures { Reads (spec.arrow_member names.now c.old) result c.new }
{
    let at = c.word(ARROW)?;
    let (n, _) = name(alloc, names, c)?;
    Ok(Suffix::Arrow(at, n))
}

#[tactic(auto, unfolding(crate::specs::Operands::step_behind))]
fn step_behind(c: &mut Cursor<'_>) -> Result<Suffix, Stop>
    ensures { Reads (spec.step_behind c.old) result c.new }
{
    let (at, op) = step_operator(c)?;
    Ok(Suffix::Step(at, op))
}

/// An operand with what stands behind it.
fn applied(alloc: Global, a: Boxed<Expr>, suffix: Suffix) -> Result<Boxed<Expr>, Memory>
    ensures { IfOk result (λ made. made ≡ applied a suffix) }
{
    match suffix {
        Suffix::Index(at, i) => Boxed::new(alloc, Expr::Index(at, a, i)),
        Suffix::Call(at, all) => Boxed::new(alloc, Expr::Call(at, a, all)),
        Suffix::Dot(at, n) => Boxed::new(alloc, Expr::Dot(at, a, n)),
        Suffix::Arrow(at, n) => Boxed::new(alloc, Expr::Arrow(at, a, n)),
        Suffix::Step(at, op) => Boxed::new(alloc, Expr::StepAfter(at, op, a)),
    }
}

/// Whether the name of a fundamental type or a part of one comes next.
#[tactic(auto, unfolding(crate::specs::Leaves::a_basic_word))]
fn begins_basic(c: &Cursor<'_>) -> bool
    ensures { result ≡ is_some (a_basic_word c.now) }
{
    basic_of(c.front()).is_some()
}

impl<F: Fn(Global, usize, Wanted, &Scopes<'_>, &mut Cursor<'_>) -> Result<Node, Stop>> Grammar<F> {
    #[tactic(auto, unfolding(crate::specs::Operands::bracketed))]
    fn bracketed(&self, names: &Scopes<'_>, c: &mut Cursor<'_>) -> Result<Boxed<Expr>, Stop>
        requires { Nests self.now.depth (F.pre self.now.inside) (F.post self.now.inside) }
        ensures { Reads (spec.bracketed (readers self.now.depth) names.now c.old) result c.new }
    {
        let at = c.word(LEFT_PAREN)?;
        let x = self.inner_commas(names, c)?;
        c.word(RIGHT_PAREN)?;
        Ok(Boxed::new(self.alloc, Expr::Paren(at, x))?)
    }

    /// A type's name with arguments (5.2.3).
    #[tactic(auto, unfolding(crate::specs::Operands::path_call))]
    fn path_call(
        &self,
        names: &Scopes<'_>,
        c: &mut Cursor<'_>,
        path: Path,
    ) -> Result<Boxed<Expr>, Stop>
        requires { Nests self.now.depth (F.pre self.now.inside) (F.post self.now.inside) }
        ensures { Reads (spec.path_call (readers self.now.depth) names.now path c.old) result c.new }
    {
        let (_, all) = self.arguments(names, c)?;
        Ok(Boxed::new(self.alloc, Expr::TypeCall(path.at, path, all))?)
    }

    #[tactic(auto, unfolding(crate::specs::Operands::path_head))]
    fn path_head(&self, names: &Scopes<'_>, c: &mut Cursor<'_>) -> Result<Boxed<Expr>, Stop>
        requires { Nests self.now.depth (F.pre self.now.inside) (F.post self.now.inside) }
        ensures { Reads (spec.path_head (readers self.now.depth) names.now c.old) result c.new }
    {
        let before = c.rest();
        match type_path(self.alloc, names, c) {
            Ok(path) => self.path_call(names, c, path),
            Err(Stop::Nothing) => {
                c.set(before);
                named(self.alloc, names, c)
            }
            Err(Stop::Memory) => Err(Stop::Memory),
        }
    }

    /// A fundamental type with arguments (5.2.3).
    #[tactic(auto, unfolding(crate::specs::Operands::basic_call))]
    fn basic_call(&self, names: &Scopes<'_>, c: &mut Cursor<'_>) -> Result<Boxed<Expr>, Stop>
        requires { Nests self.now.depth (F.pre self.now.inside) (F.post self.now.inside) }
        ensures { Reads (spec.basic_call (readers self.now.depth) names.now c.old) result c.new }
    {
        let (at, basic) = basic_word(c)?;
        let (_, all) = self.arguments(names, c)?;
        Ok(Boxed::new(self.alloc, Expr::BasicCall(at, basic, all))?)
    }

    #[tactic(auto, unfolding(crate::specs::Operands::basic_head))]
    fn basic_head(&self, names: &Scopes<'_>, c: &mut Cursor<'_>) -> Result<Boxed<Expr>, Stop>
        requires { Nests self.now.depth (F.pre self.now.inside) (F.post self.now.inside) }
        ensures { Reads (spec.basic_head (readers self.now.depth) names.now c.old) result c.new }
    {
        if begins_basic(c) {
            self.basic_call(names, c)
        } else {
            self.path_head(names, c)
        }
    }

    #[tactic(auto, unfolding(crate::specs::Operands::paren_head))]
    fn paren_head(&self, names: &Scopes<'_>, c: &mut Cursor<'_>) -> Result<Boxed<Expr>, Stop>
        requires { Nests self.now.depth (F.pre self.now.inside) (F.post self.now.inside) }
        ensures { Reads (spec.paren_head (readers self.now.depth) names.now c.old) result c.new }
    {
        if c.front() == LEFT_PAREN {
            self.bracketed(names, c)
        } else {
            self.basic_head(names, c)
        }
    }

    /// A constant, `this`, an expression in brackets, a type with arguments or a name.
    #[tactic(auto, unfolding(crate::specs::Operands::head))]
    fn head(&self, names: &Scopes<'_>, c: &mut Cursor<'_>) -> Result<Boxed<Expr>, Stop>
        requires { Nests self.now.depth (F.pre self.now.inside) (F.post self.now.inside) }
        ensures { Reads (spec.head (readers self.now.depth) names.now c.old) result c.new }
    {
        let before = c.rest();
        match constant(self.alloc, c) {
            Ok(x) => Ok(x),
            Err(Stop::Nothing) => {
                c.set(before);
                self.paren_head(names, c)
            }
            Err(Stop::Memory) => Err(Stop::Memory),
        }
    }

    #[tactic(auto, unfolding(crate::specs::Operands::index))]
    fn index(&self, names: &Scopes<'_>, c: &mut Cursor<'_>) -> Result<Suffix, Stop>
        requires { Nests self.now.depth (F.pre self.now.inside) (F.post self.now.inside) }
        ensures { Reads (spec.index (readers self.now.depth) names.now c.old) result c.new }
    {
        let at = c.word(LEFT_BRACKET)?;
        let i = self.inner_commas(names, c)?;
        c.word(RIGHT_BRACKET)?;
        Ok(Suffix::Index(at, i))
    }

    #[tactic(auto, unfolding(crate::specs::Operands::call))]
    fn call(&self, names: &Scopes<'_>, c: &mut Cursor<'_>) -> Result<Suffix, Stop>
        requires { Nests self.now.depth (F.pre self.now.inside) (F.post self.now.inside) }
        ensures { Reads (spec.call (readers self.now.depth) names.now c.old) result c.new }
    {
        let (at, all) = self.arguments(names, c)?;
        Ok(Suffix::Call(at, all))
    }

    /// What can stand behind an operand.
    #[tactic(auto, unfolding(crate::specs::Operands::behind))]
    fn behind(&self, names: &Scopes<'_>, c: &mut Cursor<'_>) -> Result<Suffix, Stop>
        requires { Nests self.now.depth (F.pre self.now.inside) (F.post self.now.inside) }
        ensures { Reads (spec.behind (readers self.now.depth) names.now c.old) result c.new }
    {
        let front = c.front();
        if front == LEFT_BRACKET {
            self.index(names, c)
        } else if front == LEFT_PAREN {
            self.call(names, c)
        } else if front == DOT {
            dot_member(self.alloc, names, c)
        } else if front == ARROW {
            arrow_member(self.alloc, names, c)
        } else {
            step_behind(c)
        }
    }

    fn more_behind(
        &self,
        names: &Scopes<'_>,
        c: &mut Cursor<'_>,
        first: Boxed<Expr>,
    ) -> Result<Boxed<Expr>, Memory>
        requires { Nests self.now.depth (F.pre self.now.inside) (F.post self.now.inside) }
        ensures { Always (spec.more_behind (readers self.now.depth) names.now first c.old) result c.new }
    {
        let mut a = first;
        for _turn in 0..c.len() {
            let before = c.rest();
            match self.behind(names, c) {
                Ok(suffix) => a = applied(self.alloc, a, suffix)?,
                Err(Stop::Nothing) => {
                    c.set(before);
                    return Ok(a);
                }
                Err(Stop::Memory) => return Err(Memory),
            }
        }
        Ok(a)
    }

    /// An operand with all that stands behind it (5.2).
    #[tactic(auto, unfolding(crate::specs::Operands::post))]
    pub fn post(&self, names: &Scopes<'_>, c: &mut Cursor<'_>) -> Result<Boxed<Expr>, Stop>
        requires { Nests self.now.depth (F.pre self.now.inside) (F.post self.now.inside) }
        ensures { Reads (spec.post (readers self.now.depth) names.now c.old) result c.new }
    {
        let first = self.head(names, c)?;
        Ok(self.more_behind(names, c, first)?)
    }
}
