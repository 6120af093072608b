//! Declarators (8).

ghost use Rattle.cf_syntax.specs.Reading.{readers};
ghost use Rattle.cf_parse_expr.specs.Reads.{Reads, Always};
ghost use Rattle.cf_parse_expr.specs.Nests.{Nests};
ghost use Rattle.cf_parse_expr.specs.Declarators as spec;
ghost use Rattle.std.specs.Prelude.{◌≡◌, [], length, IfOk};
ghost use Rattle.cf_syntax.specs.Grammar.{begins, name_words};
ghost use Rattle.cf_syntax.specs.declared.declarator.DeclTree.TheVariants as decl;

use crate::cursor::Cursor;
use crate::grammar::{Grammar, Node, Wanted};
use crate::names::one_pointer;
use crate::scopes::Scopes;
use crate::specifiers::name;
use crate::stop::Stop;
use crate::words::{CONST, LEFT_BRACKET, LEFT_PAREN, RIGHT_BRACKET, RIGHT_PAREN, begins};
use cf_base::{Boxed, Items, Memory};
use cf_syntax::{DeclTree, DeclaratorKind, Expr, Param, Pointer};
use std::alloc::Global;

/// The words that a name begins with.
const NAME_WORDS: [u16; 4] = [128, 9, 16, 89];

/// Whether a word comes next that a name begins with.
fn begins_name(c: &Cursor<'_>) -> bool
    ensures { result ≡ begins name_words c.now }
{
    begins(&NAME_WORDS, c)
}

/// A name that is declared, and the numbers of the classes that qualify it.
#[tactic(auto, unfolding(crate::specs::Declarators::named_head))]
fn named_head(
    alloc: Global,
    names: &Scopes<'_>,
    c: &mut Cursor<'_>,
) -> Result<(Boxed<DeclTree>, Items<u32>), Stop>
    ensures { Reads (spec.named_head names.now c.old) result c.new }
{
    let (n, classes) = name(alloc, names, c)?;
    Ok((Boxed::new(alloc, DeclTree::Declared(n))?, classes))
}

/// No name.
fn unnamed(alloc: Global) -> Result<(Boxed<DeclTree>, Items<u32>), Memory>
    ensures { IfOk result (λ d. d ≡ (decl.Unnamed, [])) }
{
    Ok((Boxed::new(alloc, DeclTree::Unnamed)?, Items::new(alloc)))
}

/// What stands behind a declarator: an array's bound, or parameters and whether `const` follows, at the bracket.
#[derive(Drop)]
enum DeclaratorSuffix {
    Array(u32, Option<Boxed<Expr>>),
    Function(u32, Items<Param>, bool),
}

/// A declarator with what stands behind it.
fn suffixed(
    alloc: Global,
    d: Boxed<DeclTree>,
    suffix: DeclaratorSuffix,
) -> Result<Boxed<DeclTree>, Memory>
    ensures { IfOk result (λ made. made ≡ spec.suffixed d suffix) }
{
    match suffix {
        DeclaratorSuffix::Array(at, bound) => Boxed::new(alloc, DeclTree::Array(at, d, bound)),
        DeclaratorSuffix::Function(at, all, is_const) => {
            Boxed::new(alloc, DeclTree::Function(at, d, all, is_const))
        }
    }
}

/// A name, if one stands there.
#[tactic(auto, unfolding(crate::specs::Declarators::maybe_named))]
fn maybe_named(
    alloc: Global,
    names: &Scopes<'_>,
    c: &mut Cursor<'_>,
) -> Result<(Boxed<DeclTree>, Items<u32>), Stop>
    ensures { Reads (spec.maybe_named names.now c.old) result c.new }
{
    if !begins_name(c) {
        return Ok(unnamed(alloc)?);
    }
    let before = c.rest();
    match named_head(alloc, names, c) {
        Ok(d) => Ok(d),
        Err(Stop::Nothing) => {
            c.set(before);
            Ok(unnamed(alloc)?)
        }
        Err(Stop::Memory) => Err(Stop::Memory),
    }
}

impl<F: Fn(Global, usize, Wanted, &Scopes<'_>, &mut Cursor<'_>) -> Result<Node, Stop>> Grammar<F> {
    /// A declarator in brackets.
    #[tactic(auto, unfolding(crate::specs::Declarators::bracketed_head))]
    fn bracketed_head(
        &self,
        names: &Scopes<'_>,
        c: &mut Cursor<'_>,
        kind: DeclaratorKind,
    ) -> Result<(Boxed<DeclTree>, Items<u32>), Stop>
        requires { Nests self.now.depth (F.pre self.now.inside) (F.post self.now.inside) }
        ensures { Reads (spec.bracketed_head (readers self.now.depth) kind names.now c.old) result c.new }
    {
        let at = c.word(LEFT_PAREN)?;
        let (d, classes) = self.inner_declarator(names, c, kind)?;
        c.word(RIGHT_PAREN)?;
        Ok((Boxed::new(self.alloc, DeclTree::Bracketed(at, d))?, classes))
    }

    #[tactic(auto, unfolding(crate::specs::Declarators::array_bound))]
    fn array_bound(
        &self,
        names: &Scopes<'_>,
        c: &mut Cursor<'_>,
    ) -> Result<Option<Boxed<Expr>>, Stop>
        requires { Nests self.now.depth (F.pre self.now.inside) (F.post self.now.inside) }
        ensures { Reads (spec.array_bound (readers self.now.depth) names.now c.old) result c.new }
    {
        if c.front() == RIGHT_BRACKET {
            c.word(RIGHT_BRACKET)?;
            return Ok(None);
        }
        let x = self.inner_condition(names, c)?;
        c.word(RIGHT_BRACKET)?;
        Ok(Some(x))
    }

    /// The bound of an array, or none, in brackets (8.2.4), and the bracket's place.
    #[tactic(auto, unfolding(crate::specs::Declarators::array_behind))]
    fn array_behind(
        &self,
        names: &Scopes<'_>,
        c: &mut Cursor<'_>,
    ) -> Result<(u32, Option<Boxed<Expr>>), Stop>
        requires { Nests self.now.depth (F.pre self.now.inside) (F.post self.now.inside) }
        ensures { Reads (spec.array_behind (readers self.now.depth) names.now c.old) result c.new }
    {
        let at = c.word(LEFT_BRACKET)?;
        let bound = self.array_bound(names, c)?;
        Ok((at, bound))
    }

    /// Parameters in brackets, and whether `const` follows (8.2.5).
    #[tactic(auto, unfolding(crate::specs::Declarators::parameters_behind))]
    fn parameters_behind(
        &self,
        names: &Scopes<'_>,
        c: &mut Cursor<'_>,
    ) -> Result<(u32, Items<Param>, bool), Stop>
        requires { Nests self.now.depth (F.pre self.now.inside) (F.post self.now.inside) }
        ensures { Reads (spec.parameters_behind (readers self.now.depth) names.now c.old) result c.new }
    {
        let (at, all) = self.params_in_brackets(names, c)?;
        if c.front() == CONST {
            c.skip();
            return Ok((at, all, true));
        }
        Ok((at, all, false))
    }

    #[tactic(auto, unfolding(crate::specs::Declarators::suffix_at))]
    fn suffix_at(&self, names: &Scopes<'_>, c: &mut Cursor<'_>) -> Result<DeclaratorSuffix, Stop>
        requires { Nests self.now.depth (F.pre self.now.inside) (F.post self.now.inside) }
        ensures { Reads (spec.suffix_at (readers self.now.depth) names.now c.old) result c.new }
    {
        if c.front() == LEFT_BRACKET {
            let (at, bound) = self.array_behind(names, c)?;
            return Ok(DeclaratorSuffix::Array(at, bound));
        }
        let (at, all, is_const) = self.parameters_behind(names, c)?;
        Ok(DeclaratorSuffix::Function(at, all, is_const))
    }

    fn tree_turns(
        &self,
        names: &Scopes<'_>,
        c: &mut Cursor<'_>,
        turns: usize,
        first: Boxed<DeclTree>,
    ) -> Result<Boxed<DeclTree>, Memory>
        requires { Nests self.now.depth (F.pre self.now.inside) (F.post self.now.inside) }
        ensures { Always (spec.tree_turns (readers self.now.depth) names.now turns first c.old) result c.new }
    {
        let mut d = first;
        for _turn in 0..turns {
            let before = c.rest();
            match self.suffix_at(names, c) {
                Ok(suffix) => d = suffixed(self.alloc, d, suffix)?,
                Err(Stop::Nothing) => {
                    c.set(before);
                    return Ok(d);
                }
                Err(Stop::Memory) => return Err(Memory),
            }
        }
        Ok(d)
    }

    /// What stands behind a name, in the scopes of the classes that qualify it.
    #[tactic(auto, unfolding(crate::specs::Declarators::declarator_turns))]
    fn declarator_turns(
        &self,
        names: &Scopes<'_>,
        c: &mut Cursor<'_>,
        turns: usize,
        d: (Boxed<DeclTree>, Items<u32>),
    ) -> Result<(Boxed<DeclTree>, Items<u32>), Memory>
        requires { Nests self.now.depth (F.pre self.now.inside) (F.post self.now.inside) }
        ensures { Always (spec.declarator_turns (readers self.now.depth) names.now turns d c.old) result c.new }
    {
        let (first, classes) = d;
        let inside = names.open(self.alloc, classes.as_slice())?;
        let tree = self.tree_turns(&inside, c, turns, first)?;
        Ok((tree, classes))
    }

    #[tactic(auto, unfolding(crate::specs::Declarators::all_turns))]
    fn all_turns(
        &self,
        names: &Scopes<'_>,
        c: &mut Cursor<'_>,
        d: (Boxed<DeclTree>, Items<u32>),
    ) -> Result<(Boxed<DeclTree>, Items<u32>), Memory>
        requires { Nests self.now.depth (F.pre self.now.inside) (F.post self.now.inside) }
        ensures { Always (spec.all_turns (readers self.now.depth) names.now d c.old) result c.new }
    {
        let turns = c.len();
        self.declarator_turns(names, c, turns, d)
    }

    #[tactic(auto, unfolding(crate::specs::Declarators::bracketed_direct))]
    fn bracketed_direct(
        &self,
        names: &Scopes<'_>,
        c: &mut Cursor<'_>,
        kind: DeclaratorKind,
    ) -> Result<(Boxed<DeclTree>, Items<u32>), Stop>
        requires { Nests self.now.depth (F.pre self.now.inside) (F.post self.now.inside) }
        ensures { Reads (spec.bracketed_direct (readers self.now.depth) kind names.now c.old) result c.new }
    {
        let before = c.rest();
        match self.bracketed_head(names, c, kind) {
            Ok(d) => Ok(self.all_turns(names, c, d)?),
            Err(Stop::Nothing) => {
                c.set(before);
                Ok(unnamed(self.alloc)?)
            }
            Err(Stop::Memory) => Err(Stop::Memory),
        }
    }

    fn function_direct(
        &self,
        names: &Scopes<'_>,
        c: &mut Cursor<'_>,
        turns: usize,
        at: u32,
        all: Items<Param>,
        is_const: bool,
    ) -> Result<(Boxed<DeclTree>, Items<u32>), Memory>
        requires { Nests self.now.depth (F.pre self.now.inside) (F.post self.now.inside) }
        ensures { Always (spec.declarator_turns (readers self.now.depth) names.now turns (decl.Function at decl.Unnamed all is_const, []) c.old) result c.new }
    {
        let (d, classes) = unnamed(self.alloc)?;
        let d = Boxed::new(self.alloc, DeclTree::Function(at, d, all, is_const))?;
        self.declarator_turns(names, c, turns, (d, classes))
    }

    /// Brackets before which no name stands: those of parameters, of a declarator, or of neither.
    #[tactic(auto, unfolding(crate::specs::Declarators::paren_direct))]
    fn paren_direct(
        &self,
        names: &Scopes<'_>,
        c: &mut Cursor<'_>,
        kind: DeclaratorKind,
    ) -> Result<(Boxed<DeclTree>, Items<u32>), Stop>
        requires { Nests self.now.depth (F.pre self.now.inside) (F.post self.now.inside) }
        ensures { Reads (spec.paren_direct (readers self.now.depth) kind names.now c.old) result c.new }
    {
        let turns = c.len();
        let before = c.rest();
        match self.parameters_behind(names, c) {
            Ok((at, all, is_const)) => {
                Ok(self.function_direct(names, c, turns.saturating_sub(1), at, all, is_const)?)
            }
            Err(Stop::Nothing) => {
                c.set(before);
                self.bracketed_direct(names, c, kind)
            }
            Err(Stop::Memory) => Err(Stop::Memory),
        }
    }

    #[tactic(auto, unfolding(crate::specs::Declarators::named_direct))]
    fn named_direct(
        &self,
        names: &Scopes<'_>,
        c: &mut Cursor<'_>,
    ) -> Result<(Boxed<DeclTree>, Items<u32>), Stop>
        requires { Nests self.now.depth (F.pre self.now.inside) (F.post self.now.inside) }
        ensures { Reads (spec.named_direct (readers self.now.depth) names.now c.old) result c.new }
    {
        let d = if c.front() == LEFT_PAREN {
            self.bracketed_head(names, c, DeclaratorKind::Named)?
        } else {
            named_head(self.alloc, names, c)?
        };
        Ok(self.all_turns(names, c, d)?)
    }

    #[tactic(auto, unfolding(crate::specs::Declarators::abstract_direct))]
    fn abstract_direct(
        &self,
        names: &Scopes<'_>,
        c: &mut Cursor<'_>,
    ) -> Result<(Boxed<DeclTree>, Items<u32>), Stop>
        requires { Nests self.now.depth (F.pre self.now.inside) (F.post self.now.inside) }
        ensures { Reads (spec.abstract_direct (readers self.now.depth) names.now c.old) result c.new }
    {
        if c.front() == LEFT_PAREN {
            return self.paren_direct(names, c, DeclaratorKind::Abstract);
        }
        let d = unnamed(self.alloc)?;
        Ok(self.all_turns(names, c, d)?)
    }

    #[tactic(auto, unfolding(crate::specs::Declarators::either_direct))]
    fn either_direct(
        &self,
        names: &Scopes<'_>,
        c: &mut Cursor<'_>,
    ) -> Result<(Boxed<DeclTree>, Items<u32>), Stop>
        requires { Nests self.now.depth (F.pre self.now.inside) (F.post self.now.inside) }
        ensures { Reads (spec.either_direct (readers self.now.depth) names.now c.old) result c.new }
    {
        if c.front() == LEFT_PAREN {
            return self.paren_direct(names, c, DeclaratorKind::Either);
        }
        let d = maybe_named(self.alloc, names, c)?;
        Ok(self.all_turns(names, c, d)?)
    }

    /// A declarator without operators before it.
    #[tactic(auto, unfolding(crate::specs::Declarators::direct))]
    fn direct(
        &self,
        names: &Scopes<'_>,
        c: &mut Cursor<'_>,
        kind: DeclaratorKind,
    ) -> Result<(Boxed<DeclTree>, Items<u32>), Stop>
        requires { Nests self.now.depth (F.pre self.now.inside) (F.post self.now.inside) }
        ensures { Reads (spec.direct (readers self.now.depth) kind names.now c.old) result c.new }
    {
        match kind {
            DeclaratorKind::Named => self.named_direct(names, c),
            DeclaratorKind::Abstract => self.abstract_direct(names, c),
            DeclaratorKind::Either => self.either_direct(names, c),
        }
    }

    #[tactic(auto, unfolding(crate::specs::Declarators::pointed))]
    fn pointed(
        &self,
        names: &Scopes<'_>,
        c: &mut Cursor<'_>,
        kind: DeclaratorKind,
        p: Pointer,
    ) -> Result<(Boxed<DeclTree>, Items<u32>), Stop>
        requires { Nests self.now.depth (F.pre self.now.inside) (F.post self.now.inside) }
        ensures { Reads (spec.pointed (readers self.now.depth) kind names.now p c.old) result c.new }
    {
        let (d, classes) = self.inner_declarator(names, c, kind)?;
        Ok((Boxed::new(self.alloc, DeclTree::Pointed(p, d))?, classes))
    }

    /// A declarator (8).
    #[tactic(auto, unfolding(crate::specs::Declarators::declarator))]
    pub fn declarator(
        &self,
        names: &Scopes<'_>,
        c: &mut Cursor<'_>,
        kind: DeclaratorKind,
    ) -> Result<(Boxed<DeclTree>, Items<u32>), Stop>
        requires { Nests self.now.depth (F.pre self.now.inside) (F.post self.now.inside) }
        ensures { Reads (spec.declarator (readers self.now.depth) kind names.now c.old) result c.new }
    {
        let before = c.rest();
        match one_pointer(self.alloc, names, c) {
            Ok(p) => self.pointed(names, c, kind, p),
            Err(Stop::Nothing) => {
                c.set(before);
                self.direct(names, c, kind)
            }
            Err(Stop::Memory) => Err(Stop::Memory),
        }
    }
}
