//! Parameters and types in brackets (8.1, 8.2.5).

ghost use Rattle.cf_syntax.specs.Reading.{readers};
ghost use Rattle.cf_parse_expr.specs.Reads.{Reads, Always};
ghost use Rattle.cf_parse_expr.specs.Nests.{Nests};
ghost use Rattle.cf_parse_expr.specs.Params as spec;
ghost use Rattle.std.specs.Prelude.{◌≡◌};
ghost use Rattle.cf_syntax.specs.Grammar.{begins, specifier_words, with_default};

use crate::cursor::Cursor;
use crate::grammar::{Grammar, Node, Wanted};
use crate::scopes::Scopes;
use crate::specifiers::specifiers;
use crate::stop::Stop;
use crate::words::{COMMA, EQUALS, begins};
use cf_base::{Boxed, Items, Memory};
use cf_syntax::{DeclaratorKind, Expr, Param, TypeId};
use std::alloc::Global;

/// The words that a specifier begins with.
const SPECIFIER_WORDS: [u16; 21] = [
    128, 9, 65, 93, 98, 79, 85, 108, 82, 105, 71, 69, 95, 86, 87, 96, 107, 109, 70, 99, 78,
];

/// Whether a word comes next that a specifier begins with.
fn begins_specifier(c: &Cursor<'_>) -> bool
    ensures { result ≡ begins specifier_words c.now }
{
    begins(&SPECIFIER_WORDS, c)
}

/// The parameter with this default argument.
fn with_default(p: Param, at: u32, x: Boxed<Expr>) -> Param
    ensures { result ≡ with_default p at x }
{
    let Param {
        at: first,
        specifiers,
        declarator,
        default: _,
    } = p;
    Param {
        at: first,
        specifiers,
        declarator,
        default: Some((at, x)),
    }
}

impl<F: Fn(Global, usize, Wanted, &Scopes<'_>, &mut Cursor<'_>) -> Result<Node, Stop>> Grammar<F> {
    /// A parameter without its default argument.
    #[tactic(auto, unfolding(crate::specs::Params::plain_param))]
    fn plain_param(&self, names: &Scopes<'_>, c: &mut Cursor<'_>) -> Result<Param, Stop>
        requires { Nests self.now.depth (F.pre self.now.inside) (F.post self.now.inside) }
        ensures { Reads (spec.plain_param (readers self.now.depth) names.now c.old) result c.new }
    {
        let at = c.place();
        let list = specifiers(self.alloc, names, c)?;
        let (declarator, _) = self.inner_declarator(names, c, DeclaratorKind::Either)?;
        Ok(Param {
            at,
            specifiers: list,
            declarator,
            default: None,
        })
    }

    /// A default argument (8.2.6), at its `=`.
    #[tactic(auto, unfolding(crate::specs::Params::default_behind))]
    fn default_behind(
        &self,
        names: &Scopes<'_>,
        c: &mut Cursor<'_>,
    ) -> Result<(u32, Boxed<Expr>), Stop>
        requires { Nests self.now.depth (F.pre self.now.inside) (F.post self.now.inside) }
        ensures { Reads (spec.default_behind (readers self.now.depth) names.now c.old) result c.new }
    {
        let at = c.word(EQUALS)?;
        let x = self.inner_assign(names, c)?;
        Ok((at, x))
    }

    #[tactic(auto, unfolding(crate::specs::Params::defaulted))]
    fn defaulted(&self, names: &Scopes<'_>, c: &mut Cursor<'_>, p: Param) -> Result<Param, Stop>
        requires { Nests self.now.depth (F.pre self.now.inside) (F.post self.now.inside) }
        ensures { Reads (spec.defaulted (readers self.now.depth) names.now p c.old) result c.new }
    {
        let before = c.rest();
        match self.default_behind(names, c) {
            Ok((at, x)) => Ok(with_default(p, at, x)),
            Err(Stop::Nothing) => {
                c.set(before);
                Ok(p)
            }
            Err(Stop::Memory) => Err(Stop::Memory),
        }
    }

    #[tactic(auto, unfolding(crate::specs::Params::one_param))]
    fn one_param(&self, names: &Scopes<'_>, c: &mut Cursor<'_>) -> Result<Param, Stop>
        requires { Nests self.now.depth (F.pre self.now.inside) (F.post self.now.inside) }
        ensures { Reads (spec.one_param (readers self.now.depth) names.now c.old) result c.new }
    {
        let p = self.plain_param(names, c)?;
        self.defaulted(names, c, p)
    }

    #[tactic(auto, unfolding(crate::specs::Params::next_param))]
    fn next_param(&self, names: &Scopes<'_>, c: &mut Cursor<'_>) -> Result<Param, Stop>
        requires { Nests self.now.depth (F.pre self.now.inside) (F.post self.now.inside) }
        ensures { Reads (spec.next_param (readers self.now.depth) names.now c.old) result c.new }
    {
        c.word(COMMA)?;
        self.one_param(names, c)
    }

    fn more_params(
        &self,
        names: &Scopes<'_>,
        c: &mut Cursor<'_>,
        first: Items<Param>,
    ) -> Result<Items<Param>, Memory>
        requires { Nests self.now.depth (F.pre self.now.inside) (F.post self.now.inside) }
        ensures { Always (spec.more_params (readers self.now.depth) names.now first c.old) result c.new }
    {
        let mut all = first;
        for _turn in 0..c.len() {
            let before = c.rest();
            match self.next_param(names, c) {
                Ok(p) => all.push(p)?,
                Err(Stop::Nothing) => {
                    c.set(before);
                    return Ok(all);
                }
                Err(Stop::Memory) => return Err(Memory),
            }
        }
        Ok(all)
    }

    #[tactic(auto, unfolding(crate::specs::Params::some_params))]
    fn some_params(&self, names: &Scopes<'_>, c: &mut Cursor<'_>) -> Result<Items<Param>, Stop>
        requires { Nests self.now.depth (F.pre self.now.inside) (F.post self.now.inside) }
        ensures { Reads (spec.some_params (readers self.now.depth) names.now c.old) result c.new }
    {
        let p = self.one_param(names, c)?;
        let mut all = Items::new(self.alloc);
        all.push(p)?;
        Ok(self.more_params(names, c, all)?)
    }

    /// Parameters (8.2.5), or none.
    #[tactic(auto, unfolding(crate::specs::Params::params))]
    pub fn params(&self, names: &Scopes<'_>, c: &mut Cursor<'_>) -> Result<Items<Param>, Stop>
        requires { Nests self.now.depth (F.pre self.now.inside) (F.post self.now.inside) }
        ensures { Reads (spec.params (readers self.now.depth) names.now c.old) result c.new }
    {
        if !begins_specifier(c) {
            return Ok(Items::new(self.alloc));
        }
        let before = c.rest();
        match self.some_params(names, c) {
            Ok(all) => Ok(all),
            Err(Stop::Nothing) => {
                c.set(before);
                Ok(Items::new(self.alloc))
            }
            Err(Stop::Memory) => Err(Stop::Memory),
        }
    }

    /// A type that stands in brackets (8.1).
    #[tactic(auto, unfolding(crate::specs::Params::type_inside))]
    pub fn type_inside(&self, names: &Scopes<'_>, c: &mut Cursor<'_>) -> Result<Boxed<TypeId>, Stop>
        requires { Nests self.now.depth (F.pre self.now.inside) (F.post self.now.inside) }
        ensures { Reads (spec.type_inside (readers self.now.depth) names.now c.old) result c.new }
    {
        let at = c.place();
        let list = specifiers(self.alloc, names, c)?;
        let (declarator, _) = self.inner_declarator(names, c, DeclaratorKind::Abstract)?;
        Ok(Boxed::new(
            self.alloc,
            TypeId {
                at,
                specifiers: list,
                declarator,
            },
        )?)
    }
}
