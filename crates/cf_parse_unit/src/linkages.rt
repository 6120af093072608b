//! Linkage specifications (7.4).

ghost use Rattle.std.specs.Prelude.{◌≡◌};
ghost use Rattle.cf_parse_expr.specs.Reads.{Reads};
ghost use Rattle.cf_parse_decl.specs.Reads.{Gives};
ghost use Rattle.cf_parse_decl.specs.Nests.{Nests};
ghost use Rattle.cf_parse_unit.specs.Files as spec;
ghost use Rattle.cf_unit.specs.Read.{reading};
ghost use Rattle.cf_unit.specs.Files.{inner, by_tree, linkage};
ghost use Rattle.cf_unit.specs.Pieces.{string};

use crate::parts::simple;
use cf_base::{Bytes, Items};
use cf_parse_decl::{Grammar, Known, Node, Wanted};
use cf_parse_expr::words::{EXTERN, LEFT_BRACE, RIGHT_BRACE, TEXT};
use cf_parse_expr::{Cursor, Stop};
use cf_tokens::Word;
use cf_unit::{Declaration, Linkage};
use std::alloc::Global;

/// Whether `extern` with a string behind it comes next.
pub fn begins_linkage(c: &Cursor<'_>) -> bool
    ensures { result ≡ spec.begins_linkage c.now }
{
    c.front() == EXTERN && c.second() == TEXT
}

/// The string literal that comes next, with its place.
fn string(alloc: Global, c: &mut Cursor<'_>) -> Result<(u32, Bytes), Stop>
    ensures { Reads (string c.old) result c.new }
{
    match c.rest() {
        [token, behind @ ..] => match &token.word {
            Word::Text(text) => {
                let copy = Bytes::from_slice(alloc, text.as_slice())?;
                c.set(behind);
                Ok((token.at, copy))
            }
            _ => Err(Stop::Nothing),
        },
        [] => Err(Stop::Nothing),
    }
}

/// Declarations up to a `}`.
fn all_simple<F: Fn(Global, usize, Wanted, &mut Known, &mut Cursor<'_>) -> Result<Node, Stop>>(
    grammar: &Grammar<F>,
    known: &mut Known,
    c: &mut Cursor<'_>,
) -> Result<Items<Declaration>, Stop>
    requires { Nests grammar.now.depth (F.pre grammar.now.inside) (F.post grammar.now.inside) }
    ensures { Gives (spec.all_simple grammar.now.depth known.old c.old) result known.new c.new }
{
    let mut all = Items::new(grammar.alloc);
    for _turn in 0..c.len() {
        if c.front() == RIGHT_BRACE {
            return Ok(all);
        }
        let left = c.len();
        match simple(grammar, known, c) {
            Ok(d) => {
                if c.len() >= left {
                    return Err(Stop::Nothing);
                }
                all.push(d.into_inner())?;
            }
            Err(stop) => return Err(stop),
        }
    }
    if c.front() == RIGHT_BRACE {
        Ok(all)
    } else {
        Err(Stop::Nothing)
    }
}

/// Declarations in braces.
#[tactic(auto, unfolding(crate::specs::Files::braced_linkage))]
fn braced_linkage<F: Fn(Global, usize, Wanted, &mut Known, &mut Cursor<'_>) -> Result<Node, Stop>>(
    grammar: &Grammar<F>,
    at: u32,
    language: (u32, Bytes),
    known: &mut Known,
    c: &mut Cursor<'_>,
) -> Result<Linkage, Stop>
    requires { Nests grammar.now.depth (F.pre grammar.now.inside) (F.post grammar.now.inside) }
    ensures { Gives (spec.braced_linkage grammar.now.depth at language known.old c.old) result known.new c.new }
{
    c.word(LEFT_BRACE)?;
    let declarations = all_simple(grammar, known, c)?;
    c.word(RIGHT_BRACE)?;
    Ok(Linkage {
        at,
        language,
        has_braces: true,
        declarations,
    })
}

/// One declaration.
#[tactic(auto, unfolding(crate::specs::Files::single_linkage))]
fn single_linkage<F: Fn(Global, usize, Wanted, &mut Known, &mut Cursor<'_>) -> Result<Node, Stop>>(
    grammar: &Grammar<F>,
    at: u32,
    language: (u32, Bytes),
    known: &mut Known,
    c: &mut Cursor<'_>,
) -> Result<Linkage, Stop>
    requires { Nests grammar.now.depth (F.pre grammar.now.inside) (F.post grammar.now.inside) }
    ensures { Gives (spec.single_linkage grammar.now.depth at language known.old c.old) result known.new c.new }
{
    let d = simple(grammar, known, c)?;
    let mut declarations = Items::new(grammar.alloc);
    declarations.push(d.into_inner())?;
    Ok(Linkage {
        at,
        language,
        has_braces: false,
        declarations,
    })
}

#[tactic(auto, unfolding(crate::specs::Files::linked))]
fn linked<F: Fn(Global, usize, Wanted, &mut Known, &mut Cursor<'_>) -> Result<Node, Stop>>(
    grammar: &Grammar<F>,
    at: u32,
    language: (u32, Bytes),
    known: &mut Known,
    c: &mut Cursor<'_>,
) -> Result<Linkage, Stop>
    requires { Nests grammar.now.depth (F.pre grammar.now.inside) (F.post grammar.now.inside) }
    ensures { Gives (spec.linked grammar.now.depth at language known.old c.old) result known.new c.new }
{
    if c.front() == LEFT_BRACE {
        return braced_linkage(grammar, at, language, known, c);
    }
    single_linkage(grammar, at, language, known, c)
}

/// A linkage specification, step by step.
#[tactic(auto, unfolding(crate::specs::Files::linkage))]
pub fn linkage_read<
    F: Fn(Global, usize, Wanted, &mut Known, &mut Cursor<'_>) -> Result<Node, Stop>,
>(grammar: &Grammar<F>, known: &mut Known, c: &mut Cursor<'_>) -> Result<Linkage, Stop>
    requires { Nests grammar.now.depth (F.pre grammar.now.inside) (F.post grammar.now.inside) }
    ensures { Gives (spec.linkage grammar.now.depth known.old c.old) result known.new c.new }
{
    let at = c.word(EXTERN)?;
    let language = string(grammar.alloc, c)?;
    linked(grammar, at, language, known, c)
}

/// A linkage specification (7.4).
pub fn linkage<F: Fn(Global, usize, Wanted, &mut Known, &mut Cursor<'_>) -> Result<Node, Stop>>(
    grammar: &Grammar<F>,
    known: &mut Known,
    c: &mut Cursor<'_>,
) -> Result<Linkage, Stop>
    requires { Nests grammar.now.depth (F.pre grammar.now.inside) (F.post grammar.now.inside) }
    ensures { Gives (reading (linkage (inner by_tree grammar.now.depth) known.old) c.old) result known.new c.new }
{
    linkage_read(grammar, known, c)
}
