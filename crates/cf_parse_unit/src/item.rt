//! What a file is made of: functions, declarations and linkage specifications (17).

ghost use Rattle.std.specs.Prelude.{◌≡◌};
ghost use Rattle.cf_parse_decl.specs.Reads.{Gives};
ghost use Rattle.cf_parse_decl.specs.Nests.{Nests};
ghost use Rattle.cf_parse_unit.specs.Files as spec;
ghost use Rattle.cf_unit.specs.Read.{reading};
ghost use Rattle.cf_unit.specs.Files.{inner, by_tree, at_end, one_item};

use crate::linkages::{begins_linkage, linkage_read};
use crate::parts::{declarator, defined, initialised, more_declarators, specifiers};
use cf_base::{Boxed, Items};
use cf_parse_decl::{Grammar, Known, Node, Wanted};
use cf_parse_expr::words::SEMICOLON;
use cf_parse_expr::{Cursor, Stop};
use cf_parse_member::begins_body;
use cf_parse_simple::Declared;
use cf_unit::{Declaration, Given, Item};
use std::alloc::Global;

/// Whether no token is left.
fn is_at_end(c: &Cursor<'_>) -> bool
    ensures { result ≡ at_end c.now }
{
    match c.rest() {
        [] => true,
        [_, ..] => false,
    }
}

/// A function behind its declarator.
#[tactic(auto, unfolding(crate::specs::Files::function_behind))]
fn function_behind<F: Fn(Global, usize, Wanted, &mut Known, &mut Cursor<'_>) -> Result<Node, Stop>>(
    grammar: &Grammar<F>,
    at: u32,
    given: Given,
    declared: Declared,
    known: &mut Known,
    c: &mut Cursor<'_>,
) -> Result<Item, Stop>
    requires { Nests grammar.now.depth (F.pre grammar.now.inside) (F.post grammar.now.inside) }
    ensures { Gives (spec.function_behind grammar.now.depth at given declared known.old c.old) result known.new c.new }
{
    let f = defined(grammar, at, given, declared, known, c)?;
    Ok(Item::Function(f))
}

/// A declaration behind its first declarator.
#[tactic(auto, unfolding(crate::specs::Files::declaration_behind))]
fn declaration_behind<F>(
    grammar: &Grammar<F>,
    at: u32,
    given: Given,
    declared: Declared,
    known: &mut Known,
    c: &mut Cursor<'_>,
) -> Result<Item, Stop>
    ensures { Gives (spec.declaration_behind grammar.now.depth at given declared known.old c.old) result known.new c.new }
{
    let first = initialised(grammar, declared, known, c)?;
    let declarators = more_declarators(grammar, &given, first, known, c)?;
    let d = Declaration {
        at,
        specifiers: given.list,
        declarators,
    };
    Ok(Item::Declaration(Boxed::new(grammar.alloc, d)?))
}

/// A function or a declaration behind its first declarator.
#[tactic(auto, unfolding(crate::specs::Files::item_behind))]
fn item_behind<F: Fn(Global, usize, Wanted, &mut Known, &mut Cursor<'_>) -> Result<Node, Stop>>(
    grammar: &Grammar<F>,
    at: u32,
    given: Given,
    declared: Declared,
    known: &mut Known,
    c: &mut Cursor<'_>,
) -> Result<Item, Stop>
    requires { Nests grammar.now.depth (F.pre grammar.now.inside) (F.post grammar.now.inside) }
    ensures { Gives (spec.item_behind grammar.now.depth at given declared known.old c.old) result known.new c.new }
{
    if begins_body(c) {
        return function_behind(grammar, at, given, declared, known, c);
    }
    declaration_behind(grammar, at, given, declared, known, c)
}

/// Specifiers with a `;` behind them.
#[tactic(auto, unfolding(crate::specs::Files::undeclared))]
fn undeclared(
    alloc: Global,
    at: u32,
    given: Given,
    known: &Known,
    c: &mut Cursor<'_>,
) -> Result<Item, Stop>
    ensures { Gives (spec.undeclared at given known.now c.old) result known.now c.new }
{
    c.word(SEMICOLON)?;
    let d = Declaration {
        at,
        specifiers: given.list,
        declarators: Items::new(alloc),
    };
    Ok(Item::Declaration(Boxed::new(alloc, d)?))
}

#[tactic(auto, unfolding(crate::specs::Files::item_declared))]
fn item_declared<F: Fn(Global, usize, Wanted, &mut Known, &mut Cursor<'_>) -> Result<Node, Stop>>(
    grammar: &Grammar<F>,
    at: u32,
    given: Given,
    known: &mut Known,
    c: &mut Cursor<'_>,
) -> Result<Item, Stop>
    requires { Nests grammar.now.depth (F.pre grammar.now.inside) (F.post grammar.now.inside) }
    ensures { Gives (spec.item_declared grammar.now.depth at given known.old c.old) result known.new c.new }
{
    let declared = declarator(grammar, &given, known, c)?;
    item_behind(grammar, at, given, declared, known, c)
}

/// A function or a declaration behind its specifiers.
#[tactic(auto, unfolding(crate::specs::Files::item_specified))]
fn item_specified<F: Fn(Global, usize, Wanted, &mut Known, &mut Cursor<'_>) -> Result<Node, Stop>>(
    grammar: &Grammar<F>,
    at: u32,
    given: Given,
    known: &mut Known,
    c: &mut Cursor<'_>,
) -> Result<Item, Stop>
    requires { Nests grammar.now.depth (F.pre grammar.now.inside) (F.post grammar.now.inside) }
    ensures { Gives (spec.item_specified grammar.now.depth at given known.old c.old) result known.new c.new }
{
    if c.front() == SEMICOLON {
        return undeclared(grammar.alloc, at, given, known, c);
    }
    item_declared(grammar, at, given, known, c)
}

#[tactic(auto, unfolding(crate::specs::Files::declared_item))]
fn declared_item<F: Fn(Global, usize, Wanted, &mut Known, &mut Cursor<'_>) -> Result<Node, Stop>>(
    grammar: &Grammar<F>,
    known: &mut Known,
    c: &mut Cursor<'_>,
) -> Result<Item, Stop>
    requires { Nests grammar.now.depth (F.pre grammar.now.inside) (F.post grammar.now.inside) }
    ensures { Gives (spec.declared_item grammar.now.depth known.old c.old) result known.new c.new }
{
    let at = c.place();
    let given = specifiers(grammar, known, c)?;
    item_specified(grammar, at, given, known, c)
}

#[tactic(auto, unfolding(crate::specs::Files::linkage_item))]
fn linkage_item<F: Fn(Global, usize, Wanted, &mut Known, &mut Cursor<'_>) -> Result<Node, Stop>>(
    grammar: &Grammar<F>,
    known: &mut Known,
    c: &mut Cursor<'_>,
) -> Result<Item, Stop>
    requires { Nests grammar.now.depth (F.pre grammar.now.inside) (F.post grammar.now.inside) }
    ensures { Gives (spec.linkage_item grammar.now.depth known.old c.old) result known.new c.new }
{
    let l = linkage_read(grammar, known, c)?;
    Ok(Item::Linkage(l))
}

/// One item, step by step.
#[tactic(auto, unfolding(crate::specs::Files::one_item))]
fn item_read<F: Fn(Global, usize, Wanted, &mut Known, &mut Cursor<'_>) -> Result<Node, Stop>>(
    grammar: &Grammar<F>,
    known: &mut Known,
    c: &mut Cursor<'_>,
) -> Result<Item, Stop>
    requires { Nests grammar.now.depth (F.pre grammar.now.inside) (F.post grammar.now.inside) }
    ensures { Gives (spec.one_item grammar.now.depth known.old c.old) result known.new c.new }
{
    if begins_linkage(c) {
        return linkage_item(grammar, known, c);
    }
    declared_item(grammar, known, c)
}

/// A function, a declaration or a linkage specification of a file (17).
pub fn one_item<F: Fn(Global, usize, Wanted, &mut Known, &mut Cursor<'_>) -> Result<Node, Stop>>(
    grammar: &Grammar<F>,
    known: &mut Known,
    c: &mut Cursor<'_>,
) -> Result<Item, Stop>
    requires { Nests grammar.now.depth (F.pre grammar.now.inside) (F.post grammar.now.inside) }
    ensures { Gives (reading (one_item (inner by_tree grammar.now.depth) known.old) c.old) result known.new c.new }
{
    item_read(grammar, known, c)
}

/// The items of a file, up to the end of the tokens.
pub fn items<F: Fn(Global, usize, Wanted, &mut Known, &mut Cursor<'_>) -> Result<Node, Stop>>(
    grammar: &Grammar<F>,
    known: &mut Known,
    c: &mut Cursor<'_>,
) -> Result<Items<Item>, Stop>
    requires { Nests grammar.now.depth (F.pre grammar.now.inside) (F.post grammar.now.inside) }
    ensures { Gives (spec.items grammar.now.depth known.old c.old) result known.new c.new }
{
    let mut all = Items::new(grammar.alloc);
    for _turn in 0..c.len() {
        if is_at_end(c) {
            return Ok(all);
        }
        let left = c.len();
        match item_read(grammar, known, c) {
            Ok(x) => {
                if c.len() >= left {
                    return Err(Stop::Nothing);
                }
                all.push(x)?;
            }
            Err(stop) => return Err(stop),
        }
    }
    if is_at_end(c) {
        Ok(all)
    } else {
        Err(Stop::Nothing)
    }
}
