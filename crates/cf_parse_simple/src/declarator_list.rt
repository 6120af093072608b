//! Declarators with what they enter and what initialises them (8).

ghost use Rattle.std.specs.Prelude.{◌≡◌, OnOk};
ghost use Rattle.cf_parse_decl.specs.Reads.{Gives};
ghost use Rattle.cf_parse_expr.specs.Reads.{Reads};
ghost use Rattle.cf_parse_expr.specs.Whole.{declarator_at};
ghost use Rattle.cf_parse_simple.specs.Declarators as spec;
ghost use Rattle.cf_unit.specs.Declarations as rule;
ghost use Rattle.cf_unit.specs.Declares.{shape};
ghost use Rattle.cf_unit.specs.Enters.{entered};
ghost use Rattle.cf_unit.specs.Files.{inner, by_tree};
ghost use Rattle.cf_unit.specs.Read.{reading};

use cf_base::{Boxed, Items, Memory};
use cf_enter::enter;
use cf_parse_decl::{Grammar, Known, initialiser};
use cf_parse_expr::words::{COMMA, SEMICOLON};
use cf_parse_expr::{Cursor, Scopes, Stop, whole};
use cf_syntax::DeclTree;
use cf_unit::{Given, InitDeclarator, Initialiser};
use std::alloc::Global;
use std::marker::Model;

/// A declarator, at its first token. Contracts see besides what it declares.
#[derive(Drop)]
pub struct Declared {
    pub at: u32,
    pub tree: Boxed<DeclTree>,
}

impl Model for Declared {
    ghost use Rattle.std.specs.Coded.{codes};
    ghost use Rattle.cf_syntax.specs.contracts.declarator.DeclTree as declarator_tree;
    ghost use Rattle.cf_unit.specs.Declares.{Declared as Whole, shape};

    ghost Value = { Whole };

    ghost coded = { Prim.hlevel (codes, declarator_tree.the_row.coded) };

    ghost view = { λ d. record { at = d.at; tree = d.tree; shape = shape d.tree } };
}

/// A declarator with a name (8), and the numbers of the classes that qualify it.
fn declarator(
    alloc: Global,
    known: &Known,
    c: &mut Cursor<'_>,
) -> Result<(Boxed<DeclTree>, Items<u32>), Stop>
    ensures { Reads (declarator_at known.now.names c.old) result c.new }
{
    let scopes = Scopes::new(alloc, &known.names);
    whole::declarator(alloc, &scopes, c)
}

/// What initialises a declarator, if anything stands behind it (8.4).
fn value(
    alloc: Global,
    depth: usize,
    known: &Known,
    c: &mut Cursor<'_>,
) -> Result<Option<Initialiser>, Stop>
    ensures { Reads (spec.value_at depth known.now.names c.old) result c.new }
{
    let scopes = Scopes::new(alloc, &known.names);
    initialiser(alloc, depth, &scopes, c)
}

/// Enters what a declarator declares, in a declaration that stands in the last of so many open scopes.
#[tactic(auto, using(crate::proofs::Entering::entered_by))]
fn enter_declared(
    known: &mut Known,
    home: usize,
    given: &Given,
    tree: &DeclTree,
) -> Result<(), Memory>
    ensures { OnOk result (known.new ≡ entered home given.now known.old (shape tree.now)) }
{
    enter(&mut known.names, home, given, &known.own, tree)
}

/// A declarator, step by step.
#[tactic(auto, unfolding(crate::specs::Declarators::one_declarator))]
fn declarator_read(
    alloc: Global,
    home: usize,
    given: &Given,
    known: &mut Known,
    c: &mut Cursor<'_>,
) -> Result<Declared, Stop>
    ensures { Gives (spec.one_declarator home given.now known.old c.old) result known.new c.new }
{
    let at = c.place();
    let (tree, classes) = declarator(alloc, known, c)?;
    enter_declared(known, home, given, tree.get())?;
    known.names.open_classes(classes.as_slice())?;
    Ok(Declared { at, tree })
}

/// A declarator with its initialiser, step by step.
#[tactic(auto, unfolding(crate::specs::Declarators::initialised))]
fn initialised_read(
    alloc: Global,
    depth: usize,
    declared: Declared,
    known: &Known,
    c: &mut Cursor<'_>,
) -> Result<InitDeclarator, Stop>
    ensures { Gives (spec.initialised depth (declared, known.now) c.old) result known.now c.new }
{
    let Declared { at, tree } = declared;
    let initialiser = value(alloc, depth, known, c)?;
    Ok(InitDeclarator {
        at,
        declarator: tree,
        initialiser,
    })
}

/// A comma with a declarator and its initialiser behind it.
#[tactic(auto, unfolding(crate::specs::Declarators::next_declarator))]
fn next_declarator(
    alloc: Global,
    depth: usize,
    home: usize,
    given: &Given,
    known: &mut Known,
    c: &mut Cursor<'_>,
) -> Result<InitDeclarator, Stop>
    ensures { Gives (spec.next_declarator depth home given.now known.old c.old) result known.new c.new }
{
    c.word(COMMA)?;
    let declared = declarator_read(alloc, home, given, known, c)?;
    initialised_read(alloc, depth, declared, known, c)
}

/// The `;` behind these declarators, behind which no classes of declarators are open.
#[tactic(auto, unfolding(crate::specs::Declarators::closed))]
fn closed(
    home: usize,
    all: Items<InitDeclarator>,
    known: &mut Known,
    c: &mut Cursor<'_>,
) -> Result<Items<InitDeclarator>, Stop>
    ensures { Gives (spec.closed home (all, known.old) c.old) result known.new c.new }
{
    c.word(SEMICOLON)?;
    known.close_to(home);
    Ok(all)
}

/// Declarators behind these, as far as commas go, and the `;`.
fn behind_commas(
    alloc: Global,
    depth: usize,
    home: usize,
    given: &Given,
    first: Items<InitDeclarator>,
    known: &mut Known,
    c: &mut Cursor<'_>,
) -> Result<Items<InitDeclarator>, Stop>
    ensures { Gives (spec.behind_commas depth home given.now (first, known.old) c.old) result known.new c.new }
{
    let mut all = first;
    for _turn in 0..c.len() {
        if c.front() != COMMA {
            return closed(home, all, known, c);
        }
        let left = c.len();
        match next_declarator(alloc, depth, home, given, known, c) {
            Ok(d) => {
                if c.len() >= left {
                    return Err(Stop::Nothing);
                }
                all.push(d)?;
            }
            Err(stop) => return Err(stop),
        }
    }
    closed(home, all, known, c)
}

/// The declarators behind a first one, step by step.
#[tactic(auto, unfolding(crate::specs::Declarators::more_declarators))]
fn more_read(
    alloc: Global,
    depth: usize,
    home: usize,
    given: &Given,
    first: InitDeclarator,
    known: &mut Known,
    c: &mut Cursor<'_>,
) -> Result<Items<InitDeclarator>, Stop>
    ensures { Gives (spec.more_declarators depth home given.now (first, known.old) c.old) result known.new c.new }
{
    let mut all = Items::new(alloc);
    all.push(first)?;
    behind_commas(alloc, depth, home, given, all, known, c)
}

/// The declarators of a declaration, step by step.
#[tactic(auto, unfolding(crate::specs::Declarators::declarators))]
pub(crate) fn declarators_read(
    alloc: Global,
    depth: usize,
    home: usize,
    given: &Given,
    known: &mut Known,
    c: &mut Cursor<'_>,
) -> Result<Items<InitDeclarator>, Stop>
    ensures { Gives (spec.declarators depth home given.now known.old c.old) result known.new c.new }
{
    if c.front() == SEMICOLON {
        c.word(SEMICOLON)?;
        return Ok(Items::new(alloc));
    }
    let declared = declarator_read(alloc, home, given, known, c)?;
    let first = initialised_read(alloc, depth, declared, known, c)?;
    more_read(alloc, depth, home, given, first, known, c)
}

/// A declarator (8), in a declaration that stands in the last of so many open scopes. Its name is entered, and the classes that qualify it are open behind it.
pub fn one_declarator<F>(
    grammar: &Grammar<F>,
    home: usize,
    given: &Given,
    known: &mut Known,
    c: &mut Cursor<'_>,
) -> Result<Declared, Stop>
    ensures { Gives (reading (rule.one_declarator (inner by_tree grammar.now.depth) home given.now known.old) c.old) result known.new c.new }
{
    declarator_read(grammar.alloc, home, given, known, c)
}

/// A declarator with its initialiser, if one stands behind it (8.4).
pub fn initialised<F>(
    grammar: &Grammar<F>,
    declared: Declared,
    known: &Known,
    c: &mut Cursor<'_>,
) -> Result<InitDeclarator, Stop>
    ensures { Gives (reading (rule.initialised (inner by_tree grammar.now.depth) (declared, known.now)) c.old) result known.now c.new }
{
    initialised_read(grammar.alloc, grammar.depth, declared, known, c)
}

/// The declarators of a declaration behind the first one, up to the `;`, behind which the classes that qualify them are closed.
pub fn more_declarators<F>(
    grammar: &Grammar<F>,
    home: usize,
    given: &Given,
    first: InitDeclarator,
    known: &mut Known,
    c: &mut Cursor<'_>,
) -> Result<Items<InitDeclarator>, Stop>
    ensures { Gives (reading (rule.more_declarators (inner by_tree grammar.now.depth) home given.now (first, known.old)) c.old) result known.new c.new }
{
    more_read(grammar.alloc, grammar.depth, home, given, first, known, c)
}

/// The declarators of a declaration, or none, up to the `;`.
pub fn declarators<F>(
    grammar: &Grammar<F>,
    home: usize,
    given: &Given,
    known: &mut Known,
    c: &mut Cursor<'_>,
) -> Result<Items<InitDeclarator>, Stop>
    ensures { Gives (reading (rule.declarators (inner by_tree grammar.now.depth) home given.now known.old) c.old) result known.new c.new }
{
    declarators_read(grammar.alloc, grammar.depth, home, given, known, c)
}
