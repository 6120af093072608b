//! Arguments and initialisers (8.4).

ghost use Rattle.cf_parse_expr.specs.Reads.{Reads, Always};
ghost use Rattle.cf_parse_decl.specs.Initialisers as spec;
ghost use Rattle.cf_unit.specs.Read.{reading};
ghost use Rattle.cf_unit.specs.Files.{inner, by_tree};
ghost use Rattle.cf_unit.specs.Declarations.{initialiser};

use cf_base::{Boxed, Items, Memory};
use cf_parse_expr::words::{COMMA, EQUALS, LEFT_BRACE, LEFT_PAREN, RIGHT_BRACE, RIGHT_PAREN};
use cf_parse_expr::{Cursor, Scopes, Stop, whole};
use cf_syntax::Expr;
use cf_unit::{Init, Initialiser};
use std::alloc::Global;

/// A comma with an expression behind it.
#[tactic(auto, unfolding(crate::specs::Initialisers::next_argument))]
fn next_argument(alloc: Global, names: &Scopes<'_>, c: &mut Cursor<'_>) -> Result<Boxed<Expr>, Stop>
    ensures { Reads (spec.next_argument names.now c.old) result c.new }
{
    c.word(COMMA)?;
    whole::assign(alloc, names, c)
}

fn more_arguments(
    alloc: Global,
    names: &Scopes<'_>,
    c: &mut Cursor<'_>,
    first: Items<Expr>,
) -> Result<Items<Expr>, Memory>
    ensures { Always (spec.more_arguments names.now first c.old) result c.new }
{
    let mut all = first;
    for _turn in 0..c.len() {
        let before = c.rest();
        let left = c.len();
        match next_argument(alloc, names, c) {
            Ok(x) => {
                if c.len() >= left {
                    c.set(before);
                    return Ok(all);
                }
                all.push(x.into_inner())?;
            }
            Err(Stop::Nothing) => {
                c.set(before);
                return Ok(all);
            }
            Err(Stop::Memory) => return Err(Memory),
        }
    }
    Ok(all)
}

#[tactic(auto, unfolding(crate::specs::Initialisers::arguments))]
fn arguments(alloc: Global, names: &Scopes<'_>, c: &mut Cursor<'_>) -> Result<Items<Expr>, Stop>
    ensures { Reads (spec.arguments names.now c.old) result c.new }
{
    let x = whole::assign(alloc, names, c)?;
    let mut all = Items::new(alloc);
    all.push(x.into_inner())?;
    Ok(more_arguments(alloc, names, c, all)?)
}

/// Arguments in brackets, one at least, and the place of the bracket.
#[tactic(auto, unfolding(crate::specs::Initialisers::some_arguments))]
fn some_arguments(
    alloc: Global,
    names: &Scopes<'_>,
    c: &mut Cursor<'_>,
) -> Result<(u32, Items<Expr>), Stop>
    ensures { Reads (spec.some_arguments names.now c.old) result c.new }
{
    let at = c.word(LEFT_PAREN)?;
    let all = arguments(alloc, names, c)?;
    c.word(RIGHT_PAREN)?;
    Ok((at, all))
}

#[tactic(auto, unfolding(crate::specs::Initialisers::init_value))]
fn init_value(alloc: Global, names: &Scopes<'_>, c: &mut Cursor<'_>) -> Result<Boxed<Init>, Stop>
    ensures { Reads (spec.init_value names.now c.old) result c.new }
{
    let at = c.place();
    let x = whole::assign(alloc, names, c)?;
    Ok(Boxed::new(alloc, Init::Value(at, x))?)
}

/// A value in a list, with the comma behind it, where no `}` follows.
#[cycle(inits)]
#[tactic(auto, unfolding(crate::specs::Initialisers::listed_init))]
fn listed_init(
    alloc: Global,
    depth: usize,
    names: &Scopes<'_>,
    c: &mut Cursor<'_>,
) -> Result<Boxed<Init>, Stop>
    ensures { Reads (spec.listed_init depth names.now c.old) result c.new }
{
    let x = init(alloc, depth, names, c)?;
    if c.front() == RIGHT_BRACE {
        return Ok(x);
    }
    c.word(COMMA)?;
    Ok(x)
}

#[cycle(inits)]
fn more_inits(
    alloc: Global,
    depth: usize,
    names: &Scopes<'_>,
    c: &mut Cursor<'_>,
    first: Items<Init>,
) -> Result<Items<Init>, Memory>
    ensures { Always (spec.more_inits depth names.now first c.old) result c.new }
{
    let mut all = first;
    for _turn in 0..c.len() {
        let before = c.rest();
        let left = c.len();
        match listed_init(alloc, depth, names, c) {
            Ok(x) => {
                if c.len() >= left {
                    c.set(before);
                    return Ok(all);
                }
                all.push(x.into_inner())?;
            }
            Err(Stop::Nothing) => {
                c.set(before);
                return Ok(all);
            }
            Err(Stop::Memory) => return Err(Memory),
        }
    }
    Ok(all)
}

/// Values in braces (8.4.1).
#[cycle(inits)]
#[tactic(auto, unfolding(crate::specs::Initialisers::init_list))]
fn init_list(
    alloc: Global,
    depth: usize,
    names: &Scopes<'_>,
    c: &mut Cursor<'_>,
) -> Result<Boxed<Init>, Stop>
    ensures { Reads (spec.init_list depth names.now c.old) result c.new }
{
    let at = c.word(LEFT_BRACE)?;
    let first = listed_init(alloc, depth, names, c)?;
    let mut all = Items::new(alloc);
    all.push(first.into_inner())?;
    let all = more_inits(alloc, depth, names, c, all)?;
    c.word(RIGHT_BRACE)?;
    Ok(Boxed::new(alloc, Init::List(at, all))?)
}

#[cycle(inits)]
#[tactic(auto, unfolding(crate::specs::Initialisers::initialising))]
fn initialising(
    alloc: Global,
    depth: usize,
    names: &Scopes<'_>,
    c: &mut Cursor<'_>,
) -> Result<Boxed<Init>, Stop>
    ensures { Reads (spec.initialising depth names.now c.old) result c.new }
{
    if c.front() == LEFT_BRACE {
        return init_list(alloc, depth, names, c);
    }
    init_value(alloc, names, c)
}

/// A value in an initialiser, where lists stand inside one another to this depth at most.
#[cycle(inits)]
fn init(
    alloc: Global,
    depth: usize,
    names: &Scopes<'_>,
    c: &mut Cursor<'_>,
) -> Result<Boxed<Init>, Stop>
    ensures { Reads (spec.init_at depth names.now c.old) result c.new }
{
    if depth == 0 {
        return Err(Stop::Nothing);
    }
    initialising(alloc, depth - 1, names, c)
}

/// `=` with a value behind it.
#[tactic(auto, unfolding(crate::specs::Initialisers::equals_init))]
fn equals_init(
    alloc: Global,
    depth: usize,
    names: &Scopes<'_>,
    c: &mut Cursor<'_>,
) -> Result<Option<Initialiser>, Stop>
    ensures { Reads (spec.equals_init depth names.now c.old) result c.new }
{
    let at = c.word(EQUALS)?;
    let x = init(alloc, depth, names, c)?;
    Ok(Some(Initialiser::Equals(at, x)))
}

/// What initialises a declarator, step by step.
#[tactic(auto, unfolding(crate::specs::Initialisers::initialiser))]
fn any_initialiser(
    alloc: Global,
    depth: usize,
    names: &Scopes<'_>,
    c: &mut Cursor<'_>,
) -> Result<Option<Initialiser>, Stop>
    ensures { Reads (spec.initialiser depth names.now c.old) result c.new }
{
    if c.front() == EQUALS {
        return equals_init(alloc, depth, names, c);
    }
    if c.front() == LEFT_PAREN {
        let (at, all) = some_arguments(alloc, names, c)?;
        return Ok(Some(Initialiser::Arguments(at, all)));
    }
    Ok(None)
}

/// What initialises a declarator, if anything stands behind it (8.4). Lists stand inside one another to this depth at most.
pub fn initialiser(
    alloc: Global,
    depth: usize,
    names: &Scopes<'_>,
    c: &mut Cursor<'_>,
) -> Result<Option<Initialiser>, Stop>
    ensures { Reads (reading (initialiser (inner by_tree depth) names.now) c.old) result c.new }
{
    any_initialiser(alloc, depth, names, c)
}
