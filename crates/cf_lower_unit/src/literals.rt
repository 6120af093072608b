//! The C variables of string literals.

ghost use Rattle.std.specs.Prelude.{◌≡◌, ◌++◌, ◌||◌, not, map, IfOk, OnOk};
ghost use Rattle.cc_whole.specs.Plain.{defines_variable, items_of};
ghost use Rattle.cf_core.specs.FromTypes.{Tables as TablesOf};
ghost use Rattle.cf_lower.specs.Functions as spec;
ghost use Rattle.cf_lower_fn.specs.Walks.{action_at, told};
ghost use Rattle.cf_plain.specs.View.{function_of, static_of};
ghost use Rattle.cf_lower_unit.specs.Pieces as pieces;

use crate::items::push;
use cc_whole::{CConstant, CInitialiser, CItem, CVariable, CVariableType};
use cf_base::{Bytes, Items, Memory};
use cf_lower_fn::actions_of;
use cf_lower_names::literal_name;
use cf_lower_types::Tables;
use cf_plain::{Action, PlainFn, PlainStatic};
use std::alloc::Global;

/// All bytes but the last.
#[tactic(auto, using(crate::proofs::Bytes::without_last, crate::proofs::Bytes::none_last))]
fn but_last(bytes: &[u8]) -> &[u8]
    ensures { result.now ≡ spec.but_last bytes.now }
{
    match bytes.split_last() {
        Some((_, rest)) => rest,
        None => bytes,
    }
}

/// The C variable of a literal: the text stands without its ending 0.
fn literal(
    alloc: Global,
    owner: &[u8],
    is_shared: bool,
    is_local: bool,
    number: u32,
    bytes: &Bytes,
) -> Result<CVariable, Memory>
    ensures { IfOk result (λ made. made ≡ pieces.literal owner.now is_shared is_local number bytes.now) }
{
    let Ok(count) = i32::try_from(bytes.len()) else {
        return Err(Memory);
    };
    let name = literal_name(alloc, owner, number)?;
    let text = Items::from_slice(alloc, but_last(bytes.as_slice()))?;
    Ok(CVariable {
        is_shared,
        is_static: is_local,
        ty: CVariableType::Chars(CConstant::Signed(count)),
        name,
        initialiser: Some(CInitialiser::Text(text)),
    })
}

/// Defines the literal of an action, if it is one.
fn define_literal(
    alloc: Global,
    owner: &[u8],
    is_shared: bool,
    is_local: bool,
    a: &Action,
    made: &mut Items<CItem>,
) -> Result<(), Memory>
    ensures { (tables : TablesOf) → OnOk result (items_of made.new ≡ items_of made.old ++ map defines_variable (spec.literal_at owner.now is_shared is_local (action_at tables a.now))) }
{
    match a {
        Action::Text { number, bytes } => {
            let variable = literal(alloc, owner, is_shared, is_local, *number, bytes)?;
            push(made, CItem::Variable(variable))?;
            Ok(())
        }
        _ => Ok(()),
    }
}

/// Defines the literals of actions.
fn define_literals(
    alloc: Global,
    tables: &Tables<'_>,
    owner: &[u8],
    is_shared: bool,
    is_local: bool,
    all: &[&Action],
    made: &mut Items<CItem>,
) -> Result<(), Memory>
    ensures { OnOk result (items_of made.new ≡ items_of made.old ++ pieces.texts owner.now is_shared is_local (told tables.now all.now)) }
{
    let _types = tables.types();
    for action in all {
        define_literal(alloc, owner, is_shared, is_local, *action, made)?;
    }
    Ok(())
}

/// Defines the literals of a function.
fn literals_of(
    alloc: Global,
    tables: &Tables<'_>,
    f: &PlainFn,
    made: &mut Items<CItem>,
) -> Result<(), Memory>
    ensures { OnOk result (items_of made.new ≡ items_of made.old ++ map defines_variable (spec.literals (function_of tables.now f.now))) }
{
    let all = actions_of(alloc, tables, &f.body)?;
    let actions = all.as_slice();
    let owner = f.name.as_slice();
    define_literals(alloc, tables, owner, f.is_shared, f.is_local, actions, made)?;
    Ok(())
}

/// Defines the literals of functions.
pub(crate) fn function_literals(
    alloc: Global,
    tables: &Tables<'_>,
    all: &[PlainFn],
    made: &mut Items<CItem>,
) -> Result<(), Memory>
    ensures { OnOk result (items_of made.new ≡ items_of made.old ++ pieces.texts_of tables.now all.now) }
{
    for f in all {
        literals_of(alloc, tables, f, made)?;
    }
    Ok(())
}

/// Where the literals of a static object's initialiser are numbered.
pub(crate) fn owner_of(x: &PlainStatic) -> &[u8]
    ensures { result.now ≡ pieces.owner_or x.now.owner }
{
    match &x.owner {
        None => b"__sti".as_slice(),
        Some(name) => name.as_slice(),
    }
}

/// Whether the literals of a static object's initialiser are local to the file (3.3).
fn keeps_literals(x: &PlainStatic) -> bool
    ensures { result ≡ (x.now.is_local || not x.now.is_shared) }
{
    x.is_local || !x.is_shared
}

/// Defines the literals of an initialiser.
fn literals_of_start(
    alloc: Global,
    tables: &Tables<'_>,
    x: &PlainStatic,
    made: &mut Items<CItem>,
) -> Result<(), Memory>
    ensures { OnOk result (items_of made.new ≡ items_of made.old ++ map defines_variable (spec.start_literals (static_of tables.now x.now))) }
{
    let all = actions_of(alloc, tables, &x.start)?;
    let actions = all.as_slice();
    let owner = owner_of(x);
    let is_local = keeps_literals(x);
    define_literals(alloc, tables, owner, x.is_shared, is_local, actions, made)?;
    Ok(())
}

/// Defines the literals of initialisers.
pub(crate) fn start_literals(
    alloc: Global,
    tables: &Tables<'_>,
    all: &[PlainStatic],
    made: &mut Items<CItem>,
) -> Result<(), Memory>
    ensures { OnOk result (items_of made.new ≡ items_of made.old ++ pieces.start_texts_of tables.now all.now) }
{
    for x in all {
        literals_of_start(alloc, tables, x, made)?;
    }
    Ok(())
}
