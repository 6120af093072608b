//! What constant initialisers store.

ghost use Rattle.std.specs.Prelude.{◌≡◌, ◌++◌, IfOk, OnOk};
ghost use Rattle.cc_whole.specs.Plain.{function_of, items_of};
ghost use Rattle.cf_lower.specs.Functions as spec;
ghost use Rattle.cf_lower_stmt.specs.Steps.{written};
ghost use Rattle.cf_plain.specs.View.{static_of};
ghost use Rattle.cf_lower_unit.specs.Pieces as pieces;

use crate::items::push;
use crate::literals::owner_of;
use cc_whole::{CFunction, CItem, CPrototype, CStatement};
use cf_base::{Items, Memory};
use cf_lower_constants::{Site, initialiser};
use cf_lower_fn::made_function;
use cf_lower_types::Tables;
use cf_plain::PlainStatic;
use std::alloc::Global;

/// What the statements of an initialiser stand in.
fn site<'x>(alloc: Global, tables: &'x Tables<'x>, x: &'x PlainStatic) -> Site<'x>
    ensures at { result.tables.now ≡ tables.now }
    ensures owner { result.owner.now ≡ pieces.owner_or x.now.owner }
{
    let owner = owner_of(x);
    Site {
        alloc,
        tables,
        owner,
    }
}

/// Writes the stores of an initialiser.
fn store_start(
    alloc: Global,
    tables: &Tables<'_>,
    x: &PlainStatic,
    code: &mut Items<CStatement>,
) -> Result<(), Memory>
    ensures { OnOk result (written code.new ≡ written code.old ++ pieces.start_code tables.now (static_of tables.now x.now)) }
{
    let site = site(alloc, tables, x);
    initialiser(&site, &x.start, code)
}

/// Writes the stores of an initialiser, if it is constant.
fn store_constant(
    alloc: Global,
    tables: &Tables<'_>,
    x: &PlainStatic,
    code: &mut Items<CStatement>,
) -> Result<(), Memory>
    ensures { OnOk result (written code.new ≡ written code.old ++ pieces.start_at tables.now x.now) }
{
    if x.is_constant {
        return store_start(alloc, tables, x, code);
    }
    Ok(())
}

/// The stores of constant initialisers.
fn stores(
    alloc: Global,
    tables: &Tables<'_>,
    all: &[PlainStatic],
) -> Result<Items<CStatement>, Memory>
    ensures { IfOk result (λ code. written code ≡ pieces.all_starts tables.now all.now) }
{
    let mut code = Items::new(alloc);
    for x in all {
        store_constant(alloc, tables, x, &mut code)?;
    }
    Ok(code)
}

/// The helper of these statements.
fn helper(alloc: Global, code: Items<CStatement>) -> Result<CFunction, Memory>
    ensures { IfOk result (λ made. function_of made ≡ pieces.helper (written code)) }
{
    let name = Items::from_slice(alloc, b"__hci")?;
    let parameters = Items::new(alloc);
    let prototype = CPrototype {
        is_static: true,
        result: None,
        name,
        parameters,
    };
    let locals = Items::new(alloc);
    Ok(made_function(false, prototype, locals, code))
}

/// Defines the helper that stores this, if there is anything.
#[tactic(auto, using(crate::proofs::Helper::none_stored, crate::proofs::Helper::some_stored))]
fn define_helper(
    alloc: Global,
    code: Items<CStatement>,
    made: &mut Items<CItem>,
) -> Result<(), Memory>
    ensures { OnOk result (items_of made.new ≡ items_of made.old ++ spec.constants_function (written code)) }
{
    if code.is_empty() {
        return Ok(());
    }
    let helper = helper(alloc, code)?;
    push(made, CItem::Function(helper))?;
    Ok(())
}

/// Defines the helper that stores what constant initialisers do.
pub(crate) fn define_starts(
    alloc: Global,
    tables: &Tables<'_>,
    all: &[PlainStatic],
    made: &mut Items<CItem>,
) -> Result<(), Memory>
    ensures { OnOk result (items_of made.new ≡ items_of made.old ++ spec.constants_function (pieces.all_starts tables.now all.now)) }
{
    let code = stores(alloc, tables, all)?;
    define_helper(alloc, code, made)?;
    Ok(())
}
