//! The statements that are written.

ghost use Rattle.std.specs.Prelude.{◌≡◌, ◌++◌, [], ◌∷◌, IfOk, OnOk};
ghost use Rattle.cc_whole.specs.Plain as c;
ghost use Rattle.cc_whole.specs.Plain.{body_of, expression_of, statement_of, switch_in_order};
ghost use Rattle.cf_core.specs.FromTypes.{type_of};
ghost use Rattle.cf_lower.specs.Statements as spec;
ghost use Rattle.cf_lower_names.specs.Cells.{sort_for};
ghost use Rattle.std.specs.Option.{option_map};
ghost use Rattle.cf_lower_stmt.specs.Steps.{given_as, way_of, written, written_items};

use crate::around::Way;
use cc_whole::{CBody, CExpression, CPlace, CStatement, CSwitchItem};
use cf_base::{Boxed, Items, Memory, Name};
use cf_lower_expr::cell_in;
use cf_lower_held::Scene;
use cf_lower_names::{Cell, as_stored, flag_name, load_named, number, register_name, zero};
use cf_lower_types::sort_of;
use std::alloc::Global;

/// A statement comes behind those so far.
pub(crate) fn push(code: &mut Items<CStatement>, statement: CStatement) -> Result<(), Memory>
    ensures { OnOk result (written code.new ≡ written code.old ++ statement_of statement ∷ []) }
{
    code.push(statement)?;
    Ok(())
}

/// A value goes to the variable or local of this name.
pub(crate) fn assign(
    code: &mut Items<CStatement>,
    name: Name,
    value: Boxed<CExpression>,
) -> Result<(), Memory>
    ensures { OnOk result (written code.new ≡ written code.old ++ c.assign (c.named name) (expression_of value) ∷ []) }
{
    push(code, CStatement::Assign(CPlace::Name(name), value))?;
    Ok(())
}

/// A value goes to the C local of a register.
pub(crate) fn set_register(
    alloc: Global,
    code: &mut Items<CStatement>,
    cell: Cell,
    register: u32,
    value: Boxed<CExpression>,
) -> Result<(), Memory>
    ensures { OnOk result (written code.new ≡ written code.old ++ spec.set_register (sort_for cell) register (expression_of value) ∷ []) }
{
    let name = register_name(alloc, cell, register)?;
    assign(code, name, value)?;
    Ok(())
}

/// `if (tested) chosen else rest`
pub(crate) fn put_if(
    code: &mut Items<CStatement>,
    tested: Boxed<CExpression>,
    chosen: Boxed<CBody>,
    rest: Boxed<CBody>,
) -> Result<(), Memory>
    ensures { OnOk result (written code.new ≡ written code.old ++ c.choose (expression_of tested) (body_of chosen) (body_of rest) ∷ []) }
{
    push(code, CStatement::If(tested, chosen, Some(rest)))?;
    Ok(())
}

/// `for (;;) turn`
pub(crate) fn put_loop(code: &mut Items<CStatement>, turn: Boxed<CBody>) -> Result<(), Memory>
    ensures { OnOk result (written code.new ≡ written code.old ++ c.loop (body_of turn) ∷ []) }
{
    push(code, CStatement::Loop(turn))?;
    Ok(())
}

/// `switch (tested) { items }`
pub(crate) fn put_switch(
    code: &mut Items<CStatement>,
    tested: Boxed<CExpression>,
    items: Items<CSwitchItem>,
) -> Result<(), Memory>
    ensures { OnOk result (written code.new ≡ written code.old ++ c.select (expression_of tested) (switch_in_order (written_items items)) ∷ []) }
{
    push(code, CStatement::Switch(tested, items))?;
    Ok(())
}

/// A body of these statements, with no locals of its own.
pub(crate) fn block(alloc: Global, statements: Items<CStatement>) -> Result<Boxed<CBody>, Memory>
    ensures { IfOk result (λ made. body_of made ≡ spec.block (written statements)) }
{
    let locals = Items::new(alloc);
    Ok(Boxed::new(alloc, CBody { locals, statements })?)
}

/// The flag of a loop or switch gets a number.
pub(crate) fn flag_set(
    alloc: Global,
    code: &mut Items<CStatement>,
    flag: u32,
    value: u64,
) -> Result<(), Memory>
    ensures { OnOk result (written code.new ≡ written code.old ++ spec.flag_set flag value ∷ []) }
{
    let name = flag_name(alloc, flag)?;
    let made = number(alloc, value)?;
    assign(code, name, made)?;
    Ok(())
}

/// Control leaves the statement.
pub(crate) fn put_way(alloc: Global, code: &mut Items<CStatement>, way: Way) -> Result<(), Memory>
    ensures { OnOk result (written code.new ≡ written code.old ++ way_of way) }
{
    match way {
        Way::Nowhere => Ok(()),
        Way::Break => {
            push(code, CStatement::Break)?;
            Ok(())
        }
        Way::Continue => {
            push(code, CStatement::Continue)?;
            Ok(())
        }
        Way::Flagged(flag) => {
            flag_set(alloc, code, flag, 1)?;
            push(code, CStatement::Break)?;
            Ok(())
        }
    }
}

/// These statements are done where a flag is set.
pub(crate) fn if_flag(
    alloc: Global,
    code: &mut Items<CStatement>,
    flag: u32,
    statements: Items<CStatement>,
) -> Result<(), Memory>
    ensures { OnOk result (written code.new ≡ written code.old ++ spec.if_flag flag (written statements) ∷ []) }
{
    let chosen = block(alloc, statements)?;
    let name = flag_name(alloc, flag)?;
    let tested = load_named(alloc, name)?;
    push(code, CStatement::If(tested, chosen, None))?;
    Ok(())
}

/// `return e;` with a value as this scalar; without one where there is none.
fn give_as(
    alloc: Global,
    code: &mut Items<CStatement>,
    cell: Option<Cell>,
    value: Boxed<CExpression>,
) -> Result<(), Memory>
    ensures { OnOk result (written code.new ≡ written code.old ++ given_as (option_map sort_for cell) (expression_of value)) }
{
    match cell {
        None => {
            push(code, CStatement::Return(None))?;
            Ok(())
        }
        Some(cell) => {
            let stored = as_stored(alloc, cell, value)?;
            push(code, CStatement::Return(Some(stored)))?;
            Ok(())
        }
    }
}

/// `return e;` with a value of the function's result; without one where that is no scalar.
pub(crate) fn give(
    x: &Scene<'_>,
    code: &mut Items<CStatement>,
    value: Boxed<CExpression>,
) -> Result<(), Memory>
    ensures { OnOk result (written code.new ≡ written code.old ++ spec.given (type_of x.now.tables.now x.now.result) (expression_of value)) }
{
    let scalar = sort_of(x.tables, x.result);
    let cell = cell_in(&scalar);
    give_as(x.alloc, code, cell, value)?;
    Ok(())
}

/// What a function gives that ends without a value: nothing can use it.
pub fn no_value(x: &Scene<'_>, code: &mut Items<CStatement>) -> Result<(), Memory>
    ensures { OnOk result (written code.new ≡ written code.old ++ spec.no_value (type_of x.now.tables.now x.now.result)) }
{
    let value = zero(x.alloc)?;
    give(x, code, value)?;
    Ok(())
}
