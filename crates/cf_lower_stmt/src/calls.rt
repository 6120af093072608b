//! Calls.

ghost use Rattle.std.specs.Prelude.{◌≡◌, ◌++◌, [], ◌∷◌, map, None, Some, IfOk, OnOk};
ghost use Rattle.std.specs.Option.{option_map};
ghost use Rattle.cc_whole.specs.Plain as c;
ghost use Rattle.cc_whole.specs.Plain.{callee_of, expression_of};
ghost use Rattle.cf_core.specs.FromTypes.{type_of};
ghost use Rattle.cf_core.specs.Types as types;
ghost use Rattle.cf_lower.specs.Statements as spec;
ghost use Rattle.cf_lower_layout.specs.Sorts as sorts;
ghost use Rattle.cf_lower_names.specs.Cells.{sort_for};
ghost use Rattle.cf_lower_stmt.specs.Calls.{called_as, one_type, result_kept, type_or_none};
ghost use Rattle.cf_lower_stmt.specs.Steps.{written};

use crate::writes::{push, set_register};
use cc_whole::{CCallee, CExpression, CPlace, CSignature, CStatement, CType};
use cf_base::{Items, Memory, Name};
use cf_lower_expr::cell_in;
use cf_lower_held::Scene;
use cf_lower_names::{Cell, as_value, in_register, load_named, local_name, result_name};
use cf_lower_types::{Tables, parameters, result_sort, sort_of};
use cf_types::TyId;
use std::alloc::Global;

/// The values of the C locals that are the objects of parameters.
#[tactic(auto, using(crate::proofs::Lists::passed_more))]
fn passed(alloc: Global, arguments: &[u32]) -> Result<Items<CExpression>, Memory>
    ensures { IfOk result (λ made. map expression_of made ≡ spec.passed arguments.now) }
{
    let mut made = Items::new(alloc);
    for local in arguments {
        let name = local_name(alloc, *local)?;
        let value = load_named(alloc, name)?;
        made.push(value.into_inner())?;
    }
    Ok(made)
}

/// The C type of a scalar, if there is one.
fn c_type(cell: Option<Cell>) -> Option<CType>
    ensures { result ≡ type_or_none (option_map sort_for cell) }
{
    match cell {
        None => None,
        Some(cell) => Some(cell.c_type()),
    }
}

/// The C type of objects of this type, if they are scalars.
pub fn scalar_type(tables: &Tables<'_>, ty: TyId) -> Option<CType>
    ensures { result ≡ type_or_none (sorts.sort_of (type_of tables.now ty)) }
{
    let scalar = sort_of(tables, ty);
    c_type(cell_in(&scalar))
}

/// The C type of what functions of this type give, if it is a scalar.
pub fn result_type(tables: &Tables<'_>, ty: TyId) -> Option<CType>
    ensures { result ≡ type_or_none (sorts.sort_of (types.result (type_of tables.now ty))) }
{
    let scalar = result_sort(tables, ty);
    c_type(cell_in(&scalar))
}

/// Puts the C type of a parameter of this type behind others, if it is a scalar.
#[tactic(auto, using(crate::proofs::Types::one_none, crate::proofs::Types::one_some))]
fn add_type(x: &Scene<'_>, made: &mut Items<CType>, ty: TyId) -> Result<(), Memory>
    ensures { OnOk result (made.new ≡ made.old ++ one_type (sorts.sort_of (type_of x.now.tables.now ty))) }
{
    match scalar_type(x.tables, ty) {
        None => Ok(()),
        Some(given) => {
            made.push(given)?;
            Ok(())
        }
    }
}

/// The type of functions of this type in C.
#[tactic(auto, using(crate::proofs::Types::one_more, crate::proofs::Types::signature_is))]
fn signature(x: &Scene<'_>, ty: TyId) -> Result<CSignature, Memory>
    ensures { IfOk result (λ made. made ≡ spec.signature (type_of x.now.tables.now ty)) }
{
    let mut made = Items::new(x.alloc);
    for parameter in parameters(x.tables, ty) {
        add_type(x, &mut made, *parameter)?;
    }
    Ok(CSignature {
        result: result_type(x.tables, ty),
        parameters: made,
    })
}

/// The function of this name.
pub(crate) fn by_name(alloc: Global, name: &Name) -> Result<CCallee, Memory>
    ensures { IfOk result (λ made. callee_of made ≡ c.by_name name.now) }
{
    let copy = Items::from_slice(alloc, name.as_slice())?;
    Ok(CCallee::Name(copy))
}

/// What a pointer to functions of this type points to, in a register.
pub(crate) fn through(x: &Scene<'_>, register: u32, ty: TyId) -> Result<CCallee, Memory>
    ensures { IfOk result (λ made. callee_of made ≡ spec.through register (type_of x.now.tables.now ty)) }
{
    let signature = signature(x, ty)?;
    let pointer = in_register(x.alloc, Cell::Code, register)?;
    Ok(CCallee::Pointer(signature, pointer))
}

/// A call whose result is not kept.
pub(crate) fn call_alone(
    alloc: Global,
    code: &mut Items<CStatement>,
    callee: CCallee,
    arguments: &[u32],
) -> Result<(), Memory>
    ensures { OnOk result (written code.new ≡ written code.old ++ c.call None (callee_of callee) (spec.passed arguments.now) ∷ []) }
{
    let values = passed(alloc, arguments)?;
    push(code, CStatement::Call(None, callee, values))?;
    Ok(())
}

/// A call whose result goes to the C local of this name.
fn call_to(
    code: &mut Items<CStatement>,
    into: Name,
    callee: CCallee,
    values: Items<CExpression>,
) -> Result<(), Memory>
    ensures { OnOk result (written code.new ≡ written code.old ++ c.call (Some (c.named into)) (callee_of callee) (map expression_of values) ∷ []) }
{
    let place = CPlace::Name(into);
    push(code, CStatement::Call(Some(place), callee, values))?;
    Ok(())
}

/// A call whose result goes through a C local of its type to a register.
#[tactic(auto, using(crate::proofs::Cells::call_kept))]
fn call_for(
    alloc: Global,
    code: &mut Items<CStatement>,
    callee: CCallee,
    arguments: &[u32],
    cell: Cell,
    register: u32,
) -> Result<(), Memory>
    ensures { OnOk result (written code.new ≡ written code.old ++ result_kept (callee_of callee) arguments.now register (sort_for cell)) }
{
    let ty = cell.c_type();
    let values = passed(alloc, arguments)?;
    let into = result_name(alloc, ty)?;
    call_to(code, into, callee, values)?;
    let name = result_name(alloc, ty)?;
    let held = load_named(alloc, name)?;
    let value = as_value(alloc, cell, held)?;
    set_register(alloc, code, cell, register, value)?;
    Ok(())
}

/// A call whose result, this scalar, is kept in a register; there is none to keep where it is no scalar.
fn call_as(
    alloc: Global,
    code: &mut Items<CStatement>,
    callee: CCallee,
    arguments: &[u32],
    cell: Option<Cell>,
    register: u32,
) -> Result<(), Memory>
    ensures { OnOk result (written code.new ≡ written code.old ++ called_as (callee_of callee) arguments.now register (option_map sort_for cell)) }
{
    match cell {
        None => {
            call_alone(alloc, code, callee, arguments)?;
            Ok(())
        }
        Some(cell) => {
            call_for(alloc, code, callee, arguments, cell, register)?;
            Ok(())
        }
    }
}

/// A call of a function of this type, whose result is kept in a register.
pub(crate) fn call_into(
    x: &Scene<'_>,
    code: &mut Items<CStatement>,
    callee: CCallee,
    ty: TyId,
    arguments: &[u32],
    register: u32,
) -> Result<(), Memory>
    ensures { OnOk result (written code.new ≡ written code.old ++ spec.called (callee_of callee) (type_of x.now.tables.now ty) arguments.now (Some register)) }
{
    let scalar = result_sort(x.tables, ty);
    let cell = cell_in(&scalar);
    call_as(x.alloc, code, callee, arguments, cell, register)?;
    Ok(())
}
