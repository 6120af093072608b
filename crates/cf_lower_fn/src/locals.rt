//! The C locals of a function.

ghost use Rattle.std.specs.Prelude.{◌≡◌, ◌++◌, ◌∷◌, [], map, IfOk, OnOk};
ghost use Rattle.cf_core.specs.FromTypes.{type_of};
ghost use Rattle.cf_lower.specs.Functions as spec;
ghost use Rattle.cf_lower.specs.Written as written;
ghost use Rattle.cf_lower_types.specs.Bare.{classes_of};
ghost use Rattle.cf_lower_fn.specs.Parts.{three};

use cc_whole::{CConstant, CLocal, CLocalType, CType, CVariableType};
use cf_base::{Items, Kind, Memory, Name};
use cf_lower_names::{Cell, flag_name, local_name, register_name};
use cf_lower_stmt::scalar_type;
use cf_lower_types::{Tables, size_of};
use cf_types::TyId;
use std::alloc::Global;

/// A C local of a scalar type comes behind those so far.
pub(crate) fn push_scalar(made: &mut Items<CLocal>, ty: CType, name: Name) -> Result<(), Memory>
    ensures { OnOk result (made.new ≡ made.old ++ spec.scalar ty name ∷ []) }
{
    made.push(CLocal {
        ty: CLocalType::Scalar(ty),
        name,
    })?;
    Ok(())
}

/// How many ints an object of this type takes.
fn words(tables: &Tables<'_>, ty: TyId) -> Result<CConstant, Memory>
    ensures { IfOk result (λ made. made ≡ written.words (classes_of tables.now) (type_of tables.now ty)) }
{
    let bytes = size_of(tables, ty)?.checked_add(3).ok_or(Memory)?;
    let Ok(count) = i32::try_from(bytes / 4) else {
        return Err(Memory);
    };
    Ok(CConstant::Signed(count))
}

/// A scalar is one; any other object is an array of ints.
#[tactic(auto, using(crate::proofs::ObjectTypes::local_none, crate::proofs::ObjectTypes::local_some))]
fn local_type(tables: &Tables<'_>, ty: TyId) -> Result<CLocalType, Memory>
    ensures { IfOk result (λ made. made ≡ written.local_type (classes_of tables.now) (type_of tables.now ty)) }
{
    match scalar_type(tables, ty) {
        None => {
            let count = words(tables, ty)?;
            Ok(CLocalType::Ints(count))
        }
        Some(scalar) => Ok(CLocalType::Scalar(scalar)),
    }
}

/// The same of a static object.
#[tactic(auto, using(crate::proofs::ObjectTypes::variable_none, crate::proofs::ObjectTypes::variable_some))]
pub fn object_type(tables: &Tables<'_>, ty: TyId) -> Result<CVariableType, Memory>
    ensures { IfOk result (λ made. made ≡ written.variable_type (classes_of tables.now) (type_of tables.now ty)) }
{
    match scalar_type(tables, ty) {
        None => {
            let count = words(tables, ty)?;
            Ok(CVariableType::Ints(count))
        }
        Some(scalar) => Ok(CVariableType::Scalar(scalar)),
    }
}

/// The C locals of locals, from a number on.
#[tactic(auto, using(crate::proofs::LocalLaws::local_more))]
pub(crate) fn add_locals(
    alloc: Global,
    tables: &Tables<'_>,
    first: u32,
    types: &[TyId],
    made: &mut Items<CLocal>,
) -> Result<(), Memory>
    ensures { OnOk result (made.new ≡ made.old ++ spec.own_locals (classes_of tables.now) first (map (type_of tables.now) types.now)) }
{
    let mut number = first;
    for id in types {
        let ty = local_type(tables, *id)?;
        let name = local_name(alloc, number)?;
        made.push(CLocal { ty, name })?;
        number = number.checked_add(1).ok_or(Memory)?;
    }
    Ok(())
}

/// The three C locals of a register.
fn add_register(alloc: Global, register: u32, made: &mut Items<CLocal>) -> Result<(), Memory>
    ensures { OnOk result (made.new ≡ made.old ++ three register) }
{
    let integer = register_name(alloc, Cell::Number(Kind::Int), register)?;
    push_scalar(made, CType::Int, integer)?;
    let pointer = register_name(alloc, Cell::Address, register)?;
    push_scalar(made, CType::Pointer, pointer)?;
    let function = register_name(alloc, Cell::Code, register)?;
    push_scalar(made, CType::FunctionPointer, function)?;
    Ok(())
}

/// Those of each register below a number.
#[tactic(auto, using(crate::proofs::LocalLaws::register_more))]
pub(crate) fn add_registers(
    alloc: Global,
    bound: u64,
    made: &mut Items<CLocal>,
) -> Result<(), Memory>
    ensures { OnOk result (made.new ≡ made.old ++ spec.registers bound) }
{
    for number in 0..bound {
        let Ok(register) = u32::try_from(number) else {
            return Err(Memory);
        };
        add_register(alloc, register, made)?;
    }
    Ok(())
}

/// The flags.
#[tactic(auto, using(crate::proofs::LocalLaws::flag_more))]
pub(crate) fn add_flags(alloc: Global, depth: u32, made: &mut Items<CLocal>) -> Result<(), Memory>
    ensures { OnOk result (made.new ≡ made.old ++ spec.flags depth) }
{
    for flag in 0..depth {
        let name = flag_name(alloc, flag)?;
        push_scalar(made, CType::Int, name)?;
    }
    Ok(())
}
