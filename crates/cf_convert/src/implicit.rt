ghost use Rattle.std.specs.Prelude.{◌≡◌, ℕ, ◌<◌, List, [], ◌∷◌, ◌++◌, length, IfOk, Some, None, ◌==◌, if◌then◌else◌};
ghost use Rattle.std.specs.Option.{option_map};
ghost use Rattle.cf_types.specs.Table.{NamesBelow};
ghost use Rattle.cf_classes.specs.ClassTable.{latest_first};
ghost use Rattle.cf_convert.specs.Converts as converts;
ghost use Rattle.cf_convert.specs.DataMember.{data_member_steps};

use crate::conv::{Conv, ConvStep, Val};
use crate::types::{bare, decayed, is_alike, is_const, takes_null, type_at};
use cf_base::{Items, Kind, Memory};
use cf_classes::Classes;
use cf_types::{ClassId, FunId, Ty, TyId, Types, promote};
use std::alloc::Global;

/// The conversion of a value to a type without a user's function, if there is one (4, 13.2).
/// So far no class has a definition, so no conversion goes to a base.
pub fn standard(
    alloc: Global,
    types: &Types,
    classes: &Classes,
    from: &Val,
    to: TyId,
) -> Result<Option<Conv>, Memory>
    requires from_known { from.now.ty < length types.now.types }
    requires to_known { to < length types.now.types }
    requires no_bases { classes.now.defined ≡ [] }
    ensures { IfOk result (λ conv. conv ≡ converts.converts types.now (latest_first classes.now) from.now to) }
{
    match steps(alloc, types, from, to)? {
        Some(steps) => Ok(Some(Conv {
            rank: rank(steps.as_slice()),
            steps,
        })),
        None => Ok(None),
    }
}

fn steps(
    alloc: Global,
    types: &Types,
    from: &Val,
    to: TyId,
) -> Result<Option<Items<ConvStep>>, Memory>
    requires from_known { from.now.ty < length types.now.types }
    requires to_known { to < length types.now.types }
    ensures { IfOk result (λ steps. steps ≡ converts.steps types.now [] from.now to) }
{
    match type_at(types, to) {
        Ty::Ref(referred) => to_reference(alloc, types, from, *referred),
        _ => to_value(alloc, types, from, bare(types, to)),
    }
}

/// To a type that is no reference and has no const of its own.
fn to_value(
    alloc: Global,
    types: &Types,
    from: &Val,
    to: TyId,
) -> Result<Option<Items<ConvStep>>, Memory>
    requires from_known { from.now.ty < length types.now.types }
    requires to_known { to < length types.now.types }
    ensures { IfOk result (λ steps. steps ≡ converts.to_value types.now [] from.now to) }
{
    let id = bare(types, from.ty);
    let source = type_at(types, id);
    let target = type_at(types, to);
    let steps = first_step(alloc, from.lvalue, source)?;
    if from.zero && takes_null(target) {
        followed_by(steps, ConvStep::Null)
    } else {
        value_steps(types, steps, &decayed(id, source), target)
    }
}

/// To a reference to this type.
fn to_reference(
    alloc: Global,
    types: &Types,
    from: &Val,
    to: TyId,
) -> Result<Option<Items<ConvStep>>, Memory>
    requires from_known { from.now.ty < length types.now.types }
    requires to_known { to < length types.now.types }
    ensures { IfOk result (λ steps. steps ≡ converts.to_reference types.now [] from.now to) }
{
    match bound(alloc, types, from, to)? {
        Some(steps) => Ok(Some(steps)),
        None => {
            if is_const(types, to) {
                let steps = to_value(alloc, types, from, bare(types, to))?;
                through_temporary(steps)
            } else {
                Ok(None)
            }
        }
    }
}

/// To a reference to this type, without a temporary.
fn bound(
    alloc: Global,
    types: &Types,
    from: &Val,
    to: TyId,
) -> Result<Option<Items<ConvStep>>, Memory>
    requires from_known { from.now.ty < length types.now.types }
    requires to_known { to < length types.now.types }
    ensures { IfOk result (λ steps. steps ≡ converts.binds types.now [] from.now to) }
{
    if from.lvalue && is_alike(types, from.ty, to) {
        with_const(
            Some(Items::new(alloc)),
            is_const(types, from.ty),
            is_const(types, to),
        )
    } else {
        Ok(None)
    }
}

/// Const is added for a temporary, and once in all.
fn through_temporary(steps: Option<Items<ConvStep>>) -> Result<Option<Items<ConvStep>>, Memory>
    ensures { IfOk result (λ r. r ≡ option_map converts.through_temporary steps) }
{
    match steps {
        Some(steps) => {
            if adds_const(steps.as_slice()) {
                Ok(Some(steps))
            } else {
                followed_by(steps, ConvStep::AddConst)
            }
        }
        None => Ok(None),
    }
}

/// Whether const is added.
fn adds_const(steps: &[ConvStep]) -> bool
    ensures { result ≡ converts.adds_const steps.now }
{
    steps.iter().any(is_add_const)
}

fn is_add_const(step: &ConvStep) -> bool
    ensures { result ≡ converts.is_add_const step.now }
{
    matches!(step, ConvStep::AddConst)
}

/// The steps and one more.
fn followed_by(
    mut steps: Items<ConvStep>,
    step: ConvStep,
) -> Result<Option<Items<ConvStep>>, Memory>
    ensures { IfOk result (λ r. r ≡ Some (steps ++ step ∷ [])) }
{
    steps.push(step)?;
    Ok(Some(steps))
}

/// The read of an lvalue, or the pointer that an array or a function is taken as.
fn first_step(alloc: Global, lvalue: bool, source: &Ty) -> Result<Items<ConvStep>, Memory>
    ensures { IfOk result (λ steps. steps ≡ converts.first_step lvalue source.now) }
{
    let mut steps = Items::new(alloc);
    match source {
        Ty::Array(_, _) | Ty::Fun(_) => steps.push(ConvStep::Decay)?,
        _ => {
            if lvalue {
                steps.push(ConvStep::Read)?;
            }
        }
    }
    Ok(steps)
}

/// The steps so far, and those of a value of one type to another.
fn value_steps(
    types: &Types,
    steps: Items<ConvStep>,
    source: &Ty,
    target: &Ty,
) -> Result<Option<Items<ConvStep>>, Memory>
    requires source_known { NamesBelow (length types.now.types) source.now }
    requires target_known { NamesBelow (length types.now.types) target.now }
    ensures { IfOk result (λ r. r ≡ option_map (λ s. steps ++ s) (converts.value_steps types.now [] source.now target.now)) }
{
    match source {
        Ty::Int(from) => from_integer(types, steps, *from, target),
        Ty::Enum(from) => from_enum(types, steps, *from, target),
        Ty::Class(from) => from_class(types, steps, *from, target),
        Ty::Ptr(from) => from_pointer(types, steps, *from, target),
        Ty::MemData(of, from) => from_data_member(types, steps, *of, *from, target),
        Ty::MemFun(of, from) => from_member_function(types, steps, *of, *from, target),
        _ => Ok(None),
    }
}

/// An integer to another type.
fn from_integer(
    types: &Types,
    steps: Items<ConvStep>,
    from: Kind,
    target: &Ty,
) -> Result<Option<Items<ConvStep>>, Memory>
    ensures { IfOk result (λ r. r ≡ option_map (λ s. steps ++ s) (converts.value_steps types.now [] (Ty.Int from) target.now)) }
{
    match target {
        Ty::Int(to) => to_integer(steps, from, *to),
        _ => Ok(None),
    }
}

/// An enumeration to another type.
fn from_enum(
    types: &Types,
    steps: Items<ConvStep>,
    from: u32,
    target: &Ty,
) -> Result<Option<Items<ConvStep>>, Memory>
    ensures { IfOk result (λ r. r ≡ option_map (λ s. steps ++ s) (converts.value_steps types.now [] (Ty.Enum from) target.now)) }
{
    match target {
        Ty::Int(to) => enum_to_integer(steps, *to),
        Ty::Enum(to) => unchanged_if(steps, from == *to),
        _ => Ok(None),
    }
}

/// A class to another type.
fn from_class(
    types: &Types,
    steps: Items<ConvStep>,
    from: ClassId,
    target: &Ty,
) -> Result<Option<Items<ConvStep>>, Memory>
    ensures { IfOk result (λ r. r ≡ option_map (λ s. steps ++ s) (converts.value_steps types.now [] (Ty.Class from) target.now)) }
{
    match target {
        Ty::Class(to) => unchanged_if(steps, from.number() == to.number()),
        _ => Ok(None),
    }
}

/// A pointer to another type.
fn from_pointer(
    types: &Types,
    steps: Items<ConvStep>,
    from: TyId,
    target: &Ty,
) -> Result<Option<Items<ConvStep>>, Memory>
    requires from_known { from < length types.now.types }
    requires target_known { NamesBelow (length types.now.types) target.now }
    ensures { IfOk result (λ r. r ≡ option_map (λ s. steps ++ s) (converts.value_steps types.now [] (Ty.Ptr from) target.now)) }
{
    match target {
        Ty::Ptr(to) => to_pointer(types, steps, from, *to),
        _ => Ok(None),
    }
}

/// A pointer to a data member to another type.
fn from_data_member(
    types: &Types,
    steps: Items<ConvStep>,
    of: ClassId,
    from: TyId,
    target: &Ty,
) -> Result<Option<Items<ConvStep>>, Memory>
    requires from_known { from < length types.now.types }
    requires target_known { NamesBelow (length types.now.types) target.now }
    ensures { IfOk result (λ r. r ≡ option_map (λ s. steps ++ s) (converts.value_steps types.now [] (Ty.MemData of from) target.now)) }
{
    match target {
        Ty::MemData(class, to) => {
            let is_same_class = of.number() == class.number();
            to_data_member(types, steps, is_same_class, from, *to)
        }
        _ => Ok(None),
    }
}

/// A pointer to a member function to another type.
fn from_member_function(
    types: &Types,
    steps: Items<ConvStep>,
    of: ClassId,
    from: FunId,
    target: &Ty,
) -> Result<Option<Items<ConvStep>>, Memory>
    ensures { IfOk result (λ r. r ≡ option_map (λ s. steps ++ s) (converts.value_steps types.now [] (Ty.MemFun of from) target.now)) }
{
    match target {
        Ty::MemFun(class, to) => {
            let is_same_class = of.number() == class.number();
            let is_same_type = from.number() == to.number();
            unchanged_if(steps, is_same_class && is_same_type)
        }
        _ => Ok(None),
    }
}

/// The steps so far, if the types are the same.
fn unchanged_if(steps: Items<ConvStep>, is_same: bool) -> Result<Option<Items<ConvStep>>, Memory>
    ensures { IfOk result (λ r. r ≡ option_map (λ s. steps ++ s) (if is_same then Some [] else None)) }
{
    if is_same { Ok(Some(steps)) } else { Ok(None) }
}

/// A pointer to a data member to one to a member of this type.
fn to_data_member(
    types: &Types,
    steps: Items<ConvStep>,
    is_same_class: bool,
    from: TyId,
    to: TyId,
) -> Result<Option<Items<ConvStep>>, Memory>
    requires from_known { from < length types.now.types }
    requires to_known { to < length types.now.types }
    ensures { IfOk result (λ r. r ≡ option_map (λ s. steps ++ s) (data_member_steps types.now is_same_class from to)) }
{
    let is_same_type = is_alike(types, from, to);
    let steps = unchanged_if(steps, is_same_class && is_same_type)?;
    with_const(steps, is_const(types, from), is_const(types, to))
}

fn to_integer(
    steps: Items<ConvStep>,
    from: Kind,
    to: Kind,
) -> Result<Option<Items<ConvStep>>, Memory>
    ensures { IfOk result (λ r. r ≡ Some (steps ++ converts.to_integer from to)) }
{
    if from == to {
        Ok(Some(steps))
    } else if promote(from) == to {
        followed_by(steps, ConvStep::Promote)
    } else {
        followed_by(steps, ConvStep::Integer(to))
    }
}

fn enum_to_integer(steps: Items<ConvStep>, to: Kind) -> Result<Option<Items<ConvStep>>, Memory>
    ensures { IfOk result (λ r. r ≡ Some (steps ++ converts.enum_to_integer to)) }
{
    if Kind::Int == to {
        followed_by(steps, ConvStep::Promote)
    } else {
        followed_by(steps, ConvStep::Integer(to))
    }
}

/// A pointer to one type to a pointer to another.
fn to_pointer(
    types: &Types,
    steps: Items<ConvStep>,
    from: TyId,
    to: TyId,
) -> Result<Option<Items<ConvStep>>, Memory>
    requires from_known { from < length types.now.types }
    requires to_known { to < length types.now.types }
    ensures { IfOk result (λ r. r ≡ option_map (λ s. steps ++ s) (converts.to_pointer types.now [] from to)) }
{
    let steps = pointee(types, steps, from, to)?;
    with_const(steps, is_const(types, from), is_const(types, to))
}

/// What a pointer leads to, but for const, to what another does.
fn pointee(
    types: &Types,
    steps: Items<ConvStep>,
    from: TyId,
    to: TyId,
) -> Result<Option<Items<ConvStep>>, Memory>
    requires from_known { from < length types.now.types }
    requires to_known { to < length types.now.types }
    ensures { IfOk result (λ r. r ≡ option_map (λ s. steps ++ s) (converts.pointee types.now [] from to)) }
{
    if is_alike(types, from, to) {
        Ok(Some(steps))
    } else {
        let source = type_at(types, bare(types, from));
        let target = type_at(types, bare(types, to));
        pointed(steps, source, target)
    }
}

/// What a pointer to an object leads to becomes `void`.
fn pointed(
    steps: Items<ConvStep>,
    source: &Ty,
    target: &Ty,
) -> Result<Option<Items<ConvStep>>, Memory>
    ensures { IfOk result (λ r. r ≡ option_map (λ s. steps ++ s) (converts.pointed [] source.now target.now)) }
{
    match (source, target) {
        (Ty::Fun(_), _) => Ok(None),
        (_, Ty::Void) => followed_by(steps, ConvStep::ToVoid),
        _ => Ok(None),
    }
}

/// Const is added under a pointer or a reference, and not dropped.
fn with_const(
    steps: Option<Items<ConvStep>>,
    from_const: bool,
    to_const: bool,
) -> Result<Option<Items<ConvStep>>, Memory>
    ensures { IfOk result (λ r. r ≡ converts.with_const from_const to_const steps) }
{
    match steps {
        Some(steps) if from_const == to_const => Ok(Some(steps)),
        Some(steps) if to_const => followed_by(steps, ConvStep::AddConst),
        _ => Ok(None),
    }
}

/// The rank of a conversion by these steps (13.2).
fn rank(steps: &[ConvStep]) -> u8
    ensures { result ≡ converts.rank steps.now }
{
    let mut worst = 1;
    for step in steps {
        worst = step_rank(step).max(worst);
    }
    worst
}

fn step_rank(step: &ConvStep) -> u8
    ensures value { result ≡ converts.step_rank step.now }
    ensures some { 0 < result }
{
    match step {
        ConvStep::Read | ConvStep::Decay | ConvStep::AddConst => 1,
        ConvStep::Promote => 2,
        _ => 3,
    }
}
