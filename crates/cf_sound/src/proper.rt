//! Which types of a file are as elaboration makes them, in a table by their numbers: each type is looked at once, by those before it.

ghost use Rattle.std.specs.Prelude.{◌≡◌, ◌+◌, ◌&&◌, IfOk, OnOk, Some, length, nat_le, not, get_or, true};
ghost use Rattle.std.specs.List.{list_all};
ghost use Rattle.cf_types.specs.Table.{Names};
ghost use Rattle.cf_core.specs.FromTypes.{type_of};
ghost use Rattle.cf_core.specs.FromUnit.{tables_of};
ghost use Rattle.cf_core.specs.Typing as typing;
ghost use Rattle.cf_core_sound.specs.Proper as proper;
ghost use Rattle.cf_core.specs.Places as places;
ghost use Rattle.cf_sound.specs.Tabled.{AreKnown, AreProper, signature_known, entry_known};

use crate::types::{entry, is_function, is_reference, takes_const};
use cf_base::{Items, Memory};
use cf_core::CoreUnit;
use cf_types::{Fun, Ty, TyId};
use std::alloc::Global;

/// The most elements of an array, whose numbers an `int` has.
const MOST: u32 = 2147483647;

/// What a table tells of the type of this number.
pub(crate) fn told(known: &[bool], id: TyId) -> bool
    ensures { result ≡ get_or known.now id true }
{
    match known.get(id.number() as usize) {
        None => true,
        Some(is) => *is,
    }
}

/// Whether it tells so of all of these.
pub(crate) fn all_told(known: &[bool], ids: &[TyId]) -> bool
    ensures { result ≡ list_all (λ t. get_or known.now t true) ids.now }
{
    for id in ids {
        if !told(known, *id) {
            return false;
        }
    }
    true
}

/// Whether a function's type has such parameters and such a result.
fn signature_told(known: &[bool], function: &Fun) -> bool
    ensures { result ≡ signature_known known.now (Some function.now) }
{
    all_told(known, function.params.as_slice()) && told(known, function.result)
}

/// Whether a pointer or a reference may be to this type.
fn target_told(unit: &CoreUnit, known: &[bool], id: TyId) -> bool
    ensures { result ≡ (not (places.is_reference (type_of (tables_of unit.now) id)) && get_or known.now id true) }
{
    !is_reference(unit, id) && told(known, id)
}

/// Whether an array may be of so many of this type.
fn element_told(unit: &CoreUnit, known: &[bool], id: TyId, count: u32) -> bool
    ensures { result ≡ (not (places.is_reference (type_of (tables_of unit.now) id)) && (get_or known.now id true && (not (typing.is_function (type_of (tables_of unit.now) id)) && nat_le count proper.most))) }
{
    !is_reference(unit, id) && told(known, id) && !is_function(unit, id) && count <= MOST
}

/// Whether a type of this form, which names types before this number, is as elaboration makes it.
fn entry_told(unit: &CoreUnit, known: &[bool], id: TyId, ty: Ty) -> bool
    requires { Names unit.now.types.funs id (length unit.now.types.funs) ty }
    ensures { result ≡ entry_known (tables_of unit.now) known.now ty }
{
    match ty {
        Ty::Void => true,
        Ty::Int(_) => true,
        Ty::Enum(_) => true,
        Ty::Class(_) => true,
        Ty::Ptr(target) => target_told(unit, known, target),
        Ty::Ref(target) => target_told(unit, known, target),
        Ty::Array(element, count) => element_told(unit, known, element, count),
        Ty::Fun(function) => signature_told(known, unit.fun(function)),
        Ty::MemData(_, target) => told(known, target),
        Ty::MemFun(_, function) => signature_told(known, unit.fun(function)),
        Ty::Const(inner) => takes_const(unit, inner) && told(known, inner),
    }
}

/// Whether the type of this number is as elaboration makes it, by those before it.
fn type_told(unit: &CoreUnit, known: &[bool], id: TyId) -> bool
    requires { AreKnown (tables_of unit.now) id known.now }
    ensures { result ≡ proper.is_proper (type_of (tables_of unit.now) id) }
{
    entry_told(unit, known, id, entry(unit, id))
}

/// Puts what is so of the next type behind what is so of those before it.
#[tactic(auto, using(crate::proofs::TableLaws::known_more))]
fn add(unit: &CoreUnit, known: &mut Items<bool>, number: u32) -> Result<(), Memory>
    requires { AreKnown (tables_of unit.now) number known.old }
    ensures { OnOk result (AreKnown (tables_of unit.now) (number + 1) known.new) }
{
    let is = type_told(unit, known.as_slice(), TyId::new(number));
    known.push(is)?;
    Ok(())
}

/// The table of a file's types. It takes time by what the types name.
#[tactic(auto, using(crate::proofs::TableLaws::known_none, crate::proofs::TableLaws::known_all))]
pub(crate) fn proper_types(alloc: Global, unit: &CoreUnit) -> Result<Items<bool>, Memory>
    ensures { IfOk result (λ known. AreProper (tables_of unit.now) known) }
{
    let mut known = Items::new(alloc);
    let count = u32::try_from(unit.types().count()).map_err(|_| Memory)?;
    for number in 0..count {
        add(unit, &mut known, number)?;
    }
    Ok(known)
}
