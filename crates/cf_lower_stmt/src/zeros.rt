//! Zeros in all scalars of an object.

ghost use Rattle.std.specs.Prelude.{◌≡◌, ◌++◌, ◌+◌, ◌*◌, IfOk, OnOk};
ghost use Rattle.std.specs.Option.{option_map};
ghost use Rattle.cf_base.specs.declared.kind.Kind.TheVariants as kind;
ghost use Rattle.cf_core.specs.Types.{array, integer};
ghost use Rattle.cf_lower.specs.Expressions as value;
ghost use Rattle.cf_lower.specs.Statements as definition;
ghost use Rattle.cf_lower_held.specs.Holds.{kept_in};
ghost use Rattle.cf_lower_names.specs.Cells.{sort_for};
ghost use Rattle.cf_lower_types.specs.Bare.{bare, classes_of, type_in};
ghost use Rattle.cf_lower_stmt.specs.Steps.{written, zero_if};

use crate::stores::{behind, put};
use cc_whole::CStatement;
use cf_base::{Items, Kind, Memory};
use cf_lower_expr::cell_in;
use cf_lower_held::{Held, Scene, place_in};
use cf_lower_names::{Cell, address_in, zero};
use cf_lower_types::{Elements, PlaceType, elements_in, form_of, size_of, sort_of};
use cf_types::TyId;
use std::alloc::Global;

/// Zero is stored in the scalar so many bytes behind the place in a register, if it is one.
fn zero_scalar(
    alloc: Global,
    code: &mut Items<CStatement>,
    cell: Option<Cell>,
    place: u32,
    at: u64,
) -> Result<(), Memory>
    ensures { OnOk result (written code.new ≡ written code.old ++ zero_if (option_map sort_for cell) (value.address_in place) at) }
{
    match cell {
        None => Ok(()),
        Some(cell) => {
            let start = address_in(alloc, place)?;
            let there = behind(alloc, start, at)?;
            let nothing = zero(alloc)?;
            put(alloc, code, cell, there, nothing)?;
            Ok(())
        }
    }
}

/// Where an element of so many bytes begins.
fn element_at(at: u64, index: u32, each: u64) -> Result<u64, Memory>
    ensures { IfOk result (λ there. there ≡ at + index * each) }
{
    let before = u64::from(index).checked_mul(each).ok_or(Memory)?;
    at.checked_add(before).ok_or(Memory)
}

/// Zeros are stored in the elements of an array that begins so many bytes behind the place in a register.
#[cycle(zeros)]
#[tactic(auto, using(crate::proofs::ZeroLaws::turn, crate::proofs::ZeroLaws::no_turn))]
fn zero_elements(
    x: &Scene<'_>,
    code: &mut Items<CStatement>,
    elements: &Elements,
    place: u32,
    at: u64,
) -> Result<(), Memory>
    ensures { OnOk result (written code.new ≡ written code.old ++ definition.zeros (classes_of x.now.tables.now) (array (bare x.now.tables.now elements.now.ty) elements.now.count) (value.address_in place) at) }
{
    let each = size_of(x.tables, elements.ty)?;
    for i in 0..elements.count {
        let there = element_at(at, i, each)?;
        zero_type(x, code, elements.ty, place, there)?;
    }
    Ok(())
}

/// Zeros are stored in every scalar of the object of this type that begins so many bytes behind the place in a register.
#[cycle(zeros)]
#[tactic(auto, using(crate::proofs::ZeroLaws::of_array, cf_lower_types::proofs::Forms::elements_below))]
fn zero_type(
    x: &Scene<'_>,
    code: &mut Items<CStatement>,
    ty: TyId,
    place: u32,
    at: u64,
) -> Result<(), Memory>
    ensures { OnOk result (written code.new ≡ written code.old ++ definition.zeros (classes_of x.now.tables.now) (bare x.now.tables.now ty) (value.address_in place) at) }
{
    let form = form_of(x.tables, ty);
    match elements_in(&form) {
        Some(elements) => {
            zero_elements(x, code, &elements, place, at)?;
            Ok(())
        }
        None => {
            let scalar = sort_of(x.tables, ty);
            let cell = cell_in(&scalar);
            zero_scalar(x.alloc, code, cell, place, at)?;
            Ok(())
        }
    }
}

/// Zeros are stored in so many characters from the place in a register on.
#[tactic(auto, using(crate::proofs::ZeroLaws::character_turn, crate::proofs::ZeroLaws::no_turn))]
fn zero_characters(
    x: &Scene<'_>,
    code: &mut Items<CStatement>,
    count: u64,
    place: u32,
) -> Result<(), Memory>
    ensures { OnOk result (written code.new ≡ written code.old ++ definition.zeros (classes_of x.now.tables.now) (array (integer kind.Char) count) (value.address_in place) 0) }
{
    for at in 0..count {
        zero_scalar(x.alloc, code, Some(Cell::Number(Kind::Char)), place, at)?;
    }
    Ok(())
}

/// Zeros are stored in every scalar of the object of this type whose place is in a register.
fn zero_object(
    x: &Scene<'_>,
    code: &mut Items<CStatement>,
    ty: &PlaceType,
    place: u32,
) -> Result<(), Memory>
    ensures { OnOk result (written code.new ≡ written code.old ++ definition.zeros (classes_of x.now.tables.now) (type_in x.now.tables.now ty.now) (value.address_in place) 0) }
{
    match ty {
        PlaceType::Of(id) => {
            zero_type(x, code, *id, place, 0)?;
            Ok(())
        }
        PlaceType::Void => Ok(()),
        PlaceType::Character => {
            zero_scalar(x.alloc, code, Some(Cell::Number(Kind::Char)), place, 0)?;
            Ok(())
        }
        PlaceType::Characters(count) => {
            zero_characters(x, code, *count, place)?;
            Ok(())
        }
    }
}

/// Zeros are stored in every scalar of the object whose place a register holds.
#[tactic(auto, using(crate::proofs::Objects::zeros_place, crate::proofs::Objects::zeros_nowhere))]
pub(crate) fn zeros_in(
    x: &Scene<'_>,
    code: &mut Items<CStatement>,
    kept: &Held,
    place: u32,
) -> Result<(), Memory>
    ensures { OnOk result (written code.new ≡ written code.old ++ definition.zeros_in (classes_of x.now.tables.now) (kept_in x.now.tables.now kept.now) place) }
{
    match place_in(kept) {
        Some(ty) => {
            zero_object(x, code, &ty, place)?;
            Ok(())
        }
        None => Ok(()),
    }
}
