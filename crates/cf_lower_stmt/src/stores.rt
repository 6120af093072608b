//! What is stored in objects.

ghost use Rattle.std.specs.Prelude.{◌≡◌, ◌++◌, ◌+◌, [], ◌∷◌, pos, OnOk, IfOk};
ghost use Rattle.std.specs.Option.{option_map};
ghost use Rattle.cc_whole.specs.Plain.{expression_of};
ghost use Rattle.cf_base.specs.Integers.{convert};
ghost use Rattle.cf_core.specs.FromTypes.{type_of};
ghost use Rattle.cf_lower.specs.Expressions as value;
ghost use Rattle.cf_lower.specs.Statements as spec;
ghost use Rattle.cf_lower_held.specs.Holds.{kept_in};
ghost use Rattle.cf_lower_layout.specs.Sorts as sorts;
ghost use Rattle.cf_lower_names.specs.Cells.{sort_for};
ghost use Rattle.cf_lower_types.specs.Bare.{classes_of};
ghost use Rattle.cf_lower_stmt.specs.Steps.{local_stored, written};

use crate::writes::{assign, push};
use crate::zeros::zeros_in;
use cc_whole::{CExpression, CPlace, CStatement};
use cf_base::{Arith, Boxed, Items, Kind, Memory};
use cf_lower_expr::{cell_in, constant_of};
use cf_lower_held::{Held, Scene, argument_in, place_in};
use cf_lower_names::{Cell, address_in, as_stored, binary, local_name, number};
use cf_lower_types::{place_kind, place_scalar, sort_of};
use cf_types::{TyId, convert_int};
use std::alloc::Global;

/// A value is stored in the scalar at an address.
pub fn put(
    alloc: Global,
    code: &mut Items<CStatement>,
    cell: Cell,
    address: Boxed<CExpression>,
    given: Boxed<CExpression>,
) -> Result<(), Memory>
    ensures { OnOk result (written code.new ≡ written code.old ++ spec.put (sort_for cell) (expression_of address) (expression_of given) ∷ []) }
{
    let stored = as_stored(alloc, cell, given)?;
    let there = CPlace::At(cell.c_type(), address);
    push(code, CStatement::Assign(there, stored))?;
    Ok(())
}

/// A value is stored in the scalar whose place is in a register, if it is one.
fn stored(
    alloc: Global,
    code: &mut Items<CStatement>,
    cell: Option<Cell>,
    place: u32,
    given: Boxed<CExpression>,
) -> Result<(), Memory>
    ensures { OnOk result (written code.new ≡ written code.old ++ spec.stored (option_map sort_for cell) place (expression_of given)) }
{
    match cell {
        None => Ok(()),
        Some(cell) => {
            let there = address_in(alloc, place)?;
            put(alloc, code, cell, there, given)?;
            Ok(())
        }
    }
}

/// A value is stored in the scalar whose place a register holds.
#[tactic(auto, using(crate::proofs::Objects::stored_nowhere))]
pub(crate) fn stored_in(
    x: &Scene<'_>,
    code: &mut Items<CStatement>,
    kept: &Held,
    place: u32,
    given: Boxed<CExpression>,
) -> Result<(), Memory>
    ensures { OnOk result (written code.new ≡ written code.old ++ spec.stored_in (kept_in x.now.tables.now kept.now) place (expression_of given)) }
{
    match place_in(kept) {
        Some(ty) => {
            let scalar = place_scalar(x.tables, ty);
            let cell = cell_in(&scalar);
            stored(x.alloc, code, cell, place, given)?;
            Ok(())
        }
        None => Ok(()),
    }
}

/// A value goes to the C local of this number, as this scalar, if it is one.
fn stored_local(
    alloc: Global,
    code: &mut Items<CStatement>,
    cell: Option<Cell>,
    local: u32,
    given: Boxed<CExpression>,
) -> Result<(), Memory>
    ensures { OnOk result (written code.new ≡ written code.old ++ local_stored (option_map sort_for cell) local (expression_of given)) }
{
    match cell {
        None => Ok(()),
        Some(cell) => {
            let name = local_name(alloc, local)?;
            let value = as_stored(alloc, cell, given)?;
            assign(code, name, value)?;
            Ok(())
        }
    }
}

/// A value goes to the C local of an argument's object.
fn first_argument(
    x: &Scene<'_>,
    code: &mut Items<CStatement>,
    local: u32,
    ty: TyId,
    given: Boxed<CExpression>,
) -> Result<(), Memory>
    ensures { OnOk result (written code.new ≡ written code.old ++ local_stored (sorts.sort_of (type_of x.now.tables.now ty)) local (expression_of given)) }
{
    let scalar = sort_of(x.tables, ty);
    let cell = cell_in(&scalar);
    stored_local(x.alloc, code, cell, local, given)?;
    Ok(())
}

/// The first value of a scalar: of the object of an argument it goes to the C local that is passed.
#[tactic(auto, using(crate::proofs::Objects::first_argument, crate::proofs::Objects::first_other))]
pub(crate) fn first_in(
    x: &Scene<'_>,
    code: &mut Items<CStatement>,
    kept: &Held,
    place: u32,
    given: Boxed<CExpression>,
) -> Result<(), Memory>
    ensures { OnOk result (written code.new ≡ written code.old ++ spec.first_in (kept_in x.now.tables.now kept.now) place (expression_of given)) }
{
    match argument_in(kept) {
        Some(argument) => {
            first_argument(x, code, argument.local, argument.ty, given)?;
            Ok(())
        }
        None => {
            stored_in(x, code, kept, place, given)?;
            Ok(())
        }
    }
}

/// The place so many bytes behind an address.
pub fn behind(
    alloc: Global,
    address: Boxed<CExpression>,
    bytes: u64,
) -> Result<Boxed<CExpression>, Memory>
    ensures { IfOk result (λ made. expression_of made ≡ spec.behind (expression_of address) bytes) }
{
    let offset = number(alloc, bytes)?;
    let made = binary(alloc, Arith::Add, address, offset)?;
    Ok(made)
}

/// The next number.
fn next(at: u64) -> Result<u64, Memory>
    ensures { IfOk result (λ further. further ≡ at + 1) }
{
    at.checked_add(1).ok_or(Memory)
}

/// Bytes are stored from the place in a register on, as characters of this kind.
#[tactic(auto, using(crate::proofs::Lists::bytes_more))]
fn put_bytes(
    alloc: Global,
    code: &mut Items<CStatement>,
    kind: Kind,
    place: u32,
    bytes: &[u8],
) -> Result<(), Memory>
    ensures { OnOk result (written code.new ≡ written code.old ++ spec.put_bytes kind (value.address_in place) 0 bytes.now) }
{
    let mut at = 0;
    for byte in bytes {
        let start = address_in(alloc, place)?;
        let there = behind(alloc, start, at)?;
        let held = character(alloc, kind, *byte)?;
        put(alloc, code, Cell::Number(kind), there, held)?;
        at = next(at)?;
    }
    Ok(())
}

/// A byte as the constant of a character of this kind.
pub fn character(alloc: Global, kind: Kind, byte: u8) -> Result<Boxed<CExpression>, Memory>
    ensures { IfOk result (λ made. expression_of made ≡ value.constant_of (convert kind (pos byte))) }
{
    let held = convert_int(i64::from(byte), kind);
    let made = constant_of(alloc, held)?;
    Ok(made)
}

/// The kind of the characters of the array whose place a register holds.
#[tactic(auto, using(crate::proofs::Objects::kind_nowhere))]
fn kind_in(x: &Scene<'_>, kept: &Held) -> Kind
    ensures { result ≡ spec.kind_in (kept_in x.now.tables.now kept.now) }
{
    match place_in(kept) {
        Some(ty) => place_kind(x.tables, ty),
        None => Kind::Char,
    }
}

/// The bytes of a literal are stored in an array of characters, and 0 behind them (8.4.2).
pub(crate) fn bytes_in(
    x: &Scene<'_>,
    code: &mut Items<CStatement>,
    kept: &Held,
    place: u32,
    bytes: &[u8],
) -> Result<(), Memory>
    ensures { OnOk result (written code.new ≡ written code.old ++ spec.bytes_in (classes_of x.now.tables.now) (kept_in x.now.tables.now kept.now) place bytes.now) }
{
    zeros_in(x, code, kept, place)?;
    let kind = kind_in(x, kept);
    put_bytes(x.alloc, code, kind, place, bytes)?;
    Ok(())
}
