//! Operators on pointers.

ghost use Rattle.std.specs.Prelude.{◌≡◌, IfOk};
ghost use Rattle.cc_whole.specs.Plain.{expression_of};
ghost use Rattle.cc_whole.specs.Plain as plain;
ghost use Rattle.cf_core.specs.declared.operators.PointerOperator.TheVariants as pointer;
ghost use Rattle.cf_lower.specs.Expressions as spec;
ghost use Rattle.cf_lower_held.specs.Holds.{kept_in};
ghost use Rattle.cf_lower_held.specs.Scenes.{holding};
ghost use Rattle.cf_lower_types.specs.Bare.{classes_of};

use crate::scalars::value_in;
use cc_whole::CExpression;
use cf_base::{Arith, Boxed, Memory};
use cf_core::PointerOperator;
use cf_lower_held::{Held, Registers, Scene, holds_function, place_in};
use cf_lower_names::{address_in, binary, integer_in, number, zero};
use cf_lower_types::place_size;
use std::alloc::Global;

/// The bytes of what a pointer points to; 1 for what is none.
#[tactic(auto, using(crate::proofs::Moves::bytes_some, crate::proofs::Moves::bytes_none))]
fn element_bytes(x: &Scene<'_>, kept: &Held) -> Result<u64, Memory>
    ensures { IfOk result (λ n. n ≡ spec.element_bytes (classes_of x.now.tables.now) (kept_in x.now.tables.now kept.now)) }
{
    match place_in(kept) {
        Some(ty) => {
            let bytes = place_size(x.tables, ty)?;
            Ok(bytes)
        }
        None => Ok(1),
    }
}

/// The pointer in a register, moved by so many elements of so many bytes.
fn moved_by(
    alloc: Global,
    op: Arith,
    at: u32,
    bytes: u64,
    count: u32,
) -> Result<Boxed<CExpression>, Memory>
    ensures { IfOk result (λ made. expression_of made ≡ spec.moved_by op (spec.address_in at) bytes (spec.integer_in count)) }
{
    let by = binary(
        alloc,
        Arith::Multiply,
        integer_in(alloc, count)?,
        number(alloc, bytes)?,
    )?;
    let start = address_in(alloc, at)?;
    let made = binary(alloc, op, start, by)?;
    Ok(made)
}

/// The pointer in a register, moved forward or back by a number of its elements.
pub fn moved(
    x: &Scene<'_>,
    op: Arith,
    rs: &Registers,
    at: u32,
    count: u32,
) -> Result<Boxed<CExpression>, Memory>
    ensures { IfOk result (λ made. expression_of made ≡ spec.moved_by op (spec.address_in at) (spec.element_bytes (classes_of x.now.tables.now) (holding x.now rs.now at)) (spec.integer_in count)) }
{
    let bytes = element_bytes(x, &rs.get(at))?;
    let made = moved_by(x.alloc, op, at, bytes, count)?;
    Ok(made)
}

/// A pointer and an integer, in either order.
#[tactic(auto, using(crate::proofs::Moves::sum_first, crate::proofs::Moves::sum_second))]
pub fn sum(
    x: &Scene<'_>,
    rs: &Registers,
    left: u32,
    right: u32,
) -> Result<Boxed<CExpression>, Memory>
    ensures { IfOk result (λ made. expression_of made ≡ spec.sum_of (classes_of x.now.tables.now) (holding x.now rs.now) left right) }
{
    match place_in(&rs.get(left)) {
        Some(_) => {
            let made = moved(x, Arith::Add, rs, left, right)?;
            Ok(made)
        }
        None => {
            let made = moved(x, Arith::Add, rs, right, left)?;
            Ok(made)
        }
    }
}

/// The number of elements between two pointers.
fn difference(
    x: &Scene<'_>,
    rs: &Registers,
    left: u32,
    right: u32,
) -> Result<Boxed<CExpression>, Memory>
    ensures { IfOk result (λ made. expression_of made ≡ spec.pointer_operated (classes_of x.now.tables.now) pointer.Difference (holding x.now rs.now) left right) }
{
    let bytes = element_bytes(x, &rs.get(left))?;
    let apart = binary(
        x.alloc,
        Arith::Subtract,
        address_in(x.alloc, left)?,
        address_in(x.alloc, right)?,
    )?;
    let each = number(x.alloc, bytes)?;
    let made = binary(x.alloc, Arith::Divide, apart, each)?;
    Ok(made)
}

/// Two values, compared.
fn compared(
    x: &Scene<'_>,
    op: Arith,
    rs: &Registers,
    left: u32,
    right: u32,
) -> Result<Boxed<CExpression>, Memory>
    ensures { IfOk result (λ made. expression_of made ≡ plain.binary op (spec.value_in (holding x.now rs.now) left) (spec.value_in (holding x.now rs.now) right)) }
{
    let a = value_in(x, rs, left)?;
    let b = value_in(x, rs, right)?;
    let made = binary(x.alloc, op, a, b)?;
    Ok(made)
}

/// A value, compared with 0.
pub fn tested(
    x: &Scene<'_>,
    op: Arith,
    rs: &Registers,
    operand: u32,
) -> Result<Boxed<CExpression>, Memory>
    ensures { IfOk result (λ made. expression_of made ≡ plain.binary op (spec.value_in (holding x.now rs.now) operand) spec.zero) }
{
    let value = value_in(x, rs, operand)?;
    let nothing = zero(x.alloc)?;
    let made = binary(x.alloc, op, value, nothing)?;
    Ok(made)
}

/// Whether two pointers are equal. Of two to functions one is null, and each is compared with 0 (5.10).
#[tactic(auto, using(crate::proofs::Moves::equated_functions, crate::proofs::Moves::equated_others))]
fn equated(
    x: &Scene<'_>,
    op: Arith,
    rs: &Registers,
    left: u32,
    right: u32,
) -> Result<Boxed<CExpression>, Memory>
    ensures { IfOk result (λ made. expression_of made ≡ spec.equated op (holding x.now rs.now left) (spec.value_in (holding x.now rs.now) left) (spec.value_in (holding x.now rs.now) right)) }
{
    if holds_function(&rs.get(left)) {
        let a = tested(x, Arith::Equal, rs, left)?;
        let b = tested(x, Arith::Equal, rs, right)?;
        let made = binary(x.alloc, op, a, b)?;
        Ok(made)
    } else {
        let made = compared(x, op, rs, left, right)?;
        Ok(made)
    }
}

/// An operator with a pointer.
pub fn pointer_operated(
    x: &Scene<'_>,
    op: PointerOperator,
    rs: &Registers,
    left: u32,
    right: u32,
) -> Result<Boxed<CExpression>, Memory>
    ensures { IfOk result (λ made. expression_of made ≡ spec.pointer_operated (classes_of x.now.tables.now) op (holding x.now rs.now) left right) }
{
    match op {
        PointerOperator::Add => sum(x, rs, left, right),
        PointerOperator::Subtract => moved(x, Arith::Subtract, rs, left, right),
        PointerOperator::Difference => difference(x, rs, left, right),
        PointerOperator::Less => compared(x, Arith::Less, rs, left, right),
        PointerOperator::Greater => compared(x, Arith::Greater, rs, left, right),
        PointerOperator::LessEqual => compared(x, Arith::LessEqual, rs, left, right),
        PointerOperator::GreaterEqual => compared(x, Arith::GreaterEqual, rs, left, right),
        PointerOperator::Equal => equated(x, Arith::Equal, rs, left, right),
        PointerOperator::NotEqual => equated(x, Arith::NotEqual, rs, left, right),
    }
}
