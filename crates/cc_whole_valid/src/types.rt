ghost use Rattle.std.specs.Prelude.{◌≡◌};
ghost use Rattle.cc_whole.specs.Types as spec;
ghost use Rattle.cc_whole.specs.Typed as typed;

use cc_whole::{CType, CVariableType, Prefix};
use cf_base::Arith;

pub fn is_pointer(t: CType) -> bool
    ensures { result ≡ spec.is_pointer t }
{
    match t {
        CType::Pointer => true,
        _ => false,
    }
}

pub fn is_function_pointer(t: CType) -> bool
    ensures { result ≡ spec.is_function_pointer t }
{
    match t {
        CType::FunctionPointer => true,
        _ => false,
    }
}

pub fn is_integer(t: CType) -> bool
    ensures { result ≡ spec.is_integer t }
{
    !is_pointer(t) && !is_function_pointer(t)
}

fn promoted(t: CType) -> CType
    ensures { result ≡ spec.promoted t }
{
    match t {
        CType::UInt => CType::UInt,
        _ => CType::Int,
    }
}

fn is_unsigned(t: CType) -> bool
    ensures { result ≡ spec.is_unsigned t }
{
    match t {
        CType::UInt => true,
        _ => false,
    }
}

/// The type in which two integers are computed.
fn usual_type(a: CType, b: CType) -> CType
    ensures { result ≡ spec.usual_type a b }
{
    if is_unsigned(a) || is_unsigned(b) {
        CType::UInt
    } else {
        CType::Int
    }
}

fn is_equality(op: Arith) -> bool
    ensures { result ≡ spec.is_equality op }
{
    match op {
        Arith::Equal | Arith::NotEqual => true,
        _ => false,
    }
}

fn is_comparison(op: Arith) -> bool
    ensures { result ≡ spec.is_comparison op }
{
    match op {
        Arith::Less | Arith::Greater | Arith::LessEqual | Arith::GreaterEqual => true,
        _ => is_equality(op),
    }
}

fn is_shift(op: Arith) -> bool
    ensures { result ≡ spec.is_shift op }
{
    match op {
        Arith::ShiftLeft | Arith::ShiftRight => true,
        _ => false,
    }
}

fn is_add(op: Arith) -> bool
    ensures { result ≡ spec.is_add op }
{
    match op {
        Arith::Add => true,
        _ => false,
    }
}

fn is_subtract(op: Arith) -> bool
    ensures { result ≡ spec.is_subtract op }
{
    match op {
        Arith::Subtract => true,
        _ => false,
    }
}

fn arithmetic_type(op: Arith, a: CType, b: CType) -> CType
    ensures { result ≡ spec.arithmetic_type op a b }
{
    if is_comparison(op) {
        CType::Int
    } else if is_shift(op) {
        promoted(a)
    } else {
        usual_type(a, b)
    }
}

/// Whether a pointer and an integer are added, or subtracted in this order.
fn moves_pointer(op: Arith, a: CType, b: CType) -> bool
    ensures { result ≡ spec.moves_pointer op a b }
{
    (is_pointer(a) && (is_integer(b) && (is_add(op) || is_subtract(op))))
        || (is_integer(a) && (is_pointer(b) && is_add(op)))
}

/// Whether two pointers are subtracted or compared, or one with the constant 0.
fn compares(op: Arith, a: CType, a_zero: bool, b: CType, b_zero: bool) -> bool
    ensures { result ≡ spec.compares op a a_zero b b_zero }
{
    (is_pointer(a) && (is_pointer(b) && (is_subtract(op) || is_comparison(op))))
        || (is_equality(op) && ((!is_integer(a) && b_zero) || (a_zero && !is_integer(b))))
}

/// The type of two operands and an operator, if they fit, where it is told of each operand whether it is the constant 0.
pub fn binary_type(op: Arith, a: CType, a_zero: bool, b: CType, b_zero: bool) -> Option<CType>
    ensures { result ≡ spec.binary_type op a a_zero b b_zero }
{
    if is_integer(a) && is_integer(b) {
        Some(arithmetic_type(op, a, b))
    } else if moves_pointer(op, a, b) {
        Some(CType::Pointer)
    } else if compares(op, a, a_zero, b, b_zero) {
        Some(CType::Int)
    } else {
        None
    }
}

/// Whether some right operand fits behind a left one of this type.
pub fn may_stand_left(op: Arith, a: CType) -> bool
    ensures { result ≡ spec.may_stand_left op a }
{
    is_integer(a)
        || (is_equality(op)
            || (is_pointer(a) && (is_add(op) || (is_subtract(op) || is_comparison(op)))))
}

/// The type of an operator's result at its one operand.
pub fn prefix_type(op: Prefix, t: CType) -> CType
    ensures { result ≡ spec.prefix_type op t }
{
    match op {
        Prefix::Not => CType::Int,
        _ => promoted(t),
    }
}

/// Whether what has a type, and is the constant 0 or not, may be cast to another.
pub fn may_cast(to: CType, from: CType, zero: bool) -> bool
    ensures { result ≡ typed.may_cast to from zero }
{
    (is_integer(to) && is_integer(from)) || (!is_integer(to) && (from.is(to) || zero))
}

/// The type of a variable's value.
pub fn value_type(t: CVariableType) -> CType
    ensures { result ≡ spec.value_type t }
{
    match t {
        CVariableType::Scalar(t) => t,
        _ => CType::Pointer,
    }
}

/// The type of what may be stored in a variable.
pub fn stored_type(t: CVariableType) -> Option<CType>
    ensures { result ≡ spec.stored_type t }
{
    match t {
        CVariableType::Scalar(t) => Some(t),
        _ => None,
    }
}

/// Whether a value fits where one of another type is wanted.
pub fn fits_type(wanted: CType, t: CType, zero: bool) -> bool
    ensures { result ≡ typed.fits_type wanted t zero }
{
    t.is(wanted) || (zero && !is_integer(wanted))
}
