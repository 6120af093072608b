//! The nodes of C expressions.

ghost use Rattle.std.specs.Prelude.{◌≡◌, IfOk};
ghost use Rattle.cc_whole.specs.Plain as plain;
ghost use Rattle.cc_whole.specs.Plain.{expression_of};
ghost use Rattle.cc_whole.specs.declared.types.CConstant.TheVariants as constants;
ghost use Rattle.cf_lower.specs.Written.{int_constant};

use cc_whole::{CConstant, CExpression, CPlace, CType, Prefix};
use cf_base::{Arith, Boxed, Memory, Name};
use std::alloc::Global;

/// A constant of type int.
pub fn constant(alloc: Global, value: i32) -> Result<Boxed<CExpression>, Memory>
    ensures { IfOk result (λ made. expression_of made ≡ plain.constant (constants.Signed value)) }
{
    Ok(Boxed::new(alloc, CExpression::Constant(CConstant::Signed(value)))?)
}

/// The constant of a number. A number that no int is, is answered as if memory had ended.
pub fn number(alloc: Global, number: u64) -> Result<Boxed<CExpression>, Memory>
    ensures { IfOk result (λ made. expression_of made ≡ plain.constant (int_constant number)) }
{
    let Ok(value) = i32::try_from(number) else {
        return Err(Memory);
    };
    let made = constant(alloc, value)?;
    Ok(made)
}

/// The value of the variable, local or function of this name.
pub fn load_named(alloc: Global, name: Name) -> Result<Boxed<CExpression>, Memory>
    ensures { IfOk result (λ made. expression_of made ≡ plain.load (plain.named name)) }
{
    Ok(Boxed::new(alloc, CExpression::Load(CPlace::Name(name)))?)
}

/// The value of this type at an address.
pub fn load_at(
    alloc: Global,
    ty: CType,
    address: Boxed<CExpression>,
) -> Result<Boxed<CExpression>, Memory>
    ensures { IfOk result (λ made. expression_of made ≡ plain.load (plain.pointed ty (expression_of address))) }
{
    Ok(Boxed::new(alloc, CExpression::Load(CPlace::At(ty, address)))?)
}

/// An operator before an operand.
pub fn unary(
    alloc: Global,
    op: Prefix,
    operand: Boxed<CExpression>,
) -> Result<Boxed<CExpression>, Memory>
    ensures { IfOk result (λ made. expression_of made ≡ plain.unary op (expression_of operand)) }
{
    Ok(Boxed::new(alloc, CExpression::Unary(op, operand))?)
}

/// `(type)operand`
pub fn cast(
    alloc: Global,
    ty: CType,
    operand: Boxed<CExpression>,
) -> Result<Boxed<CExpression>, Memory>
    ensures { IfOk result (λ made. expression_of made ≡ plain.cast ty (expression_of operand)) }
{
    Ok(Boxed::new(alloc, CExpression::Cast(ty, operand))?)
}

/// The address of a variable, parameter or local.
pub fn address_of(alloc: Global, name: Name) -> Result<Boxed<CExpression>, Memory>
    ensures { IfOk result (λ made. expression_of made ≡ plain.address name) }
{
    Ok(Boxed::new(alloc, CExpression::AddressOf(name))?)
}

/// An operator between two operands.
pub fn binary(
    alloc: Global,
    op: Arith,
    left: Boxed<CExpression>,
    right: Boxed<CExpression>,
) -> Result<Boxed<CExpression>, Memory>
    ensures { IfOk result (λ made. expression_of made ≡ plain.binary op (expression_of left) (expression_of right)) }
{
    Ok(Boxed::new(alloc, CExpression::Binary(op, left, right))?)
}
