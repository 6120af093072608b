ghost use Rattle.std.specs.Prelude.{◌≡◌, ◌*◌, IfOk};
ghost use Rattle.cc_whole.specs.Numbers as numbers;
ghost use Rattle.cc_whole_mean.specs.Types as types;

use cc_whole::{CConstant, CLocalType, CVariableType};
use cc_whole_eval::scalar_of;
use cc_whole_mean::Shape;
use cc_whole_memory::bytes_of;
use std::alloc::AllocError;

/// How many elements an array of this size has.
pub fn count_of(constant: CConstant) -> u32
    ensures count { result ≡ types.count_of constant }
    ensures size { result ≡ numbers.size_of constant }
{
    match constant {
        CConstant::Signed(number) => u32::try_from(number).unwrap_or(0),
        CConstant::Unsigned(number) => number,
    }
}

/// The bytes of so many elements. There is no memory for more than 32 bits tell.
fn bytes_of_array(width: u32, count: u32) -> Result<u32, AllocError>
    ensures { IfOk result (λ bytes. bytes ≡ width * count) }
{
    width.checked_mul(count).ok_or(AllocError)
}

/// The bytes of a local.
pub fn local_size(ty: CLocalType) -> Result<u32, AllocError>
    ensures { IfOk result (λ size. size ≡ types.local_size ty) }
{
    match ty {
        CLocalType::Scalar(ty) => Ok(bytes_of(scalar_of(ty))),
        CLocalType::Ints(count) => bytes_of_array(4, count_of(count)),
    }
}

/// The bytes of a variable.
pub fn variable_size(ty: CVariableType) -> Result<u32, AllocError>
    ensures { IfOk result (λ size. size ≡ types.variable_size ty) }
{
    match ty {
        CVariableType::Scalar(ty) => Ok(bytes_of(scalar_of(ty))),
        CVariableType::Ints(count) => bytes_of_array(4, count_of(count)),
        CVariableType::Chars(count) => Ok(count_of(count)),
        CVariableType::Pairs(count) => bytes_of_array(8, count_of(count)),
    }
}

/// What the name of a variable stands for.
pub fn variable_shape(ty: CVariableType) -> Shape
    ensures { result ≡ types.variable_shape ty }
{
    match ty {
        CVariableType::Scalar(ty) => Shape::Single(scalar_of(ty)),
        CVariableType::Ints(_) => Shape::Array,
        CVariableType::Chars(_) => Shape::Array,
        CVariableType::Pairs(_) => Shape::Array,
    }
}
