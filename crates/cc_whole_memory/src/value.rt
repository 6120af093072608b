ghost use Rattle.std.specs.Prelude.{◌≡◌, ◌≤◌};
ghost use Rattle.cc_whole_memory.specs.Values as values;

use cf_base::Kind;
use cf_types::convert_int;

/// A pointer to an object.
#[derive(Clone, Copy, Debug, PartialEq, Eq)]
pub enum Pointer {
    Null,
    /// The byte at this offset of the block of this number, or the end of the block.
    At { block: usize, offset: usize },
}

/// A value.
#[derive(Clone, Copy, Debug, PartialEq, Eq)]
pub enum Value {
    /// A number of this type.
    Number(Kind, i64),
    Address(Pointer),
    /// The function of this number, from 1; 0 is null.
    Function(usize),
}

/// A type that a load, a store or a move has.
#[derive(Clone, Copy, Debug, PartialEq, Eq)]
pub enum Scalar {
    Integer(Kind),
    Pointer,
    Function,
}

/// How many bytes an integer of this type takes.
fn kind_bytes(kind: Kind) -> u32
    ensures { result ≡ values.kind_bytes kind }
{
    match kind {
        Kind::Char | Kind::SChar | Kind::UChar => 1,
        Kind::Short | Kind::UShort => 2,
        Kind::Int | Kind::UInt | Kind::Long | Kind::ULong => 4,
    }
}

/// How many bytes a value of this type takes.
pub fn bytes_of(scalar: Scalar) -> u32
    ensures { result ≡ values.bytes_of scalar }
{
    match scalar {
        Scalar::Integer(kind) => kind_bytes(kind),
        Scalar::Pointer => 4,
        Scalar::Function => 4,
    }
}

/// How many bytes the value takes.
pub fn size_of(value: Value) -> u32
    ensures { result ≡ values.size_of value }
{
    match value {
        Value::Number(kind, _) => kind_bytes(kind),
        Value::Address(_) => 4,
        Value::Function(_) => 4,
    }
}

/// The value as one of this type, if it is of that kind: an integer is taken modulo its width.
pub fn as_scalar(value: Value, scalar: Scalar) -> Option<Value>
    ensures { result ≡ values.as_scalar scalar value }
{
    match scalar {
        Scalar::Integer(kind) => match value {
            Value::Number(_, number) => Some(Value::Number(kind, convert_int(number, kind))),
            _ => None,
        },
        Scalar::Pointer => match value {
            Value::Address(pointer) => Some(Value::Address(pointer)),
            _ => None,
        },
        Scalar::Function => match value {
            Value::Function(number) => Some(Value::Function(number)),
            _ => None,
        },
    }
}

/// 0 or null.
pub fn zero_of(scalar: Scalar) -> Value
    ensures { result ≡ values.zero_of scalar }
{
    match scalar {
        Scalar::Integer(kind) => Value::Number(kind, 0),
        Scalar::Pointer => Value::Address(Pointer::Null),
        Scalar::Function => Value::Function(0),
    }
}
