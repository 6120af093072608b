//! The bytes of variables.

ghost use Rattle.std.specs.Prelude.{◌≡◌, ◌<◌, ◌≤◌, ◌^◌, nat_lt};
ghost use Rattle.cc_whole.specs.Plain.{items_of, variables_of};
ghost use Rattle.cc_whole_link.specs.Static as spec;
ghost use Rattle.cc_whole_linker.specs.Bytes.{item_bytes};

use crate::types::size_of;
use cc_whole::{CItem, CType, CVariableType};

/// The most bytes that all variables of a program may take.
pub(crate) const MOST_STATIC: u64 = 1 << 22;

fn type_bytes(ty: CType) -> u64
    ensures bytes { result ≡ spec.type_bytes ty }
    ensures small { result < 2 ^ 36 }
{
    match ty {
        CType::Char | CType::UChar => 1,
        CType::Short | CType::UShort => 2,
        CType::Int | CType::UInt | CType::Pointer | CType::FunctionPointer => 4,
    }
}

fn variable_bytes(ty: CVariableType) -> u64
    ensures bytes { result ≡ spec.variable_bytes ty }
    ensures small { result < 2 ^ 36 }
{
    match ty {
        CVariableType::Scalar(ty) => type_bytes(ty),
        CVariableType::Ints(count) => 4 * u64::from(size_of(count)),
        CVariableType::Chars(count) => u64::from(size_of(count)),
        CVariableType::Pairs(count) => 8 * u64::from(size_of(count)),
    }
}

/// So many bytes, rounded up to 8.
fn rounded(bytes: u64) -> u64
    requires { bytes < 2 ^ 36 }
    ensures rounds { result ≡ spec.rounded bytes }
    ensures small { result < 2 ^ 37 }
{
    8 * ((bytes + 7) / 8)
}

/// What an item takes, if it is a variable.
fn bytes_of(item: &CItem) -> u64
    ensures bytes { result ≡ item_bytes item.now }
    ensures small { result < 2 ^ 37 }
{
    match item {
        CItem::Variable(v) => rounded(variable_bytes(v.ty)),
        CItem::Prototype(_) => 0,
        CItem::Extern(_, _) => 0,
        CItem::Function(_) => 0,
    }
}

/// Whether the variables of a program take more bytes than the limit.
pub(crate) fn passes_static(items: &[CItem]) -> bool
    ensures { result ≡ nat_lt spec.most_static (spec.static_bytes (variables_of (items_of items.now))) }
{
    let mut total = 0u64;
    for item in items {
        total += bytes_of(item);
        if total > MOST_STATIC {
            return true;
        }
    }
    false
}
