ghost use Rattle.std.specs.Prelude.{◌≡◌, ◌<◌, ◌^◌, nat_lt};
ghost use Rattle.cc_whole.specs.Plain.{item_of, items_of, variables_of};
ghost use Rattle.cc_whole_link.specs.Static as spec;
ghost use Rattle.cc_whole_start.specs.Walk as walk;

use crate::sizes::count_of;
use cc_whole::{CItem, CProgram, CType, CVariableType};

fn type_bytes(ty: CType) -> u64
    ensures { result ≡ spec.type_bytes ty }
{
    match ty {
        CType::Char | CType::UChar => 1,
        CType::Short | CType::UShort => 2,
        CType::Int | CType::UInt | CType::Pointer | CType::FunctionPointer => 4,
    }
}

/// The bytes of a variable.
fn variable_bytes(ty: CVariableType) -> u64
    ensures bytes { result ≡ spec.variable_bytes ty }
    ensures small { result < 2 ^ 36 }
{
    match ty {
        CVariableType::Scalar(ty) => type_bytes(ty),
        CVariableType::Ints(count) => 4 * u64::from(count_of(count)),
        CVariableType::Chars(count) => u64::from(count_of(count)),
        CVariableType::Pairs(count) => 8 * u64::from(count_of(count)),
    }
}

/// So many bytes, rounded up to 8.
fn rounded(bytes: u64) -> u64
    requires { bytes < 2 ^ 36 }
    ensures { result ≡ spec.rounded bytes }
{
    8 * ((bytes + 7) / 8)
}

/// What an item takes of the limit.
fn bytes_taken(item: &CItem) -> u64
    ensures { result ≡ walk.bytes_taken (item_of item.now) }
{
    match item {
        CItem::Prototype(_) => 0,
        CItem::Extern(_, _) => 0,
        CItem::Function(_) => 0,
        CItem::Variable(v) => rounded(variable_bytes(v.ty)),
    }
}

/// What is left of so many bytes behind an item, if it does not take more.
fn left_behind(left: u64, item: &CItem) -> Option<u64>
    ensures { result ≡ walk.left_behind left (walk.bytes_taken (item_of item.now)) }
{
    left.checked_sub(bytes_taken(item))
}

/// What is left of the limit behind items, if they do not pass it.
fn static_left(items: &[CItem]) -> Option<u64>
    ensures { result ≡ walk.left_behind spec.most_static (spec.static_bytes (variables_of (items_of items.now))) }
{
    let mut left = 4_194_304;
    for item in items {
        left = left_behind(left, item)?;
    }
    Some(left)
}

/// Whether the variables of a program, each rounded up to 8 bytes, take more than 2^22 bytes.
pub fn passes_static(program: &CProgram) -> bool
    ensures { result ≡ nat_lt spec.most_static (spec.static_bytes (variables_of (items_of program.now.items))) }
{
    static_left(program.items.as_slice()).is_none()
}
