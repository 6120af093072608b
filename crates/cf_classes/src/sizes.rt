ghost use Rattle.std.specs.Prelude.{◌≡◌, ℕ, ◌<◌, ◌/◌, [], length};
ghost use Rattle.std.specs.Option.{option_map};
ghost use Rattle.cf_base.specs.Integers.{width};
ghost use Rattle.cf_classes.specs.Layout.{extent, accepted_size, array_bytes, repeated_in, scalar_bytes};

use cf_base::Kind;
use cf_types::{Ty, TyId, Types};

/// The most bytes of a type that is accepted.
const MOST: u64 = 1 << 22;

/// The bytes of an object of a type that holds no class, if a type of that size is accepted.
pub(crate) fn size_without_classes(types: &Types, ty: TyId) -> Option<u32>
    requires { ty < length types.now.types }
    ensures { result ≡ accepted_size (extent types.now [] ty).size }
{
    let held = types.get(ty);
    match repeated(held) {
        Some(elements) => array_size(size_without_classes(types, elements.ty), elements.count),
        None => Some(scalar_size(held)),
    }
}

/// Objects of one type, one after another.
#[derive(Clone, Copy)]
struct Elements {
    ty: TyId,
    count: u32,
}

/// What an array holds, and a const object, which is one of its type.
fn repeated(ty: &Ty) -> Option<Elements>
    ensures { option_map (λ e. (e.ty, e.count)) result ≡ repeated_in ty.now }
{
    match ty {
        Ty::Array(ty, count) => Some(Elements {
            ty: *ty,
            count: *count,
        }),
        Ty::Const(ty) => Some(Elements { ty: *ty, count: 1 }),
        _ => None,
    }
}

/// The bytes of a scalar. What is none has 0 here.
fn scalar_size(ty: &Ty) -> u32
    ensures { result ≡ scalar_bytes ty.now }
{
    match ty {
        Ty::Int(kind) => bytes(*kind),
        Ty::Enum(_) | Ty::Ptr(_) | Ty::Ref(_) | Ty::MemData(_, _) => 4,
        Ty::MemFun(_, _) => 12,
        _ => 0,
    }
}

/// The bytes of so many elements.
fn array_size(element: Option<u32>, count: u32) -> Option<u32>
    ensures { result ≡ array_bytes element count }
{
    match element {
        Some(size) => {
            let total = u64::from(size) * u64::from(count);
            if total <= MOST {
                Some(total as u32)
            } else {
                None
            }
        }
        None => { if count == 0 { Some(0) } else { None } }
    }
}

/// The bytes of an integer (3.6.1).
fn bytes(kind: Kind) -> u32
    ensures { result ≡ width kind / 8 }
{
    match kind {
        Kind::Char | Kind::SChar | Kind::UChar => 1,
        Kind::Short | Kind::UShort => 2,
        Kind::Int | Kind::UInt | Kind::Long | Kind::ULong => 4,
    }
}
