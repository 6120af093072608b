ghost use Rattle.std.specs.Prelude.{◌≡◌, ◌<◌, ◌/◌, [], length};
ghost use Rattle.cf_base.specs.Integers.{width};
ghost use Rattle.cf_classes.specs.Layout.{accepted_size, array_bytes, extent, scalar_bytes};

use cf_base::Kind;
use cf_types::{Ty, TyId, Types};

/// The most bytes of a type.
pub(crate) const MOST_BYTES: u64 = 1 << 22;

/// The bytes of an object of the type, which holds no class, if they are within the limit.
#[tactic(auto, using(crate::proofs::ByteLaws::byte_laws))]
pub(crate) fn accepted_bytes(types: &Types, ty: TyId) -> Option<u32>
    requires { ty < length types.now.types }
    ensures { result ≡ accepted_size (extent types.now [] ty).size }
{
    match types.get(ty) {
        Ty::Array(element, count) => times(accepted_bytes(types, *element), *count),
        Ty::Const(inside) => accepted_bytes(types, *inside),
        other => Some(scalar_size(other)),
    }
}

/// So many times as many bytes.
fn times(bytes: Option<u32>, count: u32) -> Option<u32>
    ensures { result ≡ array_bytes bytes count }
{
    match bytes {
        Some(bytes) => {
            let total = u64::from(bytes) * u64::from(count);
            if total <= MOST_BYTES {
                Some(total as u32)
            } else {
                None
            }
        }
        None => { if count == 0 { Some(0) } else { None } }
    }
}

/// The bytes of a scalar. What is none has 0 here.
fn scalar_size(ty: &Ty) -> u32
    ensures { result ≡ scalar_bytes ty.now }
{
    match ty {
        Ty::Int(kind) => kind_bytes(*kind),
        Ty::Enum(_) | Ty::Ptr(_) | Ty::Ref(_) | Ty::MemData(_, _) => 4,
        Ty::MemFun(_, _) => 12,
        _ => 0,
    }
}

/// The bytes of an integer (3.6.1).
fn kind_bytes(kind: Kind) -> u32
    ensures { result ≡ width kind / 8 }
{
    match kind {
        Kind::Char | Kind::SChar | Kind::UChar => 1,
        Kind::Short | Kind::UShort => 2,
        Kind::Int | Kind::UInt | Kind::Long | Kind::ULong => 4,
    }
}
