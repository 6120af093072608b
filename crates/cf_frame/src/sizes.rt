ghost use Rattle.std.specs.Prelude.{◌≡◌, ◌<◌, ◌≤◌, ◌/◌, ◌^◌, length, All, []};
ghost use Rattle.cf_base.specs.Integers.{width};
ghost use Rattle.cf_core.specs.FromTypes.{type_of};
ghost use Rattle.cf_core.specs.FromUnit.{tables_of};
ghost use Rattle.cf_core.specs.Size as whole;
ghost use Rattle.cf_core.specs.Frame as bound;
ghost use Rattle.cf_classes.specs.Layout.{repeated_in};
ghost use Rattle.std.specs.Option.{option_map};
ghost use Rattle.cf_frame.specs.Bound.{AreSmall, slots_after, single_bytes};

use cf_base::Kind;
use cf_core::CoreUnit;
use cf_types::{Ty, TyId};

/// The bytes of an object of a type that is no class; void, functions and classes count as 1.
fn size(unit: &CoreUnit, ty: TyId) -> u64
    requires known { ty < length unit.now.types.types }
    requires small { AreSmall unit.now }
    ensures value { result ≡ whole.size [] (type_of (tables_of unit.now) ty) }
    ensures bounded { result ≤ 2 ^ 22 }
{
    let types = unit.types();
    let held = types.get(ty);
    match repeated(held) {
        Some(objects) => u64::from(objects.count) * size(unit, objects.ty),
        None => single_size(held),
    }
}

/// Objects of one type, one after another.
#[derive(Clone, Copy)]
struct Objects {
    ty: TyId,
    count: u32,
}

/// What an array holds, and a const object, which is one of its type.
fn repeated(ty: &Ty) -> Option<Objects>
    ensures { option_map (λ o. (o.ty, o.count)) result ≡ repeated_in ty.now }
{
    match ty {
        Ty::Array(ty, count) => Some(Objects {
            ty: *ty,
            count: *count,
        }),
        Ty::Const(ty) => Some(Objects { ty: *ty, count: 1 }),
        _ => None,
    }
}

/// The bytes of what is no array and not const.
fn single_size(ty: &Ty) -> u64
    ensures value { result ≡ single_bytes ty.now }
    ensures bounded { result ≤ 12 }
{
    match ty {
        Ty::Int(kind) => bytes(*kind),
        Ty::Enum(_) | Ty::Ptr(_) | Ty::Ref(_) | Ty::MemData(_, _) => 4,
        Ty::MemFun(_, _) => 12,
        _ => 1,
    }
}

/// What a parameter or local adds to a frame.
fn slot(unit: &CoreUnit, ty: TyId) -> u64
    requires known { ty < length unit.now.types.types }
    requires small { AreSmall unit.now }
    ensures { result ≡ bound.slot [] (type_of (tables_of unit.now) ty) }
{
    24 + (size(unit, ty) + 7) / 8 * 8
}

/// What parameters or locals of these types add to a frame, at most the greatest `u64`.
pub(crate) fn slots(unit: &CoreUnit, types: &[TyId]) -> u64
    requires known { All (λ t. t < length unit.now.types.types) types.now }
    requires small { AreSmall unit.now }
    ensures { result ≡ slots_after unit.now 0 types.now }
{
    let mut total: u64 = 0;
    for ty in types {
        total = total.saturating_add(slot(unit, *ty));
    }
    total
}

/// The bytes of an integer (3.6.1).
fn bytes(kind: Kind) -> u64
    ensures value { result ≡ width kind / 8 }
    ensures bounded { result ≤ 4 }
{
    match kind {
        Kind::Char | Kind::SChar | Kind::UChar => 1,
        Kind::Short | Kind::UShort => 2,
        Kind::Int | Kind::UInt | Kind::Long | Kind::ULong => 4,
    }
}
