ghost use Rattle.std.specs.Prelude.{◌≡◌, ℕ, ◌<◌, length};
ghost use Rattle.cf_types.specs.Table.{NamesBelow};
ghost use Rattle.cf_convert.specs.Constness as constness;
ghost use Rattle.cf_convert.specs.Converts as converts;

use cf_types::{Ty, TyId, Types};

/// The type of this number, which names types of the table alone.
#[tactic(auto, using(crate::proofs::Known::names_more))]
pub(crate) fn type_at(types: &Types, id: TyId) -> &Ty
    requires { id < length types.now.types }
    ensures value { result.now ≡ constness.type_at types.now id }
    ensures known { NamesBelow (length types.now.types) result.now }
{
    types.get(id)
}

/// Whether objects of the type are const; const of an array is that of its elements (7.1.6).
pub(crate) fn is_const(types: &Types, id: TyId) -> bool
    requires { id < length types.now.types }
    ensures { result ≡ constness.is_const types.now id }
{
    match types.get(id) {
        Ty::Const(_) => true,
        Ty::Array(element, _) => is_const(types, *element),
        _ => false,
    }
}

/// Whether two types are the same but for const on them or, where they are arrays, on their elements.
pub(crate) fn is_alike(types: &Types, id: TyId, other: TyId) -> bool
    requires first { id < length types.now.types }
    requires second { other < length types.now.types }
    ensures { result ≡ constness.is_alike types.now id other }
{
    match types.get(id) {
        Ty::Const(inside) => is_alike(types, *inside, other),
        Ty::Array(element, count) => match type_at(types, bare(types, other)) {
            Ty::Array(element_2, count_2) => {
                *count == *count_2 && is_alike(types, *element, *element_2)
            }
            _ => false,
        },
        _ => id == bare(types, other),
    }
}

/// The type without a const that stands on it.
pub(crate) fn bare(types: &Types, id: TyId) -> TyId
    requires { id < length types.now.types }
    ensures value { result ≡ constness.bare types.now id }
    ensures known { result < length types.now.types }
{
    match type_at(types, id) {
        Ty::Const(inside) => *inside,
        _ => id,
    }
}

/// The type of the value that an object of this type has: of an array or a function a pointer.
pub(crate) fn decayed(id: TyId, ty: &Ty) -> Ty
    ensures { result ≡ converts.decayed id ty.now }
{
    match ty {
        Ty::Array(element, _) => Ty::Ptr(*element),
        Ty::Fun(_) => Ty::Ptr(id),
        other => *other,
    }
}

/// Whether the constant 0 is a value of the type.
pub(crate) fn takes_null(ty: &Ty) -> bool
    ensures { result ≡ converts.takes_null ty.now }
{
    matches!(ty, Ty::Ptr(_) | Ty::MemData(_, _) | Ty::MemFun(_, _))
}
