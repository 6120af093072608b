//! What a name of a reference's type stands for.

ghost use Rattle.std.specs.Prelude.{◌≡◌};
ghost use Rattle.cf_core.specs.FromTypes.{type_of};
ghost use Rattle.cf_core.specs.Types.{without_const};
ghost use Rattle.cf_lower.specs.Kept as kept;
ghost use Rattle.cf_lower_layout.specs.Sorts as sorts;
ghost use Rattle.cf_lower_types.specs.Bare.{Refers, sort_in};
ghost use Rattle.cf_lower_types.specs.Forms as spec;

use crate::form::under_const;
use crate::scalar::{Scalar, sort_to};
use crate::tables::Tables;
use cf_types::{Ty, TyId};

/// The type that a reference is to.
fn target_in(ty: &Ty) -> Option<TyId>
    ensures { result ≡ spec.target_in ty.now }
{
    match ty {
        Ty::Ref(target) => Some(*target),
        Ty::Void
        | Ty::Int(_)
        | Ty::Enum(_)
        | Ty::Class(_)
        | Ty::Ptr(_)
        | Ty::Array(_, _)
        | Ty::Fun(_)
        | Ty::MemData(_, _)
        | Ty::MemFun(_, _)
        | Ty::Const(_) => None,
    }
}

/// The type that a reference of this type is to; none where it is no reference.
#[tactic(auto, using(crate::proofs::References::const_refers, crate::proofs::References::other_refers, crate::proofs::Forms::const_below))]
pub fn referred(tables: &Tables<'_>, id: TyId) -> Option<TyId>
    ensures { Refers tables.now id result }
{
    let ty = tables.entry(id);
    match under_const(&ty) {
        Some(inside) => referred(tables, inside),
        None => target_in(&ty),
    }
}

/// What the address of the place is that a name of this type stands for: a reference is another name for what it is bound to (8.4.3).
#[tactic(auto, using(crate::proofs::References::sort_refers, crate::proofs::References::sort_itself))]
pub fn place_sort(tables: &Tables<'_>, id: TyId) -> Scalar
    ensures { sort_in tables.now result ≡ sorts.sort_to (without_const (kept.referred (type_of tables.now id))) }
{
    match referred(tables, id) {
        Some(target) => sort_to(tables, target),
        None => sort_to(tables, id),
    }
}
