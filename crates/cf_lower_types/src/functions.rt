//! The parameters and results of functions.

ghost use Rattle.std.specs.Prelude.{◌≡◌, map};
ghost use Rattle.std.specs.Option.{option_copied, option_map};
ghost use Rattle.cf_core.specs.FromTypes.{type_of};
ghost use Rattle.cf_core.specs.Types as types;
ghost use Rattle.cf_lower_layout.specs.Sorts as sorts;
ghost use Rattle.cf_lower_types.specs.Bare.{IsFunction, is_code, sort_in};
ghost use Rattle.cf_lower_types.specs.Forms as spec;

use crate::scalar::{Scalar, sort_of};
use crate::tables::Tables;
use cf_types::{Fun, FunId, Ty, TyId};

/// The number of a function's type.
fn function_in(ty: Ty) -> Option<FunId>
    ensures { result ≡ spec.function_in ty }
{
    match ty {
        Ty::Fun(function) => Some(function),
        Ty::Void
        | Ty::Int(_)
        | Ty::Enum(_)
        | Ty::Class(_)
        | Ty::Ptr(_)
        | Ty::Ref(_)
        | Ty::Array(_, _)
        | Ty::MemData(_, _)
        | Ty::MemFun(_, _)
        | Ty::Const(_) => None,
    }
}

/// The function type of this number, if it is one.
#[tactic(auto, using(crate::proofs::FunctionLaws::function_within, crate::proofs::FunctionLaws::is_function, crate::proofs::FunctionLaws::is_none))]
fn function_at<'a>(tables: &'a Tables<'_>, id: TyId) -> Option<&'a Fun>
    ensures { IsFunction tables.now id (option_copied result) }
{
    match function_in(tables.entry(id)) {
        Some(function) => Some(tables.fun(function)),
        None => None,
    }
}

/// Whether the type of this number is a function's, itself.
#[tactic(auto, using(crate::proofs::FunctionLaws::code_at))]
pub fn is_function(tables: &Tables<'_>, id: TyId) -> bool
    ensures { result ≡ is_code (sorts.sort_to (type_of tables.now id)) }
{
    match function_at(tables, id) {
        Some(_) => true,
        None => false,
    }
}

/// The types of the parameters of a function of this type; none of another type.
#[tactic(auto, using(crate::proofs::FunctionLaws::parameters_at))]
pub fn parameters<'a>(tables: &'a Tables<'_>, id: TyId) -> &'a [TyId]
    ensures { map (type_of tables.now) result.now ≡ types.parameters (type_of tables.now id) }
{
    match function_at(tables, id) {
        Some(function) => function.params.as_slice(),
        None => &[],
    }
}

/// What the result of a function of this type is; none where it is no scalar.
#[tactic(auto, using(crate::proofs::FunctionLaws::result_at))]
pub fn result_sort(tables: &Tables<'_>, id: TyId) -> Option<Scalar>
    ensures { option_map (sort_in tables.now) result ≡ sorts.sort_of (types.result (type_of tables.now id)) }
{
    match function_at(tables, id) {
        Some(function) => sort_of(tables, function.result),
        None => None,
    }
}
