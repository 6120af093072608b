ghost use Rattle.std.specs.Prelude.{◌≡◌, nat_eq};
ghost use Rattle.std.specs.Cmp.Lexicographic.{pointwise};
ghost use Rattle.std.specs.Option.{option_copied};
ghost use Rattle.cf_elab_env.specs.Holds.{IsType};
ghost use Rattle.cf_elab_functions.specs.Shut as shut;

use cf_elab_env::Env;
use cf_types::{Fun, Ty, TyId};

/// The function type that a type is.
pub(crate) fn fun_at(env: &Env, ty: TyId) -> Option<&Fun>
    requires { IsType env.now.types ty }
    ensures { option_copied result ≡ shut.fun_at env.now.types ty }
{
    env.holds();
    let bare = env.bare(ty);
    match env.type_at(bare) {
        Ty::Fun(fun) => Some(env.types().get_fun(fun)),
        _ => None,
    }
}

/// The parameters of the function type that a type is; of another type there are none.
#[tactic(auto, using(crate::proofs::TypeLaws::params_laws))]
pub(crate) fn params_of(env: &Env, ty: TyId) -> &[TyId]
    requires { IsType env.now.types ty }
    ensures { result.now ≡ shut.params_of env.now.types ty }
{
    match fun_at(env, ty) {
        Some(fun) => fun.params.as_slice(),
        None => &[],
    }
}

/// The result of the function type that a type is, by its number; of another type 0.
#[tactic(auto, using(crate::proofs::TypeLaws::result_laws))]
pub(crate) fn result_of(env: &Env, ty: TyId) -> u32
    requires { IsType env.now.types ty }
    ensures { result ≡ shut.result_of env.now.types ty }
{
    match fun_at(env, ty) {
        Some(fun) => fun.result.number(),
        None => 0,
    }
}

/// Whether these are the same types in the same order.
pub(crate) fn are_same(some: &[TyId], others: &[TyId]) -> bool
    ensures { result ≡ pointwise nat_eq some.now others.now }
{
    some == others
}
