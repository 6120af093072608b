//! Where types lead (8.2).

ghost use Rattle.std.specs.Prelude.{◌≡◌, ◌<◌, length, slice_get};
ghost use Rattle.std.specs.List.{list_all};
ghost use Rattle.cf_convert.specs.Constness as constness;
ghost use Rattle.cf_elab_env.specs.Holds.{IsType};
ghost use Rattle.cf_elab_ends.specs.Results.{GivesType};
ghost use Rattle.cf_elab_valid_files.specs.File.Ends as ends;

use crate::sorts::{is_element, is_given, is_reference, is_referred};
use cf_elab_env::Env;
use cf_types::{FunId, Ty, TyId};

/// Whether each type of the table leads where it may: nothing to a reference, no reference to void, an array has objects, and no function gives an array or
/// a function.
pub(crate) fn all_aim(env: &Env) -> bool
    ensures { result ≡ list_all (ends.aims_right env.now.types) env.now.types.types }
{
    for number in 0..env.types().count() {
        if !number_aims(env, number) {
            return false;
        }
    }
    true
}

/// Whether the type of this number does.
fn number_aims(env: &Env, number: usize) -> bool
    requires { IsType env.now.types number }
    ensures { result ≡ ends.aims_right env.now.types (constness.type_at env.now.types number) }
{
    let _types = env.types();
    let ty = TyId::new(number as u32);
    aims(env, ty)
}

/// Whether the type does.
fn aims(env: &Env, id: TyId) -> bool
    requires { IsType env.now.types id }
    ensures { result ≡ ends.aims_right env.now.types (constness.type_at env.now.types id) }
{
    env.holds();
    match env.type_at(id) {
        Ty::Ptr(to) => !is_reference(env.sort_of(to)),
        Ty::Ref(to) => is_referred(env.sort_of(to)),
        Ty::Array(element, _) => is_element(env.sort_of(element)),
        Ty::Fun(fun) => is_given(env.sort_of(result_of(env, fun))),
        Ty::Void
        | Ty::Int(_)
        | Ty::Enum(_)
        | Ty::Class(_)
        | Ty::MemData(_, _)
        | Ty::MemFun(_, _)
        | Ty::Const(_) => true,
    }
}

/// The result of the function type of this number.
fn result_of(env: &Env, number: FunId) -> TyId
    requires { number < length env.now.types.funs }
    ensures value { GivesType env.now.types number result }
    ensures known { IsType env.now.types result }
{
    env.holds();
    env.types().get_fun(number).result
}
