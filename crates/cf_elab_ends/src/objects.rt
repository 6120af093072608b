//! Of what types the objects of a file are, and what its functions give (8.2).

ghost use Rattle.std.specs.Prelude.{◌≡◌, ◌++◌};
ghost use Rattle.std.specs.List.{list_all};
ghost use Rattle.cf_elab_valid_files.specs.File.Ends as ends;

use crate::sorts::{is_given, is_object};
use cf_core::{CoreFn, CoreStatic};
use cf_elab_env::Env;
use cf_types::TyId;

/// Whether parameters, locals and static objects are of types of which objects are, and results of types that functions give.
pub(crate) fn objects_right(env: &Env) -> bool
    ensures { result ≡ ends.objects_right env.now }
{
    all_frames(env, env.functions()) && all_statics(env, env.statics())
}

fn all_frames(env: &Env, functions: &[CoreFn]) -> bool
    ensures { result ≡ list_all (ends.frame_right env.now.types) functions.now }
{
    for f in functions {
        if !frame_right(env, f) {
            return false;
        }
    }
    true
}

fn all_statics(env: &Env, statics: &[CoreStatic]) -> bool
    ensures { result ≡ list_all (λ (x : CoreStatic). ends.can_be_made env.now.types x.ty) statics.now }
{
    for x in statics {
        if !can_be_made(env, x.ty) {
            return false;
        }
    }
    true
}

/// The same of one function.
fn frame_right(env: &Env, f: &CoreFn) -> bool
    ensures { result ≡ ends.frame_right env.now.types f.now }
{
    all_made(env, f.params.as_slice())
        && all_made(env, f.locals.as_slice())
        && can_be_given(env, f.result)
}

fn all_made(env: &Env, types: &[TyId]) -> bool
    ensures { result ≡ list_all (ends.can_be_made env.now.types) types.now }
{
    types.iter().all(|ty| can_be_made(env, *ty))
}

/// Whether it is a type of the table of which objects are.
fn can_be_made(env: &Env, ty: TyId) -> bool
    ensures { result ≡ ends.can_be_made env.now.types ty }
{
    (ty.number() as usize) < env.types().count() && is_object(env.sort_of(ty))
}

/// Whether it is a type of the table that functions give.
fn can_be_given(env: &Env, ty: TyId) -> bool
    ensures { result ≡ ends.can_be_given env.now.types ty }
{
    (ty.number() as usize) < env.types().count() && is_given(env.sort_of(ty))
}
