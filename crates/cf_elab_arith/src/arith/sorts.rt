ghost use Rattle.std.specs.Prelude.{◌≡◌, false};
ghost use Rattle.std.specs.Option.{ForSome};
ghost use Rattle.cf_elab.specs.Operand as operand;
ghost use Rattle.cf_elab_arith.specs.Arith.Sorts as sorts;
ghost use Rattle.cf_elab_env.specs.Holds.{IsType, IsSort};
ghost use Rattle.cf_elab_env.specs.Seen.{sort_seen};

use cf_base::Kind;
use cf_elab_env::{Env, Sort};
use cf_types::{TyId, promote};

/// The promoted type of an integer or an enumeration (4.1).
pub fn kind_at(env: &Env, ty: TyId) -> Option<Kind>
    requires { IsType env.now.types ty }
    ensures { result ≡ sorts.kind_at env.now.types ty }
{
    kind_of(env.sort_of(ty))
}

fn kind_of(sort: Sort) -> Option<Kind>
    ensures { result ≡ operand.arithmetic (sort_seen sort) }
{
    match sort {
        Sort::Integral(kind) => Some(promote(kind)),
        Sort::Enumeral(_) => Some(Kind::Int),
        _ => None,
    }
}

/// The integer type that it is itself.
pub fn integral_at(env: &Env, ty: TyId) -> Option<Kind>
    requires { IsType env.now.types ty }
    ensures { result ≡ sorts.integral_at env.now.types ty }
{
    integral_of(env.sort_of(ty))
}

fn integral_of(sort: Sort) -> Option<Kind>
    ensures { result ≡ sorts.integral_of (sort_seen sort) }
{
    match sort {
        Sort::Integral(kind) => Some(kind),
        _ => None,
    }
}

/// The type of the object that a pointer leads to.
pub fn object_at(env: &Env, ty: TyId) -> Option<TyId>
    requires { IsType env.now.types ty }
    ensures value { result ≡ sorts.object_at env.now.types ty }
    ensures known { ForSome result (λ t. IsType env.now.types t) }
{
    object_of(env, env.sort_of(ty))
}

fn object_of(env: &Env, sort: Sort) -> Option<TyId>
    requires { IsSort env.now.types sort }
    ensures value { result ≡ sorts.object_of (sort_seen sort) }
    ensures known { ForSome result (λ t. IsType env.now.types t) }
{
    let _env = env;
    match sort {
        Sort::ObjectPointer(object) => Some(object),
        _ => None,
    }
}

/// The type of the object or function that a pointer leads to.
pub fn target_at(env: &Env, ty: TyId) -> Option<TyId>
    requires { IsType env.now.types ty }
    ensures value { result ≡ sorts.target_at env.now.types ty }
    ensures known { ForSome result (λ t. IsType env.now.types t) }
{
    target_of(env, env.sort_of(ty))
}

fn target_of(env: &Env, sort: Sort) -> Option<TyId>
    requires { IsSort env.now.types sort }
    ensures value { result ≡ sorts.target_of (sort_seen sort) }
    ensures known { ForSome result (λ t. IsType env.now.types t) }
{
    let _env = env;
    match sort {
        Sort::ObjectPointer(target) => Some(target),
        Sort::FunctionPointer(target) => Some(target),
        _ => None,
    }
}

/// Whether it is a pointer, and not one to a member.
pub fn is_pointer(env: &Env, ty: TyId) -> bool
    requires { IsType env.now.types ty }
    ensures { result ≡ sorts.pointer_at env.now.types ty }
{
    is_pointer_sort(env.sort_of(ty))
}

fn is_pointer_sort(sort: Sort) -> bool
    ensures { result ≡ sorts.is_pointer (sort_seen sort) }
{
    matches!(
        sort,
        Sort::ObjectPointer(_) | Sort::VoidPointer | Sort::FunctionPointer(_)
    )
}

/// Whether it is a pointer to void. No type is a pointer to a member, since there are no classes.
pub fn is_void_pointer(env: &Env, ty: TyId) -> bool
    requires { IsType env.now.types ty }
    ensures value { result ≡ sorts.void_at env.now.types ty }
    ensures no_member { sorts.member_at env.now.types ty ≡ false }
{
    is_void_sort(env.sort_of(ty))
}

fn is_void_sort(sort: Sort) -> bool
    ensures value { result ≡ sorts.is_void_pointer (sort_seen sort) }
    ensures no_member { sorts.is_member (sort_seen sort) ≡ false }
{
    matches!(sort, Sort::VoidPointer)
}

/// Whether it is an enumeration.
pub fn is_enum(env: &Env, ty: TyId) -> bool
    requires { IsType env.now.types ty }
    ensures { result ≡ sorts.enum_at env.now.types ty }
{
    is_enum_sort(env.sort_of(ty))
}

fn is_enum_sort(sort: Sort) -> bool
    ensures { result ≡ sorts.is_enumeral (sort_seen sort) }
{
    matches!(sort, Sort::Enumeral(_))
}

/// Whether an object of the type holds no class that is not defined (9.1).
#[tactic(auto, unfolding(crate::specs::Arith::Sorts::complete_at))]
pub fn is_complete(env: &Env, ty: TyId) -> bool
    requires { IsType env.now.types ty }
    ensures { result ≡ sorts.complete_at env.now ty }
{
    env.is_complete(ty)
}
