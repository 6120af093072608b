ghost use Rattle.std.specs.Prelude.{◌≡◌, Some, pos};
ghost use Rattle.cf_elab.specs.Operand as operand;
ghost use Rattle.cf_elab_cast.specs.Forms as spec;
ghost use Rattle.cf_elab_env.specs.Holds.{IsSort, IsType};
ghost use Rattle.cf_elab_env.specs.Seen.{sort_seen};

use cf_elab_env::{Env, Sort, Value};
use cf_types::TyId;

/// What a cast goes to.
pub(crate) enum Target {
    Void,
    /// The place that a reference to this type refers to.
    Place(TyId),
    Value,
}

/// What a cast does to a plain value.
pub(crate) enum Form {
    /// A conversion that needs no cast.
    Fit,
    /// As one of an enumeration.
    Enumeration,
    /// As it is, with another type.
    Same,
    /// The same, where the type differs in const alone.
    Const,
    /// From a pointer to void to one to an object of this type.
    FromVoid(TyId),
    ToVoid,
    /// The null pointer that the constant 0 gives.
    Null,
    /// To void, which takes nothing of it.
    Nothing,
    /// There is no such cast, K17.
    None,
}

/// What a cast to this type goes to.
pub(crate) fn target_at(env: &Env, ty: TyId) -> Target
    requires { IsType env.now.types ty }
    ensures value { result ≡ spec.target_at env.now.types ty }
    ensures known { spec.IsTarget env.now.types result }
{
    target_of(env, env.sort_of(ty))
}

fn target_of(env: &Env, sort: Sort) -> Target
    requires { IsSort env.now.types sort }
    ensures value { result ≡ spec.target_of (sort_seen sort) }
    ensures known { spec.IsTarget env.now.types result }
{
    let _env = env;
    match sort {
        Sort::Void => Target::Void,
        Sort::Reference(referred) => Target::Place(referred),
        _ => Target::Value,
    }
}

/// What a cast to this type does to a plain value.
pub(crate) fn form_at(env: &Env, ty: TyId, value: &Value) -> Form
    requires typed { IsType env.now.types ty }
    requires value_typed { IsType env.now.types value.now.type }
    ensures { result ≡ spec.form_at env.now.types ty value.now.type value.now.number }
{
    plain_form(env.sort_of(ty), env.sort_of(value.ty()), value.number())
}

/// What a cast does to a value of the second sort, with this number, to make it one of the first. The constant 0 is a null pointer of every kind.
fn plain_form(to: Sort, from: Sort, number: Option<i64>) -> Form
    ensures { result ≡ spec.plain_form (sort_seen to) (sort_seen from) number }
{
    if is_zero(number) {
        zero_to(to, from)
    } else {
        form_of(to, from)
    }
}

fn zero_to(to: Sort, from: Sort) -> Form
    ensures { result ≡ spec.plain_form (sort_seen to) (sort_seen from) (Some (pos 0)) }
{
    match to {
        Sort::ObjectPointer(_) | Sort::VoidPointer | Sort::FunctionPointer(_) => Form::Null,
        _ => form_of(to, from),
    }
}

fn is_zero(number: Option<i64>) -> bool
    ensures { result ≡ operand.is_zero number }
{
    match number {
        Some(value) => is_zero_number(value),
        None => false,
    }
}

#[tactic(auto, using(cf_elab_fit::proofs::Converted::not_zero))]
fn is_zero_number(value: i64) -> bool
    ensures { result ≡ operand.is_zero (Some value) }
{
    if value == 0 { true } else { false }
}

fn form_of(to: Sort, from: Sort) -> Form
    ensures { result ≡ spec.form_of (sort_seen to) (sort_seen from) }
{
    match to {
        Sort::Integral(_) => match from {
            Sort::Integral(_) | Sort::Enumeral(_) => Form::Fit,
            _ => Form::None,
        },
        Sort::Enumeral(e) => to_enumeration(e, from),
        Sort::ObjectPointer(object) => match from {
            Sort::ObjectPointer(_) => Form::Const,
            Sort::VoidPointer => Form::FromVoid(object),
            _ => Form::None,
        },
        Sort::VoidPointer => match from {
            Sort::ObjectPointer(_) => Form::ToVoid,
            Sort::VoidPointer => Form::Same,
            _ => Form::None,
        },
        Sort::FunctionPointer(_) => match from {
            Sort::FunctionPointer(_) => Form::Const,
            _ => Form::None,
        },
        _ => Form::None,
    }
}

fn to_enumeration(e: u32, from: Sort) -> Form
    ensures { result ≡ spec.form_of (operand.enumeral e) (sort_seen from) }
{
    match from {
        Sort::Integral(_) => Form::Enumeration,
        Sort::Enumeral(f) => {
            if e == f {
                Form::Same
            } else {
                Form::Enumeration
            }
        }
        _ => Form::None,
    }
}

/// How the constant 0 is made one of this type (5.2.3).
pub(crate) fn zero_form_at(env: &Env, ty: TyId) -> Form
    requires { IsType env.now.types ty }
    ensures { result ≡ spec.zero_form_at env.now.types ty }
{
    zero_form(env.sort_of(ty))
}

fn zero_form(to: Sort) -> Form
    ensures { result ≡ spec.zero_form (sort_seen to) }
{
    match to {
        Sort::Integral(_) => Form::Same,
        Sort::Enumeral(_) => Form::Enumeration,
        Sort::Void => Form::Nothing,
        Sort::ObjectPointer(_) | Sort::VoidPointer | Sort::FunctionPointer(_) => Form::Null,
        _ => Form::None,
    }
}
