ghost use Rattle.std.specs.Prelude.{◌≡◌, None, IfOk};
ghost use Rattle.cf_elab.specs.Cast as cast;
ghost use Rattle.cf_elab.specs.Choice as choice;
ghost use Rattle.cf_elab.specs.Members.{class_number};
ghost use Rattle.cf_elab.specs.Operand as operand;
ghost use Rattle.cf_elab.specs.Operand.{sort_of};
ghost use Rattle.cf_elab_arith.specs.Choice.Asked as asked;
ghost use Rattle.cf_elab_env.specs.Holds.{Known, IsType};
ghost use Rattle.cf_elab_env.specs.Seen.{sort_seen};

use crate::arith::{kind_at, steps};
use cf_base::{Items, Kind, Memory};
use cf_convert::ConvStep;
use cf_elab_env::{Env, Sort, Value};
use cf_types::usual;

/// The type that two values are converted to, where both are arithmetic (4.5).
#[tactic(auto, using(crate::proofs::ChoiceLaws::AskedLaws::common_is))]
pub(crate) fn common_kind(env: &Env, x: &Value, y: &Value) -> Option<Kind>
    requires first { IsType env.now.types x.now.type }
    requires second { IsType env.now.types y.now.type }
    ensures { result ≡ asked.common_kind env.now.types x.now.type y.now.type }
{
    common(kind_at(env, x.ty()), kind_at(env, y.ty()))
}

fn common(left: Option<Kind>, right: Option<Kind>) -> Option<Kind>
    ensures { result ≡ asked.common left right }
{
    match (left, right) {
        (Some(k), Some(l)) => Some(usual(k, l)),
        _ => None,
    }
}

/// Whether both are void.
#[tactic(auto, unfolding(crate::specs::Choice::Asked::are_void))]
pub(crate) fn are_void(env: &Env, x: &Value, y: &Value) -> bool
    requires first { IsType env.now.types x.now.type }
    requires second { IsType env.now.types y.now.type }
    ensures { result ≡ asked.are_void env.now.types x.now.type y.now.type }
{
    is_void(env, x) && is_void(env, y)
}

fn is_void(env: &Env, x: &Value) -> bool
    requires { IsType env.now.types x.now.type }
    ensures { result ≡ asked.void_at env.now.types x.now.type }
{
    is_void_sort(env.sort_of(x.ty()))
}

fn is_void_sort(sort: Sort) -> bool
    ensures { result ≡ operand.is_void (sort_seen sort) }
{
    matches!(sort, Sort::Void)
}

/// Whether one of them is a pointer.
#[tactic(auto, unfolding(crate::specs::Choice::Asked::is_one_pointer))]
pub(crate) fn is_one_pointer(env: &Env, x: &Value, y: &Value) -> bool
    requires first { IsType env.now.types x.now.type }
    requires second { IsType env.now.types y.now.type }
    ensures { result ≡ asked.is_one_pointer env.now.types x.now.type y.now.type }
{
    is_pointer(env, x) || is_pointer(env, y)
}

fn is_pointer(env: &Env, x: &Value) -> bool
    requires { IsType env.now.types x.now.type }
    ensures { result ≡ asked.pointer_at env.now.types x.now.type }
{
    is_pointer_sort(env.sort_of(x.ty()))
}

fn is_pointer_sort(sort: Sort) -> bool
    ensures { result ≡ cast.takes_null (sort_seen sort) }
{
    matches!(
        sort,
        Sort::ObjectPointer(_) | Sort::VoidPointer | Sort::FunctionPointer(_)
    )
}

/// Whether both are places of one type.
#[tactic(auto, unfolding(crate::specs::Choice::Asked::is_one_place))]
pub(crate) fn is_one_place(x: &Value, y: &Value) -> bool
    ensures { result ≡ asked.is_one_place x.now y.now }
{
    x.is_lvalue() && y.is_lvalue() && x.ty() == y.ty()
}

/// The steps of the conversion of one value to the type of another, if there is one.
#[tactic(auto, using(crate::proofs::ChoiceLaws::AskedLaws::steps_are))]
pub(crate) fn steps_between(
    env: &Env,
    x: &Value,
    y: &Value,
) -> Result<Option<Items<ConvStep>>, Memory>
    requires first { Known env.now.types x.now }
    requires second { IsType env.now.types y.now.type }
    ensures { IfOk result (λ found. found ≡ asked.steps_between env.now x.now y.now.type) }
{
    let found = steps(env, x, y.ty())?;
    Ok(found)
}

/// No value is a class object.
#[tactic(auto, using(crate::proofs::ChoiceLaws::AskedLaws::no_class_of))]
pub(crate) fn no_class(env: &Env, x: &Value)
    requires { IsType env.now.types x.now.type }
    ensures { class_number (sort_of env.now.types x.now.type) ≡ None }
{
    let _sort = env.sort_of(x.ty());
}

/// The number that a condition chooses, if all three are known.
pub(crate) fn chosen(condition: Option<i64>, yes: Option<i64>, no: Option<i64>) -> Option<i64>
    ensures { result ≡ choice.chosen condition yes no }
{
    match (condition, yes, no) {
        (Some(c), Some(a), Some(b)) => Some(if c == 0 { b } else { a }),
        _ => None,
    }
}
