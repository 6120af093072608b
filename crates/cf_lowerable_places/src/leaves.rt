//! Statements of one action.

ghost use Rattle.std.specs.Prelude.{◌≡◌, ◌||◌, IfOk};
ghost use Rattle.std.specs.Option.{option_map};
ghost use Rattle.cf_base.specs.Integers as integers;
ghost use Rattle.cf_base.specs.declared.kind.Kind.TheVariants as kind;
ghost use Rattle.cf_core.specs.FromTypes.{type_of};
ghost use Rattle.cf_core.specs.Types as types;
ghost use Rattle.cf_lower_held.specs.Scenes.{action_in, locals_in};
ghost use Rattle.cf_lower_layout.specs.Sorts as sorts;
ghost use Rattle.cf_lower_place.specs.Leaf as leaf;
ghost use Rattle.cf_lower_types.specs.Bare.{classes_of, sort_in};
ghost use Rattle.cf_lowerable_places.specs.Contents.{known, knowing};
ghost use Rattle.cf_lowerable_places.specs.Fits.{given_in, set_fits, takes_given, view_in};

use crate::calls::{set_by_name, set_by_pointer};
use crate::content::Content;
use crate::contents::Contents;
use crate::library::may_be_named;
use crate::locals::{may_be_local, may_begin, may_finish};
use crate::operands::{
    are_integers, is_address, is_integer, is_pointer, is_promoted, is_scalars_place, is_tested,
    may_add, may_change, may_operate, may_zero,
};
use crate::scalars::{may_convert, may_first, may_hold, may_store};
use crate::setting::held;
use cf_base::{Kind, Memory};
use cf_lower_held::Scene;
use cf_lower_types::{Scalar, Tables, sort_of};
use cf_lowerable_types::{are_chars, fits, is_object_type, is_void};
use cf_plain::Action;
use cf_types::TyId;

/// Whether a constant is one that int or unsigned int has.
fn is_constant(value: i64) -> bool
    ensures { result ≡ (integers.fits kind.Int value || integers.fits kind.UInt value) }
{
    fits(Kind::Int, value) || fits(Kind::UInt, value)
}

/// Whether what a register holds is converted to a type, which may be `void`.
#[tactic(auto, using(crate::proofs::LeafLaws::to_nothing, crate::proofs::LeafLaws::to_scalar))]
fn converts(tables: &Tables<'_>, ty: TyId, content: &Content) -> Result<bool, Memory>
    ensures { IfOk result (λ may. may ≡ (types.is_void (type_of tables.now ty) || leaf.may_convert (sorts.sort_of (type_of tables.now ty)) (known tables.now content.now))) }
{
    if is_void(tables, ty)? {
        return Ok(true);
    }
    let may = may_convert(tables, &sort_of(tables, ty), content)?;
    Ok(may)
}

/// Whether an action gives a value, or is a conversion to void, and changes nothing.
fn gives(x: &Scene<'_>, cs: &Contents, a: &Action) -> Result<bool, Memory>
    ensures { IfOk result (λ good. good ≡ (leaf.gives_nothing (action_in x.now a.now) || leaf.gives_value (view_in x.now) (knowing x.now cs.now) (action_in x.now a.now))) }
{
    match a {
        Action::Number { value } => Ok(is_constant(*value)),
        Action::Local { number } => Ok(may_be_local(x, *number)),
        Action::Static { ty, .. } => Ok(is_object_type(x.tables, *ty)),
        Action::Function { name, ty } => Ok(may_be_named(x.tables, name.as_slice(), *ty)),
        Action::Read { place } => Ok(is_scalars_place(x.tables, &held(x, cs, *place))),
        Action::Dereference { pointer } => Ok(is_pointer(&held(x, cs, *pointer))),
        Action::Decay { array } => Ok(is_pointer(&held(x, cs, *array))),
        Action::Index { left, right } => {
            may_add(x.tables, &held(x, cs, *left), &held(x, cs, *right))
        }
        Action::Convert { ty, operand } => converts(x.tables, *ty, &held(x, cs, *operand)),
        Action::FromVoid { operand, .. } => Ok(is_address(&held(x, cs, *operand))),
        Action::Operate {
            kind,
            left,
            right,
            ..
        } => Ok(is_promoted(*kind) && are_integers(&held(x, cs, *left), &held(x, cs, *right))),
        Action::Unary { kind, operand, .. } => {
            Ok(is_promoted(*kind) && is_integer(&held(x, cs, *operand)))
        }
        Action::Truth { operand } => Ok(is_tested(&held(x, cs, *operand))),
        Action::Not { operand } => Ok(is_tested(&held(x, cs, *operand))),
        Action::PointerOperate { op, left, right } => {
            may_operate(x.tables, *op, &held(x, cs, *left), &held(x, cs, *right))
        }
        Action::Changed { change, value, by } => {
            may_change(x.tables, *change, &held(x, cs, *value), &held(x, cs, *by))
        }
        _ => Ok(false),
    }
}

/// Whether a register may be set by an action.
pub fn may_set(x: &Scene<'_>, cs: &Contents, a: &Action) -> Result<bool, Memory>
    ensures { IfOk result (λ may. may ≡ set_fits (locals_in x.now) (given_in x.now) (classes_of x.now.tables.now) (knowing x.now cs.now) (action_in x.now a.now)) }
{
    match a {
        Action::Text { .. } => Ok(true),
        Action::Declare { local, ty } => may_begin(x, *local, *ty),
        Action::Call {
            function,
            ty,
            object,
            arguments,
            result,
        } => set_by_name(
            x,
            function.as_slice(),
            *ty,
            *object,
            arguments.as_slice(),
            *result,
        ),
        Action::PointerCall {
            object,
            pointer,
            ty,
            arguments,
            result,
        } => set_by_pointer(
            x,
            &held(x, cs, *pointer),
            *pointer,
            *ty,
            *object,
            arguments.as_slice(),
            *result,
        ),
        _ => gives(x, cs, a),
    }
}

/// Whether a register holds the place of an array of characters.
fn holds_chars(tables: &Tables<'_>, content: &Content) -> bool
    ensures { result ≡ leaf.are_chars (known tables.now content.now) }
{
    match content {
        Content::Place(place) => are_chars(tables, place),
        Content::Nothing | Content::Number(_) | Content::Code(_) | Content::Argument(_, _) => false,
    }
}

/// Whether an action may be done whose value is not kept.
pub fn may_do(x: &Scene<'_>, cs: &Contents, a: &Action) -> Result<bool, Memory>
    ensures { IfOk result (λ may. may ≡ leaf.may_do (view_in x.now) (knowing x.now cs.now) (action_in x.now a.now)) }
{
    match a {
        Action::Text { .. } => Ok(true),
        Action::Declare { local, ty } => may_begin(x, *local, *ty),
        Action::Store { place, value } => {
            may_store(x.tables, &held(x, cs, *place), &held(x, cs, *value))
        }
        Action::First { place, value } => {
            may_first(x, &held(x, cs, *place), &held(x, cs, *value))
        }
        Action::Zeros { place } => may_zero(x.tables, &held(x, cs, *place)),
        Action::Characters { place, .. } => Ok(holds_chars(x.tables, &held(x, cs, *place))),
        Action::Finish { ty, local } => Ok(may_finish(x, *ty, *local)),
        _ => gives(x, cs, a),
    }
}

/// Whether a function that gives this scalar, if it is one, may return what a register holds.
fn may_return(
    tables: &Tables<'_>,
    scalar: &Option<Scalar>,
    content: &Content,
) -> Result<bool, Memory>
    ensures { IfOk result (λ may. may ≡ takes_given (option_map (sort_in tables.now) scalar.now) (known tables.now content.now)) }
{
    match scalar {
        None => Ok(true),
        Some(_) => {
            let may = may_hold(tables, scalar, content)?;
            Ok(may)
        }
    }
}

/// Whether a function may return, and what the register holds if one is named.
#[tactic(auto, using(crate::proofs::LeafLaws::given_register))]
pub fn may_give(x: &Scene<'_>, cs: &Contents, register: Option<u32>) -> Result<bool, Memory>
    ensures { IfOk result (λ may. may ≡ leaf.may_give (given_in x.now) (knowing x.now cs.now) register) }
{
    match register {
        None => Ok(true),
        Some(register) => {
            let scalar = sort_of(x.tables, x.result);
            let may = may_return(x.tables, &scalar, &held(x, cs, register))?;
            Ok(may)
        }
    }
}
