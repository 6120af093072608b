//! What is asked of actions by what registers hold before them.

ghost use Rattle.std.specs.Prelude.{◌≡◌, ◌&&◌, ◌||◌, slice_get, IfOk};
ghost use Rattle.cf_base.specs.Integers as integers;
ghost use Rattle.cf_base.specs.declared.kind.Kind.TheVariants as kind;
ghost use Rattle.cf_core.specs.FromTypes.{type_of};
ghost use Rattle.cf_core.specs.View.{change_of};
ghost use Rattle.cf_lower_kept.specs.Ready as ready;
ghost use Rattle.cf_lowerable_ready.specs.Asked as spec;
ghost use Rattle.cf_lowerable_ready.specs.Contents.{known};
ghost use Rattle.cf_lowerable_ready.specs.Scenes.{action_in, knowing, locals_in, result_in};

use crate::content::Content;
use crate::contents::Contents;
use crate::given::held;
use crate::scene::{Scene, local_type};
use crate::types::{has_objects, is_no_code, is_object, names_well, place_has_objects};
use cf_base::{Kind, Memory};
use cf_core::{Change, PointerOperator};
use cf_lower_same::same_exactly;
use cf_lower_types::Tables;
use cf_lowerable_types::{fits, is_code};
use cf_plain::Action;
use cf_types::TyId;

/// Whether a constant is of 32 bits.
fn is_constant(value: i64) -> bool
    ensures { result ≡ (integers.fits kind.Int value || integers.fits kind.UInt value) }
{
    fits(Kind::Int, value) || fits(Kind::UInt, value)
}

/// Whether a local's type has no const on a reference.
#[tactic(auto, using(crate::proofs::AskedLaws::local_well, crate::proofs::AskedLaws::local_gone))]
fn local_names_well(x: &Scene<'_>, local: u32) -> bool
    ensures { result ≡ ready.names_well_if (slice_get (locals_in x.now) local) }
{
    match local_type(x, local) {
        Some(ty) => names_well(x.tables, ty),
        None => true,
    }
}

/// Whether what decays is an array of objects, or a function.
fn decays_well(tables: &Tables<'_>, content: &Content) -> bool
    ensures { result ≡ ready.decays_well (known tables.now content.now) }
{
    match content {
        Content::Place(place) => place_has_objects(tables, place),
        Content::Object(_, ty) => has_objects(tables, *ty) && !is_code(tables, *ty),
        Content::Unset => true,
        Content::NoValue => true,
        Content::Number(_) => true,
        Content::Member(_) => true,
    }
}

/// Whether a place that is held has objects that pointers can be moved over.
fn of_object(tables: &Tables<'_>, content: &Content) -> Result<bool, Memory>
    ensures { IfOk result (λ of. of ≡ ready.of_place ready.is_object (known tables.now content.now)) }
{
    match content {
        Content::Place(place) => {
            let is = is_object(tables, place)?;
            Ok(is)
        }
        Content::Unset => Ok(true),
        Content::NoValue => Ok(true),
        Content::Number(_) => Ok(true),
        Content::Member(_) => Ok(true),
        Content::Object(_, _) => Ok(true),
    }
}

/// The same of two registers.
#[tactic(auto, using(crate::proofs::AskedLaws::first_not, crate::proofs::AskedLaws::both_so))]
fn are_of_objects(tables: &Tables<'_>, left: &Content, right: &Content) -> Result<bool, Memory>
    ensures { IfOk result (λ are. are ≡ (ready.of_place ready.is_object (known tables.now left.now) && ready.of_place ready.is_object (known tables.now right.now))) }
{
    if !of_object(tables, left)? {
        return Ok(false);
    }
    let second = of_object(tables, right)?;
    Ok(second)
}

/// Whether a place that is held is no function.
fn of_no_code(tables: &Tables<'_>, content: &Content) -> bool
    ensures { result ≡ ready.of_place ready.is_no_code (known tables.now content.now) }
{
    match content {
        Content::Place(place) => is_no_code(tables, place),
        Content::Unset => true,
        Content::NoValue => true,
        Content::Number(_) => true,
        Content::Member(_) => true,
        Content::Object(_, _) => true,
    }
}

/// Whether two that are compared are no functions.
fn are_no_code(tables: &Tables<'_>, left: &Content, right: &Content) -> bool
    ensures { result ≡ (ready.of_place ready.is_no_code (known tables.now left.now) && ready.of_place ready.is_no_code (known tables.now right.now)) }
{
    of_no_code(tables, left) && of_no_code(tables, right)
}

/// What an operator on pointers asks of its operands.
fn operands_ready(
    tables: &Tables<'_>,
    op: PointerOperator,
    left: &Content,
    right: &Content,
) -> Result<bool, Memory>
    ensures { IfOk result (λ are. are ≡ ready.operands_ready op (known tables.now left.now) (known tables.now right.now)) }
{
    match op {
        PointerOperator::Equal => Ok(are_no_code(tables, left, right)),
        PointerOperator::NotEqual => Ok(are_no_code(tables, left, right)),
        PointerOperator::Add
        | PointerOperator::Subtract
        | PointerOperator::Difference
        | PointerOperator::Less
        | PointerOperator::Greater
        | PointerOperator::LessEqual
        | PointerOperator::GreaterEqual => are_of_objects(tables, left, right),
    }
}

/// What is asked of a scalar that is changed.
fn change_ready(tables: &Tables<'_>, change: Change, value: &Content) -> Result<bool, Memory>
    ensures { IfOk result (λ is. is ≡ spec.change_ready (change_of change) (known tables.now value.now)) }
{
    match change {
        Change::Moved { .. } => of_object(tables, value),
        Change::Arithmetic { .. } => Ok(true),
    }
}

/// Whether the local has just this type.
#[tactic(auto, using(crate::proofs::AskedLaws::type_there, crate::proofs::AskedLaws::type_gone))]
fn is_the_type(x: &Scene<'_>, local: u32, ty: TyId) -> Result<bool, Memory>
    ensures { IfOk result (λ is. is ≡ ready.is_the_type (slice_get (locals_in x.now) local) (type_of x.now.tables.now ty)) }
{
    match local_type(x, local) {
        Some(own) => {
            let same = same_exactly(x.tables, own, ty)?;
            Ok(same)
        }
        None => Ok(false),
    }
}

/// Whether an action is ready, by what registers hold before it.
pub fn is_ready(x: &Scene<'_>, cs: &Contents, a: &Action) -> Result<bool, Memory>
    ensures { IfOk result (λ is. is ≡ ready.action_ready (locals_in x.now) (result_in x.now) (knowing x.now cs.now) (action_in x.now a.now)) }
{
    match a {
        Action::Number { value } => Ok(is_constant(*value)),
        Action::Local { number } => Ok(local_names_well(x, *number)),
        Action::Static { ty, .. } => Ok(names_well(x.tables, *ty)),
        Action::Function { ty, .. } => Ok(is_code(x.tables, *ty)),
        Action::Decay { array } => Ok(decays_well(x.tables, &held(x, cs, *array))),
        Action::Index { left, right } => {
            are_of_objects(x.tables, &held(x, cs, *left), &held(x, cs, *right))
        }
        Action::FromVoid { ty, .. } => Ok(!is_code(x.tables, *ty)),
        Action::PointerOperate { op, left, right } => {
            operands_ready(x.tables, *op, &held(x, cs, *left), &held(x, cs, *right))
        }
        Action::Changed { change, value, .. } => {
            change_ready(x.tables, *change, &held(x, cs, *value))
        }
        Action::Declare { local, ty } => is_the_type(x, *local, *ty),
        _ => Ok(true),
    }
}
