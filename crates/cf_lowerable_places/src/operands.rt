//! What operands hold.

ghost use Rattle.std.specs.Prelude.{◌≡◌, ◌&&◌, is_some, IfOk};
ghost use Rattle.cf_core.specs.FromTypes.{Tables as TablesOf};
ghost use Rattle.cf_core.specs.View.{change_of};
ghost use Rattle.cf_lower_layout.specs.Sorts as sorts;
ghost use Rattle.cf_lower_place.specs.Leaf as leaf;
ghost use Rattle.cf_lower_types.specs.Bare.{type_in};
ghost use Rattle.cf_lowerable_places.specs.Contents.{known};

use crate::content::Content;
use cf_base::{Kind, Memory};
use cf_core::{Change, PointerOperator};
use cf_lower_types::{PlaceType, Tables, place_scalar};
use cf_lowerable_types::is_void_place;

/// Whether a register holds an integer.
pub fn is_integer(content: &Content) -> bool
    ensures { (tables : TablesOf) → result ≡ leaf.is_integer (known tables content.now) }
{
    match content {
        Content::Number(_) => true,
        Content::Nothing | Content::Place(_) | Content::Code(_) | Content::Argument(_, _) => false,
    }
}

/// Whether it holds the address of a place.
pub fn is_address(content: &Content) -> bool
    ensures { (tables : TablesOf) → result ≡ leaf.is_address (known tables content.now) }
{
    match content {
        Content::Place(_) => true,
        Content::Nothing | Content::Number(_) | Content::Code(_) | Content::Argument(_, _) => false,
    }
}

/// Whether it holds a pointer that an action goes through.
pub fn is_pointer(content: &Content) -> bool
    ensures { (tables : TablesOf) → result ≡ leaf.is_pointer (known tables content.now) }
{
    match content {
        Content::Place(_) | Content::Code(_) => true,
        Content::Nothing | Content::Number(_) | Content::Argument(_, _) => false,
    }
}

/// Whether it holds what is true or not.
pub fn is_tested(content: &Content) -> bool
    ensures { (tables : TablesOf) → result ≡ leaf.is_tested (known tables content.now) }
{
    match content {
        Content::Number(_) | Content::Place(_) | Content::Code(_) => true,
        Content::Nothing | Content::Argument(_, _) => false,
    }
}

/// Whether objects of a place's type are scalars.
fn has_scalar(tables: &Tables<'_>, place: PlaceType) -> bool
    ensures { result ≡ is_some (sorts.sort_of (type_in tables.now place)) }
{
    match place_scalar(tables, place) {
        Some(_) => true,
        None => false,
    }
}

/// Whether it holds the place of a scalar.
pub fn is_scalars_place(tables: &Tables<'_>, content: &Content) -> bool
    ensures { result ≡ leaf.is_scalars_place (known tables.now content.now) }
{
    match content {
        Content::Place(place) => has_scalar(tables, *place),
        Content::Nothing | Content::Number(_) | Content::Code(_) | Content::Argument(_, _) => false,
    }
}

/// Whether it holds the address of a place that is not `void`.
pub fn may_zero(tables: &Tables<'_>, content: &Content) -> Result<bool, Memory>
    ensures { IfOk result (λ may. may ≡ leaf.may_zero (known tables.now content.now)) }
{
    match content {
        Content::Place(place) => {
            let void = is_void_place(tables, place)?;
            Ok(!void)
        }
        Content::Nothing => Ok(false),
        Content::Number(_) => Ok(false),
        Content::Code(_) => Ok(false),
        Content::Argument(_, _) => Ok(false),
    }
}

/// Whether a pointer may be moved by an integer (5.7).
#[tactic(auto, using(crate::proofs::OperandLaws::moves, crate::proofs::OperandLaws::moves_not))]
fn may_move(tables: &Tables<'_>, left: &Content, right: &Content) -> Result<bool, Memory>
    ensures { IfOk result (λ may. may ≡ leaf.may_move (known tables.now left.now) (known tables.now right.now)) }
{
    if !is_integer(right) {
        return Ok(false);
    }
    let may = may_zero(tables, left)?;
    Ok(may)
}

/// The same in either order.
#[tactic(auto, using(crate::proofs::OperandLaws::adds, crate::proofs::OperandLaws::adds_turned))]
pub fn may_add(tables: &Tables<'_>, left: &Content, right: &Content) -> Result<bool, Memory>
    ensures { IfOk result (λ may. may ≡ leaf.may_add (known tables.now left.now) (known tables.now right.now)) }
{
    if is_integer(left) {
        let may = may_move(tables, right, left)?;
        Ok(may)
    } else {
        let may = may_move(tables, left, right)?;
        Ok(may)
    }
}

/// Whether both are pointers to objects.
#[tactic(auto, using(crate::proofs::OperandLaws::ordered))]
fn have_order(left: &Content, right: &Content) -> bool
    ensures { (tables : TablesOf) → result ≡ leaf.have_order (known tables left.now) (known tables right.now) }
{
    is_address(left) && is_address(right)
}

/// Whether one pointer may be subtracted from another.
#[tactic(auto, using(crate::proofs::OperandLaws::subtracts, crate::proofs::OperandLaws::subtracts_not))]
fn may_subtract(tables: &Tables<'_>, left: &Content, right: &Content) -> Result<bool, Memory>
    ensures { IfOk result (λ may. may ≡ leaf.may_subtract (known tables.now left.now) (known tables.now right.now)) }
{
    if !is_address(right) {
        return Ok(false);
    }
    let may = may_zero(tables, left)?;
    Ok(may)
}

/// Whether an operator on pointers takes what both hold.
pub fn may_operate(
    tables: &Tables<'_>,
    op: PointerOperator,
    left: &Content,
    right: &Content,
) -> Result<bool, Memory>
    ensures { IfOk result (λ may. may ≡ leaf.may_operate op (known tables.now left.now) (known tables.now right.now)) }
{
    match op {
        PointerOperator::Add => may_add(tables, left, right),
        PointerOperator::Subtract => may_move(tables, left, right),
        PointerOperator::Difference => may_subtract(tables, left, right),
        PointerOperator::Less
        | PointerOperator::Greater
        | PointerOperator::LessEqual
        | PointerOperator::GreaterEqual
        | PointerOperator::Equal
        | PointerOperator::NotEqual => Ok(have_order(left, right)),
    }
}

/// Whether integral promotion leaves the type as it is (4.1).
pub fn is_promoted(kind: Kind) -> bool
    ensures { result ≡ leaf.is_promoted kind }
{
    match kind {
        Kind::Int | Kind::UInt | Kind::Long | Kind::ULong => true,
        Kind::Char | Kind::SChar | Kind::UChar | Kind::Short | Kind::UShort => false,
    }
}

/// Whether both operands are integers.
pub fn are_integers(left: &Content, right: &Content) -> bool
    ensures { (tables : TablesOf) → result ≡ (leaf.is_integer (known tables left.now) && leaf.is_integer (known tables right.now)) }
{
    is_integer(left) && is_integer(right)
}

/// Whether a scalar may be changed in place by another value.
pub fn may_change(
    tables: &Tables<'_>,
    change: Change,
    left: &Content,
    right: &Content,
) -> Result<bool, Memory>
    ensures { IfOk result (λ may. may ≡ (leaf.is_promoted_change (change_of change) && leaf.may_change (change_of change) (known tables.now left.now) (known tables.now right.now))) }
{
    match change {
        Change::Arithmetic { at, .. } => Ok(is_promoted(at) && are_integers(left, right)),
        Change::Moved { .. } => {
            let may = may_move(tables, left, right)?;
            Ok(may)
        }
    }
}
