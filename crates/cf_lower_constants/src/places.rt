//! Known places that move.

ghost use Rattle.std.specs.Prelude.{◌≡◌, IfOk};
ghost use Rattle.cf_core.specs.Size.{size};
ghost use Rattle.cf_core.specs.Types.{Name as NameOf, element, plain};
ghost use Rattle.cf_core.specs.declared.operators.PointerOperator.TheVariants as pointer;
ghost use Rattle.cf_lower.specs.Constants as definition;
ghost use Rattle.cf_lower_types.specs.Bare.{classes_of};
ghost use Rattle.cf_lower_constants.specs.Knowing.{fact_in, reached, target_in};
ghost use Rattle.cf_lower_constants.specs.Sites.{told};

use crate::known::{Fact, Known, Target, nameless, target_of};
use crate::numbers::number_of;
use crate::site::Site;
use cf_base::Memory;
use cf_core::PointerOperator;
use cf_lower_types::{PlaceType, Tables, element_of, item_of, size_of};

/// The bytes of an object at a place.
#[tactic(auto, using(crate::proofs::Moves::size_of_bare, crate::proofs::Moves::size_of_characters))]
pub fn target_size(tables: &Tables<'_>, target: &Target) -> Result<u64, Memory>
    ensures { IfOk result (λ n. n ≡ size (classes_of tables.now) (target_in tables.now target.now)) }
{
    match target {
        Target::Exactly(id) => {
            let bytes = size_of(tables, *id)?;
            Ok(bytes)
        }
        Target::Bare(id) => {
            let bytes = size_of(tables, *id)?;
            Ok(bytes)
        }
        Target::Void | Target::Character => Ok(1),
        Target::Characters(count) => Ok(*count),
    }
}

/// The type of an array's elements; any other object alone counts as an array of one (5.7).
#[tactic(auto, using(crate::proofs::Moves::bare_item))]
fn target_item(tables: &Tables<'_>, target: &Target) -> Target
    ensures { target_in tables.now result ≡ element (plain (target_in tables.now target.now)) }
{
    match target {
        Target::Exactly(id) => Target::Exactly(item_of(tables, *id)),
        Target::Bare(id) => target_of(&element_of(tables, PlaceType::Of(*id))),
        Target::Void => Target::Void,
        Target::Character | Target::Characters(_) => Target::Character,
    }
}

/// A pointer to the first element of an array (4.6).
#[tactic(auto, using(crate::proofs::Moves::decayed_is))]
pub(crate) fn decayed(x: &Site<'_>, known: Known) -> Known
    ensures { told x.now result ≡ definition.decayed (told x.now known) }
{
    Known {
        fact: known.fact,
        target: target_item(x.tables, &known.target),
        name: known.name,
    }
}

/// A number of bytes further, or before where the number is negative.
#[tactic(auto, using(crate::proofs::Moves::further_on, crate::proofs::Moves::further_back))]
fn further(tables: &Tables<'_>, target: &Target, at: u64, count: i64) -> Result<u64, Memory>
    ensures { IfOk result (λ there. there ≡ reached at (size (classes_of tables.now) (target_in tables.now target.now)) count) }
{
    let each = target_size(tables, target)?;
    let bytes = count.unsigned_abs().checked_mul(each).ok_or(Memory)?;
    if count >= 0 {
        let there = at.checked_add(bytes).ok_or(Memory)?;
        Ok(there)
    } else {
        Ok(at.saturating_sub(bytes))
    }
}

/// What is known so many elements further.
#[tactic(auto, using(crate::proofs::Moves::moved_place))]
fn moved_fact(tables: &Tables<'_>, fact: &Fact, target: &Target, count: i64) -> Result<Fact, Memory>
    ensures { (n : NameOf) → IfOk result (λ there. fact_in tables.now there target.now n ≡ definition.moved (classes_of tables.now) (fact_in tables.now fact.now target.now n) count) }
{
    match fact {
        Fact::Place(at) => {
            let there = further(tables, target, *at, count)?;
            Ok(Fact::Place(there))
        }
        Fact::Nothing | Fact::Number(_) | Fact::Null | Fact::Function => Ok(Fact::Nothing),
    }
}

/// The same with its name.
fn moved(x: &Site<'_>, known: Known, count: i64) -> Result<Known, Memory>
    ensures { IfOk result (λ there. told x.now there ≡ definition.moved (classes_of x.now.tables.now) (told x.now known) count) }
{
    let there = moved_fact(x.tables, &known.fact, &known.target, count)?;
    Ok(Known {
        fact: there,
        target: known.target,
        name: known.name,
    })
}

/// A place and a number, in either order.
#[tactic(auto, using(crate::proofs::Moves::sum_first, crate::proofs::Moves::sum_second, crate::proofs::Moves::no_sum))]
pub(crate) fn sum(x: &Site<'_>, a: Known, b: Known) -> Result<Known, Memory>
    ensures { IfOk result (λ there. told x.now there ≡ definition.sum (classes_of x.now.tables.now) (told x.now a) (told x.now b)) }
{
    if let Some(count) = number_of(&a.fact) {
        let there = moved(x, b, count)?;
        return Ok(there);
    }
    match number_of(&b.fact) {
        Some(count) => {
            let there = moved(x, a, count)?;
            Ok(there)
        }
        None => Ok(nameless(x.alloc, Fact::Nothing)),
    }
}

/// A place less a number.
#[tactic(auto, using(crate::proofs::Moves::less_number, crate::proofs::Moves::no_less))]
fn less(x: &Site<'_>, a: Known, b: Known) -> Result<Known, Memory>
    ensures { IfOk result (λ there. told x.now there ≡ definition.pointer_known (classes_of x.now.tables.now) pointer.Subtract (told x.now a) (told x.now b)) }
{
    match number_of(&b.fact) {
        Some(count) => {
            let back = count.checked_neg().ok_or(Memory)?;
            let there = moved(x, a, back)?;
            Ok(there)
        }
        None => Ok(nameless(x.alloc, Fact::Nothing)),
    }
}

/// An operator with a pointer (5.7).
pub(crate) fn pointer_operated(
    x: &Site<'_>,
    op: PointerOperator,
    a: Known,
    b: Known,
) -> Result<Known, Memory>
    ensures { IfOk result (λ there. told x.now there ≡ definition.pointer_known (classes_of x.now.tables.now) op (told x.now a) (told x.now b)) }
{
    match op {
        PointerOperator::Add => {
            let there = sum(x, a, b)?;
            Ok(there)
        }
        PointerOperator::Subtract => {
            let there = less(x, a, b)?;
            Ok(there)
        }
        PointerOperator::Difference
        | PointerOperator::Less
        | PointerOperator::Greater
        | PointerOperator::LessEqual
        | PointerOperator::GreaterEqual
        | PointerOperator::Equal
        | PointerOperator::NotEqual => Ok(nameless(x.alloc, Fact::Nothing)),
    }
}
