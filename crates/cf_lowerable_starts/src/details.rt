//! What is known of registers beside their values.

ghost use Rattle.std.specs.Prelude.{◌≡◌, ◌<◌, ℕ, [], length, slice_set, IfOk, OnOk};
ghost use Rattle.cf_core.specs.FromTypes.{Tables as TablesOf};
ghost use Rattle.cf_core.specs.Types.{Name as NameOf};
ghost use Rattle.cf_lower_constants.specs.Knowing.{fact_in};
ghost use Rattle.cf_lower_constants.specs.declared.known.Target.{Target as TargetOf};
ghost use Rattle.cf_lower_program.specs.Alike as alike;
ghost use Rattle.cf_core.specs.declared.operators.PointerOperator.TheVariants as pointer;
ghost use Rattle.cf_lowerable_starts.specs.Telling.{detail_at, detail_in, details_in};

use crate::types::target_bound;
use cf_base::Memory;
use cf_core::PointerOperator;
use cf_lower_constants::{Fact, Target, number_of};
use cf_lower_types::Tables;
use cf_types::TyId;
use std::alloc::Global;

/// What is known of a register beside its value.
#[derive(Clone, Copy)]
pub enum Detail {
    Nothing,
    /// Of a place: so many elements of its array begin there or behind.
    Left(u64),
    /// Of a function: its type.
    Type(TyId),
}

/// The same of each register, by its number; nothing behind the last.
#[derive(Drop)]
pub struct Details {
    details: Vec<Detail>,
}

/// Makes room up to an index, with nothing known there.
fn reach(all: &mut Vec<Detail>, index: usize) -> Result<(), Memory>
    ensures same { (q : ℕ) → OnOk result (detail_at all.new.items q ≡ detail_at all.old.items q) }
    ensures long { OnOk result (index < length all.new.items) }
{
    while all.len() <= index {
        all.push(Detail::Nothing)?;
    }
    Ok(())
}

/// Something else is known at an index.
fn put(all: &mut Vec<Detail>, index: usize, detail: Detail)
    requires { index < length all.old.items }
    ensures { all.new.items ≡ slice_set all.old.items index detail }
{
    all[index] = detail;
}

impl Details {
    /// Nothing is known.
    pub(crate) fn new(alloc: Global) -> Details
        ensures { result.details.items ≡ [] }
    {
        Details {
            details: Vec::new(alloc),
        }
    }

    /// What is known of a register.
    pub(crate) fn get(&self, register: u32) -> Detail
        ensures { result ≡ detail_at self.now.details.items register }
    {
        match self.details.as_slice().get(register as usize) {
            Some(detail) => *detail,
            None => Detail::Nothing,
        }
    }

    /// This is known of a register from now on.
    pub(crate) fn tell(&mut self, register: u32, detail: Detail) -> Result<(), Memory>
        ensures { (tables : TablesOf) → OnOk result (details_in tables self.new ≡ alike.tell (details_in tables self.old) register (detail_in tables detail)) }
    {
        let index = register as usize;
        reach(&mut self.details, index)?;
        put(&mut self.details, index, detail);
        Ok(())
    }

    /// Nothing is known any more.
    pub(crate) fn forget(&mut self)
        ensures { self.new.details.items ≡ [] }
    {
        self.details.truncate(0);
    }
}

/// How many elements are left at a place; none where that is not known.
pub(crate) fn left_of(detail: Detail) -> u64
    ensures { (tables : TablesOf) → result ≡ alike.left_of (detail_in tables detail) }
{
    match detail {
        Detail::Left(count) => count,
        Detail::Nothing | Detail::Type(_) => 0,
    }
}

/// How many are left so many elements further.
#[tactic(auto, using(crate::proofs::DetailLaws::left_on, crate::proofs::DetailLaws::left_back))]
fn left_behind(left: u64, count: i64) -> u64
    ensures { result ≡ alike.left_behind left count }
{
    if count >= 0 {
        left.saturating_sub(count.unsigned_abs())
    } else {
        left
    }
}

/// What is known of a place so many elements further.
fn moved_detail(fact: &Fact, detail: Detail, count: i64) -> Detail
    ensures { (tables : TablesOf) (t : TargetOf) (n : NameOf) → detail_in tables result ≡ alike.moved_fact (fact_in tables fact.now t n) (detail_in tables detail) count }
{
    match fact {
        Fact::Place(_) => Detail::Left(left_behind(left_of(detail), count)),
        Fact::Nothing | Fact::Number(_) | Fact::Null | Fact::Function => Detail::Nothing,
    }
}

/// What is known of a place and a number, in either order.
pub(crate) fn sum_detail(a: &Fact, b: &Fact, first: Detail, second: Detail) -> Detail
    ensures { (tables : TablesOf) (t u : TargetOf) (n m : NameOf) → detail_in tables result
        ≡ alike.sum_fact (fact_in tables a.now t n) (fact_in tables b.now u m) (detail_in tables first) (detail_in tables second) }
{
    if let Some(count) = number_of(a) {
        return moved_detail(b, second, count);
    }
    match number_of(b) {
        Some(count) => moved_detail(a, first, count),
        None => Detail::Nothing,
    }
}

/// What is known of a place less a number.
fn less_detail(a: &Fact, b: &Fact, first: Detail) -> Result<Detail, Memory>
    ensures { (tables : TablesOf) (t u : TargetOf) (n m : NameOf) (second : alike.Fact) → IfOk result (λ given. detail_in tables given
        ≡ alike.pointer_fact pointer.Subtract (fact_in tables a.now t n) (fact_in tables b.now u m) (detail_in tables first) second) }
{
    match number_of(b) {
        Some(count) => {
            let back = count.checked_neg().ok_or(Memory)?;
            Ok(moved_detail(a, first, back))
        }
        None => Ok(Detail::Nothing),
    }
}

/// What an operator with a pointer tells (5.7).
pub(crate) fn pointer_detail(
    op: PointerOperator,
    a: &Fact,
    b: &Fact,
    first: Detail,
    second: Detail,
) -> Result<Detail, Memory>
    ensures { (tables : TablesOf) (t u : TargetOf) (n m : NameOf) → IfOk result (λ given. detail_in tables given
        ≡ alike.pointer_fact op (fact_in tables a.now t n) (fact_in tables b.now u m) (detail_in tables first) (detail_in tables second)) }
{
    match op {
        PointerOperator::Add => Ok(sum_detail(a, b, first, second)),
        PointerOperator::Subtract => {
            let given = less_detail(a, b, first)?;
            Ok(given)
        }
        PointerOperator::Difference
        | PointerOperator::Less
        | PointerOperator::Greater
        | PointerOperator::LessEqual
        | PointerOperator::GreaterEqual
        | PointerOperator::Equal
        | PointerOperator::NotEqual => Ok(Detail::Nothing),
    }
}

/// What is known of a pointer to the first element of an array (4.6).
pub(crate) fn decayed_detail(
    tables: &Tables<'_>,
    fact: &Fact,
    target: &Target,
    detail: Detail,
) -> Detail
    ensures { (n : NameOf) → detail_in tables.now result ≡ alike.decayed_fact (fact_in tables.now fact.now target.now n) (detail_in tables.now detail) }
{
    match fact {
        Fact::Place(_) => Detail::Left(target_bound(tables, target)),
        Fact::Nothing | Fact::Number(_) | Fact::Null | Fact::Function => detail,
    }
}
