//! The temporaries of a full expression.

ghost use Rattle.std.specs.Prelude.{◌≡◌, map, true, OnOk, IfOk};
ghost use Rattle.cf_core.specs.FromUnit.{tables_of};
ghost use Rattle.cf_core.specs.Numbers.{are_known, all_of};
ghost use Rattle.cf_sequence_expr.specs.Finds as spec;
ghost use Rattle.cf_sequence_expr.specs.Pieces.{piece, find_all, found_in};

use crate::function_types::parameters;
use crate::writing::beyond;
use cf_base::{Items, Memory};
use cf_core::{Core, CoreUnit};
use cf_types::TyId;
use std::alloc::Global;

/// A temporary, which is this local; one in a branch of `&&`, `||` or `?:` may not be there (12.2).
#[derive(Clone, Copy, Debug, PartialEq, Eq)]
pub struct Temporary {
    pub local: u32,
    pub ty: TyId,
    pub in_branch: bool,
}

/// The temporaries that are found so far, and the number of the next local that is added.
#[derive(Drop)]
pub struct Found {
    pub next: u32,
    pub made: Items<Temporary>,
}

impl Found {
    /// So many locals are passed.
    #[tactic(auto, unfolding(crate::specs::Finds::skipped))]
    fn skip(&mut self, count: usize) -> Result<(), Memory>
        ensures { OnOk result (self.new ≡ spec.skipped count self.old) }
    {
        self.next = beyond(self.next, count)?;
        Ok(())
    }

    /// A temporary is there.
    #[tactic(auto, unfolding(crate::specs::Finds::listed))]
    fn list(&mut self, local: u32, ty: TyId, in_branch: bool) -> Result<(), Memory>
        ensures { OnOk result (self.new ≡ spec.listed local ty in_branch self.old) }
    {
        self.made.push(Temporary {
            local,
            ty,
            in_branch,
        })
    }
}

/// The temporaries of a full expression whose locals are numbered from the first, in the order in which they are there.
pub fn temporaries_of(
    alloc: Global,
    unit: &CoreUnit,
    e: &Core,
    first: u32,
) -> Result<Items<Temporary>, Memory>
    requires { are_known (tables_of unit.now) e.now ≡ true }
    ensures { IfOk result (λ made. made ≡ found_in (piece unit.now.types e.now) first) }
{
    let mut found = Found {
        next: first,
        made: Items::new(alloc),
    };
    find(unit, e, false, &mut found)?;
    let Found { made, .. } = found;
    Ok(made)
}

/// Finds the temporaries of an expression, in a branch or not. Of what is not built yet none is found.
#[cycle(temporaries)]
fn find(unit: &CoreUnit, e: &Core, in_branch: bool, found: &mut Found) -> Result<(), Memory>
    requires { are_known (tables_of unit.now) e.now ≡ true }
    ensures { OnOk result (found.new ≡ (piece unit.now.types e.now).finds in_branch found.old) }
{
    match e {
        Core::Read { place: a, .. }
        | Core::Address { place: a, .. }
        | Core::Dereference { pointer: a, .. }
        | Core::Decay { array: a, .. }
        | Core::Convert { operand: a, .. }
        | Core::FromVoid { operand: a, .. }
        | Core::Unary { operand: a, .. }
        | Core::Not { operand: a, .. }
        | Core::Increment { place: a, .. }
        | Core::Bind { operand: a, .. } => find(unit, a.get(), in_branch, found),
        Core::Index {
            left: a,
            right: b,
            ..
        }
        | Core::Operate {
            left: a,
            right: b,
            ..
        }
        | Core::PointerOperate {
            left: a,
            right: b,
            ..
        }
        | Core::Store {
            place: a,
            value: b,
            ..
        }
        | Core::Update {
            place: a,
            value: b,
            ..
        } => {
            find(unit, a.get(), in_branch, found)?;
            find(unit, b.get(), in_branch, found)
        }
        Core::And {
            left: a,
            right: b,
            ..
        }
        | Core::Or {
            left: a,
            right: b,
            ..
        } => {
            find(unit, a.get(), in_branch, found)?;
            find(unit, b.get(), true, found)
        }
        Core::Conditional {
            condition,
            yes,
            no,
            ..
        } => {
            find(unit, condition.get(), in_branch, found)?;
            find(unit, yes.get(), true, found)?;
            find(unit, no.get(), true, found)
        }
        Core::Comma { operands, .. } => find_each(unit, operands.as_slice(), in_branch, found),
        Core::Temporary { ty, start, .. } => {
            let local = found.next;
            found.skip(1)?;
            find(unit, start.get(), in_branch, found)?;
            found.list(local, *ty, in_branch)
        }
        Core::Call {
            ty,
            object: None,
            arguments,
            ..
        } => {
            found.skip(parameters(unit, *ty).len())?;
            find_each(unit, arguments.as_slice(), in_branch, found)
        }
        Core::PointerCall {
            object: None,
            pointer,
            ty,
            arguments,
            ..
        } => {
            found.skip(parameters(unit, *ty).len())?;
            find(unit, pointer.get(), in_branch, found)?;
            find_each(unit, arguments.as_slice(), in_branch, found)
        }
        _ => Ok(()),
    }
}

/// The same of expressions in order.
#[cycle(temporaries)]
fn find_each(
    unit: &CoreUnit,
    all: &[Core],
    in_branch: bool,
    found: &mut Found,
) -> Result<(), Memory>
    requires { all_of (tables_of unit.now) (map (are_known (tables_of unit.now)) all.now) ≡ true }
    ensures { OnOk result (found.new ≡ find_all (map (piece unit.now.types) all.now) in_branch found.old) }
{
    for e in all {
        find(unit, e, in_branch, found)?;
    }
    Ok(())
}
