//! How many registers and flags statements take.

ghost use Rattle.std.specs.Prelude.{◌≡◌, ◌+◌, map, IfOk};
ghost use Rattle.cf_lower.specs.Functions as spec;
ghost use Rattle.cf_plain.specs.View.{parts_in_order};
ghost use Rattle.cf_lower_fn.specs.Walks as walks;
ghost use Rattle.cf_lower_fn.specs.Walks.{built_at, statement_at, statements_at};

use cf_base::{Items, Memory};
use cf_lower_types::Tables;
use cf_plain::{Plain, PlainPart};

/// The registers that statements set are below this number.
#[cycle(bounds)]
#[tactic(auto, using(crate::proofs::Turns::bound_more, crate::proofs::Turns::bound_ended))]
pub(crate) fn bound(tables: &Tables<'_>, all: &Items<Plain>) -> u64
    ensures { result ≡ spec.all_bound (statements_at tables.now all.now) }
{
    let mut most = 0;
    for s in all.as_slice() {
        let here = bound_of(tables, s);
        most = most.max(here);
    }
    most
}

/// The same of a statement.
#[cycle(bounds)]
#[tactic(auto, using(crate::proofs::Forms::sets_one, crate::proofs::Forms::sets_if, crate::proofs::Forms::sets_loop, crate::proofs::Forms::sets_switch, crate::proofs::Forms::sets_parts, crate::proofs::Forms::sets_act, crate::proofs::Forms::sets_case, crate::proofs::Forms::sets_default, crate::proofs::Forms::sets_break, crate::proofs::Forms::sets_continue, crate::proofs::Forms::sets_return))]
fn bound_of(tables: &Tables<'_>, s: &Plain) -> u64
    ensures { result ≡ spec.bound (statement_at tables.now s.now) }
{
    match s {
        Plain::Set { register, .. } => u64::from(*register) + 1,
        Plain::If { yes, no, .. } => {
            let first = bound(tables, yes);
            let second = bound(tables, no);
            first.max(second)
        }
        Plain::Loop { body, next } => {
            let first = bound(tables, body);
            let second = bound(tables, next);
            first.max(second)
        }
        Plain::Switch { body, .. } => bound(tables, body),
        Plain::Parts { parts } => parts_bound(tables, parts),
        Plain::Act { .. } => 0,
        Plain::Case { .. } => 0,
        Plain::Default => 0,
        Plain::Break => 0,
        Plain::Continue => 0,
        Plain::Return { .. } => 0,
    }
}

/// The same of bases and data members.
#[cycle(bounds)]
#[tactic(auto, using(crate::proofs::Turns::parts_bound_more, crate::proofs::Turns::parts_bound_ended))]
fn parts_bound(tables: &Tables<'_>, parts: &Items<PlainPart>) -> u64
    ensures { result ≡ spec.parts_bound (parts_in_order (map (built_at tables.now) parts.now)) }
{
    let mut most = 0;
    for part in parts.as_slice() {
        let here = bound(tables, &part.statements);
        most = most.max(here);
    }
    most
}

/// How deep loops with a step, and switches, stand in each other.
#[cycle(nestings)]
#[tactic(auto, using(crate::proofs::Turns::nesting_more, crate::proofs::Turns::nesting_ended))]
pub(crate) fn nesting(tables: &Tables<'_>, all: &Items<Plain>) -> Result<u32, Memory>
    ensures { IfOk result (λ depth. depth ≡ spec.all_nesting (statements_at tables.now all.now)) }
{
    let mut most = 0;
    for s in all.as_slice() {
        let depth = nesting_of(tables, s)?;
        most = most.max(depth);
    }
    Ok(most)
}

/// One level more.
fn deeper(depth: u32) -> Result<u32, Memory>
    ensures { IfOk result (λ more. more ≡ depth + 1) }
{
    depth.checked_add(1).ok_or(Memory)
}

/// The same of a loop with these statements as its step, where they stand so deep in its body and in its step.
#[tactic(auto, using(crate::proofs::Loops::without_step, crate::proofs::Loops::with_step))]
fn loop_nesting(next: &Items<Plain>, inner: u32, after: u32) -> Result<u32, Memory>
    ensures { IfOk result (λ depth. depth ≡ walks.loop_nesting next.now inner after) }
{
    if next.is_empty() {
        return Ok(inner);
    }
    let turn = deeper(inner)?;
    Ok(turn.max(after))
}

/// The same of a statement.
#[cycle(nestings)]
#[tactic(auto, using(crate::proofs::Forms::stands_if, crate::proofs::Forms::stands_loop, crate::proofs::Forms::stands_switch, crate::proofs::Forms::stands_act, crate::proofs::Forms::stands_set, crate::proofs::Forms::stands_case, crate::proofs::Forms::stands_default, crate::proofs::Forms::stands_break, crate::proofs::Forms::stands_continue, crate::proofs::Forms::stands_return, crate::proofs::Forms::stands_parts))]
fn nesting_of(tables: &Tables<'_>, s: &Plain) -> Result<u32, Memory>
    ensures { IfOk result (λ depth. depth ≡ spec.nesting (statement_at tables.now s.now)) }
{
    match s {
        Plain::If { yes, no, .. } => {
            let first = nesting(tables, yes)?;
            let second = nesting(tables, no)?;
            Ok(first.max(second))
        }
        Plain::Loop { body, next } => {
            let inner = nesting(tables, body)?;
            let after = nesting(tables, next)?;
            let depth = loop_nesting(next, inner, after)?;
            Ok(depth)
        }
        Plain::Switch { body, .. } => {
            let inner = nesting(tables, body)?;
            let depth = deeper(inner)?;
            Ok(depth)
        }
        Plain::Act { .. } => Ok(0),
        Plain::Set { .. } => Ok(0),
        Plain::Case { .. } => Ok(0),
        Plain::Default => Ok(0),
        Plain::Break => Ok(0),
        Plain::Continue => Ok(0),
        Plain::Return { .. } => Ok(0),
        Plain::Parts { .. } => Ok(0),
    }
}
