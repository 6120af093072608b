//! What statements do, in order.

ghost use Rattle.std.specs.Prelude.{◌≡◌, ◌++◌, ◌∷◌, [], map, IfOk, OnOk};
ghost use Rattle.cf_core.specs.FromTypes.{Tables as TablesOf};
ghost use Rattle.cf_plain.specs.Named as spec;
ghost use Rattle.cf_plain.specs.View.{parts_in_order};
ghost use Rattle.cf_lower_fn.specs.Walks.{action_at, built_at, statement_at, statements_at, told};

use cf_base::{Items, Memory};
use cf_lower_types::Tables;
use cf_plain::{Action, Plain, PlainPart};
use std::alloc::Global;

/// Puts the actions of statements behind others.
#[cycle(actions)]
#[tactic(auto, using(crate::proofs::Turns::actions_more, crate::proofs::Turns::actions_ended))]
pub fn actions<'a>(
    tables: &Tables<'_>,
    all: &'a Items<Plain>,
    out: &mut Vec<&'a Action>,
) -> Result<(), Memory>
    ensures { OnOk result (told tables.now out.new.items ≡ told tables.now out.old.items ++ spec.all_actions (statements_at tables.now all.now)) }
{
    for s in all.as_slice() {
        of_statement(tables, s, out)?;
    }
    Ok(())
}

/// Puts those of a statement behind others.
#[cycle(actions)]
#[tactic(auto, using(crate::proofs::Forms::does_act, crate::proofs::Forms::does_set, crate::proofs::Forms::does_if, crate::proofs::Forms::does_loop, crate::proofs::Forms::does_switch, crate::proofs::Forms::does_case, crate::proofs::Forms::does_default, crate::proofs::Forms::does_break, crate::proofs::Forms::does_continue, crate::proofs::Forms::does_return, crate::proofs::Forms::does_parts))]
fn of_statement<'a>(
    tables: &Tables<'_>,
    s: &'a Plain,
    out: &mut Vec<&'a Action>,
) -> Result<(), Memory>
    ensures { OnOk result (told tables.now out.new.items ≡ told tables.now out.old.items ++ spec.actions (statement_at tables.now s.now)) }
{
    match s {
        Plain::Act { action } => {
            put(action, out)?;
            Ok(())
        }
        Plain::Set { action, .. } => {
            put(action, out)?;
            Ok(())
        }
        Plain::If { yes, no, .. } => {
            actions(tables, yes, out)?;
            actions(tables, no, out)?;
            Ok(())
        }
        Plain::Loop { body, next } => {
            actions(tables, body, out)?;
            actions(tables, next, out)?;
            Ok(())
        }
        Plain::Switch { body, .. } => {
            actions(tables, body, out)?;
            Ok(())
        }
        Plain::Parts { parts } => {
            of_parts(tables, parts, out)?;
            Ok(())
        }
        Plain::Case { .. } => Ok(()),
        Plain::Default => Ok(()),
        Plain::Break => Ok(()),
        Plain::Continue => Ok(()),
        Plain::Return { .. } => Ok(()),
    }
}

/// Puts an action behind others.
fn put<'a>(action: &'a Action, out: &mut Vec<&'a Action>) -> Result<(), Memory>
    ensures { (tables : TablesOf) → OnOk result (told tables out.new.items ≡ told tables out.old.items ++ action_at tables action.now ∷ []) }
{
    out.push(action)?;
    Ok(())
}

/// Puts those of bases and data members behind others.
#[cycle(actions)]
#[tactic(auto, using(crate::proofs::Turns::parts_more, crate::proofs::Turns::parts_ended))]
fn of_parts<'a>(
    tables: &Tables<'_>,
    parts: &'a Items<PlainPart>,
    out: &mut Vec<&'a Action>,
) -> Result<(), Memory>
    ensures { OnOk result (told tables.now out.new.items ≡ told tables.now out.old.items ++ spec.part_actions (parts_in_order (map (built_at tables.now) parts.now))) }
{
    for part in parts.as_slice() {
        actions(tables, &part.statements, out)?;
    }
    Ok(())
}

/// What statements do, in order.
#[tactic(auto, using(crate::proofs::Whole::told_first))]
pub fn actions_of<'a>(
    alloc: Global,
    tables: &Tables<'_>,
    all: &'a Items<Plain>,
) -> Result<Vec<&'a Action>, Memory>
    ensures { IfOk result (λ made. told tables.now made.items ≡ spec.all_actions (statements_at tables.now all.now)) }
{
    let mut made = Vec::new(alloc);
    actions(tables, all, &mut made)?;
    Ok(made)
}
