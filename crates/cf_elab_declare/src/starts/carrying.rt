ghost use Rattle.std.specs.Prelude.{◌≡◌, IfOk, OnOk};
ghost use Rattle.cf_elab_env.specs.Answered.{Agrees, AgreesAs};
ghost use Rattle.cf_elab_env.specs.Holds.{FitsIn, Grows, IsType, Known};
ghost use Rattle.cf_elab_initial.specs.Initials.Keeping.{keeping_seen};
ghost use Rattle.cf_elab_initial.specs.Lists.Seen.{plan_seen, plans_seen, tree_seen};
ghost use Rattle.cf_elab_declare.specs.Starts.Carried as carried;
ghost use Rattle.cf_elab_initial.specs.Lists.Known.{NumberFits, PlanKnown, PlansKnown, TreeKnown};
ghost use Rattle.cf_elab_declare.specs.Starts.Shut as shut;

use crate::starts::starts::Starts;
use cf_base::{Boxed, Broken, Bytes, Items, Memory, Rule};
use cf_core::Core;
use cf_elab_env::{Env, Stop};
use cf_elab_initial::{Keeping, Plan, Start, Tree, initial};
use cf_elab_operand::{literal, value_of};
use cf_types::TyId;
use std::collections::VecDeque;

/// The initialiser that a plan says, or the first rule that is broken from left to right (8.4.1).
#[cycle(carrying)]
#[tactic(auto, using(crate::proofs::StartsLaws::CarryLaws::plan_laws))]
pub(crate) fn carried_out(env: &mut Env, keeping: &Keeping, plan: Plan) -> Result<Start, Stop>
    requires { PlanKnown env.old.types (plan_seen plan) }
    ensures made { Agrees (shut.carried_out (keeping_seen keeping.now) (plan_seen plan) env.old) result env.new }
    ensures number { IfOk result (λ s. NumberFits env.new.types (plan_seen plan) s.number) }
    ensures grows { OnOk result (Grows env.old.types env.new.types) }
{
    match plan {
        Plan::ByValue { at, ty, tree } => {
            let start = by_tree(env, keeping, at, ty, tree)?;
            Ok(start)
        }
        Plan::ByList { at, plans } => {
            let start = by_list(env, keeping, at, plans)?;
            Ok(start)
        }
        Plan::ByText { at, bytes } => {
            let start = by_text(env, at, bytes)?;
            Ok(start)
        }
        Plan::Wrong(broken) => Err(Stop::Broken(broken)),
    }
}

/// A scalar of this type by a value or a literal.
#[tactic(auto, using(crate::proofs::StartsLaws::CarryLaws::tree_laws))]
fn by_tree(env: &mut Env, keeping: &Keeping, at: u32, ty: TyId, tree: Tree) -> Result<Start, Stop>
    requires known { TreeKnown env.old.types (tree_seen tree) }
    requires typed { IsType env.old.types ty }
    ensures made { Agrees (shut.by_tree (keeping_seen keeping.now) at ty (tree_seen tree) env.old) result env.new }
    ensures number { IfOk result (λ s. FitsIn env.new.types ty s.number) }
    ensures grows { OnOk result (Grows env.old.types env.new.types) }
{
    match tree {
        Tree::Leaf { value, .. } => {
            let start = initial(env, keeping, at, ty, value)?;
            Ok(start)
        }
        Tree::Text {
            literal_at,
            bytes,
            ..
        } => {
            let start = by_literal(env, keeping, at, ty, literal_at, bytes)?;
            Ok(start)
        }
        Tree::Branch { at: brace, .. } => Err(Stop::Broken(Broken {
            rule: Rule::new(28),
            at: brace,
        })),
    }
}

/// A scalar of this type by a string literal, whose own byte place is given.
#[tactic(auto, using(crate::proofs::StartsLaws::CarryLaws::literal_laws))]
fn by_literal(
    env: &mut Env,
    keeping: &Keeping,
    at: u32,
    ty: TyId,
    literal_at: u32,
    bytes: Bytes,
) -> Result<Start, Stop>
    requires { IsType env.old.types ty }
    ensures made { Agrees (shut.by_literal (keeping_seen keeping.now) at ty literal_at bytes env.old) result env.new }
    ensures number { IfOk result (λ s. FitsIn env.new.types ty s.number) }
    ensures grows { OnOk result (Grows env.old.types env.new.types) }
{
    let operand = literal(env, literal_at, bytes.as_slice())?;
    let value = value_of(env, operand)?;
    let start = initial(env, keeping, at, ty, value)?;
    Ok(start)
}

/// The characters of a literal.
fn by_text(env: &Env, at: u32, bytes: Bytes) -> Result<Start, Memory>
    ensures { IfOk result (λ s. s ≡ carried.characters at bytes) }
{
    let node = Boxed::new(env.alloc(), Core::Characters { at, bytes })?;
    Ok(Start::fixed(node, true))
}

/// An array by its elements; those that are left out are zero.
#[cycle(carrying)]
#[tactic(auto, using(crate::proofs::StartsLaws::CarryLaws::list_laws))]
fn by_list(env: &mut Env, keeping: &Keeping, at: u32, plans: Items<Plan>) -> Result<Start, Stop>
    requires { PlansKnown env.old.types (plans_seen plans) }
    ensures made { Agrees (shut.by_list (keeping_seen keeping.now) at (plans_seen plans) env.old) result env.new }
    ensures number { IfOk result (λ s. s.number ≡ carried.no_number) }
    ensures grows { OnOk result (Grows env.old.types env.new.types) }
{
    let starts = all_carried_out(env, keeping, plans)?;
    let start = listed(env, at, starts)?;
    Ok(start)
}

fn listed(env: &Env, at: u32, starts: Starts) -> Result<Start, Memory>
    ensures { IfOk result (λ s. s ≡ carried.list_start at (carried.starts_seen starts)) }
{
    let rest = Boxed::new(env.alloc(), Core::Zeros { at })?;
    let node = Boxed::new(
        env.alloc(),
        Core::List {
            at,
            starts: starts.nodes,
            rest,
        },
    )?;
    Ok(Start::fixed(node, starts.are_constant))
}

/// What plans say, in order.
#[cycle(carrying)]
#[tactic(auto, using(crate::proofs::StartsLaws::CarryLaws::all_laws))]
fn all_carried_out(env: &mut Env, keeping: &Keeping, plans: Items<Plan>) -> Result<Starts, Stop>
    requires { PlansKnown env.old.types (plans_seen plans) }
    ensures made { AgreesAs carried.starts_seen (shut.all_carried_out (keeping_seen keeping.now) (plans_seen plans) env.old) result env.new }
    ensures grows { OnOk result (Grows env.old.types env.new.types) }
{
    let mut left = queued(plans);
    let mut starts = Starts::new(env.alloc());
    while let Some(plan) = left.pop_front() {
        let start = carried_out(env, keeping, plan)?;
        starts.push(start)?;
    }
    Ok(starts)
}

/// Plans to be taken from the front.
fn queued(plans: Items<Plan>) -> VecDeque<Plan>
    ensures { result.items ≡ plans }
{
    VecDeque::from(plans.into_vec())
}
