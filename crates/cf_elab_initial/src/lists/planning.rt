ghost use Rattle.std.specs.Prelude.{◌≡◌, IfOk, slice_get, option_map};
ghost use Rattle.cf_elab.specs.Lists as lists;
ghost use Rattle.cf_elab_env.specs.Holds.{IsType};
ghost use Rattle.cf_elab_initial.specs.Lists.Fronts as front;
ghost use Rattle.cf_elab_initial.specs.Lists.Seen.{plan_seen, plans_seen, tree_seen, trees_seen};
ghost use Rattle.cf_elab_initial.specs.Lists.Shut as shut;

use crate::lists::form::{Form, Row, form_of};
use crate::lists::front::{Front, LoneText, at_most, first, front_by, is_done, lone_text, queued};
use crate::lists::plan::Plan;
use crate::lists::tree::Tree;
use cf_base::{Broken, Bytes, Items, Memory, Rule};
use cf_elab_env::Env;
use cf_types::TyId;
use std::collections::VecDeque;

/// How one initialiser initialises an object of the type; the initialiser's own faults stand at the place (8.4).
#[tactic(auto, using(crate::proofs::ListsLaws::PlanLaws::one_laws))]
pub fn by_one(env: &Env, ty: TyId, at: u32, tree: Tree) -> Result<Plan, Memory>
    requires { IsType env.now.types ty }
    ensures { IfOk result (λ plan. plan_seen plan ≡ shut.by_one env.now.types ty at (tree_seen tree)) }
{
    env.holds();
    match form_of(env, ty) {
        Form::Scalar(scalar) => Ok(scalar_by_one(scalar, at, tree)),
        Form::Array(row) => {
            let plan = array_by_one(env, row, at, tree)?;
            Ok(plan)
        }
    }
}

/// An initialiser in braces initialises no scalar.
#[tactic(auto, using(crate::proofs::ListsLaws::PlanLaws::scalar_laws))]
fn scalar_by_one(ty: TyId, at: u32, tree: Tree) -> Plan
    ensures { plan_seen result ≡ lists.scalar_by_one ty at (tree_seen tree) }
{
    match tree.brace() {
        Some(brace) => misplaced(brace),
        None => Plan::ByValue { at, ty, tree },
    }
}

/// No initialiser of this form may stand here.
fn misplaced(at: u32) -> Plan
    ensures { plan_seen result ≡ lists.wrong 28 at }
{
    Plan::Wrong(Broken {
        rule: Rule::new(28),
        at,
    })
}

/// A literal initialises an array of chars that has room for its zero behind (8.4.2).
#[tactic(auto, using(crate::proofs::ListsLaws::PlanLaws::text_laws))]
fn text_fits(count: u32, at: u32, bytes: Bytes) -> Plan
    ensures { plan_seen result ≡ lists.text_fits at count bytes }
{
    if bytes.len() < count as usize {
        Plan::ByText { at, bytes }
    } else {
        misplaced(at)
    }
}

/// How one initialiser initialises an array.
#[cycle(planning)]
#[tactic(auto, using(crate::proofs::ListsLaws::PlanLaws::array_laws))]
fn array_by_one(env: &Env, row: Row, at: u32, tree: Tree) -> Result<Plan, Memory>
    requires { IsType env.now.types row.element }
    ensures { IfOk result (λ plan. plan_seen plan ≡ shut.array_by_one env.now.types row at (tree_seen tree)) }
{
    match tree {
        Tree::Leaf { .. } => Ok(misplaced(at)),
        Tree::Text { bytes, .. } => Ok(array_by_text(row, at, bytes)),
        Tree::Branch { at: brace, trees } => {
            let plan = braced(env, row, brace, trees)?;
            Ok(plan)
        }
    }
}

/// A literal initialises an array of chars alone.
fn array_by_text(row: Row, at: u32, bytes: Bytes) -> Plan
    ensures { plan_seen result ≡ front.array_by_text row.is_char at row.count bytes }
{
    if row.is_char {
        text_fits(row.count, at, bytes)
    } else {
        misplaced(at)
    }
}

/// How initialisers in braces initialise an array: a literal alone may be its characters, and else each is for an element.
#[cycle(planning)]
#[tactic(auto, using(crate::proofs::ListsLaws::PlanLaws::braced_laws))]
fn braced(env: &Env, row: Row, at: u32, trees: Items<Tree>) -> Result<Plan, Memory>
    requires { IsType env.now.types row.element }
    ensures { IfOk result (λ plan. plan_seen plan ≡ shut.braced env.now.types row at (trees_seen trees)) }
{
    match lone_text(env.alloc(), row.is_char, trees.as_slice())? {
        Some(LoneText { at, bytes }) => Ok(text_fits(row.count, at, bytes)),
        None => {
            let plan = full_list(env, row, at, trees)?;
            Ok(plan)
        }
    }
}

/// The elements of an array by initialisers in braces. More than there are elements is K28 at the brace.
#[cycle(planning)]
#[tactic(auto, using(crate::proofs::ListsLaws::PlanLaws::full_laws))]
fn full_list(env: &Env, row: Row, at: u32, trees: Items<Tree>) -> Result<Plan, Memory>
    requires { IsType env.now.types row.element }
    ensures { IfOk result (λ plan. plan_seen plan ≡ shut.full_list env.now.types row at (trees_seen trees)) }
{
    let mut left = queued(trees);
    let count = at_most(row.count, &left);
    let plans = elements(env, row.element, count, &mut left)?;
    if is_done(&left) {
        Ok(Plan::ByList { at, plans })
    } else {
        Ok(misplaced(at))
    }
}

/// So many elements at most from the front of a list.
#[cycle(planning)]
#[tactic(auto, using(crate::proofs::ListsLaws::PlanLaws::element_laws))]
fn elements(
    env: &Env,
    ty: TyId,
    count: usize,
    left: &mut VecDeque<Tree>,
) -> Result<Items<Plan>, Memory>
    requires { IsType env.now.types ty }
    ensures { IfOk result (λ plans. shut.elements env.now.types ty count (trees_seen left.old.items) ≡ (plans_seen plans, trees_seen left.new.items)) }
{
    let mut plans = Items::new(env.alloc());
    let mut wanted = count;
    while wanted > 0 && !is_done(left) {
        plans.push(from_front(env, ty, left)?)?;
        wanted -= 1;
    }
    Ok(plans)
}

/// How an object of the type is initialised from the front of a list whose inner braces are left out.
#[cycle(planning)]
#[tactic(auto, using(crate::proofs::ListsLaws::PlanLaws::front_laws))]
fn from_front(env: &Env, ty: TyId, left: &mut VecDeque<Tree>) -> Result<Plan, Memory>
    requires { IsType env.now.types ty }
    ensures { IfOk result (λ plan. shut.from_front env.now.types ty (trees_seen left.old.items) ≡ (plan_seen plan, trees_seen left.new.items)) }
{
    env.holds();
    match form_of(env, ty) {
        Form::Scalar(scalar) => Ok(scalar_front(scalar, left)),
        Form::Array(row) => {
            let plan = array_front(env, row, left)?;
            Ok(plan)
        }
    }
}

/// A scalar by the first initialiser of a list.
#[tactic(auto, using(crate::proofs::ListsLaws::PlanLaws::scalar_front_laws))]
fn scalar_front(ty: TyId, left: &mut VecDeque<Tree>) -> Plan
    ensures { lists.front_by_one (lists.scalar_by_one ty) (trees_seen left.old.items) ≡ (plan_seen result, trees_seen left.new.items) }
{
    match left.pop_front() {
        None => misplaced(0),
        Some(tree) => {
            let at = tree.at();
            scalar_by_one(ty, at, tree)
        }
    }
}

/// An array by the first initialiser of a list, or by its elements from the front of it.
#[cycle(planning)]
#[tactic(auto, using(crate::proofs::ListsLaws::PlanLaws::array_front_laws))]
fn array_front(env: &Env, row: Row, left: &mut VecDeque<Tree>) -> Result<Plan, Memory>
    requires { IsType env.now.types row.element }
    ensures { IfOk result (λ plan. shut.array_front env.now.types row (trees_seen left.old.items) ≡ (plan_seen plan, trees_seen left.new.items)) }
{
    match front_by(row.is_char, first(left)) {
        Front::Nothing => Ok(misplaced(0)),
        Front::Whole => {
            let plan = whole_front(env, row, left)?;
            Ok(plan)
        }
        Front::Parts(at) => {
            let plan = parts_front(env, row, at, left)?;
            Ok(plan)
        }
    }
}

/// An array by the first initialiser of a list, which is for the whole of it.
#[cycle(planning)]
#[tactic(auto, using(crate::proofs::ListsLaws::PlanLaws::whole_laws))]
fn whole_front(env: &Env, row: Row, left: &mut VecDeque<Tree>) -> Result<Plan, Memory>
    requires known { IsType env.now.types row.element }
    requires whole { front.front_by row.is_char (option_map tree_seen (slice_get left.old.items 0)) ≡ front.whole }
    ensures { IfOk result (λ plan. shut.array_front env.now.types row (trees_seen left.old.items) ≡ (plan_seen plan, trees_seen left.new.items)) }
{
    match left.pop_front() {
        None => Ok(misplaced(0)),
        Some(tree) => {
            let at = tree.at();
            let plan = array_by_one(env, row, at, tree)?;
            Ok(plan)
        }
    }
}

/// An array by its elements from the front of a list, whose first initialiser stands at this byte place.
#[cycle(planning)]
#[tactic(auto, using(crate::proofs::ListsLaws::PlanLaws::parts_laws))]
fn parts_front(env: &Env, row: Row, at: u32, left: &mut VecDeque<Tree>) -> Result<Plan, Memory>
    requires known { IsType env.now.types row.element }
    requires parts { front.front_by row.is_char (option_map tree_seen (slice_get left.old.items 0)) ≡ front.parts at }
    ensures { IfOk result (λ plan. shut.array_front env.now.types row (trees_seen left.old.items) ≡ (plan_seen plan, trees_seen left.new.items)) }
{
    let count = at_most(row.count, left);
    let plans = elements(env, row.element, count, left)?;
    Ok(Plan::ByList { at, plans })
}
