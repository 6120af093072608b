//! The statements of a function.

ghost use Rattle.std.specs.Prelude.{◌≡◌, ◌++◌, [], ◌∷◌, map, option_map, IfOk, OnOk};
ghost use Rattle.cc_whole.specs.Plain as c;
ghost use Rattle.cc_whole.specs.Plain.{body_of, default_label, inner, statement_of, switch_in_order, switch_item_of};
ghost use Rattle.cc_whole.specs.declared.types.CConstant.TheVariants as constants;
ghost use Rattle.cf_base.specs.Integers.{convert};
ghost use Rattle.cf_base.specs.declared.kind.Kind.TheVariants as kind;
ghost use Rattle.cf_lower.specs.Kept as definition;
ghost use Rattle.cf_lower.specs.Statements as spec;
ghost use Rattle.cf_lower_held.specs.Holds.{erasing};
ghost use Rattle.cf_lower_held.specs.Scenes.{holding, locals_in, statement_in, statements_in};
ghost use Rattle.cf_lower_held.specs.declared.scene.Scene.{Scene as SceneOf};
ghost use Rattle.cf_lower_stmt.specs.Steps.{begun, branched, head, in_front, inside, label_in, written, written_items};
ghost use Rattle.cf_lower_stmt.specs.declared.around.Around.{Around as AroundOf};
ghost use Rattle.cf_plain.specs.Plain as plain;
ghost use Rattle.cf_plain.specs.Plain.{Plains};

use crate::around::{Around, Way};
use crate::leaves::{done, kept};
use crate::writes::{
    block, flag_set, give, if_flag, no_value, put_if, put_loop, put_switch, put_way,
};
use cc_whole::{CBody, CConstant, CStatement, CSwitchItem};
use cf_base::{Boxed, Items, Kind, Memory};
use cf_lower_expr::value_in;
use cf_lower_held::{Registers, Scene, forget, kept_by};
use cf_lower_names::{integer_in, zero};
use cf_plain::Plain;
use cf_types::convert_int;
use std::alloc::Global;

/// What is around the body of a loop whose turns end in a step: `continue` goes to the step, and `break` sets the flag before.
#[tactic(auto, using(crate::proofs::Arounds::around_stepped))]
fn in_stepped(around: Around) -> Result<Around, Memory>
    ensures { (x : SceneOf) → IfOk result (λ inner. inside x inner ≡ spec.in_stepped (inside x around)) }
{
    let depth = around.depth.checked_add(1).ok_or(Memory)?;
    Ok(Around {
        depth,
        leaving: Way::Flagged(around.depth),
        going_on: Way::Break,
    })
}

/// What is around the body of a loop.
fn in_loop(around: Around) -> Around
    ensures { (x : SceneOf) → inside x result ≡ spec.in_loop (inside x around) }
{
    Around {
        depth: around.depth,
        leaving: Way::Break,
        going_on: Way::Continue,
    }
}

/// What is around the statements of a switch: `continue` leaves it with the flag set.
#[tactic(auto, using(crate::proofs::Arounds::around_switch))]
fn in_switch(around: Around) -> Result<Around, Memory>
    ensures { (x : SceneOf) → IfOk result (λ inner. inside x inner ≡ spec.in_switch (inside x around)) }
{
    let depth = around.depth.checked_add(1).ok_or(Memory)?;
    Ok(Around {
        depth,
        leaving: Way::Break,
        going_on: Way::Flagged(around.depth),
    })
}

/// A statement comes among the labels of a switch.
fn state(items: &mut Items<CSwitchItem>, statement: CStatement) -> Result<(), Memory>
    ensures { OnOk result (written_items items.new ≡ written_items items.old ++ inner (statement_of statement) ∷ []) }
{
    items.push(CSwitchItem::Statement(statement))?;
    Ok(())
}

/// A label comes among the statements of a switch.
fn put_label(items: &mut Items<CSwitchItem>, label: CSwitchItem) -> Result<(), Memory>
    ensures { OnOk result (written_items items.new ≡ written_items items.old ++ switch_item_of label ∷ []) }
{
    items.push(label)?;
    Ok(())
}

/// Statements come among the labels of a switch.
fn state_all(items: &mut Items<CSwitchItem>, statements: Items<CStatement>) -> Result<(), Memory>
    ensures { OnOk result (written_items items.new ≡ written_items items.old ++ map inner (written statements)) }
{
    for statement in statements.into_vec() {
        state(items, statement)?;
    }
    Ok(())
}

/// The label of a constant.
fn label(value: i64) -> Result<CConstant, Memory>
    ensures { IfOk result (λ made. made ≡ constants.Signed (convert kind.Int value)) }
{
    let Ok(value) = i32::try_from(convert_int(value, Kind::Int)) else {
        return Err(Memory);
    };
    Ok(CConstant::Signed(value))
}

/// Writes a `return`.
fn put_return(
    x: &Scene<'_>,
    register: Option<u32>,
    rs: &Registers,
    code: &mut Items<CStatement>,
) -> Result<(), Memory>
    ensures { (around : AroundOf) → OnOk result (written code.new ≡ written code.old ++ spec.lowered (plain.give register) (inside x.now around) (holding x.now rs.now)) }
{
    match register {
        None => {
            no_value(x, code)?;
            Ok(())
        }
        Some(register) => {
            let value = value_in(x, rs, register)?;
            give(x, code, value)?;
            Ok(())
        }
    }
}

/// The body of these statements.
#[cycle(statements)]
fn body(
    x: &Scene<'_>,
    all: &Items<Plain>,
    around: Around,
    rs: &mut Registers,
) -> Result<Boxed<CBody>, Memory>
    ensures code { IfOk result (λ made. body_of made ≡ spec.block (spec.all_lowered (statements_in x.now all.now) (inside x.now around) (holding x.now rs.old))) }
    ensures held { OnOk result (holding x.now rs.new ≡ erasing (definition.after_all (locals_in x.now) (statements_in x.now all.now) (holding x.now rs.old))) }
{
    let mut code = Items::new(x.alloc);
    statements(x, all, around, rs, &mut code)?;
    let made = block(x.alloc, code)?;
    Ok(made)
}

/// Writes statements in order, and tells what the registers hold behind them.
#[cycle(statements)]
pub fn statements(
    x: &Scene<'_>,
    all: &Items<Plain>,
    around: Around,
    rs: &mut Registers,
    code: &mut Items<CStatement>,
) -> Result<(), Memory>
    ensures code { OnOk result (written code.new ≡ written code.old ++ spec.all_lowered (statements_in x.now all.now) (inside x.now around) (holding x.now rs.old)) }
    ensures held { OnOk result (holding x.now rs.new ≡ erasing (definition.after_all (locals_in x.now) (statements_in x.now all.now) (holding x.now rs.old))) }
{
    for s in all.as_slice() {
        statement(x, s, around, rs, code)?;
    }
    Ok(())
}

/// Writes a branch by the number in a register, whose two bodies are written (6.4.1). Behind it the registers hold what both ways keep.
fn join(
    x: &Scene<'_>,
    register: u32,
    chosen: Boxed<CBody>,
    rest: Boxed<CBody>,
    other: &Registers,
    rs: &mut Registers,
    code: &mut Items<CStatement>,
) -> Result<(), Memory>
    ensures code { OnOk result (written code.new ≡ written code.old ++ branched register (body_of chosen) (body_of rest) ∷ []) }
    ensures held { OnOk result (holding x.now rs.new ≡ definition.common (holding x.now rs.old) (holding x.now other.now)) }
{
    rs.meet(x.tables, other)?;
    let tested = integer_in(x.alloc, register)?;
    put_if(code, tested, chosen, rest)?;
    Ok(())
}

/// The statements of a turn that no step follows.
#[cycle(statements)]
fn plain_turn(
    x: &Scene<'_>,
    turn: &Items<Plain>,
    around: Around,
    rs: &Registers,
) -> Result<Items<CStatement>, Memory>
    ensures { IfOk result (λ made. written made ≡ spec.all_lowered (statements_in x.now turn.now) (spec.in_loop (inside x.now around)) (holding x.now rs.now)) }
{
    let mut inner = rs.copied(x.alloc)?;
    let mut made = Items::new(x.alloc);
    statements(x, turn, in_loop(around), &mut inner, &mut made)?;
    Ok(made)
}

/// The label of all other numbers, alone.
fn default_first(alloc: Global) -> Result<Items<CSwitchItem>, Memory>
    ensures { IfOk result (λ made. written_items made ≡ default_label ∷ []) }
{
    let mut made = Items::new(alloc);
    made.push(CSwitchItem::Default)?;
    Ok(made)
}

/// The statements of a turn that a step follows, in a switch that `continue` leaves.
#[cycle(statements)]
fn stepped_turn(
    x: &Scene<'_>,
    turn: &Items<Plain>,
    around: Around,
    rs: &Registers,
) -> Result<Items<CSwitchItem>, Memory>
    ensures { IfOk result (λ made. switch_in_order (written_items made) ≡ c.otherwise (spec.stated_all (spec.all_lowered (statements_in x.now turn.now) (spec.in_stepped (inside x.now around)) (holding x.now rs.now)) c.closed)) }
{
    let mut inner = rs.copied(x.alloc)?;
    let mut code = Items::new(x.alloc);
    statements(x, turn, in_stepped(around)?, &mut inner, &mut code)?;
    let mut items = default_first(x.alloc)?;
    state_all(&mut items, code)?;
    Ok(items)
}

/// What a turn begins with that a step follows: a switch with its statements, which `break` leaves with the flag set.
fn stepped_head(
    alloc: Global,
    flag: u32,
    items: Items<CSwitchItem>,
) -> Result<Items<CStatement>, Memory>
    ensures { IfOk result (λ made. written made ≡ head flag (switch_in_order (written_items items))) }
{
    let mut made = Items::new(alloc);
    flag_set(alloc, &mut made, flag, 0)?;
    let nothing = zero(alloc)?;
    put_switch(&mut made, nothing, items)?;
    let mut left = Items::new(alloc);
    put_way(alloc, &mut left, Way::Break)?;
    if_flag(alloc, &mut made, flag, left)?;
    Ok(made)
}

/// The statements of a turn before its step; alone where there is none.
#[cycle(statements)]
fn begin_turn(
    x: &Scene<'_>,
    turn: &Items<Plain>,
    alone: bool,
    around: Around,
    rs: &Registers,
) -> Result<Items<CStatement>, Memory>
    ensures { IfOk result (λ made. written made ≡ begun alone (statements_in x.now turn.now) (inside x.now around) (holding x.now rs.now)) }
{
    if alone {
        let plain = plain_turn(x, turn, around, rs)?;
        Ok(plain)
    } else {
        let items = stepped_turn(x, turn, around, rs)?;
        let made = stepped_head(x.alloc, around.depth, items)?;
        Ok(made)
    }
}

/// Writes a loop (6.5), by the statements of its turn before the step.
#[cycle(statements)]
fn end_turn(
    x: &Scene<'_>,
    step: &Items<Plain>,
    around: Around,
    rs: &Registers,
    first: Items<CStatement>,
    code: &mut Items<CStatement>,
) -> Result<(), Memory>
    ensures { OnOk result (written code.new ≡ written code.old ++ c.loop (spec.block (written first ++ spec.all_lowered (statements_in x.now step.now) (spec.in_loop (inside x.now around)) (holding x.now rs.now))) ∷ []) }
{
    let mut inner = rs.copied(x.alloc)?;
    let mut made = first;
    statements(x, step, in_loop(around), &mut inner, &mut made)?;
    let whole = block(x.alloc, made)?;
    put_loop(code, whole)?;
    Ok(())
}

/// The registers that a loop sets hold nothing any more.
fn forget_loop(x: &Scene<'_>, turn: &Items<Plain>, step: &Items<Plain>, rs: &mut Registers)
    ensures { holding x.now rs.new ≡ definition.untouched (locals_in x.now) (definition.untouched (locals_in x.now) (holding x.now rs.old) (statements_in x.now turn.now)) (statements_in x.now step.now) }
{
    forget(x, turn, rs);
    forget(x, step, rs);
}

/// The label that a statement of a switch is, if it is one.
#[tactic(auto, using(crate::proofs::Forms::label_case, crate::proofs::Forms::label_default, crate::proofs::Forms::no_label_act, crate::proofs::Forms::no_label_set, crate::proofs::Forms::no_label_if, crate::proofs::Forms::no_label_loop, crate::proofs::Forms::no_label_switch, crate::proofs::Forms::no_label_break, crate::proofs::Forms::no_label_continue, crate::proofs::Forms::no_label_return, crate::proofs::Forms::no_label_parts))]
fn label_of(s: &Plain) -> Result<Option<CSwitchItem>, Memory>
    ensures { (x : SceneOf) → IfOk result (λ found. option_map switch_item_of found ≡ label_in (statement_in x s.now)) }
{
    match s {
        Plain::Case { value } => Ok(Some(CSwitchItem::Case(label(*value)?))),
        Plain::Default => Ok(Some(CSwitchItem::Default)),
        Plain::Act { .. } => Ok(None),
        Plain::Set { .. } => Ok(None),
        Plain::If { .. } => Ok(None),
        Plain::Loop { .. } => Ok(None),
        Plain::Switch { .. } => Ok(None),
        Plain::Break => Ok(None),
        Plain::Continue => Ok(None),
        Plain::Return { .. } => Ok(None),
        Plain::Parts { .. } => Ok(None),
    }
}

/// A label or statement of a switch comes behind others. At a label the registers hold what they hold at each.
#[cycle(statements)]
fn item(
    x: &Scene<'_>,
    s: &Plain,
    around: Around,
    rs: &Registers,
    running: &mut Registers,
    made: &mut Items<CSwitchItem>,
) -> Result<(), Memory>
    ensures { (rest : Plains) → OnOk result (in_front (written_items made.new) (spec.items rest (inside x.now around) (holding x.now rs.now) (holding x.now running.new))
        ≡ in_front (written_items made.old) (spec.items (plain.more (statement_in x.now s.now) rest) (inside x.now around) (holding x.now rs.now) (holding x.now running.old))) }
{
    match label_of(s)? {
        Some(found) => {
            put_label(made, found)?;
            *running = rs.copied(x.alloc)?;
            Ok(())
        }
        None => {
            let mut code = Items::new(x.alloc);
            statement(x, s, around, running, &mut code)?;
            state_all(made, code)?;
            Ok(())
        }
    }
}

/// The labels and statements of a switch, where the registers hold this before it and at each label.
#[cycle(statements)]
fn items(
    x: &Scene<'_>,
    all: &Items<Plain>,
    around: Around,
    rs: &Registers,
) -> Result<Items<CSwitchItem>, Memory>
    ensures { IfOk result (λ made. switch_in_order (written_items made) ≡ spec.items (statements_in x.now all.now) (inside x.now around) (holding x.now rs.now) (holding x.now rs.now)) }
{
    let mut made = Items::new(x.alloc);
    let mut running = rs.copied(x.alloc)?;
    for s in all.as_slice() {
        item(x, s, around, rs, &mut running, &mut made)?;
    }
    Ok(made)
}

/// Writes a switch by the number in a register (6.4.2).
#[cycle(statements)]
fn switched(
    x: &Scene<'_>,
    all: &Items<Plain>,
    register: u32,
    around: Around,
    rs: &mut Registers,
    code: &mut Items<CStatement>,
) -> Result<(), Memory>
    ensures code { OnOk result (written code.new ≡ written code.old ++ spec.lowered (plain.switch register (statements_in x.now all.now)) (inside x.now around) (holding x.now rs.old)) }
    ensures held { OnOk result (holding x.now rs.new ≡ definition.untouched (locals_in x.now) (holding x.now rs.old) (statements_in x.now all.now)) }
{
    flag_set(x.alloc, code, around.depth, 0)?;
    forget(x, all, rs);
    let made = items(x, all, in_switch(around)?, rs)?;
    let tested = integer_in(x.alloc, register)?;
    put_switch(code, tested, made)?;
    let mut onward = Items::new(x.alloc);
    put_way(x.alloc, &mut onward, around.going_on)?;
    if_flag(x.alloc, code, around.depth, onward)?;
    Ok(())
}

/// Writes a statement, and tells what the registers hold behind it.
#[cycle(statements)]
fn statement(
    x: &Scene<'_>,
    s: &Plain,
    around: Around,
    rs: &mut Registers,
    code: &mut Items<CStatement>,
) -> Result<(), Memory>
    ensures code { OnOk result (written code.new ≡ written code.old ++ spec.lowered (statement_in x.now s.now) (inside x.now around) (holding x.now rs.old)) }
    ensures held { OnOk result (holding x.now rs.new ≡ erasing (definition.after (locals_in x.now) (statement_in x.now s.now) (holding x.now rs.old))) }
{
    match s {
        Plain::Act { action } => {
            done(x, action, rs, code)?;
            Ok(())
        }
        Plain::Set { register, action } => {
            let held = kept_by(x, rs, action);
            kept(x, *register, action, &held, rs, code)?;
            rs.keep(*register, held)?;
            Ok(())
        }
        Plain::If { register, yes, no } => {
            let mut other = rs.copied(x.alloc)?;
            let chosen = body(x, yes, around, rs)?;
            let rest = body(x, no, around, &mut other)?;
            join(x, *register, chosen, rest, &other, rs, code)?;
            Ok(())
        }
        Plain::Loop { body: turn, next } => {
            forget_loop(x, turn, next, rs);
            let first = begin_turn(x, turn, next.is_empty(), around, rs)?;
            end_turn(x, next, around, rs, first, code)?;
            Ok(())
        }
        Plain::Switch { register, body } => {
            switched(x, body, *register, around, rs, code)?;
            Ok(())
        }
        Plain::Case { .. } => Ok(()),
        Plain::Default => Ok(()),
        Plain::Break => {
            put_way(x.alloc, code, around.leaving)?;
            Ok(())
        }
        Plain::Continue => {
            put_way(x.alloc, code, around.going_on)?;
            Ok(())
        }
        Plain::Return { register } => {
            put_return(x, *register, rs, code)?;
            Ok(())
        }
        Plain::Parts { .. } => {
            rs.clear_all();
            Ok(())
        }
    }
}
