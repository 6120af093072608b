//! The statements of a function.

ghost use Rattle.std.specs.Prelude.{◌≡◌, ◌&&◌, Bool, IfOk, OnOk};
ghost use Rattle.cf_lower.specs.Kept as definition;
ghost use Rattle.cf_lower_held.specs.Scenes.{action_in, locals_in, statement_in, statements_in};
ghost use Rattle.cf_lower_place.specs.InPlace as in_place;
ghost use Rattle.cf_plain.specs.Plain as plain;
ghost use Rattle.cf_plain.specs.Plain.{Plains};
ghost use Rattle.cf_lowerable_places.specs.Contents.{knowing};
ghost use Rattle.cf_lowerable_places.specs.Fits.{fits_in};

use crate::contents::Contents;
use crate::labels::{is_label, label_of, labels_differ, switches};
use crate::leaves::{may_do, may_give, may_set};
use crate::operands::is_integer;
use crate::setting::{held, set};
use cf_base::{Items, Memory};
use cf_lower_held::Scene;
use cf_plain::{Action, Plain};

/// Whether statements are in place, where `break` and `continue` may stand or not, and what the registers hold behind them.
#[cycle(statements)]
pub fn statements(
    x: &Scene<'_>,
    all: &Items<Plain>,
    breaks: bool,
    continues: bool,
    cs: &mut Contents,
) -> Result<bool, Memory>
    ensures placed { IfOk result (λ good. good ≡ in_place.all_in_place (locals_in x.now) (fits_in x.now) breaks continues (statements_in x.now all.now) (knowing x.now cs.old)) }
    ensures held { OnOk result (knowing x.now cs.new ≡ definition.after_all (locals_in x.now) (statements_in x.now all.now) (knowing x.now cs.old)) }
{
    let mut good = true;
    for s in all.as_slice() {
        let here = statement(x, s, breaks, continues, cs)?;
        good = both(good, here);
    }
    Ok(good)
}

/// Whether both are so.
fn both(a: bool, b: bool) -> bool
    ensures { result ≡ (a && b) }
{
    a && b
}

/// Whether all three are so.
fn all_three(a: bool, b: bool, c: bool) -> bool
    ensures { result ≡ (a && (b && c)) }
{
    a && (b && c)
}

/// Whether statements are in place before which registers hold this, and which others follow.
#[cycle(statements)]
fn apart(
    x: &Scene<'_>,
    all: &Items<Plain>,
    breaks: bool,
    continues: bool,
    cs: &Contents,
) -> Result<bool, Memory>
    ensures { IfOk result (λ good. good ≡ in_place.all_in_place (locals_in x.now) (fits_in x.now) breaks continues (statements_in x.now all.now) (knowing x.now cs.now)) }
{
    let mut inner = cs.copied(x.alloc)?;
    let good = statements(x, all, breaks, continues, &mut inner)?;
    Ok(good)
}

/// The same of what an action leaves in a register.
fn sets(x: &Scene<'_>, register: u32, action: &Action, cs: &mut Contents) -> Result<bool, Memory>
    ensures placed { IfOk result (λ good. good ≡ fits_in x.now (knowing x.now cs.old) (plain.set register (action_in x.now action.now))) }
    ensures held { OnOk result (knowing x.now cs.new ≡ definition.keep (knowing x.now cs.old) register (definition.kept_by (locals_in x.now) (knowing x.now cs.old) (action_in x.now action.now))) }
{
    let good = may_set(x, cs, action)?;
    set(x, cs, register, action)?;
    Ok(good)
}

/// Whether a register holds a number.
#[tactic(auto, using(crate::proofs::StatementLaws::number_at))]
fn is_number(x: &Scene<'_>, register: u32, cs: &Contents) -> bool
    ensures { result ≡ in_place.is_number (knowing x.now cs.now register) }
{
    is_integer(&held(x, cs, register))
}

/// The registers that a loop sets hold nothing any more.
#[tactic(auto, using(crate::proofs::StatementLaws::loop_behind))]
fn forget_loop(x: &Scene<'_>, body: &Items<Plain>, next: &Items<Plain>, cs: &mut Contents)
    ensures { knowing x.now cs.new ≡ definition.after (locals_in x.now) (plain.loop (statements_in x.now body.now) (statements_in x.now next.now)) (knowing x.now cs.old) }
{
    cs.forget(x, body);
    cs.forget(x, next);
}

/// A label or statement of a switch, where the registers hold this at each label.
#[cycle(statements)]
fn item(
    x: &Scene<'_>,
    s: &Plain,
    continues: bool,
    cs: &Contents,
    running: &mut Contents,
) -> Result<bool, Memory>
    ensures { (rest : Plains) → IfOk result (λ good. (good && in_place.items_in_place (locals_in x.now) (fits_in x.now) continues rest (knowing x.now cs.now) (knowing x.now running.new))
        ≡ in_place.items_in_place (locals_in x.now) (fits_in x.now) continues (plain.more (statement_in x.now s.now) rest) (knowing x.now cs.now) (knowing x.now running.old)) }
{
    if is_label(label_of(s)) {
        *running = cs.copied(x.alloc)?;
        Ok(true)
    } else {
        let good = statement(x, s, true, continues, running)?;
        Ok(good)
    }
}

/// Whether the labels and statements of a switch are in place, where the registers hold this before it and at each label.
#[cycle(statements)]
fn items(x: &Scene<'_>, all: &Items<Plain>, continues: bool, cs: &Contents) -> Result<bool, Memory>
    ensures { IfOk result (λ good. good ≡ in_place.items_in_place (locals_in x.now) (fits_in x.now) continues (statements_in x.now all.now) (knowing x.now cs.now) (knowing x.now cs.now)) }
{
    let mut good = true;
    let mut running = cs.copied(x.alloc)?;
    for s in all.as_slice() {
        let here = item(x, s, continues, cs, &mut running)?;
        good = both(good, here);
    }
    Ok(good)
}

/// The same of a switch by the number in a register (6.4.2).
#[cycle(statements)]
fn switched(
    x: &Scene<'_>,
    register: u32,
    all: &Items<Plain>,
    continues: bool,
    cs: &mut Contents,
) -> Result<bool, Memory>
    ensures placed { (b : Bool) → IfOk result (λ good. good ≡ in_place.in_place (locals_in x.now) (fits_in x.now) b continues (plain.switch register (statements_in x.now all.now)) (knowing x.now cs.old)) }
    ensures held { OnOk result (knowing x.now cs.new ≡ definition.untouched (locals_in x.now) (knowing x.now cs.old) (statements_in x.now all.now)) }
{
    let selected = switches(&held(x, cs, register), all);
    let differ = labels_differ(all);
    cs.forget(x, all);
    let placed = items(x, all, continues, cs)?;
    Ok(all_three(selected, differ, placed))
}

/// Whether a statement is in place, and what the registers hold behind it.
#[cycle(statements)]
fn statement(
    x: &Scene<'_>,
    s: &Plain,
    breaks: bool,
    continues: bool,
    cs: &mut Contents,
) -> Result<bool, Memory>
    ensures placed { IfOk result (λ good. good ≡ in_place.in_place (locals_in x.now) (fits_in x.now) breaks continues (statement_in x.now s.now) (knowing x.now cs.old)) }
    ensures held { OnOk result (knowing x.now cs.new ≡ definition.after (locals_in x.now) (statement_in x.now s.now) (knowing x.now cs.old)) }
{
    match s {
        Plain::Act { action } => {
            let good = may_do(x, cs, action)?;
            Ok(good)
        }
        Plain::Set { register, action } => {
            let good = sets(x, *register, action, cs)?;
            Ok(good)
        }
        Plain::If { register, yes, no } => {
            let tested = is_number(x, *register, cs);
            let mut other = cs.copied(x.alloc)?;
            let first = statements(x, yes, breaks, continues, cs)?;
            let second = statements(x, no, breaks, continues, &mut other)?;
            cs.meet(x.tables, &other)?;
            Ok(all_three(tested, first, second))
        }
        Plain::Loop { body, next } => {
            forget_loop(x, body, next, cs);
            let first = apart(x, body, true, true, cs)?;
            let second = apart(x, next, true, false, cs)?;
            Ok(both(first, second))
        }
        Plain::Switch { register, body } => {
            let good = switched(x, *register, body, continues, cs)?;
            Ok(good)
        }
        Plain::Case { .. } => Ok(false),
        Plain::Default => Ok(false),
        Plain::Break => Ok(breaks),
        Plain::Continue => Ok(continues),
        Plain::Return { register } => {
            let good = may_give(x, cs, *register)?;
            Ok(good)
        }
        Plain::Parts { .. } => {
            cs.clear_all();
            Ok(false)
        }
    }
}
