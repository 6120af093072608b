//! The statements of a function.

ghost use Rattle.std.specs.Prelude.{◌≡◌, ◌&&◌, is_some, true, IfOk, OnOk};
ghost use Rattle.cf_core.specs.FromTypes.{Tables as TablesOf};
ghost use Rattle.cf_plain.specs.Plain as plain;
ghost use Rattle.cf_plain_kept.specs.Kept as definition;
ghost use Rattle.cf_lowerable_ready.specs.Contents.{keeping, known};
ghost use Rattle.cf_lowerable_ready.specs.Scenes.{action_in, knowing, statement_in, statements_in};
ghost use Rattle.cf_lowerable_ready.specs.Steps.{gives_in, goes, setting, step_in, steps_in};

use crate::asked::is_ready;
use crate::content::{Content, is_integer};
use crate::contents::Contents;
use crate::forgets::forget;
use crate::given::{held, kept_by};
use crate::scene::Scene;
use crate::takes::type_takes;
use cf_base::{Items, Memory};
use cf_plain::{Action, Plain};

/// Whether statements are ready and take what they find, and what the registers hold behind them if they are.
#[cycle(statements)]
pub fn statements(x: &Scene<'_>, all: &Items<Plain>, cs: &mut Contents) -> Result<bool, Memory>
    ensures { IfOk result (λ good. goes good (knowing x.now cs.new) ≡ steps_in x.now (statements_in x.now all.now) (knowing x.now cs.old)) }
{
    for s in all.as_slice() {
        let good = statement(x, s, cs)?;
        if !good {
            return Ok(false);
        }
    }
    Ok(true)
}

/// Whether both are so.
fn both(a: bool, b: bool) -> bool
    ensures { result ≡ (a && b) }
{
    a && b
}

/// Whether all three are so.
fn all_three(a: bool, b: bool, c: bool) -> bool
    ensures { result ≡ (a && (b && c)) }
{
    a && (b && c)
}

/// Whether an action has left something in a register.
fn is_set(content: &Content) -> bool
    ensures { (tables : TablesOf) → result ≡ is_some (known tables content.now) }
{
    match content {
        Content::Unset => false,
        Content::NoValue => true,
        Content::Number(_) => true,
        Content::Place(_) => true,
        Content::Member(_) => true,
        Content::Object(_, _) => true,
    }
}

/// What an action gives, if it is ready and takes what it finds.
fn given(x: &Scene<'_>, a: &Action, cs: &Contents) -> Result<Content, Memory>
    ensures { IfOk result (λ c. known x.now.tables.now c ≡ gives_in x.now (knowing x.now cs.now) (action_in x.now a.now)) }
{
    let ready = is_ready(x, cs, a)?;
    if !ready {
        return Ok(Content::Unset);
    }
    let content = kept_by(x, cs, a)?;
    Ok(content)
}

/// A statement that keeps nothing.
fn acts(x: &Scene<'_>, a: &Action, cs: &Contents) -> Result<bool, Memory>
    ensures { IfOk result (λ good. goes good (knowing x.now cs.now) ≡ step_in x.now (plain.act (action_in x.now a.now)) (knowing x.now cs.now)) }
{
    match given(x, a, cs) {
        Ok(content) => Ok(is_set(&content)),
        Err(memory) => Err(memory),
    }
}

/// A register holds from now on what an action has left, if it has left something.
fn keeps(cs: &mut Contents, register: u32, content: &Content) -> Result<bool, Memory>
    ensures { (tables : TablesOf) → IfOk result (λ good. goes good (keeping tables cs.new) ≡ setting (keeping tables cs.old) register (known tables content.now)) }
{
    let good = is_set(content);
    if !good {
        return Ok(false);
    }
    cs.keep(register, *content)?;
    Ok(true)
}

/// A statement that sets a register.
fn sets(x: &Scene<'_>, register: u32, a: &Action, cs: &mut Contents) -> Result<bool, Memory>
    ensures { IfOk result (λ good. goes good (knowing x.now cs.new) ≡ step_in x.now (plain.set register (action_in x.now a.now)) (knowing x.now cs.old)) }
{
    match given(x, a, cs) {
        Ok(content) => {
            let good = keeps(cs, register, &content)?;
            Ok(good)
        }
        Err(memory) => Err(memory),
    }
}

/// A `return`.
fn gives(x: &Scene<'_>, register: Option<u32>, cs: &Contents) -> Result<bool, Memory>
    ensures { IfOk result (λ good. goes good (knowing x.now cs.now) ≡ step_in x.now (plain.give register) (knowing x.now cs.now)) }
{
    match register {
        None => Ok(true),
        Some(register) => {
            let content = held(x, cs, register);
            let good = type_takes(x.tables, x.result, &content)?;
            Ok(good)
        }
    }
}

/// What registers hold where two ways meet, if both are gone.
fn meet_if(x: &Scene<'_>, good: bool, cs: &mut Contents, other: &Contents) -> Result<(), Memory>
    ensures { OnOk result (good ≡ true → knowing x.now cs.new ≡ definition.common (knowing x.now cs.old) (knowing x.now other.now)) }
{
    if good {
        cs.meet(x.tables, other)?;
        Ok(())
    } else {
        Ok(())
    }
}

/// Whether statements are ready and take what they find where no register is set before.
#[cycle(statements)]
fn begins(x: &Scene<'_>, all: &Items<Plain>) -> Result<bool, Memory>
    ensures { IfOk result (λ good. good ≡ is_some (steps_in x.now (statements_in x.now all.now) definition.nothing_set)) }
{
    let mut inner = Contents::new(x.alloc);
    let good = statements(x, all, &mut inner)?;
    Ok(good)
}

/// A switch by the number in a register.
#[cycle(statements)]
fn switched(
    x: &Scene<'_>,
    register: u32,
    all: &Items<Plain>,
    cs: &mut Contents,
) -> Result<bool, Memory>
    ensures { IfOk result (λ good. goes good (knowing x.now cs.new) ≡ step_in x.now (plain.switch register (statements_in x.now all.now)) (knowing x.now cs.old)) }
{
    let content = held(x, cs, register);
    let tested = is_integer(&content);
    let good = begins(x, all)?;
    forget(x, all, cs);
    Ok(both(tested, good))
}

/// Whether a statement is ready and takes what it finds, and what the registers hold behind it if it is.
#[cycle(statements)]
fn statement(x: &Scene<'_>, s: &Plain, cs: &mut Contents) -> Result<bool, Memory>
    ensures { IfOk result (λ good. goes good (knowing x.now cs.new) ≡ step_in x.now (statement_in x.now s.now) (knowing x.now cs.old)) }
{
    match s {
        Plain::Act { action } => acts(x, action, cs),
        Plain::Set { register, action } => sets(x, *register, action, cs),
        Plain::If { register, yes, no } => {
            let content = held(x, cs, *register);
            let tested = is_integer(&content);
            let mut other = cs.copied(x.alloc)?;
            let first = statements(x, yes, cs)?;
            let second = statements(x, no, &mut other)?;
            let good = all_three(tested, first, second);
            meet_if(x, good, cs, &other)?;
            Ok(good)
        }
        Plain::Loop { body, next } => {
            let first = begins(x, body)?;
            let second = begins(x, next)?;
            cs.clear_all();
            Ok(both(first, second))
        }
        Plain::Switch { register, body } => switched(x, *register, body, cs),
        Plain::Case { .. } => {
            cs.clear_all();
            Ok(true)
        }
        Plain::Default => {
            cs.clear_all();
            Ok(true)
        }
        Plain::Break => Ok(true),
        Plain::Continue => Ok(true),
        Plain::Return { register } => gives(x, *register, cs),
        Plain::Parts { .. } => Ok(false),
    }
}
