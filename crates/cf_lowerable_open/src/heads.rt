//! What a statement is, as far as those before it ask.

ghost use Rattle.std.specs.Prelude.{◌≡◌};
ghost use Rattle.std.specs.Option.{option_map};
ghost use Rattle.cf_lowerable_open.specs.Heads as spec;
ghost use Rattle.cf_lowerable_open.specs.declared.heads.Head.TheVariants as variant;
ghost use Rattle.cf_lowerable_open.specs.Views.{action_in, statement_in, statements_in, switched_in};

use crate::scene::Scene;
use cf_base::Items;
use cf_plain::{Action, Plain};

/// What a statement is, as far as those before it ask.
#[derive(Clone, Copy, Debug, PartialEq, Eq)]
pub enum Head {
    Case(i64),
    Default,
    Leaves,
    /// A local is declared, and its place is not kept.
    Declares(u32),
    /// A register is set, to a number or not.
    Sets(u32, bool),
    /// The local is ended where the register holds no 0, and nothing else is done.
    Ends(u32, u32),
    Other,
}

/// Whether an action gives a number.
fn is_number(x: &Scene<'_>, a: &Action) -> bool
    ensures { result ≡ spec.is_number (action_in x.now a.now) }
{
    matches!(a, Action::Number { .. })
}

/// What an action is whose value is not kept.
fn head_of_action(x: &Scene<'_>, a: &Action) -> Head
    ensures { result ≡ spec.head_of_action (action_in x.now a.now) }
{
    match a {
        Action::Declare { local, .. } => Head::Declares(*local),
        _ => Head::Other,
    }
}

/// The local that a statement ends, if it does no more.
fn finished(x: &Scene<'_>, s: &Plain) -> Option<u32>
    ensures { result ≡ spec.finished (statement_in x.now s.now) }
{
    match s {
        Plain::Act { action } => finished_by(x, action),
        Plain::Set { .. } => None,
        Plain::If { .. } => None,
        Plain::Loop { .. } => None,
        Plain::Switch { .. } => None,
        Plain::Case { .. } => None,
        Plain::Default => None,
        Plain::Break => None,
        Plain::Continue => None,
        Plain::Return { .. } => None,
        Plain::Parts { .. } => None,
    }
}

/// The local that an action ends.
fn finished_by(x: &Scene<'_>, a: &Action) -> Option<u32>
    ensures { result ≡ spec.finished_by (action_in x.now a.now) }
{
    match a {
        Action::Finish { local, .. } => Some(*local),
        _ => None,
    }
}

/// The local that statements end, if they do no more.
#[tactic(auto, using(crate::proofs::Alone::alone_one, crate::proofs::Alone::alone_other))]
fn ended_alone(x: &Scene<'_>, all: &[Plain]) -> Option<u32>
    ensures { result ≡ spec.ended_alone (statements_in x.now all.now) }
{
    if all.len() == 1 {
        finished(x, &all[0])
    } else {
        None
    }
}

/// What a branch by this register is.
fn head_of_branch(register: u32, local: Option<u32>, is_alone: bool) -> Head
    ensures { result ≡ spec.head_of_branch register local is_alone }
{
    match local {
        None => Head::Other,
        Some(local) => {
            if is_alone {
                Head::Ends(register, local)
            } else {
                Head::Other
            }
        }
    }
}

/// What a branch is.
fn branched(x: &Scene<'_>, register: u32, yes: &[Plain], no: &[Plain]) -> Head
    ensures { result ≡ spec.head_of_branch register (spec.ended_alone (statements_in x.now yes.now)) (spec.is_nothing (statements_in x.now no.now)) }
{
    head_of_branch(register, ended_alone(x, yes), is_nothing(x, no))
}

/// Whether there is no statement.
fn is_nothing(x: &Scene<'_>, all: &[Plain]) -> bool
    ensures { result ≡ spec.is_nothing (statements_in x.now all.now) }
{
    all.is_empty()
}

/// What a label of a number is.
fn case_head(value: &i64) -> Head
    ensures { result ≡ variant.Case value.now }
{
    Head::Case(*value)
}

/// What a statement is.
pub fn read_head(x: &Scene<'_>, s: &Plain) -> Head
    ensures { result ≡ spec.head_of (statement_in x.now s.now) }
{
    match s {
        Plain::Act { action } => head_of_action(x, action),
        Plain::Set { register, action } => Head::Sets(*register, is_number(x, action)),
        Plain::If { register, yes, no } => { branched(x, *register, yes.as_slice(), no.as_slice()) }
        Plain::Loop { .. } => Head::Other,
        Plain::Switch { .. } => Head::Other,
        Plain::Case { value } => case_head(value),
        Plain::Default => Head::Default,
        Plain::Break => Head::Leaves,
        Plain::Continue => Head::Other,
        Plain::Return { .. } => Head::Other,
        Plain::Parts { .. } => Head::Other,
    }
}

/// A switch.
#[derive(Clone, Copy)]
pub struct Switched<'a> {
    pub register: u32,
    pub body: &'a Items<Plain>,
}

/// The switch that a statement is, if it is one.
pub fn switch_in<'a>(x: &Scene<'_>, s: &'a Plain) -> Option<Switched<'a>>
    ensures { option_map (switched_in x.now) result ≡ spec.as_switch (statement_in x.now s.now) }
{
    match s {
        Plain::Switch { register, body } => Some(Switched {
            register: *register,
            body,
        }),
        Plain::Act { .. } => None,
        Plain::Set { .. } => None,
        Plain::If { .. } => None,
        Plain::Loop { .. } => None,
        Plain::Case { .. } => None,
        Plain::Default => None,
        Plain::Break => None,
        Plain::Continue => None,
        Plain::Return { .. } => None,
        Plain::Parts { .. } => None,
    }
}
