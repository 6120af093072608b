//! The labels of a switch.

ghost use Rattle.std.specs.Prelude.{◌≡◌, ◌||◌, ◌&&◌, [], int_le};
ghost use Rattle.cf_base.specs.declared.kind.Kind.TheVariants as kind;
ghost use Rattle.cf_lower_held.specs.Scenes.{statement_in, statements_in};
ghost use Rattle.cf_lower_held.specs.declared.scene.Scene.{Scene as SceneOf};
ghost use Rattle.cf_lower_place.specs.InPlace as in_place;
ghost use Rattle.cf_plain.specs.Valid as valid;
ghost use Rattle.cf_lowerable_types.specs.Kinds.{has_kind};
ghost use Rattle.cf_lowerable_places.specs.Contents.{known};
ghost use Rattle.cf_lowerable_places.specs.Labels as spec;

use crate::content::Content;
use cf_base::{Items, Kind};
use cf_lowerable_types::{Kinds, fits};
use cf_plain::Plain;

/// What label a statement is, if it is one.
#[derive(Clone, Copy, Debug, PartialEq, Eq)]
pub enum Label {
    /// Of a constant.
    Case(i64),
    /// Of all other numbers.
    Default,
    /// It is none.
    No,
}

/// What label a statement is.
#[tactic(auto, using(crate::proofs::LabelForms::case_is, crate::proofs::LabelForms::default_is, crate::proofs::LabelForms::no_act, crate::proofs::LabelForms::no_set, crate::proofs::LabelForms::no_if, crate::proofs::LabelForms::no_loop, crate::proofs::LabelForms::no_switch, crate::proofs::LabelForms::no_break, crate::proofs::LabelForms::no_continue, crate::proofs::LabelForms::no_return, crate::proofs::LabelForms::no_parts))]
pub fn label_of(s: &Plain) -> Label
    ensures { (x : SceneOf) → result ≡ spec.label_in (statement_in x s.now) }
{
    match s {
        Plain::Case { value } => Label::Case(*value),
        Plain::Default => Label::Default,
        Plain::Act { .. } => Label::No,
        Plain::Set { .. } => Label::No,
        Plain::If { .. } => Label::No,
        Plain::Loop { .. } => Label::No,
        Plain::Switch { .. } => Label::No,
        Plain::Break => Label::No,
        Plain::Continue => Label::No,
        Plain::Return { .. } => Label::No,
        Plain::Parts { .. } => Label::No,
    }
}

/// Whether it is one.
pub fn is_label(label: Label) -> bool
    ensures { result ≡ spec.is_label label }
{
    match label {
        Label::Case(_) | Label::Default => true,
        Label::No => false,
    }
}

fn is_same_number(a: i64, b: i64) -> bool
    ensures { result ≡ (int_le b a && int_le a b) }
{
    b <= a && a <= b
}

/// Whether both are labels, and the same.
fn same_label(a: Label, b: Label) -> bool
    ensures { result ≡ spec.same_label a b }
{
    match a {
        Label::Case(number) => match b {
            Label::Case(other) => is_same_number(number, other),
            Label::Default => false,
            Label::No => false,
        },
        Label::Default => match b {
            Label::Default => true,
            Label::Case(_) => false,
            Label::No => false,
        },
        Label::No => false,
    }
}

/// Whether a label is of this kind, if it is one of a constant.
fn label_fits(kind: Kind, label: Label) -> bool
    ensures { result ≡ spec.label_fits kind label }
{
    match label {
        Label::Case(value) => fits(kind, value),
        Label::Default | Label::No => true,
    }
}

/// Whether each label is of this kind (6.4.2).
fn labels_fit(kind: Kind, all: &Items<Plain>) -> bool
    ensures { (x : SceneOf) → result ≡ in_place.labels_fit kind (statements_in x all.now) }
{
    for s in all.as_slice() {
        if !label_fits(kind, label_of(s)) {
            return false;
        }
    }
    true
}

/// Whether no statement has the label.
fn lacks(label: Label, all: &[Plain]) -> bool
    ensures { (x : SceneOf) → result ≡ spec.lacks label (statements_in x all.now) }
{
    for s in all {
        if same_label(label, label_of(s)) {
            return false;
        }
    }
    true
}

/// Whether no label stands twice (6.4.2).
#[tactic(auto, using(crate::proofs::LabelLaws::differ_ended, crate::proofs::LabelLaws::differ_more, crate::proofs::LabelLaws::differ_stops))]
pub fn labels_differ(all: &Items<Plain>) -> bool
    ensures { (x : SceneOf) → result ≡ valid.labels_differ [] (statements_in x all.now) }
{
    let mut rest = all.as_slice();
    while let Some((s, others)) = rest.split_first() {
        if !lacks(label_of(s), others) {
            return false;
        }
        rest = others;
    }
    true
}

fn both(a: bool, b: bool) -> bool
    ensures { result ≡ (a && b) }
{
    a && b
}

fn either(a: bool, b: bool) -> bool
    ensures { result ≡ (a || b) }
{
    a || b
}

/// Whether a number of these types goes to labels that one of the types has.
fn selects(kinds: &Kinds, kind: Kind, all: &Items<Plain>) -> bool
    ensures { (x : SceneOf) → result ≡ (has_kind kinds.now kind && in_place.labels_fit kind (statements_in x all.now)) }
{
    both(kinds.has(kind), labels_fit(kind, all))
}

/// Whether it goes to labels of int or to labels of unsigned int.
fn selects_any(kinds: &Kinds, all: &Items<Plain>) -> bool
    ensures { (x : SceneOf) → result ≡ ((has_kind kinds.now kind.Int && in_place.labels_fit kind.Int (statements_in x all.now)) || (has_kind kinds.now kind.UInt && in_place.labels_fit kind.UInt (statements_in x all.now))) }
{
    let signed = selects(kinds, Kind::Int, all);
    let unsigned = selects(kinds, Kind::UInt, all);
    either(signed, unsigned)
}

/// Whether a switch goes by what a register holds to labels that it may have.
pub fn switches(content: &Content, all: &Items<Plain>) -> bool
    ensures { (x : SceneOf) → result ≡ in_place.switches (known x.tables.now content.now) (statements_in x all.now) }
{
    match content {
        Content::Number(kinds) => selects_any(kinds, all),
        Content::Nothing => false,
        Content::Place(_) => false,
        Content::Code(_) => false,
        Content::Argument(_, _) => false,
    }
}
