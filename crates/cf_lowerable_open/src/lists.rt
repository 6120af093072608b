//! Lists of locals, the last that was declared first.

ghost use Rattle.std.specs.Prelude.{◌≡◌, ◌==◌, ◌&&◌, ◌∷◌, false, length, IfOk, OnOk};
ghost use Rattle.std.specs.List.{list_all, list_any};
ghost use Rattle.cf_lower_kept.specs.Opened as spec;
ghost use Rattle.cf_core.specs.FromTypes.{type_of};
ghost use Rattle.cf_lowerable_open.specs.Lists as walk;
ghost use Rattle.cf_lowerable_open.specs.Told.{all_told, told};
ghost use Rattle.cf_lowerable_open.specs.Views.{tables_in};

use crate::changes::begin_all;
use crate::located::{has_object, object_counts};
use crate::opened::Opened;
use crate::scene::Scene;
use cf_base::{Items, Memory};
use cf_types::TyId;
use std::alloc::Global;

/// Whether the object of this local may stand.
pub fn is_open(local: u32, all: &[Opened]) -> bool
    ensures { result ≡ spec.is_open local (all_told all.now) }
{
    for x in all {
        if x.is_open(local) {
            return true;
        }
    }
    false
}

/// Whether anything is told of this local.
pub fn is_listed(local: u32, all: &[Opened]) -> bool
    ensures { result ≡ spec.is_listed local (all_told all.now) }
{
    for x in all {
        if x.is(local) {
            return true;
        }
    }
    false
}

/// Whether this local may get its first value in this register.
pub fn may_begin(local: u32, register: u32, all: &[Opened]) -> bool
    ensures { result ≡ spec.may_begin local register (all_told all.now) }
{
    for x in all {
        if x.may_begin(local, register) {
            return true;
        }
    }
    false
}

/// Whether this local has its value.
fn has_its_value(all: &[Opened], local: u32) -> bool
    ensures { result ≡ spec.has_its_value (all_told all.now) local }
{
    for x in all {
        if x.has_its_value(local) {
            return true;
        }
    }
    false
}

/// Whether each of these locals has its value.
fn have_values(all: &[Opened], locals: &[u32]) -> bool
    ensures { result ≡ list_all (spec.has_its_value (all_told all.now)) locals.now }
{
    locals.iter().all(|local| has_its_value(all, *local))
}

/// Whether a number is among these.
fn is_among(local: u32, locals: &[u32]) -> bool
    ensures { result ≡ list_any (λ j. j == local) locals.now }
{
    locals.iter().any(|other| *other == local)
}

/// Whether no number is there twice.
fn differ(locals: &[u32]) -> bool
    ensures { result ≡ spec.differ locals.now }
{
    match locals.split_first() {
        None => true,
        Some((first, rest)) => !is_among(*first, rest) && differ(rest),
    }
}

/// Whether the locals of arguments are different ones that have their values.
pub fn may_pass(all: &[Opened], locals: &[u32]) -> bool
    ensures { result ≡ (spec.differ locals.now && list_all (spec.has_its_value (all_told all.now)) locals.now) }
{
    differ(locals) && have_values(all, locals)
}

/// The local is gone.
pub fn close(local: u32, all: &mut Vec<Opened>)
    ensures { all_told all.new.items ≡ spec.closed local (all_told all.old.items) }
{
    all.retain(|x| !x.is(local));
}

/// These locals are gone.
pub fn close_all(locals: &[u32], all: &mut Vec<Opened>)
    ensures { all_told all.new.items ≡ spec.closed_all locals.now (all_told all.old.items) }
{
    match locals.split_first() {
        None => {}
        Some((first, rest)) => {
            close(*first, all);
            close_all(rest, all);
        }
    }
}

/// The locals whose flag is in a register that holds 0 are gone.
pub fn close_by(register: u32, all: &mut Vec<Opened>)
    ensures { all_told all.new.items ≡ spec.where_unset register (all_told all.old.items) }
{
    all.retain(|x| !x.goes_by(register));
}

/// Puts a local in front.
pub fn put(x: Opened, all: &mut Vec<Opened>) -> Result<(), Memory>
    ensures { OnOk result (all_told all.new.items ≡ told x ∷ all_told all.old.items) }
{
    all.insert(0, x)?;
    Ok(())
}

/// A local that has an object in this register, of whose place so much is told, and no value.
fn begun(
    alloc: Global,
    local: u32,
    register: Option<u32>,
    counts: Items<u32>,
) -> Result<Opened, Memory>
    ensures { IfOk result (λ x. told x ≡ walk.begun_with register counts (spec.open_one local register false)) }
{
    let mut x = Opened::new(alloc, local, register, false);
    x.begin(register, counts)?;
    Ok(x)
}

/// The local has an object of this type, in this register.
pub fn declare(
    x: &Scene<'_>,
    local: u32,
    ty: TyId,
    register: Option<u32>,
    all: &mut Vec<Opened>,
) -> Result<(), Memory>
    ensures { OnOk result (all_told all.new.items ≡ spec.declared_among local register (type_of (tables_in x.now) ty) (all_told all.old.items)) }
{
    let counts = object_counts(x.alloc, x.tables, ty)?;
    if is_listed(local, all.as_slice()) {
        begin_all(x.alloc, all, local, register, counts.as_slice())
    } else {
        put(begun(x.alloc, local, register, counts)?, all)
    }
}

/// Whether a register has the place of an object that stands, a part of a local's.
pub fn has_part(register: u32, all: &[Opened]) -> bool
    ensures { result ≡ list_any (λ x. spec.has_object (x.places register)) (all_told all.now) }
{
    for x in all {
        if has_object(x.counts(register)) {
            return true;
        }
    }
    false
}

/// The same locals in a list of their own.
pub fn copied(alloc: Global, all: &[Opened]) -> Result<Vec<Opened>, Memory>
    ensures { IfOk result (λ made. all_told made.items ≡ all_told all.now) }
{
    let mut made = Vec::new(alloc);
    for x in all {
        made.push(x.copied(alloc)?)?;
    }
    Ok(made)
}

/// Whether two lists are equally long.
fn same_length(left: &[Opened], right: &[Opened]) -> bool
    ensures { result ≡ (length left.now == length right.now) }
{
    left.len() == right.len()
}

/// Whether the same is told of the same local at an index of both.
fn open_at(left: &[Opened], right: &[Opened], index: usize) -> bool
    ensures { result ≡ walk.open_at (all_told left.now) (all_told right.now) index }
{
    match (left.get(index), right.get(index)) {
        (Some(x), Some(y)) => x.is_as_open(y),
        _ => false,
    }
}

/// Whether the same locals stand.
pub fn same_open(left: &[Opened], right: &[Opened]) -> bool
    ensures { result ≡ spec.same_open (all_told left.now) (all_told right.now) }
{
    if !same_length(left, right) {
        return false;
    }
    for index in 0..left.len() {
        if !open_at(left, right, index) {
            return false;
        }
    }
    true
}
