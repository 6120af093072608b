ghost use Rattle.std.specs.Prelude.{◌≡◌, ◌≤◌, ◌<◌, [], All, IfOk, length};
ghost use Rattle.cf_core.specs.FromUnit.{file_of};
ghost use Rattle.cf_frame.specs.Bound as spec;
ghost use Rattle.cf_frame.specs.Bound.{AreSmall};
ghost use Rattle.cf_frame.specs.Costed.{up_to_most};

use crate::sizes::slots;
use crate::walk::costs;
use cf_base::{Items, Memory};
use cf_core::{CoreFn, CoreStatic, CoreUnit};
use std::alloc::Global;

/// The bound of the frame of a function, by its number; the number after the last function stands for the file's initialising function.
/// At most the greatest `u64`. No class is defined in the file, and nothing in it makes a class object.
pub fn frame(unit: &CoreUnit, function: u32) -> u64
    requires number { function ≤ length unit.now.functions }
    requires none_made { spec.makes_none (spec.nodes_of (file_of unit.now)) }
    requires none_defined { unit.now.classes.defined ≡ [] }
    ensures { result ≡ up_to_most (spec.frame_of unit.now function) }
{
    let functions = unit.functions();
    match functions.get(function as usize) {
        Some(found) => function_frame(unit, found),
        None => initialiser_frame(unit),
    }
}

/// The bound of the frame of each function in order, and behind them that of the file's initialising function, each at most the greatest `u64`.
/// No class is defined in the file, and nothing in it makes a class object.
pub fn frames(alloc: Global, unit: &CoreUnit) -> Result<Items<u64>, Memory>
    requires none_made { spec.makes_none (spec.nodes_of (file_of unit.now)) }
    requires none_defined { unit.now.classes.defined ≡ [] }
    ensures { IfOk result (λ all. all ≡ spec.frames_of (file_of unit.now)) }
{
    let mut all = Items::new(alloc);
    for function in unit.functions() {
        all.push(function_frame(unit, function))?;
    }
    all.push(initialiser_frame(unit))?;
    Ok(all)
}

/// The bound of a function of the file.
fn function_frame(unit: &CoreUnit, function: &CoreFn) -> u64
    requires parameters { All (λ t. t < length unit.now.types.types) function.now.params }
    requires locals { All (λ t. t < length unit.now.types.types) function.now.locals }
    requires small { AreSmall unit.now }
    ensures { result ≡ spec.function_total unit.now function.now }
{
    let inner = costs(&function.body);
    let objects = slots(unit, function.params.as_slice()).saturating_add(slots(
        unit,
        function.locals.as_slice(),
    ));
    let starts = local_starts(unit, function.name.as_slice());
    let expressions = inner.dearest.max(starts);
    objects
        .saturating_add(64)
        .saturating_add(inner.loops)
        .saturating_add(expressions)
}

/// The bytes of the costliest initialiser among the static objects that are locals of the function of this name.
fn local_starts(unit: &CoreUnit, function: &[u8]) -> u64
    ensures { result ≡ spec.costliest_after (spec.is_local_of function.now) 0 unit.now.statics }
{
    let mut greatest: u64 = 0;
    for object in unit.statics() {
        if is_local_of(object, function) {
            greatest = greatest.max(costs(&object.start).start);
        }
    }
    greatest
}

fn is_local_of(object: &CoreStatic, function: &[u8]) -> bool
    ensures { result ≡ spec.is_local_of function.now object.now }
{
    match &object.owner {
        Some(owner) => owner.as_slice() == function,
        None => false,
    }
}

/// The bound of the file's initialising function, over the initialisers of the static objects that are no locals.
fn initialiser_frame(unit: &CoreUnit) -> u64
    ensures { result ≡ spec.initialiser_total unit.now }
{
    let mut greatest: u64 = 0;
    for object in unit.statics() {
        if object.owner.is_none() {
            greatest = greatest.max(costs(&object.start).start);
        }
    }
    greatest.saturating_add(64)
}
