//! The tests of functions, of static objects and of a file.

ghost use Rattle.std.specs.Prelude.{◌≡◌, ◌++◌, ◌&&◌, not, Some, find, map, IfOk};
ghost use Rattle.std.specs.List.{list_all};
ghost use Rattle.cf_base.specs.declared.kind.Kind.TheVariants.{Int};
ghost use Rattle.cf_core.specs.Calls.{is_library};
ghost use Rattle.cf_core.specs.FromTypes.{type_of};
ghost use Rattle.cf_core.specs.FromUnit.{file_of, tables_of, function_of, static_of};
ghost use Rattle.cf_core.specs.Places as places;
ghost use Rattle.cf_core.specs.Types.{integer, type_eq};
ghost use Rattle.cf_core_nodes.specs.Views.{view};
ghost use Rattle.cf_core_sound.specs.Programs as programs;
ghost use Rattle.cf_core_sound.specs.Proper as proper;
ghost use Rattle.cf_file_sound.specs.Files as sound;
ghost use Rattle.cf_sequence.specs.Statements as statements;
ghost use Rattle.cf_sound.specs.Asked as asked;
ghost use Rattle.cf_sound.specs.Files as spec;
ghost use Rattle.cf_sound.specs.Serves.{Serves};

use crate::names::{functions_of, is, is_library, objects_of};
use crate::nodes::{Known, is_bind, is_proper, nodes_fit};
use crate::proper::proper_types;
use crate::types::{entry, is_int_kind, is_reference};
use cf_base::{Items, Memory};
use cf_core::{Core, CoreFn, CoreStatic, CoreUnit};
use cf_core_nodes::nodes_of;
use cf_types::{Ty, TyId};
use std::alloc::Global;

/// Whether it is `int` itself.
fn is_exactly_int(unit: &CoreUnit, id: TyId) -> bool
    ensures { result ≡ type_eq (type_of (tables_of unit.now) id) (integer Int) }
{
    match entry(unit, id) {
        Ty::Int(kind) => is_int_kind(kind),
        _ => false,
    }
}

/// Whether a function takes nothing and gives an `int`.
fn is_main(unit: &CoreUnit, f: &CoreFn) -> bool
    ensures { result ≡ programs.is_main (Some (function_of (tables_of unit.now) f.now)) }
{
    f.params.is_empty() && is_exactly_int(unit, f.result)
}

/// Whether its name is that of `main`, and not the file's alone.
fn stands_for_main(unit: &CoreUnit, f: &CoreFn) -> bool
    ensures { result ≡ sound.stands_for_main (function_of (tables_of unit.now) f.now) }
{
    let _ = unit;
    is(f.name.as_slice(), b"__main") && !f.is_local
}

/// Whether `main` is among functions, takes nothing and gives an `int`.
fn has_main(unit: &CoreUnit, functions: &[CoreFn]) -> bool
    ensures { result ≡ programs.is_main (find sound.stands_for_main (map (function_of (tables_of unit.now)) functions.now)) }
{
    for f in functions {
        if stands_for_main(unit, f) {
            return is_main(unit, f);
        }
    }
    false
}

/// The types of a function's parameters and locals.
fn frame_of(alloc: Global, f: &CoreFn) -> Result<Items<TyId>, Memory>
    ensures { IfOk result (λ frame. frame ≡ f.now.params ++ f.now.locals) }
{
    let mut frame = Items::from_slice(alloc, f.params.as_slice())?;
    for local in f.locals.as_slice() {
        frame.push(*local)?;
    }
    Ok(frame)
}

/// Whether these types are as elaboration makes them.
fn are_proper(unit: &CoreUnit, known: &Known<'_>, ids: &[TyId]) -> bool
    requires { Serves unit.now known.now }
    ensures { result ≡ list_all proper.is_proper (map (type_of (tables_of unit.now)) ids.now) }
{
    for id in ids {
        if !is_proper(unit, known.proper.as_slice(), *id) {
            return false;
        }
    }
    true
}

/// Whether each node of a tree is sound.
fn tree_fits(
    alloc: Global,
    unit: &CoreUnit,
    known: &Known<'_>,
    frame: &[TyId],
    e: &Core,
) -> Result<bool, Memory>
    requires { Serves unit.now known.now }
    ensures { IfOk result (λ is. is ≡ asked.tree_fits (file_of unit.now) (map (type_of (tables_of unit.now)) frame.now) (view (tables_of unit.now) e.now)) }
{
    let nodes = nodes_of(alloc, e)?;
    Ok(nodes_fit(unit, known, frame, nodes.as_slice()))
}

/// Whether the types of a function's parameters and locals are, and its nodes.
fn body_fits(alloc: Global, unit: &CoreUnit, known: &Known<'_>, f: &CoreFn) -> Result<bool, Memory>
    requires { Serves unit.now known.now }
    ensures { IfOk result (λ is. is ≡ spec.body_fits (file_of unit.now) (function_of (tables_of unit.now) f.now)) }
{
    let frame = frame_of(alloc, f)?;
    let types = frame.as_slice();
    if !are_proper(unit, known, types) {
        return Ok(false);
    }
    let fits = tree_fits(alloc, unit, known, types, &f.body)?;
    Ok(fits)
}

/// Whether all functions are sound.
fn functions_fit(alloc: Global, unit: &CoreUnit, known: &Known<'_>) -> Result<bool, Memory>
    requires { Serves unit.now known.now }
    ensures { IfOk result (λ is. is ≡ list_all (spec.body_fits (file_of unit.now)) (map (function_of (tables_of unit.now)) unit.now.functions)) }
{
    for f in unit.functions() {
        if !body_fits(alloc, unit, known, f)? {
            return Ok(false);
        }
    }
    Ok(true)
}

/// Whether an object is no reference, has a type as elaboration makes it, and no name of the library's.
fn head_fits(unit: &CoreUnit, known: &Known<'_>, x: &CoreStatic) -> bool
    requires { Serves unit.now known.now }
    ensures { result ≡ spec.head_fits (static_of (tables_of unit.now) x.now) }
{
    !is_library(x.name.as_slice())
        && !is_reference(unit, x.ty)
        && !is_bind(unit, &x.start)
        && is_proper(unit, known.proper.as_slice(), x.ty)
}

/// Whether that is so and each node of its initialiser is sound.
fn object_fits(
    alloc: Global,
    unit: &CoreUnit,
    known: &Known<'_>,
    x: &CoreStatic,
) -> Result<bool, Memory>
    requires { Serves unit.now known.now }
    ensures { IfOk result (λ is. is ≡ spec.object_fits (file_of unit.now) (static_of (tables_of unit.now) x.now)) }
{
    if !head_fits(unit, known, x) {
        return Ok(false);
    }
    let fits = tree_fits(alloc, unit, known, &[], &x.start)?;
    Ok(fits)
}

/// Whether all objects are sound.
fn objects_fit(alloc: Global, unit: &CoreUnit, known: &Known<'_>) -> Result<bool, Memory>
    requires { Serves unit.now known.now }
    ensures { IfOk result (λ is. is ≡ list_all (spec.object_fits (file_of unit.now)) (map (static_of (tables_of unit.now)) unit.now.statics)) }
{
    for x in unit.statics() {
        if !object_fits(alloc, unit, known, x)? {
            return Ok(false);
        }
    }
    Ok(true)
}

/// What is known of a file.
fn known_of(alloc: Global, unit: &CoreUnit) -> Result<Known<'_>, Memory>
    ensures { IfOk result (λ known. Serves unit.now known) }
{
    let proper = proper_types(alloc, unit)?;
    let objects = objects_of(alloc, unit)?;
    let functions = functions_of(alloc, unit)?;
    Ok(Known {
        proper,
        objects,
        functions,
    })
}

/// Whether all functions and objects are sound, by what is known of the file.
fn all_fit(alloc: Global, unit: &CoreUnit, known: &Known<'_>) -> Result<bool, Memory>
    requires { Serves unit.now known.now }
    ensures { IfOk result (λ is. is ≡ spec.all_fit (file_of unit.now)) }
{
    let functions = functions_fit(alloc, unit, known)?;
    if !functions {
        return Ok(false);
    }
    let objects = objects_fit(alloc, unit, known)?;
    Ok(objects)
}

/// Whether a file is sound, part by part.
fn fits(alloc: Global, unit: &CoreUnit) -> Result<bool, Memory>
    ensures { IfOk result (λ is. is ≡ spec.file_fits (file_of unit.now)) }
{
    if !has_main(unit, unit.functions()) {
        return Ok(false);
    }
    let known = known_of(alloc, unit)?;
    let fit = all_fit(alloc, unit, &known)?;
    Ok(fit)
}

/// Whether a file's core is sound: where its constructs are built, its meaning is then never malformed. It takes time and memory by the number of its nodes
/// and of its types.
pub fn file_is_sound(alloc: Global, unit: &CoreUnit) -> Result<bool, Memory>
    ensures { IfOk result (λ is. is ≡ sound.is_sound_file (file_of unit.now)) }
{
    let sound = fits(alloc, unit)?;
    Ok(sound)
}
