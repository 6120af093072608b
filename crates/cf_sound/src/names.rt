//! The names of a file's functions and objects, and of the library's functions with their types.

ghost use Rattle.std.specs.Prelude.{◌≡◌, ◌||◌, List, ℕ, IfOk, OnOk, bytes_eq, map};
ghost use Rattle.cf_name_list.specs.Names.{is_in};
ghost use Rattle.cf_core.specs.Calls as calls;
ghost use Rattle.cf_core.specs.FromTypes.{type_of};
ghost use Rattle.cf_core.specs.FromUnit.{file_of, tables_of};
ghost use Rattle.cf_core.specs.Types.{same_but_const};
ghost use Rattle.cf_core_sound.specs.Simple as simple;
ghost use Rattle.cf_core_sound.specs.Values as values;
ghost use Rattle.cf_file_sound.specs.Files.{alone};
ghost use Rattle.cf_sound.specs.Named as spec;

use crate::types::{entry, is_int, is_void};
use cf_base::Memory;
use cf_core::{CoreFn, CoreStatic, CoreUnit};
use cf_name_list::Names;
use cf_types::{Ty, TyId};
use std::alloc::Global;

/// Whether two names are the same.
pub(crate) fn is(name: &[u8], other: &[u8]) -> bool
    ensures { result ≡ bytes_eq name.now other.now }
{
    name == other
}

/// Whether it is a function of the library.
pub(crate) fn is_library(name: &[u8]) -> bool
    ensures { result ≡ calls.is_library name.now }
{
    is(name, b"putchar") || is(name, b"getchar") || is(name, b"exit")
}

/// Whether a function has one parameter, an `int`, or none.
fn parameters_fit(unit: &CoreUnit, ids: &[TyId], takes_int: bool) -> bool
    ensures { result ≡ spec.parameters_fit takes_int (map (type_of (tables_of unit.now)) ids.now) }
{
    match ids {
        [] => !takes_int,
        [id] => takes_int && is_int(unit, *id),
        _ => false,
    }
}

/// Whether it gives an `int`, or nothing.
fn result_fits(unit: &CoreUnit, id: TyId, gives_int: bool) -> bool
    ensures { result ≡ spec.result_fits gives_int (type_of (tables_of unit.now) id) }
{
    if gives_int {
        is_int(unit, id)
    } else {
        is_void(unit, id)
    }
}

/// Whether it is the type of such a function, but for const.
fn has_signature(unit: &CoreUnit, id: TyId, takes_int: bool, gives_int: bool) -> bool
    ensures { result ≡ same_but_const (spec.signature takes_int gives_int) (type_of (tables_of unit.now) id) }
{
    match entry(unit, id) {
        Ty::Fun(function) => {
            let fun = unit.fun(function);
            let takes = parameters_fit(unit, fun.params.as_slice(), takes_int);
            takes && result_fits(unit, fun.result, gives_int)
        }
        Ty::Const(inner) => has_signature(unit, inner, takes_int, gives_int),
        _ => false,
    }
}

/// Whether it is the type of the library's function of this name, but for const.
fn library_type_fits(unit: &CoreUnit, name: &[u8], id: TyId) -> bool
    ensures { result ≡ same_but_const (values.library_type name.now) (type_of (tables_of unit.now) id) }
{
    if is(name, b"putchar") {
        return has_signature(unit, id, true, true);
    }
    if is(name, b"getchar") {
        return has_signature(unit, id, false, true);
    }
    has_signature(unit, id, true, false)
}

/// Whether a function of the library is named with its own type.
fn library_fits(unit: &CoreUnit, name: &[u8], id: TyId) -> bool
    ensures { result ≡ simple.library_fits name.now (type_of (tables_of unit.now) id) }
{
    !is_library(name) || library_type_fits(unit, name, id)
}

/// Whether the file or the library has a function of this name.
fn has_function(unit: &CoreUnit, functions: &Names<'_>, name: &[u8]) -> bool
    requires { spec.AreFunctions unit.now functions.now }
    ensures { result ≡ simple.has_function (alone (file_of unit.now)) name.now }
{
    let _ = unit;
    is_library(name) || functions.has(name)
}

/// Whether a function may be named with this type.
pub(crate) fn function_fits(unit: &CoreUnit, functions: &Names<'_>, name: &[u8], id: TyId) -> bool
    requires { spec.AreFunctions unit.now functions.now }
    ensures { result ≡ simple.function_fits (alone (file_of unit.now)) name.now (type_of (tables_of unit.now) id) }
{
    has_function(unit, functions, name) && library_fits(unit, name, id)
}

/// Whether the file has an object of this name.
pub(crate) fn has_object(unit: &CoreUnit, objects: &Names<'_>, name: &[u8]) -> bool
    requires { spec.AreObjects unit.now objects.now }
    ensures { result ≡ simple.has_object (alone (file_of unit.now)) name.now }
{
    let _ = unit;
    objects.has(name)
}

/// Puts the names of functions among others.
fn add_functions<'a>(names: &mut Names<'a>, functions: &'a [CoreFn]) -> Result<(), Memory>
    ensures { (q : List ℕ) → OnOk result (is_in names.new q ≡ (is_in (spec.function_names functions.now) q || is_in names.old q)) }
{
    for function in functions {
        names.add(function.name.as_slice())?;
    }
    Ok(())
}

/// Puts those of objects among others.
fn add_objects<'a>(names: &mut Names<'a>, objects: &'a [CoreStatic]) -> Result<(), Memory>
    ensures { (q : List ℕ) → OnOk result (is_in names.new q ≡ (is_in (spec.object_names objects.now) q || is_in names.old q)) }
{
    for object in objects {
        names.add(object.name.as_slice())?;
    }
    Ok(())
}

/// The names of a file's functions.
pub(crate) fn functions_of(alloc: Global, unit: &CoreUnit) -> Result<Names<'_>, Memory>
    ensures { IfOk result (λ names. spec.AreFunctions unit.now names) }
{
    let mut names = Names::new(alloc);
    add_functions(&mut names, unit.functions())?;
    Ok(names)
}

/// Those of its objects.
pub(crate) fn objects_of(alloc: Global, unit: &CoreUnit) -> Result<Names<'_>, Memory>
    ensures { IfOk result (λ names. spec.AreObjects unit.now names) }
{
    let mut names = Names::new(alloc);
    add_objects(&mut names, unit.statics())?;
    Ok(names)
}
