//! A file.

ghost use Rattle.std.specs.Prelude.{◌≡◌, ◌++◌, ◌∷◌, [], ℕ, List, map, IfOk, OnOk};
ghost use Rattle.cf_core.specs.FromUnit.{tables_of, file_of, units_mean};
ghost use Rattle.cf_core.specs.Joined.{program_of as joined};
ghost use Rattle.cf_core.specs.Program.{Mean};
ghost use Rattle.cf_run_tree.specs.Tree as tree;
ghost use Rattle.cf_core_node.specs.Gives.{Gives};
ghost use Rattle.cf_core_load.specs.Files as spec;
ghost use Rattle.cf_core_load.specs.Loads.{Loads, first_class};

use crate::fault::{LoadFault, fault_of};
use crate::functions::functions;
use crate::statics::objects;
use cf_base::{Items, Memory, Name};
use cf_core::{CoreFn, CoreStatic, CoreUnit};
use cf_core_node::{Defined, FunctionHead, NotLoaded, StaticHead, linked};
use cf_run_tree::Program;
use cf_types::ClassId;
use std::alloc::Global;

/// Adds the name of what is local to the file (3.3).
fn add_name(
    alloc: Global,
    names: &mut Items<Name>,
    is_local: bool,
    name: &Name,
) -> Result<(), Memory>
    ensures { OnOk result (names.new ≡ names.old ++ spec.own_name is_local name.now) }
{
    if is_local {
        let name = Name::from_slice(alloc, name.as_slice())?;
        names.push(name)?;
    }
    Ok(())
}

/// Adds the names of functions that are local to the file.
fn add_functions(alloc: Global, names: &mut Items<Name>, all: &[CoreFn]) -> Result<(), Memory>
    ensures { OnOk result (names.new ≡ names.old ++ spec.own_functions all.now) }
{
    for f in all {
        add_name(alloc, names, f.is_local, &f.name)?;
    }
    Ok(())
}

/// Adds the names of static objects that are local to the file.
fn add_statics(alloc: Global, names: &mut Items<Name>, all: &[CoreStatic]) -> Result<(), Memory>
    ensures { OnOk result (names.new ≡ names.old ++ spec.own_statics all.now) }
{
    for x in all {
        add_name(alloc, names, x.is_local, &x.name)?;
    }
    Ok(())
}

/// The names that are local to the file (3.3).
fn own_names(alloc: Global, unit: &CoreUnit) -> Result<Items<Name>, Memory>
    ensures { IfOk result (λ names. names ≡ spec.own_names unit.now) }
{
    let mut names = Items::new(alloc);
    add_functions(alloc, &mut names, unit.functions())?;
    add_statics(alloc, &mut names, unit.statics())?;
    Ok(names)
}

/// A function by its link name and type.
fn function_head(alloc: Global, own: &[Name], f: &CoreFn) -> Result<FunctionHead, Memory>
    ensures { IfOk result (λ h. h ≡ spec.function_head own.now f.now) }
{
    let name = linked(alloc, own, f.name.as_slice())?;
    let params = Items::from_slice(alloc, f.params.as_slice())?;
    Ok(FunctionHead {
        name,
        params,
        result: f.result,
    })
}

/// Functions by their link names and types.
fn function_heads(
    alloc: Global,
    own: &[Name],
    all: &[CoreFn],
) -> Result<Items<FunctionHead>, Memory>
    ensures { IfOk result (λ heads. heads ≡ map (spec.function_head own.now) all.now) }
{
    let mut heads = Items::new(alloc);
    for f in all {
        heads.push(function_head(alloc, own, f)?)?;
    }
    Ok(heads)
}

/// A static object by its link name and type.
fn static_head(alloc: Global, own: &[Name], x: &CoreStatic) -> Result<StaticHead, Memory>
    ensures { IfOk result (λ h. h ≡ spec.static_head own.now x.now) }
{
    let name = linked(alloc, own, x.name.as_slice())?;
    Ok(StaticHead { name, ty: x.ty })
}

/// Static objects by their link names and types.
fn static_heads(
    alloc: Global,
    own: &[Name],
    all: &[CoreStatic],
) -> Result<Items<StaticHead>, Memory>
    ensures { IfOk result (λ heads. heads ≡ map (spec.static_head own.now) all.now) }
{
    let mut heads = Items::new(alloc);
    for x in all {
        heads.push(static_head(alloc, own, x)?)?;
    }
    Ok(heads)
}

/// What the file defines.
fn defined(alloc: Global, unit: &CoreUnit) -> Result<Defined, Memory>
    ensures { IfOk result (λ d. d ≡ spec.defined unit.now) }
{
    let own = own_names(alloc, unit)?;
    let functions = function_heads(alloc, own.as_slice(), unit.functions())?;
    let statics = static_heads(alloc, own.as_slice(), unit.statics())?;
    Ok(Defined {
        own,
        functions,
        statics,
    })
}

/// The first class that the file defines.
#[tactic(auto, using(crate::proofs::Loading::first_none, crate::proofs::Loading::first_some))]
fn first_class_of(unit: &CoreUnit) -> Option<ClassId>
    ensures { result ≡ first_class unit.now.classes.defined }
{
    let classes = unit.classes();
    if classes.count() == 0 {
        None
    } else {
        Some(classes.nth(0))
    }
}

/// The program of a file without classes.
fn program(alloc: Global, unit: &CoreUnit) -> Result<Program, NotLoaded>
    ensures { Gives (spec.program_of unit.now) result }
{
    let defined = defined(alloc, unit)?;
    let functions = functions(alloc, unit, &defined, unit.functions())?;
    let statics = objects(alloc, unit, &defined, unit.statics())?;
    Ok(Program { functions, statics })
}

/// The program of a file that is loaded, whether it defines classes or not.
#[tactic(auto, using(crate::proofs::Loading::loads_fault))]
fn loaded(alloc: Global, unit: &CoreUnit) -> Result<Program, LoadFault>
    ensures { Loads unit.now result }
{
    if let Some(class) = first_class_of(unit) {
        return Err(LoadFault::Class(class));
    }
    match program(alloc, unit) {
        Ok(found) => Ok(found),
        Err(fault) => Err(fault_of(fault)),
    }
}

/// The program of trees that a file's core is, if the plain program has a form for each of its constructs. The program is that of the file alone,
/// and so it means the same.
///
/// A fault is the first class that the file defines, or else the place of its first construct without a form, functions first: what names a class
/// or its members, the free store, an initialiser that is run when it is first reached or before `main`, types but void, integers, enumerations,
/// pointers, references, arrays of these, arrays of such arrays, and functions over these, and what is named by another type than that of its
/// definition in the file.
pub fn load(alloc: Global, unit: &CoreUnit) -> Result<Program, LoadFault>
    ensures value { Loads unit.now result }
    ensures program { IfOk result (λ p. tree.program_of (tables_of unit.now) p ≡ joined (file_of unit.now ∷ [])) }
    ensures meaning { IfOk result (λ p. (input : List ℕ) (heap depth n : ℕ) → Mean (tree.program_of (tables_of unit.now) p) input heap depth n ≡ units_mean (unit.now ∷ []) input heap depth n) }
{
    let _valid = unit.functions();
    let found = loaded(alloc, unit)?;
    Ok(found)
}
