//! Whether each literal of a file has a name of its own (2.5.4).

ghost use Rattle.std.specs.Prelude.{◌≡◌, ◌++◌, IfOk, OnOk, map};
ghost use Rattle.std.specs.List.{flat_map};
ghost use Rattle.cf_core.specs.FromTypes.{Tables};
ghost use Rattle.cf_core.specs.FromUnit as core;
ghost use Rattle.cf_core.specs.Valid as valid;
ghost use Rattle.cf_sequence_lowered.specs.Literals as spec;
ghost use Rattle.cf_lowerable_core.specs.Named as named;
ghost use Rattle.cf_core_nodes.specs.Views.{view, shown};

use cf_base::{Items, Memory, Name};
use cf_core::{Core, CoreFn, CoreStatic, CoreUnit};
use cf_core_nodes::nodes_of;
use cf_lower_names::literal_name;
use cf_name_list::Names;
use std::alloc::Global;

/// Puts the name of a literal of this function behind others, if the node is one.
fn add_literal(
    alloc: Global,
    function: &[u8],
    e: &Core,
    names: &mut Items<Name>,
) -> Result<(), Memory>
    ensures { (tables : Tables) → OnOk result (names.new ≡ names.old ++ spec.literal_of function.now (view tables e.now)) }
{
    match e {
        Core::Text { number, .. } => {
            let name = literal_name(alloc, function, *number)?;
            names.push(name)?;
            Ok(())
        }
        _ => Ok(()),
    }
}

/// Puts the names of the literals of these nodes behind others.
fn add_literals(
    alloc: Global,
    function: &[u8],
    nodes: &[&Core],
    names: &mut Items<Name>,
) -> Result<(), Memory>
    ensures { (tables : Tables) → OnOk result (names.new ≡ names.old ++ flat_map (spec.literal_of function.now) (shown tables nodes.now)) }
{
    for e in nodes {
        add_literal(alloc, function, *e, names)?;
    }
    Ok(())
}

/// Puts those of a function behind others.
fn add_function(alloc: Global, f: &CoreFn, names: &mut Items<Name>) -> Result<(), Memory>
    ensures { (tables : Tables) → OnOk result (names.new ≡ names.old ++ named.function_literals (core.function_of tables f.now)) }
{
    let nodes = nodes_of(alloc, &f.body)?;
    add_literals(alloc, f.name.as_slice(), nodes.as_slice(), names)?;
    Ok(())
}

/// The function in which the literals of a static object's initialiser are numbered.
fn owner_name(x: &CoreStatic) -> &[u8]
    ensures { (tables : Tables) → result.now ≡ spec.owner_name (core.static_of tables x.now) }
{
    match &x.owner {
        None => b"__sti",
        Some(function) => function.as_slice(),
    }
}

/// Puts those of a static object's initialiser behind others.
fn add_static(alloc: Global, x: &CoreStatic, names: &mut Items<Name>) -> Result<(), Memory>
    ensures { (tables : Tables) → OnOk result (names.new ≡ names.old ++ named.static_literals (core.static_of tables x.now)) }
{
    let nodes = nodes_of(alloc, &x.start)?;
    add_literals(alloc, owner_name(x), nodes.as_slice(), names)?;
    Ok(())
}

/// Puts those of functions behind others.
fn add_functions(alloc: Global, all: &[CoreFn], names: &mut Items<Name>) -> Result<(), Memory>
    ensures { (tables : Tables) → OnOk result (names.new ≡ names.old ++ flat_map named.function_literals (map (core.function_of tables) all.now)) }
{
    for f in all {
        add_function(alloc, f, names)?;
    }
    Ok(())
}

/// Puts those of static objects behind others.
fn add_statics(alloc: Global, all: &[CoreStatic], names: &mut Items<Name>) -> Result<(), Memory>
    ensures { (tables : Tables) → OnOk result (names.new ≡ names.old ++ flat_map named.static_literals (map (core.static_of tables) all.now)) }
{
    for x in all {
        add_static(alloc, x, names)?;
    }
    Ok(())
}

/// Whether no two names are the same.
fn all_differ(alloc: Global, all: &[Name]) -> Result<bool, Memory>
    ensures { IfOk result (λ differ. differ ≡ valid.all_differ all.now) }
{
    let mut behind = Names::new(alloc);
    let mut left = all.len();
    while left > 0 {
        left -= 1;
        let name = all[left].as_slice();
        if behind.has(name) {
            return Ok(false);
        }
        behind.add(name)?;
    }
    Ok(true)
}

/// Whether each literal of a file has a number of its own in its function. It takes time and memory by the number of nodes.
pub fn literals_differ(alloc: Global, unit: &CoreUnit) -> Result<bool, Memory>
    ensures { IfOk result (λ differ. differ ≡ spec.core_literals_differ (core.file_of unit.now)) }
{
    let mut names = Items::new(alloc);
    add_functions(alloc, unit.functions(), &mut names)?;
    add_statics(alloc, unit.statics(), &mut names)?;
    let differ = all_differ(alloc, names.as_slice())?;
    Ok(differ)
}
