//! The tests of functions, of static objects and of a file.

ghost use Rattle.std.specs.Prelude.{◌≡◌, ◌+◌, ◌^◌, [], nat_lt, length, map, IfOk};
ghost use Rattle.std.specs.List.{list_all};
ghost use Rattle.cf_core.specs.FromTypes.{type_of};
ghost use Rattle.cf_core.specs.FromUnit as core;
ghost use Rattle.cf_core.specs.FromUnit.{tables_of, function_of, static_of};
ghost use Rattle.cf_core.specs.Nodes.{nodes as nodes_in};
ghost use Rattle.cf_sequence.specs.Made as made;
ghost use Rattle.cf_sequence_lowered.specs.Counts as counts;
ghost use Rattle.cf_sequence_lowered.specs.Types as asked;
ghost use Rattle.cf_lowerable_core.specs.Looks as spec;
ghost use Rattle.cf_core_nodes.specs.Views.{view, shown};

use crate::nodes::{labels_agree, literal_fits, node_types_fit, operand_is_promoted};
use crate::types::{is_of_object, is_of_static, parameters, signature_fits};
use cf_base::Memory;
use cf_core::{Core, CoreFn, CoreStatic, CoreUnit};
use cf_core_nodes::nodes_of;
use cf_types::TyId;
use std::alloc::Global;

/// A function has fewer nodes, and fewer locals, than this.
const MOST: usize = 1 << 31;

/// Whether a node of a function is as lowering asks.
fn node_looks(unit: &CoreUnit, e: &Core) -> bool
    requires { unit.now.classes.defined ≡ [] }
    ensures { result ≡ spec.node_looks (view (tables_of unit.now) e.now) }
{
    if !node_types_fit(unit, e) {
        return false;
    }
    if !literal_fits(e) {
        return false;
    }
    labels_agree(e)
}

/// Whether a node of an initialiser is.
fn start_looks(unit: &CoreUnit, e: &Core) -> bool
    requires { unit.now.classes.defined ≡ [] }
    ensures { result ≡ spec.start_looks (view (tables_of unit.now) e.now) }
{
    if !node_types_fit(unit, e) {
        return false;
    }
    if !literal_fits(e) {
        return false;
    }
    operand_is_promoted(e)
}

/// Whether all nodes of a function are.
fn nodes_look(unit: &CoreUnit, nodes: &[&Core]) -> bool
    requires { unit.now.classes.defined ≡ [] }
    ensures { result ≡ list_all spec.node_looks (shown (tables_of unit.now) nodes.now) }
{
    for e in nodes {
        if !node_looks(unit, *e) {
            return false;
        }
    }
    true
}

/// Whether all nodes of an initialiser are.
fn starts_look(unit: &CoreUnit, nodes: &[&Core]) -> bool
    requires { unit.now.classes.defined ≡ [] }
    ensures { result ≡ list_all spec.start_looks (shown (tables_of unit.now) nodes.now) }
{
    for e in nodes {
        if !start_looks(unit, *e) {
            return false;
        }
    }
    true
}

/// Whether objects may be of these types.
fn are_objects(unit: &CoreUnit, ids: &[TyId]) -> bool
    requires { unit.now.classes.defined ≡ [] }
    ensures { result ≡ list_all asked.is_of_object (map (type_of (tables_of unit.now)) ids.now) }
{
    for id in ids {
        if !is_of_object(unit, *id) {
            return false;
        }
    }
    true
}

/// How many objects a node makes by itself.
fn made_by(unit: &CoreUnit, e: &Core) -> usize
    ensures { result ≡ length (made.makes (view (tables_of unit.now) e.now)) }
{
    match e {
        Core::Call { ty, .. }
        | Core::VirtualCall { ty, .. }
        | Core::PointerCall { ty, .. }
        | Core::Build { ty, .. } => parameters(unit, *ty).len(),
        Core::Temporary { .. } => 1,
        _ => 0,
    }
}

/// Whether there are few locals, with those that nodes make and with so many others.
fn are_few(unit: &CoreUnit, nodes: &[&Core], others: usize) -> bool
    ensures { result ≡ nat_lt (others + length (made.added (shown (tables_of unit.now) nodes.now))) (2 ^ 31) }
{
    let mut count = others;
    for e in nodes {
        if count >= MOST {
            return false;
        }
        let more = made_by(unit, *e);
        if more >= MOST {
            return false;
        }
        count += more;
    }
    count < MOST
}

/// Whether a function of these nodes has few of them, and few locals.
fn is_small(unit: &CoreUnit, f: &CoreFn, nodes: &[&Core]) -> bool
    requires { shown (tables_of unit.now) nodes.now ≡ nodes_in (view (tables_of unit.now) f.now.body) }
    ensures { result ≡ counts.is_small (function_of (tables_of unit.now) f.now) }
{
    let params = f.params.len();
    let locals = f.locals.len();
    if params >= MOST {
        return false;
    }
    if locals >= MOST {
        return false;
    }
    nodes.len() < MOST && are_few(unit, nodes, params + locals)
}

/// Whether a function has a type that is lowered.
fn function_fits(unit: &CoreUnit, f: &CoreFn) -> bool
    requires { unit.now.classes.defined ≡ [] }
    ensures { result ≡ asked.is_of_function (spec.type_of_function (function_of (tables_of unit.now) f.now)) }
{
    signature_fits(unit, f.params.as_slice(), f.result)
}

/// Whether a function and its locals have types that are lowered, and it is not shared and local at once (3.3).
fn head_looks(unit: &CoreUnit, f: &CoreFn) -> bool
    requires { unit.now.classes.defined ≡ [] }
    ensures { result ≡ spec.head_looks (function_of (tables_of unit.now) f.now) }
{
    function_fits(unit, f) && are_objects(unit, f.locals.as_slice()) && !(f.is_shared && f.is_local)
}

/// Whether a function of these nodes has few of them, and few locals, and each node is as lowering asks.
fn nodes_fit(unit: &CoreUnit, f: &CoreFn, nodes: &[&Core]) -> bool
    requires none { unit.now.classes.defined ≡ [] }
    requires listed { shown (tables_of unit.now) nodes.now ≡ nodes_in (view (tables_of unit.now) f.now.body) }
    ensures { result ≡ spec.body_looks (function_of (tables_of unit.now) f.now) }
{
    is_small(unit, f, nodes) && nodes_look(unit, nodes)
}

/// Whether its nodes are as lowering asks.
fn body_looks(alloc: Global, unit: &CoreUnit, f: &CoreFn) -> Result<bool, Memory>
    requires { unit.now.classes.defined ≡ [] }
    ensures { IfOk result (λ fits. fits ≡ spec.body_looks (function_of (tables_of unit.now) f.now)) }
{
    let nodes = nodes_of(alloc, &f.body)?;
    Ok(nodes_fit(unit, f, nodes.as_slice()))
}

/// Whether each function of a file is.
fn functions_look(alloc: Global, unit: &CoreUnit) -> Result<bool, Memory>
    requires { unit.now.classes.defined ≡ [] }
    ensures { IfOk result (λ fits. fits ≡ list_all spec.function_looks (map (function_of (tables_of unit.now)) unit.now.functions)) }
{
    for f in unit.functions() {
        if !head_looks(unit, f) {
            return Ok(false);
        }
        if !body_looks(alloc, unit, f)? {
            return Ok(false);
        }
    }
    Ok(true)
}

/// Whether a static object is of a type that is lowered, and not shared and local at once (3.3).
fn object_looks(unit: &CoreUnit, x: &CoreStatic) -> bool
    requires { unit.now.classes.defined ≡ [] }
    ensures { result ≡ spec.object_looks (static_of (tables_of unit.now) x.now) }
{
    is_of_static(unit, x.ty) && !(x.is_shared && x.is_local)
}

/// Whether an initialiser of these nodes is as lowering asks.
fn starts_fit(unit: &CoreUnit, x: &CoreStatic, nodes: &[&Core]) -> bool
    requires none { unit.now.classes.defined ≡ [] }
    requires listed { shown (tables_of unit.now) nodes.now ≡ nodes_in (view (tables_of unit.now) x.now.start) }
    ensures { result ≡ list_all spec.start_looks (nodes_in (view (tables_of unit.now) x.now.start)) }
{
    starts_look(unit, nodes)
}

/// Whether the nodes of its initialiser are as lowering asks.
fn initialiser_looks(alloc: Global, unit: &CoreUnit, x: &CoreStatic) -> Result<bool, Memory>
    requires { unit.now.classes.defined ≡ [] }
    ensures { IfOk result (λ fits. fits ≡ list_all spec.start_looks (nodes_in (view (tables_of unit.now) x.now.start))) }
{
    let nodes = nodes_of(alloc, &x.start)?;
    Ok(starts_fit(unit, x, nodes.as_slice()))
}

/// Whether each static object of a file is.
fn statics_look(alloc: Global, unit: &CoreUnit) -> Result<bool, Memory>
    requires { unit.now.classes.defined ≡ [] }
    ensures { IfOk result (λ fits. fits ≡ list_all spec.static_looks (map (static_of (tables_of unit.now)) unit.now.statics)) }
{
    for x in unit.statics() {
        if !object_looks(unit, x) {
            return Ok(false);
        }
        if !initialiser_looks(alloc, unit, x)? {
            return Ok(false);
        }
    }
    Ok(true)
}

/// Whether the types, operators, literals, labels and sizes of a file's core are those that lowering takes, and nothing in it is shared and local at once.
/// The file defines no class. It takes time and memory by the number of nodes; a type that a node has is looked at again for each.
pub fn looks(alloc: Global, unit: &CoreUnit) -> Result<bool, Memory>
    requires { unit.now.classes.defined ≡ [] }
    ensures { IfOk result (λ fits. fits ≡ spec.looks (core.file_of unit.now)) }
{
    if !functions_look(alloc, unit)? {
        return Ok(false);
    }
    let fits = statics_look(alloc, unit)?;
    Ok(fits)
}
