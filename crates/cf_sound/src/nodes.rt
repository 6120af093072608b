//! What is asked of each node of a file.

ghost use Rattle.std.specs.Prelude.{◌≡◌, map};
ghost use Rattle.std.specs.List.{list_all};
ghost use Rattle.cf_core.specs.FromTypes.{type_of};
ghost use Rattle.cf_core.specs.FromUnit.{file_of, tables_of};
ghost use Rattle.cf_core_nodes.specs.Views.{view, shown};
ghost use Rattle.cf_core_sound.specs.Proper as proper;
ghost use Rattle.cf_core_sound.specs.Simple as simple;
ghost use Rattle.cf_sequence.specs.Statements as statements;
ghost use Rattle.cf_sound.specs.Asked as spec;
ghost use Rattle.cf_sound.specs.Tabled.{AreProper};
ghost use Rattle.cf_sound.specs.Serves.{Serves};

use crate::forms::keeps_functions;
use crate::names::{function_fits, has_object};
use crate::proper::told;
use crate::types::{is_function, is_reference};
use cf_base::Items;
use cf_core::{Core, CoreUnit, Holder};
use cf_name_list::Names;
use cf_types::TyId;

/// The greatest length of a literal, which an `int` counts.
const MOST: usize = 2147483647;

/// What is known of a file: which of its types are as elaboration makes them, and the names of its objects and functions.
#[derive(Drop)]
pub(crate) struct Known<'a> {
    pub(crate) proper: Items<bool>,
    pub(crate) objects: Names<'a>,
    pub(crate) functions: Names<'a>,
}

/// Whether the type of this number is as elaboration makes it.
pub(crate) fn is_proper(unit: &CoreUnit, known: &[bool], id: TyId) -> bool
    requires { AreProper (tables_of unit.now) known.now }
    ensures { result ≡ proper.is_proper (type_of (tables_of unit.now) id) }
{
    let _ = unit;
    told(known, id)
}

/// Whether it is, and is no reference.
fn is_whole(unit: &CoreUnit, known: &[bool], id: TyId) -> bool
    requires { AreProper (tables_of unit.now) known.now }
    ensures { result ≡ simple.is_whole (type_of (tables_of unit.now) id) }
{
    is_proper(unit, known, id) && !is_reference(unit, id)
}

/// Whether the types that a node has are as elaboration makes them, and a literal is no longer than an `int` counts.
fn types_fit(unit: &CoreUnit, known: &[bool], e: &Core) -> bool
    requires { AreProper (tables_of unit.now) known.now }
    ensures { result ≡ spec.types_fit (view (tables_of unit.now) e.now) }
{
    match e {
        Core::Text { bytes, .. } => bytes.as_slice().len() <= MOST,
        Core::Static { ty, .. }
        | Core::Function { ty, .. }
        | Core::Call { ty, .. }
        | Core::PointerCall { ty, .. }
        | Core::Temporary { ty, .. }
        | Core::Declare { ty, .. }
        | Core::Bind {
            holder: Holder::LocalTemporary { ty, .. },
            ..
        } => is_proper(unit, known, *ty),
        Core::Convert { ty, .. } => is_whole(unit, known, *ty),
        Core::FromVoid { ty, .. } => is_whole(unit, known, *ty) && !is_function(unit, *ty),
        _ => true,
    }
}

/// Whether what a node names is the file's, or the library's with its own type.
fn names_fit(unit: &CoreUnit, known: &Known<'_>, e: &Core) -> bool
    requires { Serves unit.now known.now }
    ensures { result ≡ spec.names_fit (file_of unit.now) (view (tables_of unit.now) e.now) }
{
    match e {
        Core::Static { name, .. } => has_object(unit, &known.objects, name.as_slice()),
        Core::Function { name, ty, .. } => {
            function_fits(unit, &known.functions, name.as_slice(), *ty)
        }
        Core::Call { function, ty, .. } => {
            function_fits(unit, &known.functions, function.as_slice(), *ty)
        }
        _ => true,
    }
}

/// Whether a node makes no pointer to a function one to `void`, in a function whose parameters and locals have these types.
fn conversions_fit(unit: &CoreUnit, frame: &[TyId], e: &Core) -> bool
    ensures { result ≡ spec.conversions_fit (map (type_of (tables_of unit.now)) frame.now) (view (tables_of unit.now) e.now) }
{
    match e {
        Core::Convert { ty, operand, .. } => keeps_functions(unit, frame, *ty, operand.get()),
        _ => true,
    }
}

/// Whether a node is sound.
fn node_fits(unit: &CoreUnit, known: &Known<'_>, frame: &[TyId], e: &Core) -> bool
    requires { Serves unit.now known.now }
    ensures { result ≡ spec.node_fits (file_of unit.now) (map (type_of (tables_of unit.now)) frame.now) (view (tables_of unit.now) e.now) }
{
    types_fit(unit, known.proper.as_slice(), e)
        && names_fit(unit, known, e)
        && conversions_fit(unit, frame, e)
}

/// Whether all of these are.
pub(crate) fn nodes_fit(unit: &CoreUnit, known: &Known<'_>, frame: &[TyId], nodes: &[&Core]) -> bool
    requires { Serves unit.now known.now }
    ensures { result ≡ list_all (spec.node_fits (file_of unit.now) (map (type_of (tables_of unit.now)) frame.now)) (shown (tables_of unit.now) nodes.now) }
{
    for e in nodes {
        if !node_fits(unit, known, frame, *e) {
            return false;
        }
    }
    true
}

/// Whether it is what a reference binds.
pub(crate) fn is_bind(unit: &CoreUnit, e: &Core) -> bool
    ensures { result ≡ statements.binds (view (tables_of unit.now) e.now) }
{
    let _ = unit;
    match e {
        Core::Bind { .. } => true,
        _ => false,
    }
}
