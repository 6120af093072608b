//! Heads of functions.

ghost use Rattle.std.specs.Prelude.{◌≡◌, ◌++◌, map, IfOk, OnOk, false};
ghost use Rattle.cf_core.specs.FromTypes.{type_of};
ghost use Rattle.cf_lower.specs.Functions as spec;
ghost use Rattle.cf_lower_layout.specs.Sorts as sorts;
ghost use Rattle.cf_lower_fn.specs.Parts as parts;
ghost use Rattle.cf_plain.specs.View as view;

use cc_whole::{CParameter, CPrototype, CType};
use cf_base::{Items, Memory, Name};
use cf_lower_names::local_name;
use cf_lower_stmt::{result_type, scalar_type};
use cf_lower_types::Tables;
use cf_plain::PlainFn;
use cf_types::TyId;
use std::alloc::Global;

/// Puts the parameter of this number behind others, if it is a scalar.
#[tactic(auto, using(crate::proofs::ObjectTypes::parameter_none, crate::proofs::ObjectTypes::parameter_some))]
fn add_parameter(
    alloc: Global,
    tables: &Tables<'_>,
    number: u32,
    id: TyId,
    made: &mut Items<CParameter>,
) -> Result<(), Memory>
    ensures { OnOk result (made.new ≡ made.old ++ parts.one_parameter number (sorts.sort_of (type_of tables.now id))) }
{
    match scalar_type(tables, id) {
        None => Ok(()),
        Some(ty) => {
            let name = local_name(alloc, number)?;
            made.push(CParameter { ty, name })?;
            Ok(())
        }
    }
}

/// Parameters of these types.
#[tactic(auto, using(crate::proofs::Heads::parameter_more))]
fn parameters(
    alloc: Global,
    tables: &Tables<'_>,
    types: &[TyId],
) -> Result<Items<CParameter>, Memory>
    ensures { IfOk result (λ made. made ≡ spec.lowered_parameters 0 (map (type_of tables.now) types.now)) }
{
    let mut made = Items::new(alloc);
    let mut number: u32 = 0;
    for id in types {
        add_parameter(alloc, tables, number, *id, &mut made)?;
        number = number.checked_add(1).ok_or(Memory)?;
    }
    Ok(made)
}

/// The head of a function of this name, with these parameters and this result.
fn head(
    alloc: Global,
    tables: &Tables<'_>,
    is_local: bool,
    name: &Name,
    types: &[TyId],
    given: Option<CType>,
) -> Result<CPrototype, Memory>
    ensures { IfOk result (λ made. made ≡ parts.head is_local name.now (map (type_of tables.now) types.now) given) }
{
    let name = Items::from_slice(alloc, name.as_slice())?;
    let parameters = parameters(alloc, tables, types)?;
    Ok(CPrototype {
        is_static: is_local,
        result: given,
        name,
        parameters,
    })
}

/// The head of a function of this name and type that another file defines.
#[tactic(auto, using(crate::proofs::Heads::other_head))]
pub fn prototype_of(
    alloc: Global,
    tables: &Tables<'_>,
    name: &Name,
    ty: TyId,
) -> Result<CPrototype, Memory>
    ensures { IfOk result (λ made. made ≡ spec.prototype_of false name.now (type_of tables.now ty)) }
{
    let types = cf_lower_types::parameters(tables, ty);
    let made = head(alloc, tables, false, name, types, result_type(tables, ty))?;
    Ok(made)
}

/// The head of a function of the file.
#[tactic(auto, using(crate::proofs::Heads::own_head))]
pub fn own_prototype(alloc: Global, tables: &Tables<'_>, f: &PlainFn) -> Result<CPrototype, Memory>
    ensures { IfOk result (λ made. made ≡ spec.prototype (view.function_of tables.now f.now)) }
{
    let made = head(
        alloc,
        tables,
        f.is_local,
        &f.name,
        f.params.as_slice(),
        scalar_type(tables, f.result),
    )?;
    Ok(made)
}
