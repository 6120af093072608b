//! The C locals for what calls give.

ghost use Rattle.std.specs.Prelude.{◌≡◌, ◌++◌, ◌==◌, map, IfOk, OnOk};
ghost use Rattle.std.specs.List.{flat_map};
ghost use Rattle.cf_core.specs.FromTypes.{type_of};
ghost use Rattle.cf_core.specs.Types as types;
ghost use Rattle.cf_lower.specs.Functions as spec;
ghost use Rattle.cf_lower_layout.specs.Sorts as sorts;
ghost use Rattle.cf_lower_fn.specs.Parts as parts;
ghost use Rattle.cf_lower_stmt.specs.Calls as calls;
ghost use Rattle.cf_lower_fn.specs.Walks.{action_at, told};

use crate::locals::push_scalar;
use cc_whole::{CLocal, CType};
use cf_base::{Items, Memory};
use cf_lower_names::{result_name, type_number};
use cf_lower_stmt::result_type;
use cf_lower_types::Tables;
use cf_plain::Action;
use cf_types::TyId;
use std::alloc::Global;

/// Puts the C type of what a function of this type gives behind others, if it is a scalar.
#[tactic(auto, using(cf_lower_stmt::proofs::Types::one_none, cf_lower_stmt::proofs::Types::one_some))]
fn add_type(tables: &Tables<'_>, ty: TyId, made: &mut Vec<CType>) -> Result<(), Memory>
    ensures { OnOk result (made.new.items ≡ made.old.items ++ calls.one_type (sorts.sort_of (types.result (type_of tables.now ty)))) }
{
    match result_type(tables, ty) {
        None => Ok(()),
        Some(given) => {
            made.push(given)?;
            Ok(())
        }
    }
}

/// Puts that of what an action gives behind others, if it is a call.
fn add_result(tables: &Tables<'_>, a: &Action, made: &mut Vec<CType>) -> Result<(), Memory>
    ensures { OnOk result (made.new.items ≡ made.old.items ++ spec.result_at (action_at tables.now a.now)) }
{
    match a {
        Action::Call { ty, .. } => add_type(tables, *ty, made),
        Action::PointerCall { ty, .. } => add_type(tables, *ty, made),
        _ => Ok(()),
    }
}

/// The C types of what actions give that are calls.
#[tactic(auto, using(crate::proofs::Lists::results_more))]
fn result_types(alloc: Global, tables: &Tables<'_>, all: &[&Action]) -> Result<Vec<CType>, Memory>
    ensures { IfOk result (λ made. made.items ≡ flat_map spec.result_at (told tables.now all.now)) }
{
    let mut made = Vec::new(alloc);
    for action in all {
        add_result(tables, *action, &mut made)?;
    }
    Ok(made)
}

/// Whether a type stands in a list.
fn occurs(ty: CType, all: &[CType]) -> bool
    ensures { result ≡ parts.occurs ty all.now }
{
    let number = type_number(ty);
    all.iter().any(|other| type_number(*other) == number)
}

/// A C local for a type, if it stands in no list of others.
fn add_once(
    alloc: Global,
    ty: CType,
    others: &[CType],
    made: &mut Items<CLocal>,
) -> Result<(), Memory>
    ensures { OnOk result (made.new ≡ made.old ++ parts.once ty others.now) }
{
    if occurs(ty, others) {
        return Ok(());
    }
    let name = result_name(alloc, ty)?;
    push_scalar(made, ty, name)?;
    Ok(())
}

/// A C local for each type.
#[tactic(auto, using(crate::proofs::ResultLaws::rest_none))]
fn add_each(alloc: Global, all: &[CType], made: &mut Items<CLocal>) -> Result<(), Memory>
    ensures { OnOk result (made.new ≡ made.old ++ map parts.for_result (spec.each_once all.now)) }
{
    let mut rest = all;
    while let Some((ty, others)) = rest.split_first() {
        add_once(alloc, *ty, others, made)?;
        rest = others;
    }
    Ok(())
}

/// The C locals for what actions give that are calls, one for each type.
pub(crate) fn add_results(
    alloc: Global,
    tables: &Tables<'_>,
    all: &[&Action],
    made: &mut Items<CLocal>,
) -> Result<(), Memory>
    ensures { OnOk result (made.new ≡ made.old ++ spec.results (told tables.now all.now)) }
{
    let types = result_types(alloc, tables, all)?;
    add_each(alloc, types.as_slice(), made)?;
    Ok(())
}
