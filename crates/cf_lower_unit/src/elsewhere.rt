//! What a file names and does not define (3.3).

ghost use Rattle.std.specs.Prelude.{◌≡◌, ◌++◌, ◌∷◌, [], map, IfOk, OnOk, false};
ghost use Rattle.cc_whole.specs.Known.{is_in};
ghost use Rattle.cc_whole.specs.Plain.{declares, declares_variable, items_of, name_of as its_name};
ghost use Rattle.cf_core.specs.FromTypes.{type_of};
ghost use Rattle.cf_lower.specs.Functions as spec;
ghost use Rattle.cf_lower.specs.Written.{variable_type};
ghost use Rattle.cf_lower_types.specs.Bare.{classes_of};
ghost use Rattle.cf_lower_fn.specs.Walks.{action_at, told};
ghost use Rattle.cf_lower_unit.specs.Pieces as pieces;

use crate::items::{name_of, push};
use cc_whole::CItem;
use cf_base::{Items, Memory, Name};
use cf_lower_fn::{actions, object_type, prototype_of};
use cf_lower_types::Tables;
use cf_name_list::Names;
use cf_plain::{Action, PlainFn, PlainStatic};
use cf_types::TyId;
use std::alloc::Global;

/// Puts the names of items in front of others, in their order.
#[tactic(auto, using(crate::proofs::Names::names_none))]
fn add_names<'a>(names: &mut Names<'a>, items: &'a Items<CItem>) -> Result<(), Memory>
    ensures { OnOk result (names.new ≡ map its_name (items_of items.now) ++ names.old) }
{
    let mut rest = items.as_slice();
    while let Some((item, front)) = rest.split_last() {
        names.add(name_of(item))?;
        rest = front;
    }
    Ok(())
}

/// Whether a name is there.
fn has(names: &Names<'_>, name: &Name) -> bool
    ensures { result ≡ is_in names.now name.now }
{
    names.has(name.as_slice())
}

/// Puts a name in front of others.
fn add<'a>(names: &mut Names<'a>, name: &'a Name) -> Result<(), Memory>
    ensures { OnOk result (names.new ≡ name.now ∷ names.old) }
{
    names.add(name.as_slice())
}

/// Declares a static object, if its name is not there yet.
fn declare_object<'a>(
    alloc: Global,
    tables: &Tables<'_>,
    name: &'a Name,
    ty: TyId,
    names: &mut Names<'a>,
    made: &mut Items<CItem>,
) -> Result<(), Memory>
    ensures made { OnOk result (items_of made.new
        ≡ items_of made.old ++ spec.other_names names.old (declares_variable (variable_type (classes_of tables.now) (type_of tables.now ty)) name.now ∷ [])) }
    ensures names { OnOk result (names.new
        ≡ pieces.names_behind names.old (declares_variable (variable_type (classes_of tables.now) (type_of tables.now ty)) name.now ∷ [])) }
{
    if has(names, name) {
        return Ok(());
    }
    let copy = Items::from_slice(alloc, name.as_slice())?;
    let object = object_type(tables, ty)?;
    push(made, CItem::Extern(object, copy))?;
    add(names, name)?;
    Ok(())
}

/// Declares a function, if its name is not there yet.
fn declare_function<'a>(
    alloc: Global,
    tables: &Tables<'_>,
    name: &'a Name,
    ty: TyId,
    names: &mut Names<'a>,
    made: &mut Items<CItem>,
) -> Result<(), Memory>
    ensures made { OnOk result (items_of made.new
        ≡ items_of made.old ++ spec.other_names names.old (declares (spec.prototype_of false name.now (type_of tables.now ty)) ∷ [])) }
    ensures names { OnOk result (names.new
        ≡ pieces.names_behind names.old (declares (spec.prototype_of false name.now (type_of tables.now ty)) ∷ [])) }
{
    if has(names, name) {
        return Ok(());
    }
    let head = prototype_of(alloc, tables, name, ty)?;
    push(made, CItem::Prototype(head))?;
    add(names, name)?;
    Ok(())
}

/// Declares what an action names, if that name is not there yet.
fn declare<'a>(
    alloc: Global,
    tables: &Tables<'_>,
    a: &'a Action,
    names: &mut Names<'a>,
    made: &mut Items<CItem>,
) -> Result<(), Memory>
    ensures made { OnOk result (items_of made.new
        ≡ items_of made.old ++ spec.other_names names.old (spec.declared_at (classes_of tables.now) (action_at tables.now a.now))) }
    ensures names { OnOk result (names.new ≡ pieces.names_behind names.old (spec.declared_at (classes_of tables.now) (action_at tables.now a.now))) }
{
    match a {
        Action::Static { name, ty } => {
            declare_object(alloc, tables, name, *ty, names, made)?;
            Ok(())
        }
        Action::Function { name, ty } => {
            declare_function(alloc, tables, name, *ty, names, made)?;
            Ok(())
        }
        Action::Call { function, ty, .. } => {
            declare_function(alloc, tables, function, *ty, names, made)?;
            Ok(())
        }
        _ => Ok(()),
    }
}

/// Puts what functions do behind other actions.
fn add_done<'a>(
    tables: &Tables<'_>,
    functions: &'a [PlainFn],
    out: &mut Vec<&'a Action>,
) -> Result<(), Memory>
    ensures { OnOk result (told tables.now out.new.items ≡ told tables.now out.old.items ++ pieces.all_done tables.now functions.now) }
{
    for f in functions {
        actions(tables, &f.body, out)?;
    }
    Ok(())
}

/// Puts what initialisers do behind other actions.
fn add_started<'a>(
    tables: &Tables<'_>,
    statics: &'a [PlainStatic],
    out: &mut Vec<&'a Action>,
) -> Result<(), Memory>
    ensures { OnOk result (told tables.now out.new.items ≡ told tables.now out.old.items ++ pieces.all_started tables.now statics.now) }
{
    for x in statics {
        actions(tables, &x.start, out)?;
    }
    Ok(())
}

/// What a file does, in order.
fn done_in<'a>(
    alloc: Global,
    tables: &Tables<'_>,
    functions: &'a [PlainFn],
    statics: &'a [PlainStatic],
) -> Result<Vec<&'a Action>, Memory>
    ensures { IfOk result (λ all. told tables.now all.items ≡ pieces.all_done tables.now functions.now ++ pieces.all_started tables.now statics.now) }
{
    let mut all = Vec::new(alloc);
    add_done(tables, functions, &mut all)?;
    add_started(tables, statics, &mut all)?;
    Ok(all)
}

/// Declares what actions name, but for these names, and each once.
fn declare_all<'a>(
    alloc: Global,
    tables: &Tables<'_>,
    all: &[&'a Action],
    names: &mut Names<'a>,
) -> Result<Items<CItem>, Memory>
    ensures { IfOk result (λ made. items_of made ≡ spec.other_names names.old (pieces.named_by tables.now (told tables.now all.now))) }
{
    let mut made = Items::new(alloc);
    for action in all {
        declare(alloc, tables, *action, names, &mut made)?;
    }
    Ok(made)
}

/// Declares what a file names, but for the names of these items.
pub(crate) fn declare_others<'a>(
    alloc: Global,
    tables: &Tables<'_>,
    functions: &'a [PlainFn],
    statics: &'a [PlainStatic],
    heads: &'a Items<CItem>,
    variables: &'a Items<CItem>,
) -> Result<Items<CItem>, Memory>
    ensures { IfOk result (λ made. items_of made
        ≡ spec.other_names (map its_name (items_of heads.now) ++ map its_name (items_of variables.now))
        (pieces.named_by tables.now (pieces.all_done tables.now functions.now ++ pieces.all_started tables.now statics.now))) }
{
    let all = done_in(alloc, tables, functions, statics)?;
    let mut names = Names::new(alloc);
    add_names(&mut names, variables)?;
    add_names(&mut names, heads)?;
    let actions = all.as_slice();
    let made = declare_all(alloc, tables, actions, &mut names)?;
    Ok(made)
}
