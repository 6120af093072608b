//! The names of parameters (8.2.5).

ghost use Rattle.std.specs.Prelude.{◌≡◌, ◌++◌, IfOk, OnOk};
ghost use Rattle.cf_unit.specs.Declares as spec;
ghost use Rattle.cf_unit.specs.Bodies.{with_params};
ghost use Rattle.cf_unit.specs.Enters.{with_values};
ghost use Rattle.cf_enter.specs.Steps.{names_of, param_name};

use crate::declarator::{is_bare, plain_name};
use cf_base::{Bytes, Items, Memory};
use cf_syntax::{DeclTree, NameKind, Param, TypeNames};
use std::alloc::Global;

/// Adds the name of a parameter, if it has one.
fn add_name(alloc: Global, names: &mut Items<Bytes>, param: &Param) -> Result<(), Memory>
    ensures { OnOk result (names.new ≡ names.old ++ param_name param.now) }
{
    match plain_name(param.declarator.get()) {
        Some(name) => names.push(Bytes::from_slice(alloc, name)?),
        None => Ok(()),
    }
}

/// The names of these parameters.
fn listed(alloc: Global, all: &[Param]) -> Result<Items<Bytes>, Memory>
    ensures { IfOk result (λ names. names ≡ names_of all.now) }
{
    let mut names = Items::new(alloc);
    for param in all {
        add_name(alloc, &mut names, param)?;
    }
    Ok(names)
}

/// The names of the parameters directly behind the declared name.
pub fn param_names(alloc: Global, tree: &DeclTree) -> Result<Items<Bytes>, Memory>
    ensures { IfOk result (λ names. names ≡ (spec.shape tree.now).params) }
{
    match tree {
        DeclTree::Unnamed => Ok(Items::new(alloc)),
        DeclTree::Declared(_) => Ok(Items::new(alloc)),
        DeclTree::Pointed(_, d) => param_names(alloc, d.get()),
        DeclTree::Bracketed(_, d) => param_names(alloc, d.get()),
        DeclTree::Function(_, d, all, _) => {
            if is_bare(d.get()) {
                listed(alloc, all.as_slice())
            } else {
                param_names(alloc, d.get())
            }
        }
        DeclTree::Array(_, d, _) => param_names(alloc, d.get()),
    }
}

/// Enters names that are no types in the innermost scope.
fn enter_values(names: &mut TypeNames, all: &[Bytes]) -> Result<(), Memory>
    ensures { OnOk result (names.new ≡ with_values names.old all.now) }
{
    for name in all {
        names.declare(name.as_slice(), NameKind::Value)?;
    }
    Ok(())
}

/// Opens a scope with the names of the parameters of a function.
pub fn enter_params(alloc: Global, names: &mut TypeNames, tree: &DeclTree) -> Result<(), Memory>
    ensures { OnOk result (names.new ≡ with_params names.old (spec.shape tree.now)) }
{
    let all = param_names(alloc, tree)?;
    names.enter()?;
    enter_values(names, all.as_slice())
}
