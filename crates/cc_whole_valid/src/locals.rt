ghost use Rattle.std.specs.Prelude.{◌≡◌, ◌++◌, [], OnOk};
ghost use Rattle.cc_whole.specs.Known as known;
ghost use Rattle.cc_whole.specs.Statements as checks;
ghost use Rattle.cc_whole.specs.Types as types;
ghost use Rattle.cc_whole_valid.specs.Checking as spec;
ghost use Rattle.cc_whole_valid.specs.CheckingItems as items;
ghost use Rattle.cc_whole_valid.specs.Walk.{Walks};

use crate::constants::{fits_constant, is_size};
use crate::landmarks::{marks_before, marks_behind, pass, type_marks};
use crate::scope::{Entity, Entry, Scope};
use crate::stop::Stop;
use cc_whole::{CConstant, CLocal, CLocalType, CParameter, CVariableType};
use cf_base::Memory;
use cf_name_list::Names;
use std::alloc::Global;

/// A local's type, as that of a variable.
fn local_type(t: CLocalType) -> CVariableType
    ensures { result ≡ types.local_type t }
{
    match t {
        CLocalType::Scalar(t) => CVariableType::Scalar(t),
        CLocalType::Ints(c) => CVariableType::Ints(c),
    }
}

/// Whether an array may have so many elements.
pub fn has_size(t: CVariableType) -> bool
    ensures { result ≡ checks.has_size t }
{
    match t {
        CVariableType::Scalar(_) => true,
        CVariableType::Ints(c) => is_size(c),
        CVariableType::Chars(c) => is_size(c),
        CVariableType::Pairs(c) => is_size(c),
    }
}

/// Goes past a name that differs from those before it.
#[tactic(auto, unfolding(crate::specs::Checking::distinct_from))]
fn distinct_from(at: &mut usize, name: &[u8], before: &Names<'_>) -> Result<(), Stop>
    ensures { Walks (spec.distinct_from name.now before.now at.old) result at.new }
{
    if before.has(name) {
        return Err(Stop::Broken {
            rule: 2,
            place: *at,
        });
    }
    pass(at, 1)
}

/// Goes past the number of the elements of an array, which is one that it may have.
#[tactic(auto, unfolding(crate::specs::Checking::size_from))]
pub fn size_from(at: &mut usize, t: CVariableType, fits: bool) -> Result<(), Stop>
    ensures { Walks (spec.size_from t fits at.old) result at.new }
{
    if !fits {
        return Err(Stop::Broken {
            rule: 11,
            place: *at,
        });
    }
    pass(at, marks_behind(t))
}

/// Goes past the number of a label or of a pair.
#[tactic(auto, unfolding(crate::specs::Checking::number_from))]
pub fn number_from(at: &mut usize, c: CConstant) -> Result<(), Stop>
    ensures { Walks (spec.number_from c at.old) result at.new }
{
    if !fits_constant(c) {
        return Err(Stop::Broken {
            rule: 11,
            place: *at,
        });
    }
    pass(at, 1)
}

#[tactic(auto, unfolding(crate::specs::Checking::local_from))]
fn local_from(at: &mut usize, local: &CLocal, before: &Names<'_>) -> Result<(), Stop>
    ensures { Walks (spec.local_from local.now before.now at.old) result at.new }
{
    let t = local_type(local.ty);
    pass(at, marks_before(t))?;
    distinct_from(at, local.name.as_slice(), before)?;
    size_from(at, t, has_size(t))
}

/// Goes past the locals of a body, which differ, and whose arrays have elements.
pub fn locals_from(alloc: Global, at: &mut usize, locals: &[CLocal]) -> Result<(), Stop>
    ensures { Walks (spec.locals_from locals.now [] at.old) result at.new }
{
    let mut before = Names::new(alloc);
    for local in locals {
        local_from(at, local, &before)?;
        before.add(local.name.as_slice())?;
    }
    Ok(())
}

#[tactic(auto, unfolding(crate::specs::CheckingItems::parameter_from))]
fn parameter_from(at: &mut usize, parameter: &CParameter, before: &Names<'_>) -> Result<(), Stop>
    ensures { Walks (items.parameter_from parameter.now before.now at.old) result at.new }
{
    pass(at, type_marks(parameter.ty))?;
    distinct_from(at, parameter.name.as_slice(), before)
}

fn some_from(alloc: Global, at: &mut usize, parameters: &[CParameter]) -> Result<(), Stop>
    ensures { Walks (items.some_from parameters.now [] at.old) result at.new }
{
    let mut before = Names::new(alloc);
    for parameter in parameters {
        parameter_from(at, parameter, &before)?;
        before.add(parameter.name.as_slice())?;
    }
    Ok(())
}

/// Goes past the parameters of a function, which differ, or past `void`.
#[tactic(auto, unfolding(crate::specs::CheckingItems::parameters_from))]
pub fn parameters_from(alloc: Global, at: &mut usize, parameters: &[CParameter]) -> Result<(), Stop>
    ensures { Walks (items.parameters_from parameters.now at.old) result at.new }
{
    match parameters {
        [] => pass(at, 1),
        [_, ..] => some_from(alloc, at, parameters),
    }
}

/// Puts locals in front of the names in scope, in their order.
pub fn add_locals<'a>(names: &mut Scope<'a>, locals: &'a [CLocal]) -> Result<(), Memory>
    ensures { OnOk result (names.new ≡ known.locals_named locals.now ++ names.old) }
{
    let mut left = locals.len();
    while left > 0 {
        left -= 1;
        let local = &locals[left];
        names.add(Entry {
            name: local.name.as_slice(),
            entity: Entity::Object(local_type(local.ty)),
        })?;
    }
    Ok(())
}

/// Puts parameters in front of the names in scope, in their order.
pub fn add_parameters<'a>(names: &mut Scope<'a>, parameters: &'a [CParameter]) -> Result<(), Memory>
    ensures { OnOk result (names.new ≡ known.parameters_named parameters.now ++ names.old) }
{
    let mut left = parameters.len();
    while left > 0 {
        left -= 1;
        let parameter = &parameters[left];
        names.add(Entry {
            name: parameter.name.as_slice(),
            entity: Entity::Object(CVariableType::Scalar(parameter.ty)),
        })?;
    }
    Ok(())
}
