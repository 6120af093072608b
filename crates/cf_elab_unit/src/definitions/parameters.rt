//! The parameters of a function that is defined.

ghost use Rattle.std.specs.Prelude.{◌≡◌, ◌+◌, ◌≤◌, ◌^◌, length, IfOk, OnOk, All};
ghost use Rattle.cf_elab.specs.Definition as definition;
ghost use Rattle.cf_elab_env.specs.Answered.{Agrees};
ghost use Rattle.cf_elab_env.specs.Holds.{IsType};
ghost use Rattle.cf_elab_unit.specs.Definitions.Shut as shut;

use cf_base::{Broken, Items, Memory, Rule};
use cf_elab_env::{Env, Home, Stop};
use cf_elab_objects::{block_object, declare_in_block};
use cf_elab_shape::Parameter;
use cf_syntax::{Last, Name};
use cf_types::TyId;
use std::alloc::Global;

/// The types of parameters.
pub(crate) fn own_types(alloc: Global, parameters: &[Parameter]) -> Result<Items<TyId>, Memory>
    ensures { IfOk result (λ ts. ts ≡ definition.own_types parameters.now) }
{
    let types: Vec<TyId> = parameters.iter().map(|p| p.ty).collect(alloc)?;
    Ok(Items::from_vec(types))
}

/// Each parameter is an object of the outermost block, numbered from this number on; a name twice is K8 at the second (8.3).
#[tactic(auto, using(crate::proofs::DefinitionsLaws::ParameterLaws::all_laws))]
pub(crate) fn declare_parameters(
    env: &mut Env,
    first: u32,
    parameters: &[Parameter],
) -> Result<(), Stop>
    requires { All (λ p. IsType env.old.types p.type) parameters.now }
    ensures made { Agrees (shut.declare_parameters first parameters.now env.old) result env.new }
    ensures types { OnOk result (env.new.types ≡ env.old.types) }
{
    match parameters.split_first() {
        None => Ok(()),
        Some((parameter, rest)) => {
            let next = next_number(first)?;
            declare_parameter(env, first, parameter)?;
            declare_parameters(env, next, rest)?;
            Ok(())
        }
    }
}

/// The number behind this one.
fn next_number(number: u32) -> Result<u32, Memory>
    ensures { IfOk result (λ next. next ≡ number + 1) }
{
    number.checked_add(1).ok_or(Memory)
}

/// A parameter of this number, if it has a name.
#[tactic(auto, using(crate::proofs::DefinitionsLaws::ParameterLaws::one_laws))]
fn declare_parameter(env: &mut Env, number: u32, parameter: &Parameter) -> Result<(), Stop>
    requires { IsType env.old.types parameter.now.type }
    ensures made { Agrees (shut.declare_parameter number parameter.now env.old) result env.new }
    ensures types { OnOk result (env.new.types ≡ env.old.types) }
{
    match &parameter.name {
        None => Ok(()),
        Some(name) => {
            declare_named(env, number, parameter.ty, name)?;
            Ok(())
        }
    }
}

/// A parameter of this number, type and name; a name that is no identifier is K26.
#[tactic(auto, using(crate::proofs::DefinitionsLaws::ParameterLaws::named_laws))]
fn declare_named(env: &mut Env, number: u32, ty: TyId, name: &Name) -> Result<(), Stop>
    requires { IsType env.old.types ty }
    ensures made { Agrees (shut.named_parameter number ty name.now env.old) result env.new }
    ensures types { OnOk result (env.new.types ≡ env.old.types) }
{
    match &name.last {
        Last::Ident(bytes) => {
            let object = block_object(ty, Home::Local(number), name.last_at);
            declare_in_block(env, bytes.as_slice(), name.last_at, object)?;
            Ok(())
        }
        _ => Err(Stop::Broken(Broken {
            rule: Rule::new(26),
            at: name.last_at,
        })),
    }
}
