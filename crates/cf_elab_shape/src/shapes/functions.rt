ghost use Rattle.std.specs.Prelude.{◌≡◌, ◌++◌, false, IsTrue, IfOk, OnOk};
ghost use Rattle.cf_types.specs.Table.{is_parameter, passes};
ghost use Rattle.cf_elab.specs.Answer.{Made, onward};
ghost use Rattle.cf_elab.specs.Operand.{sort_of, is_void};
ghost use Rattle.cf_elab_env.specs.Answered.{Agrees};
ghost use Rattle.cf_elab_env.specs.Holds.{Grows, IsType};
ghost use Rattle.cf_elab_shape.specs.Shapes.Holds.{AreObjects, AreTaken};
ghost use Rattle.cf_elab_shape.specs.Shapes.Shut as shut;

use crate::shapes::forms::{check_form, is_returned};
use crate::shapes::shape::Parameter;
use cf_base::{Items, Memory};
use cf_elab_env::{Env, Stop};
use cf_types::{Ty, TyId};

/// The type of a function with these parameters and this result; K26 where that is an array or a function, or `const` stands behind the parameters
/// where it may not (8.2.5).
#[tactic(auto, using(crate::proofs::ShapesLaws::StepLaws::taking_laws))]
pub(crate) fn function_of(
    env: &mut Env,
    at: u32,
    parameters: &[Parameter],
    is_const: bool,
    may: bool,
    returned: TyId,
) -> Result<TyId, Stop>
    requires returned_known { IsType env.old.types returned }
    requires objects { AreObjects env.old.types parameters.now }
    ensures made { Agrees (shut.taking at parameters.now is_const may returned env.old) result env.new }
    ensures known { IfOk result (λ t. IsType env.new.types t) }
    ensures grows { OnOk result (Grows env.old.types env.new.types) }
{
    check_form(env, is_returned(env, returned), at)?;
    check_form(env, !is_const || may, at)?;
    let types = parameter_types(env, parameters)?;
    let function = env.function_type(returned, types, is_const)?;
    Ok(function)
}

/// The types of parameters as the type of their function has them, in order.
#[tactic(auto, using(crate::proofs::ShapesLaws::ParameterLaws::types_laws))]
fn parameter_types(env: &mut Env, parameters: &[Parameter]) -> Result<Items<TyId>, Memory>
    requires { AreObjects env.old.types parameters.now }
    ensures made { IfOk result (λ ts. shut.parameter_types parameters.now env.old ≡ Made ts env.new) }
    ensures taken { IfOk result (λ ts. AreTaken env.new.types ts) }
    ensures grows { OnOk result (Grows env.old.types env.new.types) }
{
    let mut types = Vec::new(env.alloc());
    add_types(env, parameters, &mut types)?;
    Ok(Items::from_vec(types))
}

/// Adds the types of these parameters to those of the ones before.
#[tactic(auto, using(crate::proofs::ShapesLaws::ParameterLaws::more_laws))]
fn add_types(env: &mut Env, parameters: &[Parameter], types: &mut Vec<TyId>) -> Result<(), Memory>
    requires objects { AreObjects env.old.types parameters.now }
    requires taken { AreTaken env.old.types types.old.items }
    ensures made { OnOk result (onward (shut.parameter_types parameters.now env.old) (λ ts e. Made (types.old.items ++ ts) e) ≡ Made types.new.items env.new) }
    ensures taken { OnOk result (AreTaken env.new.types types.new.items) }
    ensures grows { OnOk result (Grows env.old.types env.new.types) }
{
    match parameters.split_first() {
        None => Ok(()),
        Some((first, rest)) => {
            let ty = parameter_type(env, first.ty)?;
            types.push(ty)?;
            add_types(env, rest, types)?;
            Ok(())
        }
    }
}

/// The type of a parameter in the type of its function: without const, and an array or a function as a pointer (8.2.5).
#[tactic(auto, using(crate::proofs::ShapesLaws::ParameterLaws::type_laws))]
fn parameter_type(env: &mut Env, ty: TyId) -> Result<TyId, Memory>
    requires known { IsType env.old.types ty }
    requires object { is_void (sort_of env.old.types ty) ≡ false }
    ensures made { IfOk result (λ t. shut.parameter_type ty env.old ≡ Made t env.new) }
    ensures known { IfOk result (λ t. IsType env.new.types t) }
    ensures fine { IfOk result (λ t. IsTrue (passes is_parameter env.new.types.types t)) }
    ensures grows { OnOk result (Grows env.old.types env.new.types) }
{
    env.holds();
    match env.type_at(ty) {
        Ty::Array(element, _) => {
            let pointer = env.pointer_to(element)?;
            Ok(pointer)
        }
        Ty::Fun(_) => {
            let pointer = env.pointer_to(ty)?;
            Ok(pointer)
        }
        Ty::Const(inside) => Ok(inside),
        _ => Ok(ty),
    }
}
