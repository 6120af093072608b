ghost use Rattle.std.specs.Prelude.{◌≡◌, false, None, [], ◌∷◌, IfOk, OnOk};
ghost use Rattle.cf_elab.specs.Declarator as declarator;
ghost use Rattle.cf_elab.specs.Operand.{sort_of, is_void as void};
ghost use Rattle.cf_elab_env.specs.Answered.{Agrees};
ghost use Rattle.cf_elab_env.specs.Holds.{IsType};
ghost use Rattle.cf_elab_shape.specs.Shapes.Holds.{AreObjects, IsParameter};
ghost use Rattle.cf_elab_shape.specs.Shapes.Shut as shut;

use crate::shapes::forms::is_void;
use crate::shapes::shape::Parameter;
use cf_base::{Items, Memory};
use cf_elab_arith::broken;
use cf_elab_env::{Env, Stop};
use std::alloc::Global;

/// The parameters of a function with one: none where it is `(void)`, and otherwise an object; else K26 at its name (8.2.5).
#[tactic(auto, using(crate::proofs::ShapesLaws::VoidLaws::only_laws))]
pub fn only_parameter(env: &Env, parameter: Parameter) -> Result<Items<Parameter>, Stop>
    requires { IsType env.now.types parameter.type }
    ensures made { Agrees (shut.only_parameter parameter env.now) result env.now }
    ensures objects { IfOk result (λ ps. AreObjects env.now.types ps) }
{
    if is_nothing(env, &parameter) {
        return Ok(Items::new(env.alloc()));
    }
    check_parameter(env, &parameter)?;
    let list = alone(env.alloc(), parameter)?;
    Ok(list)
}

fn alone(alloc: Global, parameter: Parameter) -> Result<Items<Parameter>, Memory>
    ensures { IfOk result (λ ps. ps ≡ parameter ∷ []) }
{
    let mut list = Items::new(alloc);
    list.push(parameter)?;
    Ok(list)
}

/// Whether it is `void` alone: without const, a storage word and a name. None has a default argument.
fn is_nothing(env: &Env, parameter: &Parameter) -> bool
    requires { IsType env.now.types parameter.now.type }
    ensures { result ≡ declarator.is_nothing env.now parameter.now }
{
    is_void(env.sort_of(parameter.ty))
        && !env.is_const(parameter.ty)
        && !parameter.is_stored
        && parameter.name.is_none()
}

/// Its type is not void; else K26 at its name, or where it has none at its first token (8.2.5).
#[tactic(auto, using(crate::proofs::ShapesLaws::VoidLaws::void_laws))]
pub fn check_parameter(env: &Env, parameter: &Parameter) -> Result<(), Stop>
    requires { IsType env.now.types parameter.now.type }
    ensures made { Agrees (shut.no_void parameter.now env.now) result env.now }
    ensures object { OnOk result (IsParameter env.now.types parameter.now) }
{
    check_object(env, parameter)?;
    Ok(())
}

#[tactic(auto, using(crate::proofs::ShapesLaws::VoidLaws::object_laws))]
fn check_object(env: &Env, parameter: &Parameter) -> Result<(), Stop>
    requires { IsType env.now.types parameter.now.type }
    ensures made { Agrees (shut.no_void parameter.now env.now) result env.now }
    ensures object { OnOk result (void (sort_of env.now.types parameter.now.type) ≡ false) }
    ensures no_default { OnOk result (parameter.now.default ≡ None) }
{
    if is_void(env.sort_of(parameter.ty)) {
        Err(Stop::Broken(broken(26, named_at(parameter))))
    } else {
        Ok(())
    }
}

/// The place of its name, or where it has none of its first token.
fn named_at(parameter: &Parameter) -> u32
    ensures { result ≡ declarator.named_at parameter.now }
{
    match &parameter.name {
        Some(name) => name.last_at,
        None => parameter.at,
    }
}
