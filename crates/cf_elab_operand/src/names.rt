ghost use Rattle.std.specs.Prelude.{◌≡◌, length, None, IfOk};
ghost use Rattle.cf_elab.specs.Built.{of_name};
ghost use Rattle.cf_elab.specs.Names as names;
ghost use Rattle.cf_elab_env.specs.Answered.{AgreesAs};
ghost use Rattle.cf_elab_env.specs.Holds.{IsEntity};
ghost use Rattle.cf_elab_env.specs.Seen.{entity_seen};
ghost use Rattle.cf_elab_env.specs.SeenOperand.{operand_seen};
ghost use Rattle.cf_elab_operand.specs.Operands.{IsOperand};
ghost use Rattle.cf_elab_operand.specs.Shut as shut;

use crate::functions::functions_named;
use crate::objects::object_value;
use cf_base::{Boxed, Memory};
use cf_core::Core;
use cf_elab_arith::broken;
use cf_elab_env::{Entity, Env, Operand, Stop, Value};
use cf_syntax::{Last, Name};
use cf_types::TyId;
use std::alloc::Global;

/// What a name is as an operand: K10 where it stands for no object, function or enumerator, and K11 where it is `main` (3.2, 3.4, 5.1).
/// The name is an identifier by itself.
#[tactic(auto, using(crate::proofs::NameLaws::named_laws))]
pub fn named(env: &Env, name: &Name) -> Result<Operand, Stop>
    requires { of_name name.now ≡ None }
    ensures made { AgreesAs operand_seen (shut.named name.now env.now) result env.now }
    ensures known { IfOk result (λ o. IsOperand env.now.types o) }
{
    match &name.last {
        Last::Ident(identifier) => {
            let operand = operand_named(env, name.last_at, identifier.as_slice())?;
            Ok(operand)
        }
        _ => Err(Stop::Memory),
    }
}

/// What an identifier is as an operand.
#[tactic(auto, using(crate::proofs::NameLaws::found_laws))]
fn operand_named(env: &Env, at: u32, name: &[u8]) -> Result<Operand, Stop>
    ensures made { AgreesAs operand_seen (shut.operand_named at name.now env.now) result env.now }
    ensures known { IfOk result (λ o. IsOperand env.now.types o) }
{
    match env.find(name) {
        Some(entity) => {
            let operand = operand_of(env, at, entity)?;
            Ok(operand)
        }
        None => Err(Stop::Broken(broken(10, at))),
    }
}

/// What an entity is as an operand.
#[tactic(auto, using(crate::proofs::NameLaws::entity_laws))]
fn operand_of(env: &Env, at: u32, entity: &Entity) -> Result<Operand, Stop>
    requires { IsEntity env.now.types (length env.now.entries) (entity_seen entity.now) }
    ensures made { AgreesAs operand_seen (shut.operand_of at (entity_seen entity.now) env.now) result env.now }
    ensures known { IfOk result (λ o. IsOperand env.now.types o) }
{
    match entity {
        Entity::Object(object) => {
            let value = object_value(env, at, object)?;
            Ok(Operand::Value(value))
        }
        Entity::Functions(numbers) => {
            let named = functions_named(env, at, numbers.as_slice())?;
            Ok(named)
        }
        Entity::Enumerator(ty, number) => {
            let value = enumerator_value(env.alloc(), at, *ty, *number)?;
            Ok(Operand::Value(value))
        }
        Entity::Alias(_) => Err(Stop::Broken(broken(10, at))),
        Entity::Enum(_) => Err(Stop::Broken(broken(10, at))),
    }
}

/// A constant of an enumeration; in its own expression it has no value yet (3.2).
fn enumerator_value(alloc: Global, at: u32, ty: TyId, number: Option<i64>) -> Result<Value, Memory>
    ensures { IfOk result (λ v. v ≡ names.enumerator_value at ty number) }
{
    match number {
        Some(number) => Value::constant(alloc, at, number, ty),
        None => {
            let node = Boxed::new(alloc, Core::Number { at, value: 0 })?;
            Ok(Value::computed(at, node, ty))
        }
    }
}
