ghost use Rattle.std.specs.Prelude.{◌≡◌, ◌<◌, length, Some, slice_get, IfOk, OnOk};
ghost use Rattle.cf_elab.specs.Answer.{Made};
ghost use Rattle.cf_elab.specs.Env.{object};
ghost use Rattle.cf_elab.specs.Objects as objects;
ghost use Rattle.cf_elab.specs.Operand as operand;
ghost use Rattle.cf_elab_env.specs.Holds.{FitsIn, IsObject, IsType};
ghost use Rattle.cf_elab_env.specs.Seen.{object_seen, sort_seen};
ghost use Rattle.cf_elab_objects.specs.Objects.Shut as shut;

use crate::objects::says::copied_home;
use cf_base::Memory;
use cf_elab_env::{Entity, Env, Object, Sort};
use cf_types::TyId;
use std::alloc::Global;

/// The number that a name of the type stands for from its initialiser on: that of a const integer that a constant initialises (5.19).
pub fn constant_number(env: &Env, ty: TyId, number: Option<i64>) -> Option<i64>
    requires known { IsType env.now.types ty }
    requires fits { FitsIn env.now.types ty number }
    ensures value { result ≡ objects.constant_number env.now ty number }
    ensures fits { FitsIn env.now.types ty result }
{
    if env.is_const(ty) && is_arithmetic(env.sort_of(ty)) {
        number
    } else {
        None
    }
}

fn is_arithmetic(sort: Sort) -> bool
    ensures { result ≡ operand.is_arithmetic (sort_seen sort) }
{
    matches!(sort, Sort::Integral(_) | Sort::Enumeral(_))
}

/// The object of this type that the innermost scope declares by the name has this number from here on. An object of another type under the name
/// is want of memory: the number would not be one of its type.
#[tactic(auto, using(crate::proofs::ObjectsLaws::NumberLaws::known_laws))]
pub fn number_known(env: &mut Env, name: &[u8], ty: TyId, number: Option<i64>) -> Result<(), Memory>
    requires { FitsIn env.old.types ty number }
    ensures made { OnOk result (shut.number_known name.now number env.old ≡ Made tt env.new) }
    ensures types { OnOk result (env.new.types ≡ env.old.types) }
{
    match env.declared_here(name) {
        None => Ok(()),
        Some(place) => {
            set_number(env, place, ty, number)?;
            Ok(())
        }
    }
}

/// The same of the entity of this number.
#[tactic(auto, using(crate::proofs::ObjectsLaws::NumberLaws::set_laws))]
fn set_number(env: &mut Env, place: u32, ty: TyId, number: Option<i64>) -> Result<(), Memory>
    requires place { place < length env.old.entities }
    requires fits { FitsIn env.old.types ty number }
    ensures made { OnOk result (shut.set_number place number env.old ≡ Made tt env.new) }
    ensures types { OnOk result (env.new.types ≡ env.old.types) }
{
    if let Entity::Object(object) = env.entity(place) {
        let object = with_number(env.alloc(), object, ty, number)?;
        env.redeclare(place, Entity::Object(object));
    }
    Ok(())
}

/// The object with this number, which is one of the type.
fn with_number(
    alloc: Global,
    object: &Object,
    ty: TyId,
    number: Option<i64>,
) -> Result<Object, Memory>
    ensures made { IfOk result (λ x. object_seen x ≡ record (object_seen object.now) { number = number }) }
    ensures same { OnOk result (object.now.ty ≡ ty) }
{
    if object.ty == ty {
        Ok(Object {
            ty,
            home: copied_home(alloc, &object.home)?,
            number,
            at: object.at,
            is_defined: object.is_defined,
            is_internal: object.is_internal,
            is_extern: object.is_extern,
        })
    } else {
        Err(Memory)
    }
}
