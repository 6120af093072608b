ghost use Rattle.std.specs.Prelude.{◌≡◌, length, IfOk, IfSome, OnOk};
ghost use Rattle.std.specs.Option.{option_map};
ghost use Rattle.cf_elab.specs.Answer.{Made};
ghost use Rattle.cf_elab_env.specs.Holds.{IsEntity, IsType, Grows};
ghost use Rattle.cf_elab_env.specs.Seen.{entity_seen};
ghost use Rattle.cf_elab_env.specs.Shut as made;
ghost use Rattle.cf_elab_specifiers.specs.Named.Named.{name_seen, type_entity};
ghost use Rattle.cf_elab_specifiers.specs.Named.Shut as shut;

use cf_base::Memory;
use cf_elab_env::{Entity, Env};
use cf_types::{Ty, TyId};

/// An entity that is a type.
#[derive(Clone, Copy, Debug, PartialEq, Eq)]
pub(crate) enum TypeName {
    /// A type that `typedef` names.
    Alias(TyId),
    /// The enumeration of this number.
    Enum(u32),
}

/// The entity, if it is a type.
#[tactic(auto, using(crate::proofs::NamedLaws::NamedLaws::type_laws))]
pub(crate) fn type_name(env: &Env, entity: &Entity) -> Option<TypeName>
    requires { IsEntity env.now.types (length env.now.entries) (entity_seen entity.now) }
    ensures value { option_map name_seen result ≡ type_entity (entity_seen entity.now) }
    ensures known { IfSome result (λ name. IsEntity env.now.types (length env.now.entries) (name_seen name)) }
{
    let _env = env;
    match entity {
        Entity::Alias(ty) => Some(TypeName::Alias(*ty)),
        Entity::Enum(number) => Some(TypeName::Enum(*number)),
        _ => None,
    }
}

/// The type that it is.
#[tactic(auto, using(crate::proofs::NamedLaws::NamedLaws::made_laws))]
pub(crate) fn type_of_name(env: &mut Env, name: TypeName) -> Result<TyId, Memory>
    requires { IsEntity env.old.types (length env.old.entries) (name_seen name) }
    ensures made { IfOk result (λ t. shut.type_of (name_seen name) env.old ≡ Made t env.new) }
    ensures known { IfOk result (λ t. IsType env.new.types t) }
    ensures grows { OnOk result (Grows env.old.types env.new.types) }
{
    match name {
        TypeName::Alias(ty) => Ok(ty),
        TypeName::Enum(number) => {
            let ty = enum_type(env, number)?;
            Ok(ty)
        }
    }
}

/// The type of the enumeration of this number.
#[tactic(auto, using(crate::proofs::NamedLaws::NamedLaws::names_enum))]
fn enum_type(env: &mut Env, number: u32) -> Result<TyId, Memory>
    ensures made { IfOk result (λ t. made.intern (Ty.Enum number) env.old ≡ Made t env.new) }
    ensures known { IfOk result (λ t. IsType env.new.types t) }
    ensures grows { OnOk result (Grows env.old.types env.new.types) }
{
    if number < env.enum_count() {
        let ty = env.intern(Ty::Enum(number))?;
        Ok(ty)
    } else {
        Err(Memory)
    }
}
