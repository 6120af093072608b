ghost use Rattle.std.specs.Prelude.{◌≡◌, ◌<◌, length, OnOk};
ghost use Rattle.cf_elab.specs.Declaration.{plain_name as plain_name_row};
ghost use Rattle.cf_elab.specs.Env.{Env as Elaborated};
ghost use Rattle.cf_elab_env.specs.Answered.{Agrees, AgreesAs};
ghost use Rattle.cf_elab_env.specs.Holds.{IsEntity, IsType};
ghost use Rattle.cf_elab_env.specs.Seen.{entity_seen};
ghost use Rattle.cf_elab_objects.specs.Objects.Seen.{name_seen};
ghost use Rattle.cf_elab_objects.specs.Objects.Shut as shut;

use cf_base::{Broken, Bytes, Rule};
use cf_elab_env::{Entity, Env, Stop};
use cf_syntax::{Last, Name};
use cf_types::{Ty, TyId};

/// A `typedef` of this name, which stands for the type, and did before if the innermost scope declares it; else K8 (7.1.3).
#[tactic(auto, using(crate::proofs::ObjectsLaws::AliasLaws::aliased_laws))]
pub fn aliased(env: &mut Env, name: &[u8], at: u32, ty: TyId) -> Result<(), Stop>
    requires { IsType env.old.types ty }
    ensures made { Agrees (shut.aliased name.now at ty env.old) result env.new }
    ensures types { OnOk result (env.new.types ≡ env.old.types) }
{
    match env.declared_here(name) {
        None => {
            env.declare(name, Entity::Alias(ty))?;
            Ok(())
        }
        Some(number) => {
            check_same(env, number, at, ty)?;
            Ok(())
        }
    }
}

/// What is declared under this number is the type, else K8.
#[tactic(auto, using(crate::proofs::ObjectsLaws::AliasLaws::same_laws))]
fn check_same(env: &Env, number: u32, at: u32, ty: TyId) -> Result<(), Stop>
    requires place { number < length env.now.entities }
    requires known { IsType env.now.types ty }
    ensures { Agrees (shut.check_same number at ty env.now) result env.now }
{
    if is_same(env, ty, env.entity(number)) {
        Ok(())
    } else {
        Err(Stop::Broken(Broken {
            rule: Rule::new(8),
            at,
        }))
    }
}

#[tactic(auto, using(crate::proofs::ObjectsLaws::AliasLaws::alias_laws))]
fn is_same(env: &Env, ty: TyId, entity: &Entity) -> bool
    requires { IsType env.now.types ty }
    ensures { result ≡ shut.is_same env.now ty (entity_seen entity.now) }
{
    match entity {
        Entity::Alias(other) => ty == *other,
        Entity::Enum(number) => is_enum(env.type_at(ty), *number),
        _ => false,
    }
}

fn is_enum(ty: Ty, number: u32) -> bool
    ensures { result ≡ shut.is_enum ty number }
{
    match ty {
        Ty::Enum(own) => own == number,
        _ => false,
    }
}

/// No initialiser may stand here; where one does, K28 at its byte place.
#[tactic(auto, using(crate::proofs::ObjectsLaws::AliasLaws::initialiser_laws))]
pub fn check_no_initialiser(env: &Env, initial_at: Option<u32>) -> Result<(), Stop>
    ensures { Agrees (shut.no_initialiser initial_at env.now) result env.now }
{
    match initial_at {
        None => Ok(()),
        Some(at) => Err(Stop::Broken(Broken {
            rule: Rule::new(28),
            at,
        })),
    }
}

/// The name of what is no member: an identifier, else K26.
pub fn plain_name(name: &Name) -> Result<&Bytes, Stop>
    ensures { (env : Elaborated) → AgreesAs name_seen (plain_name_row name.now name.now.last env) result env }
{
    match &name.last {
        Last::Ident(bytes) => Ok(bytes),
        _ => Err(Stop::Broken(Broken {
            rule: Rule::new(26),
            at: name.last_at,
        })),
    }
}
