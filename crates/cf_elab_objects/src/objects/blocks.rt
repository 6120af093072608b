ghost use Rattle.std.specs.Prelude.{◌≡◌, OnOk};
ghost use Rattle.cf_elab.specs.Objects as objects;
ghost use Rattle.cf_elab_env.specs.Answered.{Agrees};
ghost use Rattle.cf_elab_env.specs.Holds.{IsObject};
ghost use Rattle.cf_elab_env.specs.Seen.{home_seen, object_seen};
ghost use Rattle.cf_elab_objects.specs.Objects.Shut as shut;

use cf_base::{Broken, Rule};
use cf_elab_env::{Entity, Env, Home, Object, Stop};
use cf_types::TyId;

/// An object that a block defines (6.7).
pub fn block_object(ty: TyId, home: Home, at: u32) -> Object
    ensures { object_seen result ≡ objects.block_object ty (home_seen home) at }
{
    Object {
        ty,
        home,
        number: None,
        at,
        is_defined: true,
        is_internal: true,
        is_extern: false,
    }
}

/// An object under its name in the innermost scope, which declares nothing of the name; else K8.
#[tactic(auto, using(crate::proofs::ObjectsLaws::BlockLaws::block_laws))]
pub fn declare_in_block(env: &mut Env, name: &[u8], at: u32, object: Object) -> Result<(), Stop>
    requires { IsObject env.old.types (object_seen object) }
    ensures made { Agrees (shut.declare_in_block name.now at (object_seen object) env.old) result env.new }
    ensures types { OnOk result (env.new.types ≡ env.old.types) }
{
    match env.declared_here(name) {
        Some(_) => Err(Stop::Broken(Broken {
            rule: Rule::new(8),
            at,
        })),
        None => {
            env.declare(name, Entity::Object(object))?;
            Ok(())
        }
    }
}
