ghost use Rattle.std.specs.Prelude.{◌≡◌, length, None, IfOk, IfSome, OnOk};
ghost use Rattle.std.specs.Option.{option_map};
ghost use Rattle.cf_elab.specs.Built.{of_path};
ghost use Rattle.cf_elab_env.specs.Answered.{Agrees};
ghost use Rattle.cf_elab_env.specs.Holds.{IsEntity, IsType, Grows};
ghost use Rattle.cf_elab_specifiers.specs.Named.Named.{name_seen, found_as};
ghost use Rattle.cf_elab_specifiers.specs.Named.Shut as shut;

use crate::named::keyed::keyed_named;
use crate::named::refusal::no_type;
use crate::named::type_name::{TypeName, type_name, type_of_name};
use cf_elab_env::{Env, Stop};
use cf_syntax::Path;
use cf_types::TyId;

/// The type that a path names, which is one name: K10 where it stands for no type (7.1.6).
#[tactic(auto, using(crate::proofs::NamedLaws::PathLaws::path_laws))]
pub fn type_at_path(env: &mut Env, path: &Path) -> Result<TyId, Stop>
    requires { of_path path.now ≡ None }
    ensures made { Agrees (shut.type_at_path path.now env.old) result env.new }
    ensures known { IfOk result (λ t. IsType env.new.types t) }
    ensures grows { OnOk result (Grows env.old.types env.new.types) }
{
    match path.names.as_slice().first() {
        Some(name) => {
            let ty = type_named(env, path.at, name.as_slice())?;
            Ok(ty)
        }
        None => Err(no_type(path.at)),
    }
}

/// The type that a path names behind `enum`: K10 where no type has the name (3.2, 7.1.6).
#[tactic(auto, using(crate::proofs::NamedLaws::PathLaws::keyed_laws))]
pub fn keyed_type(env: &mut Env, path: &Path) -> Result<TyId, Stop>
    requires { of_path path.now ≡ None }
    ensures made { Agrees (shut.keyed_type path.now env.old) result env.new }
    ensures known { IfOk result (λ t. IsType env.new.types t) }
    ensures grows { OnOk result (Grows env.old.types env.new.types) }
{
    match path.names.as_slice().first() {
        Some(name) => {
            let ty = keyed_named(env, path.at, name.as_slice())?;
            Ok(ty)
        }
        None => Err(no_type(path.at)),
    }
}

/// The type that a name stands for.
#[tactic(auto, using(crate::proofs::NamedLaws::PathLaws::named_laws))]
fn type_named(env: &mut Env, at: u32, name: &[u8]) -> Result<TyId, Stop>
    ensures made { Agrees (shut.type_named at name.now env.old) result env.new }
    ensures known { IfOk result (λ t. IsType env.new.types t) }
    ensures grows { OnOk result (Grows env.old.types env.new.types) }
{
    env.holds();
    match found_type(env, name) {
        Some(found) => {
            let ty = type_of_name(env, found)?;
            Ok(ty)
        }
        None => Err(no_type(at)),
    }
}

/// What a name is found as, if it is a type.
#[tactic(auto, using(crate::proofs::NamedLaws::PathLaws::found_laws))]
fn found_type(env: &Env, name: &[u8]) -> Option<TypeName>
    ensures value { option_map name_seen result ≡ found_as env.now name.now }
    ensures known { IfSome result (λ name. IsEntity env.now.types (length env.now.entries) (name_seen name)) }
{
    env.holds();
    match env.find(name) {
        Some(entity) => type_name(env, entity),
        None => None,
    }
}
