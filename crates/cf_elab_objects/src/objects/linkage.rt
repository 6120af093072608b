ghost use Rattle.std.specs.Prelude.{◌≡◌, ◌<◌, length, None, IfOk, OnOk};
ghost use Rattle.cf_elab.specs.Names as names;
ghost use Rattle.cf_elab.specs.Objects as objects;
ghost use Rattle.cf_elab.specs.Answer.{Made};
ghost use Rattle.cf_elab_env.specs.Answered.{Agrees, AgreesAs};
ghost use Rattle.cf_elab_env.specs.Holds.{IsObject, IsType};
ghost use Rattle.cf_elab_env.specs.Seen.{object_seen};
ghost use Rattle.cf_elab_objects.specs.Objects.Seen.{says_seen};
ghost use Rattle.cf_elab_objects.specs.Objects.Shut as shut;

use crate::links::check_link;
use crate::objects::says::Says;
use cf_base::{Broken, Items, Memory, Name, Rule};
use cf_elab_env::{Entity, Env, Object, Stop};

/// An object with linkage, whose link name is given: the same as one that is declared, else a new one. It gives whether the name is local to the
/// file. K8 where the object may not be declared again, K9 where its linkage would change, and K48 where no file defines it (3.3).
#[tactic(auto, using(crate::proofs::ObjectsLaws::LinkLaws::declare_laws))]
pub fn declare_linked(env: &mut Env, says: &Says, link: Name) -> Result<bool, Stop>
    requires known { IsType env.old.types says.now.ty }
    requires link { link ≡ objects.variable_link says.now.name }
    ensures made { Agrees (shut.declare_linked (says_seen says.now) env.old) result env.new }
    ensures types { OnOk result (env.new.types ≡ env.old.types) }
{
    match env.declared_here(says.name.as_slice()) {
        Some(number) => {
            let is_internal = with_entity(env, says, number)?;
            Ok(is_internal)
        }
        None => {
            let is_internal = from_elsewhere(env, says, link)?;
            Ok(is_internal)
        }
    }
}

/// An object with linkage that the innermost scope does not declare: what a block or an earlier scope declared, else a new one.
#[tactic(auto, using(crate::proofs::ObjectsLaws::LinkLaws::elsewhere_laws))]
fn from_elsewhere(env: &mut Env, says: &Says, link: Name) -> Result<bool, Stop>
    requires known { IsType env.old.types says.now.ty }
    requires link { link ≡ objects.variable_link says.now.name }
    requires fresh { names.declared_here env.old says.now.name ≡ None }
    ensures made { Agrees (shut.from_elsewhere (says_seen says.now) env.old) result env.new }
    ensures types { OnOk result (env.new.types ≡ env.old.types) }
{
    match env.linked(says.name.as_slice()) {
        Some(number) => {
            let is_internal = bound_again(env, says, number)?;
            Ok(is_internal)
        }
        None => {
            let is_internal = first_declared(env, says, link)?;
            Ok(is_internal)
        }
    }
}

/// An object of another scope, which the innermost scope names too from here on.
#[tactic(auto, using(crate::proofs::ObjectsLaws::LinkLaws::bound_laws))]
fn bound_again(env: &mut Env, says: &Says, number: u32) -> Result<bool, Stop>
    requires known { IsType env.old.types says.now.ty }
    requires place { number < length env.old.entities }
    ensures made { Agrees (shut.bound_again (says_seen says.now) number env.old) result env.new }
    ensures types { OnOk result (env.new.types ≡ env.old.types) }
{
    let is_internal = with_entity(env, says, number)?;
    env.bind_name(says.name.as_slice(), number)?;
    Ok(is_internal)
}

/// What is declared under this number, declared once more.
#[tactic(auto, using(crate::proofs::ObjectsLaws::LinkLaws::entity_laws))]
fn with_entity(env: &mut Env, says: &Says, number: u32) -> Result<bool, Stop>
    requires known { IsType env.old.types says.now.ty }
    requires place { number < length env.old.entities }
    ensures made { Agrees (shut.with_entity (says_seen says.now) number env.old) result env.new }
    ensures types { OnOk result (env.new.types ≡ env.old.types) }
    ensures count { OnOk result (length env.new.entities ≡ length env.old.entities) }
{
    let object = declared_again(env, says, number)?;
    let is_internal = object.is_internal;
    env.redeclare(number, Entity::Object(object));
    Ok(is_internal)
}

/// The object of this number as it is declared once more; what is no object is K8.
#[tactic(auto, using(crate::proofs::ObjectsLaws::LinkLaws::number_laws))]
fn declared_again(env: &Env, says: &Says, number: u32) -> Result<Object, Stop>
    requires place { number < length env.now.entities }
    ensures made { AgreesAs object_seen (shut.declared_again (says_seen says.now) number env.now) result env.now }
    ensures known { IfOk result (λ x. IsObject env.now.types (object_seen x)) }
{
    match env.entity(number) {
        Entity::Object(object) => {
            let again = object_again(env, says, object)?;
            Ok(again)
        }
        _ => Err(Stop::Broken(Broken {
            rule: Rule::new(8),
            at: says.at,
        })),
    }
}

/// The object as it is declared once more: K8, then K9.
#[tactic(auto, using(crate::proofs::ObjectsLaws::LinkLaws::again_laws))]
fn object_again(env: &Env, says: &Says, object: &Object) -> Result<Object, Stop>
    requires { IsObject env.now.types (object_seen object.now) }
    ensures made { AgreesAs object_seen (shut.object_again (says_seen says.now) (object_seen object.now) env.now) result env.now }
    ensures known { IfOk result (λ x. IsObject env.now.types (object_seen x)) }
{
    if !says.may_declare_again(object) {
        Err(Stop::Broken(Broken {
            rule: Rule::new(8),
            at: says.at,
        }))
    } else if says.conflicts(object) {
        Err(Stop::Broken(Broken {
            rule: Rule::new(9),
            at: says.at,
        }))
    } else {
        let again = says.again(env.alloc(), object)?;
        Ok(again)
    }
}

/// A new object with linkage.
#[tactic(auto, using(crate::proofs::ObjectsLaws::LinkLaws::first_laws))]
fn first_declared(env: &mut Env, says: &Says, link: Name) -> Result<bool, Stop>
    requires known { IsType env.old.types says.now.ty }
    requires link { link ≡ objects.variable_link says.now.name }
    requires fresh { names.declared_here env.old says.now.name ≡ None }
    ensures made { Agrees (shut.first_declared (says_seen says.now) env.old) result env.new }
    ensures types { OnOk result (env.new.types ≡ env.old.types) }
{
    check_new(env, says, link.as_slice())?;
    let is_internal = says.is_internal(env);
    let object = says.new_object(env, link);
    env.declare(says.name.as_slice(), Entity::Object(object))?;
    note_linkage(env, &says.name)?;
    Ok(is_internal)
}

/// A new object is defined in this file or in another, K48, and its link name is not too long.
#[tactic(auto, using(crate::proofs::ObjectsLaws::LinkLaws::new_laws))]
fn check_new(env: &Env, says: &Says, link: &[u8]) -> Result<(), Stop>
    requires { link.now ≡ objects.variable_link says.now.name }
    ensures { Agrees (shut.check_new (says_seen says.now) env.now) result env.now }
{
    if !is_defined_somewhere(env, says) {
        Err(Stop::Broken(Broken {
            rule: Rule::new(48),
            at: says.at,
        }))
    } else {
        check_link(env, link)?;
        Ok(())
    }
}

/// While definitions in other files are not built, the file itself defines what it declares. An initialiser that may not stand comes first.
#[tactic(auto, unfolding(crate::specs::Objects::Shut::is_defined_somewhere))]
fn is_defined_somewhere(env: &Env, says: &Says) -> bool
    ensures { result ≡ shut.is_defined_somewhere env.now (says_seen says.now) }
{
    env.extent().elsewhere
        || says.defines
        || says.is_initialised
        || env.defines_name(says.name.as_slice())
}

/// What the innermost scope declares by the name is an object with linkage.
#[tactic(auto, using(crate::proofs::ObjectsLaws::LinkLaws::note_laws))]
fn note_linkage(env: &mut Env, name: &Name) -> Result<(), Memory>
    ensures made { OnOk result (shut.note_linkage name.now env.old ≡ Made tt env.new) }
    ensures types { OnOk result (env.new.types ≡ env.old.types) }
{
    match env.declared_here(name.as_slice()) {
        None => Ok(()),
        Some(number) => {
            let name = Items::from_slice(env.alloc(), name.as_slice())?;
            env.link_name(name, number)?;
            Ok(())
        }
    }
}
