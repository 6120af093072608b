ghost use Rattle.std.specs.Prelude.{◌≡◌, true, slice_get};
ghost use Rattle.std.specs.List.{list_all};
ghost use Rattle.std.specs.Option.{option_copied};
ghost use Rattle.cf_elab.specs.Expression.{declared};
ghost use Rattle.cf_elab.specs.File as file;
ghost use Rattle.cf_elab.specs.Names.{entity_named};
ghost use Rattle.cf_elab_env.specs.Answered.{Agrees};
ghost use Rattle.cf_elab_file.specs.Shut as shut;

use crate::known::is_library;
use cf_base::{Broken, Rule};
use cf_elab_built::declared_name;
use cf_elab_env::{Entity, Env, Stop};
use cf_syntax::{Last, Name};
use cf_unit::{Declaration, InitDeclarator, Linkage};

/// A linkage specification, whose declarations are elaborated, is one of functions of the library, with "C"; any other is K48 at its first token (7.4).
#[tactic(auto, using(crate::proofs::LinkageLaws::linkage_laws))]
pub fn check_linkage(env: &Env, linkage: &Linkage) -> Result<(), Stop>
    ensures { Agrees (shut.linkage_checked linkage.now env.now) result env.now }
{
    if is_built(env, linkage) {
        Ok(())
    } else {
        Err(Stop::Broken(Broken {
            rule: Rule::new(48),
            at: linkage.at,
        }))
    }
}

/// Whether the specification is with "C", and of functions of the library alone.
fn is_built(env: &Env, linkage: &Linkage) -> bool
    ensures { result ≡ shut.is_built env.now linkage.now }
{
    let language = linkage.language.1.as_slice();
    language == b"C".as_slice() && all_are_library(env, linkage.declarations.as_slice())
}

fn all_are_library(env: &Env, declarations: &[Declaration]) -> bool
    ensures { result ≡ list_all (file.all_library env.now) declarations.now }
{
    declarations
        .iter()
        .all(|declaration| all_library(env, declaration))
}

/// Whether a declaration declares something, and functions of the library alone.
fn all_library(env: &Env, declaration: &Declaration) -> bool
    ensures { result ≡ file.all_library env.now declaration.now }
{
    let declarators = declaration.declarators.as_slice();
    !declarators.is_empty() && all_declare_library(env, declarators)
}

fn all_declare_library(env: &Env, declarators: &[InitDeclarator]) -> bool
    ensures { result ≡ list_all (λ d. file.declares_library env.now (declared d.declarator).name) declarators.now }
{
    declarators.iter().all(|d| declares_library(env, declared_name(d.declarator.get())))
}

/// Whether the name is an identifier that the file's scope declares as functions of the library alone.
fn declares_library(env: &Env, name: Option<&Name>) -> bool
    ensures { result ≡ file.declares_library env.now (option_copied name.entry) }
{
    match name {
        None => false,
        Some(name) => match &name.last {
            Last::Ident(bytes) => names_library(env, bytes.as_slice()),
            _ => false,
        },
    }
}

fn names_library(env: &Env, name: &[u8]) -> bool
    ensures { result ≡ file.names_library env.now (entity_named env.now true name.now) }
{
    match env.find_in_file(name) {
        Some(Entity::Functions(functions)) => all_of_library(env, functions.as_slice()),
        _ => false,
    }
}

fn all_of_library(env: &Env, functions: &[u32]) -> bool
    ensures { result ≡ list_all (λ f. file.entry_is_library (slice_get env.now.entries f)) functions.now }
{
    functions.iter().all(|f| is_of_library(env, *f))
}

/// Whether the function of this number is one of the library.
fn is_of_library(env: &Env, function: u32) -> bool
    ensures { result ≡ file.entry_is_library (slice_get env.now.entries function) }
{
    match env.entries().get(function as usize) {
        Some(entry) => is_library(entry.link.as_slice()),
        None => false,
    }
}
