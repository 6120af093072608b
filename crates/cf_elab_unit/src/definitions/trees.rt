//! Functions with a body, by their trees (8.3).

ghost use Rattle.std.specs.Prelude.{◌≡◌, IfSome, OnOk};
ghost use Rattle.cf_elab_unit.specs.Body.Shut as body_of;
ghost use Rattle.cf_elab_unit.specs.Body.DeclarationShut as declaration;
ghost use Rattle.cf_elab_unit.specs.Definitions.Shut as shut;
ghost use Rattle.cf_elab_env.specs.Answered.{Agrees};
ghost use Rattle.cf_elab_env.specs.Holds.{Grows, IsType};
ghost use Rattle.cf_elab_unit.specs.Body.ExprShut as expression;

use crate::body::{declared_name, shape_of, words};
use crate::definitions::built;
use crate::definitions::named::define_named;
use cf_base::{Broken, Rule};
use cf_elab_env::{Env, Stop};
use cf_elab_limits::check_types;
use cf_elab_specifiers::Gathered;
use cf_syntax::DeclTree;
use cf_unit::{FunctionDef, Specifier, Stmt};

/// A function with its body, which the file defines from here on (8.3).
#[tactic(auto, using(crate::proofs::DefinitionsLaws::TreeRows::function_is))]
pub fn definition(f: &FunctionDef, env: &mut Env) -> Result<(), Stop>
    requires { shut.IsBuilt f.now }
    ensures made { Agrees (shut.function f.now env.old) result env.new }
    ensures grows { OnOk result (Grows env.old.types env.new.types) }
{
    built::function(f);
    of_parts(
        f.body.as_slice(),
        f.body_at,
        f.specifiers.as_slice(),
        f.declarator.get(),
        f.declarator_at,
        env,
    )?;
    Ok(())
}

/// The same by its parts: first the specifiers, then the declarator, and then the body; before the body and at the end no type that was made is larger than
/// the limit on sizes.
#[tactic(auto, using(crate::proofs::DefinitionsLaws::TreeRows::part_laws))]
fn of_parts(
    body: &[Stmt],
    body_at: u32,
    specifiers: &[Specifier],
    declarator: &DeclTree,
    at: u32,
    env: &mut Env,
) -> Result<(), Stop>
    requires body { body_of.AreBuilt body.now }
    requires specifiers { declaration.SpecifiersAreBuilt specifiers.now }
    requires tree { expression.TreeIsBuilt declarator.now }
    ensures made { Agrees (shut.of_parts specifiers.now at declarator.now body_at body.now env.old) result env.new }
    ensures grows { OnOk result (Grows env.old.types env.new.types) }
{
    let count = env.types().count();
    let words = words(specifiers, None, env)?;
    let gathered = Gathered::of_words(words.as_slice());
    behind_specifiers(body, body_at, count, declarator, at, &gathered, env)?;
    check_types(env, count)?;
    Ok(())
}

/// Behind the specifiers: the declarator, which declares a name, else K26 at its first token; and then the body.
#[tactic(auto, using(crate::proofs::DefinitionsLaws::TreeRows::specifier_laws))]
fn behind_specifiers(
    body: &[Stmt],
    body_at: u32,
    count: usize,
    declarator: &DeclTree,
    at: u32,
    gathered: &Gathered,
    env: &mut Env,
) -> Result<(), Stop>
    requires body { body_of.AreBuilt body.now }
    requires tree { expression.TreeIsBuilt declarator.now }
    requires named { IfSome gathered.now.named (λ t. IsType env.old.types t) }
    ensures made { Agrees (shut.behind_specifiers count gathered.now at declarator.now body_at body.now env.old) result env.new }
    ensures grows { OnOk result (Grows env.old.types env.new.types) }
{
    let shape = shape_of(declarator, env)?;
    match declared_name(declarator) {
        None => Err(Stop::Broken(Broken {
            rule: Rule::new(26),
            at,
        })),
        Some(name) => {
            define_named(body, body_at, count, gathered, at, &shape, name, env)?;
            Ok(())
        }
    }
}
