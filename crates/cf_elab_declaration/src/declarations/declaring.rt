//! Declarations (7).

ghost use Rattle.std.specs.Prelude.{◌≡◌, OnOk};
ghost use Rattle.cf_elab_declaration.specs.Declarations.Shut as shut;
ghost use Rattle.cf_elab_env.specs.Answered.{Agrees};
ghost use Rattle.cf_elab_env.specs.Holds.{Grows};

use crate::declarations::alias::alias;
use crate::declarations::built;
use crate::declarations::declarators::behind_specifiers;
use crate::declarations::specifiers::words;
use cf_base::Items;
use cf_elab_env::{Env, Stop};
use cf_elab_limits::check_types;
use cf_elab_made::Reached;
use cf_elab_specifiers::Gathered;
use cf_unit::{Declaration, InitDeclarator, Specifier};

/// A declaration of a file or a block: the statements that it makes in a block (6.7, 7).
#[tactic(auto, using(crate::proofs::DeclarationsLaws::DeclarationRows::declaration_is))]
pub fn declaration(d: &Declaration, env: &mut Env) -> Result<Items<Reached>, Stop>
    requires { shut.IsBuilt d.now }
    ensures made { Agrees (shut.declaration d.now env.old) result env.new }
    ensures grows { OnOk result (Grows env.old.types env.new.types) }
{
    built::declaration(d);
    let reached = of_parts(d.specifiers.as_slice(), d.declarators.as_slice(), d.at, env)?;
    Ok(reached)
}

/// The same by its specifiers and declarators: first the specifiers, and then the declarators in order; at the end no type that was made is larger than
/// the limit on sizes.
#[tactic(auto, using(crate::proofs::DeclarationsLaws::DeclarationRows::part_laws))]
fn of_parts(
    specifiers: &[Specifier],
    declarators: &[InitDeclarator],
    at: u32,
    env: &mut Env,
) -> Result<Items<Reached>, Stop>
    requires specifiers { shut.SpecifiersAreBuilt specifiers.now }
    requires declarators { shut.DeclaratorsAreBuilt declarators.now }
    ensures made { Agrees (shut.of_parts at specifiers.now declarators.now env.old) result env.new }
    ensures grows { OnOk result (Grows env.old.types env.new.types) }
{
    let count = env.types().count();
    let words = words(specifiers, alias(specifiers, declarators), env)?;
    let gathered = Gathered::of_words(words.as_slice());
    let reached = behind_specifiers(declarators, at, &gathered, env)?;
    check_types(env, count)?;
    Ok(reached)
}
