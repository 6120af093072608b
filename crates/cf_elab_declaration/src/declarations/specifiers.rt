//! Specifiers with the enumerations that they define (7.1, 7.2).

ghost use Rattle.std.specs.Prelude.{◌≡◌, All, IfOk, OnOk};
ghost use Rattle.std.specs.Option.{option_copied};
ghost use Rattle.cf_elab_declaration.specs.Declarations.Shut as shut;
ghost use Rattle.cf_elab_env.specs.Answered.{AgreesAs};
ghost use Rattle.cf_elab_env.specs.Holds.{Grows};
ghost use Rattle.cf_elab_specifiers.specs.Said.Seen.{word_seen};
ghost use Rattle.cf_elab_specifiers.specs.Said.Words.{IsWord};
ghost use Rattle.cf_elab_specifiers.specs.Named.Seen.{words_seen};

use crate::enums::enumeration;
use cf_base::{Bytes, Items};
use cf_elab_env::{Env, Stop};
use cf_elab_specifiers::{Word, word_of};
use cf_unit::Specifier;

/// The specifiers with their names looked up and their enumerations defined, in order. An enumeration without a name takes that of the `typedef`, if it
/// stands in one.
pub fn words(
    specifiers: &[Specifier],
    alias: Option<&Bytes>,
    env: &mut Env,
) -> Result<Items<Word>, Stop>
    requires { shut.SpecifiersAreBuilt specifiers.now }
    ensures made { AgreesAs words_seen (shut.words (option_copied alias.entry) specifiers.now env.old) result env.new }
    ensures known { IfOk result (λ ws. All (λ w. IsWord env.new.types w) ws) }
    ensures grows { OnOk result (Grows env.old.types env.new.types) }
{
    let mut words = Items::new(env.alloc());
    for specifier in specifiers {
        words.push(word(specifier, alias, env)?)?;
    }
    Ok(words)
}

/// A specifier with its name looked up, or its enumeration defined.
#[tactic(auto, using(crate::proofs::DeclarationsLaws::SpecifierRows::word_laws))]
fn word(specifier: &Specifier, alias: Option<&Bytes>, env: &mut Env) -> Result<Word, Stop>
    requires { shut.SpecifierIsBuilt specifier.now }
    ensures made { AgreesAs word_seen (shut.word (option_copied alias.entry) specifier.now env.old) result env.new }
    ensures known { IfOk result (λ w. IsWord env.new.types w) }
    ensures grows { OnOk result (Grows env.old.types env.new.types) }
{
    match specifier {
        Specifier::Plain(plain) => {
            let word = word_of(env, plain)?;
            Ok(word)
        }
        Specifier::Enumeration(definition) => {
            let ty = enumeration(definition, alias, env)?;
            Ok(Word::Defined(definition.at, ty))
        }
        Specifier::Class(_) => unreachable!(),
    }
}
