ghost use Rattle.std.specs.Prelude.{◌≡◌, All, None, IfOk, OnOk};
ghost use Rattle.cf_elab.specs.Built.{of_specifier, of_specifiers, of_path};
ghost use Rattle.cf_elab_env.specs.Answered.{Agrees, AgreesAs};
ghost use Rattle.cf_elab_env.specs.Holds.{IsType, Grows};
ghost use Rattle.cf_elab_specifiers.specs.Said.Seen.{word_seen};
ghost use Rattle.cf_elab_specifiers.specs.Said.Words.{IsWord};
ghost use Rattle.cf_elab_specifiers.specs.Named.Seen.{words_seen};
ghost use Rattle.cf_elab_specifiers.specs.Named.Shut as shut;

use crate::named::elaborated::check_key;
use crate::named::paths::{keyed_type, type_at_path};
use crate::said::Word;
use cf_base::Items;
use cf_elab_env::{Env, Stop};
use cf_syntax::{ClassKey, Path, TypeSpecifier};
use cf_types::TyId;

/// The specifiers with their names looked up, in order (7.1).
pub fn words_of(env: &mut Env, specifiers: &[TypeSpecifier]) -> Result<Items<Word>, Stop>
    requires { of_specifiers specifiers.now ≡ None }
    ensures made { AgreesAs words_seen (shut.words_of specifiers.now env.old) result env.new }
    ensures known { IfOk result (λ ws. All (λ w. IsWord env.new.types w) ws) }
    ensures grows { OnOk result (Grows env.old.types env.new.types) }
{
    let mut words = Items::new(env.alloc());
    for specifier in specifiers {
        let word = word_of(env, specifier)?;
        words.push(word)?;
    }
    Ok(words)
}

/// A specifier with its names looked up: K10 where a name is no type, or none by its key (7.1.6).
#[tactic(auto, using(crate::proofs::NamedLaws::WordLaws::word_laws))]
pub fn word_of(env: &mut Env, specifier: &TypeSpecifier) -> Result<Word, Stop>
    requires { of_specifier specifier.now ≡ None }
    ensures made { AgreesAs word_seen (shut.word_of specifier.now env.old) result env.new }
    ensures known { IfOk result (λ w. IsWord env.new.types w) }
    ensures grows { OnOk result (Grows env.old.types env.new.types) }
{
    match specifier {
        TypeSpecifier::Storage(at, storage) => Ok(Word::Stored(*at, *storage)),
        TypeSpecifier::Const(at) => Ok(Word::Const(*at)),
        TypeSpecifier::Basic(at, basic) => Ok(Word::Basic(*at, *basic)),
        TypeSpecifier::Elaborated(at, key, path) => {
            let word = keyed_word(env, *at, *key, path)?;
            Ok(word)
        }
        TypeSpecifier::Named(path) => {
            let word = named_word(env, path)?;
            Ok(word)
        }
    }
}

/// The type that a path names, as a specifier.
#[tactic(auto, using(crate::proofs::NamedLaws::WordLaws::named_laws))]
fn named_word(env: &mut Env, path: &Path) -> Result<Word, Stop>
    requires { of_path path.now ≡ None }
    ensures made { AgreesAs word_seen (shut.named_word path.now env.old) result env.new }
    ensures known { IfOk result (λ w. IsWord env.new.types w) }
    ensures grows { OnOk result (Grows env.old.types env.new.types) }
{
    let ty = type_at_path(env, path)?;
    Ok(Word::Type(path.at, ty))
}

/// The type of a name behind a key, as a specifier at this place.
#[tactic(auto, using(crate::proofs::NamedLaws::WordLaws::keyed_laws))]
fn keyed_word(env: &mut Env, at: u32, key: ClassKey, path: &Path) -> Result<Word, Stop>
    requires { of_path path.now ≡ None }
    ensures made { AgreesAs word_seen (shut.keyed_word at key path.now env.old) result env.new }
    ensures known { IfOk result (λ w. IsWord env.new.types w) }
    ensures grows { OnOk result (Grows env.old.types env.new.types) }
{
    let ty = elaborated(env, key, path)?;
    Ok(Word::Type(at, ty))
}

/// The type of a name behind a key.
#[tactic(auto, using(crate::proofs::NamedLaws::WordLaws::elaborated_laws))]
fn elaborated(env: &mut Env, key: ClassKey, path: &Path) -> Result<TyId, Stop>
    requires { of_path path.now ≡ None }
    ensures made { Agrees (shut.elaborated key path.now env.old) result env.new }
    ensures known { IfOk result (λ t. IsType env.new.types t) }
    ensures grows { OnOk result (Grows env.old.types env.new.types) }
{
    let ty = keyed_type(env, path)?;
    check_key(env, path.at, key, ty)?;
    Ok(ty)
}
