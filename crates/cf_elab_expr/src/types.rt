//! Types in brackets, and those of fundamental names (7.1.6, 8.1).

ghost use Rattle.std.specs.Prelude.{◌≡◌, ◌∷◌, [], None, IfOk, OnOk};
ghost use Rattle.cf_elab.specs.Answer.{Made};
ghost use Rattle.cf_elab.specs.Built.{of_specifiers};
ghost use Rattle.cf_elab.specs.Specifiers.{gathered, basic_word};
ghost use Rattle.cf_elab_env.specs.Answered.{Agrees};
ghost use Rattle.cf_elab_env.specs.Holds.{Grows, IsType};
ghost use Rattle.cf_elab_specifiers.specs.Said.Shut as row;
ghost use Rattle.cf_elab_expr.specs.Shut as shut;

use crate::built;
use crate::declarators::shape_of;
use cf_base::Memory;
use cf_elab_env::{Env, Stop};
use cf_elab_shape::type_behind;
use cf_elab_specifiers::{Gathered, Word, base_type, words_of};
use cf_syntax::{BasicType, DeclTree, TypeId, TypeSpecifier};
use cf_types::TyId;

/// The type that one fundamental name stands for.
#[tactic(auto, using(crate::proofs::Parts::basic_named))]
pub(crate) fn basic_type(env: &mut Env, at: u32, basic: BasicType) -> Result<TyId, Memory>
    ensures made { IfOk result (λ t. row.base_type (gathered (basic_word at basic ∷ [])) env.old ≡ Made t env.new) }
    ensures known { IfOk result (λ t. IsType env.new.types t) }
    ensures grows { OnOk result (Grows env.old.types env.new.types) }
{
    let gathered = Gathered::nothing().with(Word::Basic(at, basic));
    let ty = base_type(env, &gathered)?;
    Ok(ty)
}

/// A type in brackets (8.1).
#[cycle(expressions)]
#[tactic(auto, using(crate::proofs::Trees::type_is))]
pub fn type_of(t: &TypeId, env: &mut Env) -> Result<TyId, Stop>
    requires { shut.TypeIsBuilt t.now }
    ensures made { Agrees (shut.type_of t.now env.old) result env.new }
    ensures known { IfOk result (λ t. IsType env.new.types t) }
    ensures grows { OnOk result (Grows env.old.types env.new.types) }
{
    built::type_parts(t);
    let ty = type_by(t.declarator.get(), t.specifiers.as_slice(), env)?;
    Ok(ty)
}

/// The type of specifiers and a declarator in brackets: the specifiers, the parts of the declarator, and then the type that they make (8.1).
#[cycle(expressions)]
#[tactic(auto, using(crate::proofs::Trees::type_by_is, crate::proofs::Known::words_grown, cf_elab_env::proofs::Growth::grown_laws))]
fn type_by(d: &DeclTree, specifiers: &[TypeSpecifier], env: &mut Env) -> Result<TyId, Stop>
    requires specifiers { of_specifiers specifiers.now ≡ None }
    requires tree { shut.TreeIsBuilt d.now }
    ensures made { Agrees (shut.type_by specifiers.now d.now env.old) result env.new }
    ensures known { IfOk result (λ t. IsType env.new.types t) }
    ensures grows { OnOk result (Grows env.old.types env.new.types) }
{
    let words = words_of(env, specifiers)?;
    let shape = shape_of(d, env)?;
    let ty = type_behind(env, words.as_slice(), &shape)?;
    Ok(ty)
}
