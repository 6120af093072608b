//! What stands behind a declarator that is initialised (8.4).

ghost use Rattle.std.specs.Prelude.{◌≡◌, IfOk, OnOk, option_map};
ghost use Rattle.cf_elab_env.specs.Answered.{AgreesAs};
ghost use Rattle.cf_elab_env.specs.Holds.{Grows};
ghost use Rattle.cf_elab_declare.specs.Starts.Written.{GivenKnown, WrittenKnown, written_seen};
ghost use Rattle.cf_elab_declaration.specs.WrittenTrees.Given.{given_seen, place_of};
ghost use Rattle.cf_elab_declaration.specs.WrittenTrees.Shut as shut;

use crate::written_trees::expressions::expression_trees;
use crate::written_trees::trees::tree_of;
use cf_elab_declare::Written;
use cf_elab_env::{Env, Stop};
use cf_unit::Initialiser;

/// An initialiser with its expressions elaborated.
#[tactic(auto, using(crate::proofs::WrittenTreesLaws::WrittenRows::written_laws))]
pub fn written(i: &Initialiser, env: &mut Env) -> Result<Written, Stop>
    requires { shut.InitialiserIsBuilt i.now }
    ensures made { AgreesAs written_seen (shut.written i.now env.old) result env.new }
    ensures known { IfOk result (λ w. WrittenKnown env.new.types (written_seen w)) }
    ensures grows { OnOk result (Grows env.old.types env.new.types) }
{
    match i {
        Initialiser::Equals(at, i) => {
            let tree = tree_of(i.get(), env)?;
            Ok(Written::Equals { at: *at, tree })
        }
        Initialiser::Arguments(at, all) => {
            let trees = expression_trees(all.as_slice(), *at, env)?;
            Ok(Written::Bracketed { at: *at, trees })
        }
    }
}

/// The same, if there is one.
#[tactic(auto, using(crate::proofs::WrittenTreesLaws::WrittenRows::parts_laws))]
pub fn parts_of(i: &Option<Initialiser>, env: &mut Env) -> Result<Option<Written>, Stop>
    requires { shut.PartsAreBuilt i.now }
    ensures made { AgreesAs given_seen (shut.parts_of i.now env.old) result env.new }
    ensures known { IfOk result (λ w. GivenKnown env.new.types (option_map written_seen w)) }
    ensures grows { OnOk result (Grows env.old.types env.new.types) }
{
    match i {
        None => Ok(None),
        Some(i) => {
            let written = written(i, env)?;
            Ok(Some(written))
        }
    }
}

/// The byte place of its `=` or bracket, if there is one.
pub fn initial_at(i: &Option<Initialiser>) -> Option<u32>
    ensures { result ≡ place_of i.now }
{
    match i {
        None => None,
        Some(Initialiser::Equals(at, _)) => Some(*at),
        Some(Initialiser::Arguments(at, _)) => Some(*at),
    }
}
