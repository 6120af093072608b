//! Files (17).

ghost use Rattle.std.specs.Prelude.{◌≡◌, IfOk, true};
ghost use Rattle.cf_core.specs.FromUnit.{IsValid};
ghost use Rattle.cf_elab.specs.File.{core_unit};
ghost use Rattle.cf_elab_finished.specs.Finished as spec;
ghost use Rattle.cf_elab_finished.specs.Shut as shut;
ghost use Rattle.cf_elab_unit.specs.Unit.First.{EndsAs};

use crate::looks::looks_right;
use cf_base::Memory;
use cf_core::CoreUnit;
use cf_elab_env::{Env, Stop};
use cf_elab_unit::elab;
use cf_elab_valid_files::finished_files_are_valid;
use cf_unit::Unit;
use std::alloc::Global;

/// The core of a file, which is valid; none where the tree is not as those of texts are, or a look at the end does not find it well formed; or what
/// `elab` refuses the file for.
#[tactic(auto, using(crate::proofs::Ends::end_laws))]
pub fn core_of(alloc: Global, unit: &Unit) -> Result<Option<CoreUnit>, Stop>
    ensures { spec.IsCore unit.now result }
{
    match elab(alloc, unit) {
        Ok(end) => {
            let core = finished(unit, end)?;
            Ok(core)
        }
        Err(stop) => Err(stop),
    }
}

/// The core of a file that ends so.
#[tactic(auto, using(crate::proofs::Ends::end_laws))]
fn finished(unit: &Unit, end: Env) -> Result<Option<CoreUnit>, Memory>
    requires { EndsAs unit.now end }
    ensures { IfOk result (λ core. core ≡ shut.finished unit.now end) }
{
    let mut end = end;
    match looks_right(unit, &mut end) {
        Ok(true) => {
            check_valid(unit, &end);
            Ok(Some(end.into_unit()))
        }
        Ok(false) => {
            let_go(end);
            Ok(None)
        }
        Err(memory) => {
            let_go(end);
            Err(memory)
        }
    }
}

/// The core of an end that looks right is valid, by the law of files.
fn check_valid(unit: &Unit, end: &Env)
    requires ends { EndsAs unit.now end.now }
    requires right { shut.looks_right unit.now end.now ≡ true }
    ensures { IsValid (core_unit end.now) }
{
    finished_files_are_valid();
    end.holds();
}

/// The end of a file that is not needed any more. It is a function of its own, since each place where an environment is let go takes the check a minute
/// or two.
fn let_go(_end: Env) {}
