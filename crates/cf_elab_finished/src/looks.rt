//! The two looks that the law of valid cores asks.

ghost use Rattle.std.specs.Prelude.{◌≡◌, ◌&&◌, IfOk};
ghost use Rattle.cf_elab_finished.specs.Shut as shut;

use cf_base::Memory;
use cf_elab_ends::is_finished;
use cf_elab_env::Env;
use cf_elab_fits::file_fits;
use cf_unit::Unit;

/// Whether the tree of a file is as those of texts are, and its end is well formed. The environment stays as it is.
#[tactic(auto, using(crate::proofs::Ends::look_laws))]
pub(crate) fn looks_right(unit: &Unit, end: &mut Env) -> Result<bool, Memory>
    ensures value { IfOk result (λ right. right ≡ shut.looks_right unit.now end.old) }
    ensures kept { end.new ≡ end.old }
{
    let fits = file_fits(unit);
    let well_formed = is_finished(end)?;
    let right = both(fits, well_formed);
    Ok(right)
}

fn both(a: bool, b: bool) -> bool
    ensures { result ≡ (a && b) }
{
    a && b
}
