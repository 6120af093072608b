//! Files (17).

ghost use Rattle.std.specs.Prelude.{◌≡◌, IfOk};
ghost use Rattle.cf_elab.specs.Built as built;
ghost use Rattle.cf_elab_unit.specs.Unit.First.{IsFirst, EndsAs};
ghost use Rattle.cf_elab_unit.specs.Unit.Shut as shut;

use crate::unit::items::whole;
use cf_base::{Broken, Rule};
use cf_elab_built::{defined_names, not_built};
use cf_elab_env::{Env, Extent, Stop};
use cf_elab_file::begun;
use cf_unit::Unit;
use std::alloc::Global;

/// What is known at the end of a file, where its core is whole; or its first form that is not built, K48, the first rule that it breaks and where, or a
/// limit that it passes.
#[tactic(auto, using(crate::proofs::UnitLaws::FileRows::file_laws))]
pub fn elab(alloc: Global, unit: &Unit) -> Result<Env, Stop>
    ensures first { IsFirst (built.first_of_file unit.now) result }
    ensures ends { IfOk result (λ end. EndsAs unit.now end) }
{
    match not_built(unit) {
        Some(at) => Err(Stop::Broken(Broken {
            rule: Rule::new(48),
            at,
        })),
        None => {
            let end = end_of(alloc, unit)?;
            Ok(end)
        }
    }
}

/// The same of a file whose forms are all built.
#[tactic(auto, using(crate::proofs::UnitLaws::FileRows::end_laws))]
fn end_of(alloc: Global, unit: &Unit) -> Result<Env, Stop>
    requires { shut.AreBuilt unit.now.items }
    ensures first { IsFirst (shut.elaboration unit.now) result }
    ensures ends { IfOk result (λ end. EndsAs unit.now end) }
{
    let defines = defined_names(alloc, unit)?;
    let mut env = begun(alloc, built_so_far(), defines)?;
    whole(unit.items.as_slice(), &mut env)?;
    Ok(env)
}

/// The forms that only elaboration shows: none of them is built.
fn built_so_far() -> Extent
    ensures { result ≡ built.built_so_far }
{
    Extent {
        overloads: false,
        computed: false,
        elsewhere: false,
    }
}
