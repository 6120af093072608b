ghost use Rattle.std.specs.Prelude.{◌≡◌, IsTrue, All, OnOk};
ghost use Rattle.cf_base.specs.Integers.{fits};
ghost use Rattle.cf_elab.specs.Enumeration.{number_or_zero as its_number, Counted as Listed};
ghost use Rattle.cf_elab_env.specs.Answered.{Agrees};
ghost use Rattle.cf_elab_enumeration.specs.Shut as shut;

use crate::counted::Counted;
use cf_base::Kind;
use cf_elab_arith::broken;
use cf_elab_env::{Env, Stop};

/// An enumeration with a name is declared in the file's own scope, while those of blocks are not built; else K48.
#[tactic(auto, using(crate::proofs::CheckLaws::place_laws))]
pub fn check_place(env: &Env, at: u32, is_named: bool) -> Result<(), Stop>
    ensures { Agrees (shut.need_place is_named at env.now) result env.now }
{
    if env.is_file_scope() || !is_named {
        Ok(())
    } else {
        Err(Stop::Broken(broken(48, at)))
    }
}

/// Each expression is a constant; else K19 at its enumerator (7.2).
#[tactic(auto, using(crate::proofs::CheckLaws::constant_laws))]
pub fn check_constant(env: &Env, list: &[Counted]) -> Result<(), Stop>
    ensures { Agrees (shut.all_constant list.now env.now) result env.now }
{
    let _env = env;
    for one in list {
        if !one.is_constant() {
            return Err(Stop::Broken(broken(19, one.at())));
        }
    }
    Ok(())
}

/// Each number is one of `int`; else K5 at its enumerator (7.2).
#[tactic(auto, using(crate::proofs::CheckLaws::int_laws))]
pub fn check_ints(env: &Env, list: &[Counted]) -> Result<(), Stop>
    ensures made { Agrees (shut.all_ints list.now env.now) result env.now }
    ensures ints { OnOk result (All (λ (c : Listed). IsTrue (fits Kind.Int (its_number c.number))) list.now) }
{
    let _env = env;
    for one in list {
        if !is_int(one) {
            return Err(Stop::Broken(broken(5, one.at())));
        }
    }
    Ok(())
}

/// Whether `int` has its value.
fn is_int(one: &Counted) -> bool
    ensures { result ≡ fits Kind.Int (its_number one.now.number) }
{
    i32::try_from(one.value()).is_ok()
}
