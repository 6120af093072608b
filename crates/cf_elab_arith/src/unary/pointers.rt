ghost use Rattle.std.specs.Prelude.{◌≡◌};
ghost use Rattle.cf_elab_env.specs.Answered.{Agrees};
ghost use Rattle.cf_elab_env.specs.Holds.{IsType};
ghost use Rattle.cf_elab_arith.specs.Unary.Fixed as spec;
ghost use Rattle.cf_elab_arith.specs.Unary.Shut as shut;

use crate::arith::{broken, is_complete};
use cf_elab_env::{Env, Stop, Value};
use cf_types::TyId;

/// Whether what a pointer and an integer give is static: where the pointer's object is, and the integer is a constant (8.4).
pub fn stays_fixed(pointer: &Value, integer: &Value) -> bool
    ensures { result ≡ spec.stays_fixed pointer.now integer.now }
{
    pointer.is_fixed() && integer.number().is_some()
}

/// An object of the type holds no class that is not defined; else K30 (9.1).
#[tactic(auto, using(crate::proofs::UnaryLaws::PointerLaws::complete_laws))]
pub fn check_complete(env: &Env, at: u32, ty: TyId) -> Result<(), Stop>
    requires { IsType env.now.types ty }
    ensures { Agrees (shut.need_complete at ty env.now) result env.now }
{
    if is_complete(env, ty) {
        Ok(())
    } else {
        Err(Stop::Broken(broken(30, at)))
    }
}
