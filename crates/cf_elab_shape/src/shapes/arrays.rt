ghost use Rattle.std.specs.Prelude.{◌≡◌, IfOk, OnOk};
ghost use Rattle.cf_elab.specs.Shape as spec;
ghost use Rattle.cf_elab_env.specs.Answered.{Agrees, AgreesAs};
ghost use Rattle.cf_elab_env.specs.Holds.{Grows, IsType};
ghost use Rattle.cf_elab_shape.specs.Shapes.Seen.{shaped_seen};
ghost use Rattle.cf_elab_shape.specs.Shapes.Shut as shut;

use crate::shapes::forms::{check_form, has_arrays};
use crate::shapes::shaped::Shaped;
use cf_base::Memory;
use cf_elab_env::{Env, Stop, Value};
use cf_types::TyId;

/// The type of an array with this bound; of a reference, of void, of a function, or with a bound that is not above 0, K26 (8.2.4).
#[tactic(auto, using(crate::proofs::ShapesLaws::StepLaws::holding_laws))]
pub(crate) fn array_of(env: &mut Env, at: u32, bound: &Value, element: TyId) -> Result<TyId, Stop>
    requires { IsType env.old.types element }
    ensures made { Agrees (shut.holding at bound.now element env.old) result env.new }
    ensures known { IfOk result (λ t. IsType env.new.types t) }
    ensures grows { OnOk result (Grows env.old.types env.new.types) }
{
    check_form(env, has_arrays(env, element), at)?;
    check_form(env, is_fine_bound(bound.number()), at)?;
    let count = count_of(bound.number())?;
    let array = env.array_of(element, count)?;
    Ok(array)
}

/// The type of the elements of an array whose bound is left out; where it may not be, or there is no array of them, K26 (8.2.4).
#[tactic(auto, using(crate::proofs::ShapesLaws::StepLaws::unbounded_laws))]
pub(crate) fn unbounded(env: &Env, at: u32, may: bool, element: TyId) -> Result<Shaped, Stop>
    requires { IsType env.now.types element }
    ensures made { AgreesAs shaped_seen (shut.unbounded at may element env.now) result env.now }
    ensures value { IfOk result (λ s. s ≡ Shaped.Unbounded element) }
{
    check_form(env, has_arrays(env, element), at)?;
    check_form(env, may, at)?;
    Ok(Shaped::Unbounded(element))
}

/// Whether a bound is above 0. One that is no constant is looked at later.
fn is_fine_bound(number: Option<i64>) -> bool
    ensures { result ≡ spec.fine_bound number }
{
    match number {
        Some(count) => count > 0,
        None => true,
    }
}

/// How many elements a bound says; of no constant 1, since K19 comes later. No integer type has a number past 32 bits, and one that is ends as
/// want of memory does.
fn count_of(number: Option<i64>) -> Result<u32, Memory>
    ensures { IfOk result (λ count. count ≡ spec.count_of number) }
{
    match number {
        Some(count) => {
            if count < 0 {
                Ok(1)
            } else {
                u32::try_from(count).map_err(|_| Memory)
            }
        }
        None => Ok(1),
    }
}
