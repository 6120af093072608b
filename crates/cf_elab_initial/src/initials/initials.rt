ghost use Rattle.std.specs.Prelude.{◌≡◌, None, Some, IfOk, OnOk};
ghost use Rattle.std.specs.Option.{ForSome};
ghost use Rattle.cf_elab.specs.Members.{class_number};
ghost use Rattle.cf_elab.specs.Operand as operand;
ghost use Rattle.cf_elab_env.specs.Answered.{Agrees};
ghost use Rattle.cf_elab_env.specs.Holds.{Known, FitsIn, Grows, IsType, IsSort};
ghost use Rattle.cf_elab_env.specs.Seen.{sort_seen};
ghost use Rattle.cf_elab_initial.specs.Initials.Keeping.{keeping_seen};
ghost use Rattle.cf_elab_initial.specs.Initials.References as references;
ghost use Rattle.cf_elab_initial.specs.Initials.Shut as shut;

use crate::initials::binding::bound;
use crate::initials::keeping::Keeping;
use crate::initials::start::Start;
use cf_elab_env::{Env, Sort, Stop, Value};
use cf_elab_fit::fit;
use cf_types::TyId;

/// The initialiser of an object or reference of this type by a value, at this place: an argument, a result, or what stands behind `=` (8.4). A
/// reference that is not to const and does not bind the value's own place breaks K29; a value that is not converted breaks K25 or K13.
#[tactic(auto, using(crate::proofs::InitialsLaws::InitialLaws::initial_laws, cf_elab_env::proofs::Growth::grown_laws))]
pub fn initial(
    env: &mut Env,
    keeping: &Keeping,
    at: u32,
    ty: TyId,
    value: Value,
) -> Result<Start, Stop>
    requires known { Known env.old.types value }
    requires typed { IsType env.old.types ty }
    ensures made { Agrees (shut.initial (keeping_seen keeping.now) at ty value env.old) result env.new }
    ensures number { IfOk result (λ s. FitsIn env.new.types ty s.number) }
    ensures grows { OnOk result (Grows env.old.types env.new.types) }
{
    match reference_at(env, ty) {
        Some(to) => {
            let start = reference(env, keeping, at, ty, to, value)?;
            Ok(start)
        }
        None => {
            let start = object(env, at, ty, value)?;
            Ok(start)
        }
    }
}

/// What a reference of this type refers to. No type is a class.
#[tactic(auto, unfolding(crate::specs::Initials::References::reference_at), using(crate::proofs::InitialsLaws::InitialLaws::no_class_at))]
fn reference_at(env: &Env, ty: TyId) -> Option<TyId>
    requires { IsType env.now.types ty }
    ensures value { result ≡ references.reference_at env.now.types ty }
    ensures known { ForSome result (λ t. IsType env.now.types t) }
    ensures no_class { class_number (operand.sort_of env.now.types ty) ≡ None }
{
    referred(env, env.sort_of(ty))
}

fn referred(env: &Env, sort: Sort) -> Option<TyId>
    requires { IsSort env.now.types sort }
    ensures value { result ≡ references.referred (sort_seen sort) }
    ensures known { ForSome result (λ t. IsType env.now.types t) }
{
    let _env = env;
    match sort {
        Sort::Reference(to) => Some(to),
        _ => None,
    }
}

/// A reference of this type, to an object of that, by a value.
#[tactic(auto, using(crate::proofs::InitialsLaws::InitialLaws::reference_laws))]
fn reference(
    env: &mut Env,
    keeping: &Keeping,
    at: u32,
    ty: TyId,
    to: TyId,
    value: Value,
) -> Result<Start, Stop>
    requires known { Known env.old.types value }
    requires typed { IsType env.old.types ty }
    requires to_known { IsType env.old.types to }
    requires refers { references.reference_at env.old.types ty ≡ Some to }
    ensures made { Agrees (shut.initial (keeping_seen keeping.now) at ty value env.old) result env.new }
    ensures number { IfOk result (λ s. FitsIn env.new.types ty s.number) }
    ensures grows { OnOk result (Grows env.old.types env.new.types) }
{
    let bare = env.bare(ty);
    let start = bound(env, keeping, at, bare, to, value)?;
    Ok(start)
}

/// An object of this type, which is no reference, by a value.
#[tactic(auto, using(crate::proofs::InitialsLaws::InitialLaws::object_laws))]
fn object(env: &mut Env, at: u32, ty: TyId, value: Value) -> Result<Start, Stop>
    requires known { Known env.old.types value }
    requires typed { IsType env.old.types ty }
    ensures made { Agrees (shut.object at ty value env.old) result env.new }
    ensures number { IfOk result (λ s. FitsIn env.new.types ty s.number) }
    ensures grows { OnOk result (Grows env.old.types env.new.types) }
{
    env.holds();
    let bare = env.bare(ty);
    let fitted = fit(env, at, value, bare)?;
    Ok(Start::of_value(fitted))
}
