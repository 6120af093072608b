ghost use Rattle.std.specs.Prelude.{◌≡◌, None, IfOk, OnOk};
ghost use Rattle.std.specs.List.{list_all};
ghost use Rattle.cf_convert.specs.Constness.{type_at};
ghost use Rattle.cf_convert.specs.Converts as converts;
ghost use Rattle.cf_types.specs.declared.ty.Ty.TheVariants.{Ref};
ghost use Rattle.cf_elab_env.specs.Answered.{Agrees};
ghost use Rattle.cf_elab_env.specs.Holds.{Known, Grows, IsType};
ghost use Rattle.cf_elab_initial.specs.Initials.Direct as direct;
ghost use Rattle.cf_elab_initial.specs.Initials.Keeping.{keeping_seen};
ghost use Rattle.cf_elab_initial.specs.Initials.Shut as shut;

use crate::initials::keeping::{Keeping, held};
use crate::initials::start::Start;
use cf_base::{Boxed, Broken, Items, Memory, Rule};
use cf_convert::ConvStep;
use cf_core::{Core, Holder};
use cf_elab_env::{Env, Stop, Value};
use cf_elab_fit::{fit, steps};
use cf_types::TyId;

/// A reference of this type, which refers to `to`, by a value: it binds the value's own place where it may, and else a temporary (8.4.3).
#[tactic(auto, using(crate::proofs::InitialsLaws::BindingLaws::bound_laws, cf_elab_env::proofs::Growth::grown_laws))]
pub(crate) fn bound(
    env: &mut Env,
    keeping: &Keeping,
    at: u32,
    reference: TyId,
    to: TyId,
    value: Value,
) -> Result<Start, Stop>
    requires known { Known env.old.types value }
    requires reference_known { IsType env.old.types reference }
    requires to_known { IsType env.old.types to }
    requires refers { type_at env.old.types reference ≡ Ref to }
    ensures made { Agrees (shut.bound (keeping_seen keeping.now) at to value env.old) result env.new }
    ensures number { IfOk result (λ s. s.number ≡ None) }
    ensures grows { OnOk result (Grows env.old.types env.new.types) }
{
    env.holds();
    if binds(env, reference, &value)? {
        let start = bound_place(env, at, value)?;
        Ok(start)
    } else {
        let start = by_temporary(env, keeping, at, to, value)?;
        Ok(start)
    }
}

/// Whether a reference of this type binds the value's own place: it is an lvalue, and no step but adding const leads to the reference.
#[tactic(auto, unfolding(crate::specs::Initials::Direct::binds_by))]
fn binds(env: &Env, reference: TyId, value: &Value) -> Result<bool, Memory>
    requires known { Known env.now.types value.now }
    requires reference_known { IsType env.now.types reference }
    ensures { IfOk result (λ b. b ≡ direct.binds_by env.now value.now reference) }
{
    let steps = steps(env, value, reference)?;
    Ok(value.is_lvalue() && add_const_alone(&steps))
}

/// Whether there is a conversion, and its steps do no more than add const.
fn add_const_alone(steps: &Option<Items<ConvStep>>) -> bool
    ensures { result ≡ direct.add_const_alone steps.now }
{
    match steps {
        Some(steps) => are_add_const(steps.as_slice()),
        None => false,
    }
}

fn are_add_const(steps: &[ConvStep]) -> bool
    ensures { result ≡ list_all converts.is_add_const steps.now }
{
    steps.iter().all(|step| is_add_const(step))
}

fn is_add_const(step: &ConvStep) -> bool
    ensures { result ≡ converts.is_add_const step.now }
{
    matches!(step, ConvStep::AddConst)
}

/// A reference to the value's own place.
fn bound_place(env: &Env, at: u32, value: Value) -> Result<Start, Memory>
    ensures { IfOk result (λ s. s ≡ direct.bound_place at value) }
{
    let is_fixed = value.is_fixed();
    let operand = value.into_node();
    let node = Boxed::new(
        env.alloc(),
        Core::Bind {
            at,
            holder: Holder::NoTemporary,
            operand,
        },
    )?;
    Ok(Start::fixed(node, is_fixed))
}

/// A reference to a temporary of this type, which is const, else K29.
#[tactic(auto, using(crate::proofs::InitialsLaws::BindingLaws::temporary_laws, cf_elab_env::proofs::Growth::grown_laws))]
fn by_temporary(
    env: &mut Env,
    keeping: &Keeping,
    at: u32,
    to: TyId,
    value: Value,
) -> Result<Start, Stop>
    requires known { Known env.old.types value }
    requires to_known { IsType env.old.types to }
    ensures made { Agrees (shut.by_temporary (keeping_seen keeping.now) at to value env.old) result env.new }
    ensures number { IfOk result (λ s. s.number ≡ None) }
    ensures grows { OnOk result (Grows env.old.types env.new.types) }
{
    if env.is_const(to) {
        let fitted = fit(env, at, value, to)?;
        let start = held(env, keeping, at, to, fitted)?;
        Ok(start)
    } else {
        Err(Stop::Broken(Broken {
            rule: Rule::new(29),
            at,
        }))
    }
}
