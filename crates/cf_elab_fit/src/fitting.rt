ghost use Rattle.std.specs.Prelude.{◌≡◌, ◌≤◌, IfOk, OnOk};
ghost use Rattle.cf_convert.specs.Constness as constness;
ghost use Rattle.cf_elab_env.specs.Answered.{Agrees};
ghost use Rattle.cf_elab_env.specs.Holds.{Known, Grows, IsType};
ghost use Rattle.cf_elab_fit.specs.Shut as shut;
ghost use Rattle.cf_elab_fit.specs.Steps as spec;
ghost use Rattle.cf_elab_numbers.specs.Numbers.{NumberOf};

use crate::conversion::{convert, steps};
use cf_base::{Broken, Kind, Rule};
use cf_elab_env::{Env, Sort, Stop, Value};
use cf_types::TyId;

/// Fit: the value as one of the type, which is no reference; else K25 or K13 at the place (4).
#[tactic(auto, using(crate::proofs::FitLaws::fit_laws))]
pub fn fit(env: &mut Env, at: u32, value: Value, to: TyId) -> Result<Value, Stop>
    requires known { Known env.old.types value }
    requires to_known { IsType env.old.types to }
    ensures standard { Agrees (shut.fit at value to env.old) result env.new }
    ensures user { Agrees (shut.user_fit at value to env.old) result env.new }
    ensures wanted { IfOk result (λ v. v.type ≡ constness.bare env.old.types to) }
    ensures known { IfOk result (λ v. Known env.new.types v) }
    ensures grows { OnOk result (Grows env.old.types env.new.types) }
{
    let from = env.sort_of(value.ty());
    let bare = env.bare(to);
    let wanted = env.sort_of(bare);
    let _classes = env.classes();
    match steps(env, &value, bare)? {
        Some(steps) => {
            let fitted = convert(env, at, bare, steps, value)?;
            Ok(fitted)
        }
        None => Err(Stop::Broken(Broken {
            rule: misfit(from, wanted),
            at,
        })),
    }
}

/// The rule that a value breaks which is not converted.
fn misfit(from: Sort, to: Sort) -> Rule
    ensures { result ≡ spec.misfit_rule from to }
{
    match to {
        Sort::Enumeral(_) => Rule::new(if is_number(from) { 25 } else { 13 }),
        _ => Rule::new(13),
    }
}

/// Whether the type is an integer or an enumeration.
fn is_number(sort: Sort) -> bool
    ensures { result ≡ spec.is_number sort }
{
    matches!(sort, Sort::Integral(_) | Sort::Enumeral(_))
}

/// An integer or an enumeration as a value of an integer type.
#[tactic(auto, using(crate::proofs::FitLaws::to_kind_is, crate::proofs::FitLaws::kind_number, cf_elab_env::proofs::Growth::grown_laws))]
pub fn to_kind(env: &mut Env, kind: Kind, value: Value) -> Result<Value, Stop>
    requires { Known env.old.types value }
    ensures made { Agrees (shut.to_kind kind value env.old) result env.new }
    ensures number { IfOk result (λ v. NumberOf kind v.number) }
    ensures known { IfOk result (λ v. Known env.new.types v) }
    ensures grows { OnOk result (Grows env.old.types env.new.types) }
{
    let to = env.of_kind(kind)?;
    env.holds();
    let fitted = fit(env, 0, value, to)?;
    Ok(fitted)
}
