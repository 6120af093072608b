ghost use Rattle.std.specs.Prelude.{◌≡◌, ◌&&◌, not, None, Some, IfOk, OnOk, option_map};
ghost use Rattle.cf_convert.specs.Constness.{type_at};
ghost use Rattle.cf_elab.specs.Answer.{Made};
ghost use Rattle.cf_elab.specs.Objects as objects;
ghost use Rattle.cf_elab_env.specs.Answered.{Agrees};
ghost use Rattle.cf_elab_env.specs.Holds.{FitsIn, Grows, IsType};
ghost use Rattle.cf_elab_initial.specs.Initials.Keeping.{keeping_seen};
ghost use Rattle.cf_elab_initial.specs.Lists.Seen.{tree_seen};
ghost use Rattle.cf_elab_initial.specs.Lists.Known.{TreeKnown};
ghost use Rattle.cf_elab_declare.specs.Starts.Shut as shut;
ghost use Rattle.cf_elab_declare.specs.Starts.Written.{GivenKnown, WrittenKnown, is_bracketed, one_of, written_seen};

use crate::starts::carrying::carried_out;
use crate::starts::written::Written;
use cf_base::{Boxed, Broken, Memory, Rule};
use cf_core::Core;
use cf_elab_env::{Env, Stop};
use cf_elab_initial::{Keeping, Start, Tree, by_one};
use cf_elab_objects::{constant_number, needs_initialiser, number_known};
use cf_types::{Ty, TyId};

/// An object of the type by one initialiser, whose own faults stand at the place (8.4).
#[tactic(auto, using(crate::proofs::StartsLaws::StartLaws::start_laws))]
pub fn start_by(
    env: &mut Env,
    keeping: &Keeping,
    at: u32,
    ty: TyId,
    tree: Tree,
) -> Result<Start, Stop>
    requires known { TreeKnown env.old.types (tree_seen tree) }
    requires typed { IsType env.old.types ty }
    ensures made { Agrees (shut.start_by (keeping_seen keeping.now) at ty (tree_seen tree) env.old) result env.new }
    ensures number { IfOk result (λ s. FitsIn env.new.types ty s.number) }
    ensures grows { OnOk result (Grows env.old.types env.new.types) }
{
    env.holds();
    let plan = by_one(env, ty, at, tree)?;
    let start = carried_out(env, keeping, plan)?;
    Ok(start)
}

/// An object of the type by what is written: one initialiser, and none in brackets for an array; else K28 (8.4).
#[tactic(auto, using(crate::proofs::StartsLaws::StartLaws::written_laws))]
pub fn initialised(
    env: &mut Env,
    keeping: &Keeping,
    ty: TyId,
    written: Written,
) -> Result<Start, Stop>
    requires known { WrittenKnown env.old.types (written_seen written) }
    requires typed { IsType env.old.types ty }
    ensures made { Agrees (shut.initialised (keeping_seen keeping.now) ty (written_seen written) env.old) result env.new }
    ensures number { IfOk result (λ s. FitsIn env.new.types ty s.number) }
    ensures grows { OnOk result (Grows env.old.types env.new.types) }
{
    let _no_class = env.sort_of(ty);
    let at = written.at();
    if is_array_in_brackets(env, ty, &written) {
        Err(Stop::Broken(Broken {
            rule: Rule::new(28),
            at,
        }))
    } else {
        match written.into_one() {
            Some(tree) => {
                let start = start_by(env, keeping, at, ty, tree)?;
                Ok(start)
            }
            None => Err(Stop::Broken(Broken {
                rule: Rule::new(28),
                at,
            })),
        }
    }
}

/// Whether an array is to be initialised by arguments in brackets.
fn is_array_in_brackets(env: &Env, ty: TyId, written: &Written) -> bool
    requires { IsType env.now.types ty }
    ensures { result ≡ (is_bracketed (written_seen written.now) && objects.is_array_ty (type_at env.now.types ty)) }
{
    written.is_bracketed() && is_array(env.type_at(ty))
}

fn is_array(ty: Ty) -> bool
    ensures { result ≡ objects.is_array_ty ty }
{
    matches!(ty, Ty::Array(_, _))
}

/// An object of the type without an initialiser: nothing is done, which is constant.
#[tactic(auto, using(crate::proofs::StartsLaws::StartLaws::default_laws))]
pub fn default_object(env: &Env, at: u32, ty: TyId) -> Result<Start, Memory>
    requires { IsType env.now.types ty }
    ensures made { IfOk result (λ s. shut.default_object at ty env.now ≡ Made s env.now) }
    ensures number { IfOk result (λ s. s.number ≡ None) }
{
    env.holds();
    let _known = env.is_complete(ty);
    let node = Boxed::new(env.alloc(), Core::Blank { at })?;
    Ok(Start::fixed(node, true))
}

/// An object of the type by what is written, if anything is; K28 where something must be.
#[tactic(auto, using(crate::proofs::StartsLaws::StartLaws::none_laws))]
pub fn start_or_none(
    env: &mut Env,
    keeping: &Keeping,
    at: u32,
    ty: TyId,
    written: Option<Written>,
) -> Result<Start, Stop>
    requires known { GivenKnown env.old.types (option_map written_seen written) }
    requires typed { IsType env.old.types ty }
    ensures made { Agrees (shut.start_or_none (keeping_seen keeping.now) at ty (option_map written_seen written) env.old) result env.new }
    ensures number { IfOk result (λ s. FitsIn env.new.types ty s.number) }
    ensures grows { OnOk result (Grows env.old.types env.new.types) }
{
    match written {
        Some(written) => {
            let start = initialised(env, keeping, ty, written)?;
            Ok(start)
        }
        None => {
            let start = without_initialiser(env, at, ty)?;
            Ok(start)
        }
    }
}

/// An object of the type without an initialiser, which is K28 where it must have one.
#[tactic(auto, using(crate::proofs::StartsLaws::StartLaws::without_laws))]
fn without_initialiser(env: &Env, at: u32, ty: TyId) -> Result<Start, Stop>
    requires { IsType env.now.types ty }
    ensures made { Agrees (shut.without_initialiser at ty env.now) result env.now }
    ensures number { IfOk result (λ s. s.number ≡ None) }
{
    env.holds();
    if needs_initialiser(env, ty) {
        Err(Stop::Broken(Broken {
            rule: Rule::new(28),
            at,
        }))
    } else {
        let start = default_object(env, at, ty)?;
        Ok(start)
    }
}

/// The initialiser of the object of this name and type that the innermost scope declares, whose number is known from there on if it is a const
/// integer that a constant initialises (5.19).
#[tactic(auto, using(crate::proofs::StartsLaws::StartLaws::started_laws))]
pub fn started(
    env: &mut Env,
    keeping: &Keeping,
    name: &[u8],
    at: u32,
    ty: TyId,
    written: Option<Written>,
) -> Result<Start, Stop>
    requires known { GivenKnown env.old.types (option_map written_seen written) }
    requires typed { IsType env.old.types ty }
    ensures made { Agrees (shut.started (keeping_seen keeping.now) name.now at ty (option_map written_seen written) env.old) result env.new }
    ensures grows { OnOk result (Grows env.old.types env.new.types) }
{
    let start = start_or_none(env, keeping, at, ty, written)?;
    let number = constant_number(env, ty, start.number());
    number_known(env, name, ty, number)?;
    Ok(start)
}

/// Where only constants are built, an initialiser that is none is K48 at the byte place.
#[tactic(auto, using(crate::proofs::StartsLaws::StartLaws::constant_laws))]
pub fn check_constant(env: &Env, at: u32, start: &Start) -> Result<(), Stop>
    ensures { Agrees (shut.check_constant at start.now env.now) result env.now }
{
    if env.extent().computed || start.is_constant() {
        Ok(())
    } else {
        Err(Stop::Broken(Broken {
            rule: Rule::new(48),
            at,
        }))
    }
}
