ghost use Rattle.std.specs.Prelude.{◌≡◌, IfOk, OnOk};
ghost use Rattle.cf_elab.specs.Operand as operand;
ghost use Rattle.cf_elab_operators.specs.Binary.Asked as asked;
ghost use Rattle.cf_elab_operators.specs.Binary.Shut as shut;
ghost use Rattle.cf_elab_env.specs.Answered.{Agrees};
ghost use Rattle.cf_elab_env.specs.Holds.{Known, Grows, IsType};
ghost use Rattle.cf_elab_env.specs.Seen.{sort_seen};

use crate::binary::nulls::with_other;
use crate::binary::operators::equality;
use cf_elab_env::{Env, Sort, Stop, Value};
use cf_syntax::BinaryOp;
use cf_types::{Ty, TyId};

/// The type that a pointer leads to.
#[tactic(auto, using(crate::proofs::BinaryLaws::VoidLaws::pointed_laws))]
pub(crate) fn pointed(env: &Env, ty: TyId) -> TyId
    requires { IsType env.now.types ty }
    ensures value { result ≡ asked.pointed env.now.types ty }
    ensures known { IsType env.now.types result }
{
    env.holds();
    match env.type_at(env.bare(ty)) {
        Ty::Ptr(to) => to,
        _ => ty,
    }
}

/// Whether it is `void`, which no operand is (3.6.1).
#[tactic(auto, unfolding(crate::specs::Binary::Asked::void_type_at))]
pub(crate) fn is_void(env: &Env, ty: TyId) -> bool
    requires { IsType env.now.types ty }
    ensures { result ≡ asked.void_type_at env.now.types ty }
{
    is_void_sort(env.sort_of(ty))
}

fn is_void_sort(sort: Sort) -> bool
    ensures { result ≡ operand.is_void (sort_seen sort) }
{
    matches!(sort, Sort::Void)
}

/// A pointer to this `void` type and a pointer to the other type, compared as pointers to `void`, with const where the other has it; another
/// operator than equality is K18 (4.6, 5.10).
#[tactic(auto, using(crate::proofs::BinaryLaws::VoidLaws::void_equality_laws))]
pub(crate) fn void_equality(
    env: &mut Env,
    at: u32,
    op: BinaryOp,
    x: Value,
    y: Value,
    void: TyId,
    other: TyId,
) -> Result<Value, Stop>
    requires x_known { Known env.old.types x }
    requires y_known { Known env.old.types y }
    requires void_known { IsType env.old.types void }
    requires other_known { IsType env.old.types other }
    ensures made { Agrees (shut.void_equality at op x y void other env.old) result env.new }
    ensures known { IfOk result (λ v. Known env.new.types v) }
    ensures grows { OnOk result (Grows env.old.types env.new.types) }
{
    let is_other_const = env.is_const(other);
    let to = env.const_if(is_other_const, void)?;
    let pointer = env.pointer_to(to)?;
    let value = with_other(env, at, equality(op), x, y, pointer)?;
    Ok(value)
}
