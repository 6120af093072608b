ghost use Rattle.std.specs.Prelude.{IfOk, OnOk};
ghost use Rattle.cf_elab_env.specs.Answered.{Agrees};
ghost use Rattle.cf_elab_env.specs.Holds.{Known, Grows};
ghost use Rattle.cf_elab_arith.specs.Unary.Shut as shut;

use crate::arith::{broken, is_pointer, kind_at, negation, plain, to_kind};
use crate::unary::places::{address_of, dereferenced};
use cf_elab_env::{Env, Stop, Value};
use cf_syntax::PrefixOp;

/// A unary operator before an operand that is no class object: K12 where `&` takes no lvalue, and K18 where another operator does not take the
/// type (5.3).
#[tactic(auto, using(crate::proofs::UnaryLaws::PrefixLaws::prefixed_laws))]
pub fn prefixed(env: &mut Env, at: u32, op: PrefixOp, operand: Value) -> Result<Value, Stop>
    requires { Known env.old.types operand }
    ensures made { Agrees (shut.prefixed at op operand env.old) result env.new }
    ensures known { IfOk result (λ v. Known env.new.types v) }
    ensures grows { OnOk result (Grows env.old.types env.new.types) }
{
    match op {
        PrefixOp::Dereference => {
            let pointer = plain(env, operand)?;
            let place = dereferenced(env, at, pointer)?;
            Ok(place)
        }
        PrefixOp::AddressOf => {
            let pointer = address_of(env, at, operand)?;
            Ok(pointer)
        }
        PrefixOp::Plus => {
            let value = plain(env, operand)?;
            let promoted = promoted_or_pointer(env, at, value.with_at(at))?;
            Ok(promoted)
        }
        PrefixOp::Minus => {
            let value = plain(env, operand)?;
            let negated = negated(env, at, value)?;
            Ok(negated)
        }
        PrefixOp::Not => {
            let negation = negation(env, at, operand)?;
            Ok(negation)
        }
        PrefixOp::Complement => {
            let value = plain(env, operand)?;
            let complemented = complemented(env, at, value)?;
            Ok(complemented)
        }
    }
}

/// `+` of a plain value at the operator: the promoted integer, or the pointer as it is; else K18.
#[tactic(auto, using(crate::proofs::UnaryLaws::PrefixLaws::promoted_laws))]
fn promoted_or_pointer(env: &mut Env, at: u32, value: Value) -> Result<Value, Stop>
    requires { Known env.old.types value }
    ensures made { Agrees (shut.promoted_or_pointer at value env.old) result env.new }
    ensures known { IfOk result (λ v. Known env.new.types v) }
    ensures grows { OnOk result (Grows env.old.types env.new.types) }
{
    match kind_at(env, value.ty()) {
        Some(kind) => {
            let promoted = to_kind(env, kind, value)?;
            Ok(promoted)
        }
        None => {
            if is_pointer(env, value.ty()) {
                Ok(value)
            } else {
                Err(Stop::Broken(broken(18, at)))
            }
        }
    }
}

/// `-` of a plain value: of an integer or an enumeration, else K18.
#[tactic(auto, using(crate::proofs::UnaryLaws::PrefixLaws::negated_laws))]
fn negated(env: &mut Env, at: u32, value: Value) -> Result<Value, Stop>
    requires { Known env.old.types value }
    ensures made { Agrees (shut.negated at value env.old) result env.new }
    ensures known { IfOk result (λ v. Known env.new.types v) }
    ensures grows { OnOk result (Grows env.old.types env.new.types) }
{
    match kind_at(env, value.ty()) {
        Some(kind) => {
            let negated = crate::arith::negated(env, at, kind, value)?;
            Ok(negated)
        }
        None => Err(Stop::Broken(broken(18, at))),
    }
}

/// `~` of a plain value: of an integer or an enumeration, else K18.
#[tactic(auto, using(crate::proofs::UnaryLaws::PrefixLaws::complemented_laws))]
fn complemented(env: &mut Env, at: u32, value: Value) -> Result<Value, Stop>
    requires { Known env.old.types value }
    ensures made { Agrees (shut.complemented at value env.old) result env.new }
    ensures known { IfOk result (λ v. Known env.new.types v) }
    ensures grows { OnOk result (Grows env.old.types env.new.types) }
{
    match kind_at(env, value.ty()) {
        Some(kind) => {
            let complemented = crate::arith::complemented(env, at, kind, value)?;
            Ok(complemented)
        }
        None => Err(Stop::Broken(broken(18, at))),
    }
}
