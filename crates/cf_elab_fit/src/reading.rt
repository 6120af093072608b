ghost use Rattle.std.specs.Prelude.{◌≡◌, IfOk, OnOk};
ghost use Rattle.cf_elab.specs.Answer.{Made};
ghost use Rattle.cf_elab.specs.Operand as operand;
ghost use Rattle.cf_elab_env.specs.Holds.{Known, Grows, IsType};
ghost use Rattle.cf_elab_fit.specs.Shut as shut;
ghost use Rattle.cf_elab_fit.specs.Steps.{StaysKnown};

use cf_base::{Boxed, Memory};
use cf_core::Core;
use cf_elab_env::{Env, Sort, Value};
use cf_types::TyId;
use std::alloc::Global;

/// The value of an lvalue, without a const of its own (4.1).
#[tactic(auto, using(crate::proofs::ReadLaws::read_known))]
pub fn read(env: &Env, value: Value) -> Result<Value, Memory>
    requires { Known env.now.types value }
    ensures made { IfOk result (λ v. v ≡ operand.read_value env.now.types value) }
    ensures known { IfOk result (λ v. Known env.now.types v) }
{
    env.holds();
    let read = read_typed(env, value)?;
    Ok(read)
}

/// The same of a value whose type is in the table.
#[tactic(auto, using(crate::proofs::ReadLaws::read_place, crate::proofs::ReadLaws::read_result))]
pub(crate) fn read_typed(env: &Env, value: Value) -> Result<Value, Memory>
    requires { IsType env.now.types value.type }
    ensures made { IfOk result (λ v. v ≡ operand.read_value env.now.types value) }
    ensures typed { IfOk result (λ v. IsType env.now.types v.type) }
{
    let ty = env.bare(value.ty());
    if value.is_lvalue() {
        let at = value.at();
        let number = value.number();
        let node = read_node(env.alloc(), value)?;
        Ok(Value::computed(at, node, ty).with_number(number))
    } else {
        Ok(value.with_type(ty))
    }
}

/// What reads the place. A number that is known stands for itself (5.19).
#[tactic(auto, using(crate::proofs::ReadLaws::node_known, crate::proofs::ReadLaws::node_read))]
fn read_node(alloc: Global, value: Value) -> Result<Boxed<Core>, Memory>
    ensures { IfOk result (λ n. n ≡ operand.read_node value) }
{
    let at = value.at();
    let node = match value.number() {
        Some(value) => Boxed::new(alloc, Core::Number { at, value })?,
        None => {
            let place = value.into_node();
            Boxed::new(alloc, Core::Read { at, place })?
        }
    };
    Ok(node)
}

/// An array or a function as a pointer to this type (4.6).
#[tactic(auto, using(crate::proofs::ReadLaws::decayed_made, crate::proofs::ReadLaws::decayed_known))]
fn decayed(env: &mut Env, value: Value, to: TyId) -> Result<Value, Memory>
    requires { IsType env.old.types to }
    ensures made { IfOk result (λ v. shut.decayed value to env.old ≡ Made v env.new) }
    ensures known { IfOk result (λ v. Known env.new.types v) }
    ensures grows { OnOk result (Grows env.old.types env.new.types) }
{
    let ty = env.pointer_to(to)?;
    let at = value.at();
    let number = value.number();
    let is_fixed = value.is_fixed();
    let array = value.into_node();
    let node = Boxed::new(env.alloc(), Core::Decay { at, array })?;
    Ok(
        Value::computed(at, node, ty)
            .with_number(number)
            .with_fixed(is_fixed),
    )
}

/// The value of an lvalue, and of an array or a function the pointer (4.1, 4.6).
#[tactic(auto, using(crate::proofs::ReadLaws::known_again))]
pub fn plain(env: &mut Env, value: Value) -> Result<Value, Memory>
    requires { Known env.old.types value }
    ensures made { IfOk result (λ v. shut.plain value env.old ≡ Made v env.new) }
    ensures known { IfOk result (λ v. Known env.new.types v) }
    ensures grows { OnOk result (Grows env.old.types env.new.types) }
{
    let plain = plain_typed(env, value)?;
    Ok(plain)
}

/// The same of a value whose type is in the table.
#[tactic(auto, using(crate::proofs::ReadLaws::plain_laws, cf_elab_env::proofs::Growth::grown_laws))]
pub(crate) fn plain_typed(env: &mut Env, value: Value) -> Result<Value, Memory>
    requires { IsType env.old.types value.type }
    ensures made { IfOk result (λ v. shut.plain value env.old ≡ Made v env.new) }
    ensures typed { IfOk result (λ v. IsType env.new.types v.type) }
    ensures known { IfOk result (λ v. StaysKnown env.old.types value env.new.types v) }
    ensures grows { OnOk result (Grows env.old.types env.new.types) }
{
    env.holds();
    match env.sort_of(value.ty()) {
        Sort::Array(element, _) => {
            let pointer = decayed(env, value, element)?;
            Ok(pointer)
        }
        Sort::Function(_) => {
            let ty = env.bare(value.ty());
            let pointer = decayed(env, value, ty)?;
            Ok(pointer)
        }
        _ => {
            let read = read_typed(env, value)?;
            Ok(read)
        }
    }
}
