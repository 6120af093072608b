ghost use Rattle.std.specs.Prelude.{IfOk, OnOk};
ghost use Rattle.cf_elab_env.specs.Answered.{Agrees};
ghost use Rattle.cf_elab_env.specs.Holds.{Known, Grows};
ghost use Rattle.cf_elab_arith.specs.Unary.Shut as shut;

use crate::arith::{broken, target_at};
use cf_base::Boxed;
use cf_core::Core;
use cf_elab_env::{Env, Stop, Value};

/// `*` of a plain value: the object or function that a pointer leads to; else K18 (5.3).
#[tactic(auto, using(crate::proofs::UnaryLaws::PlaceLaws::dereferenced_laws))]
pub(crate) fn dereferenced(env: &Env, at: u32, pointer: Value) -> Result<Value, Stop>
    requires { Known env.now.types pointer }
    ensures made { Agrees (shut.dereferenced at pointer env.now) result env.now }
    ensures known { IfOk result (λ v. Known env.now.types v) }
{
    match target_at(env, pointer.ty()) {
        Some(target) => {
            let is_fixed = pointer.is_fixed();
            let pointer = pointer.into_node();
            let node = Boxed::new(env.alloc(), Core::Dereference { at, pointer })?;
            Ok(Value::place(at, node, target, is_fixed))
        }
        None => Err(Stop::Broken(broken(18, at))),
    }
}

/// `&`: a pointer to an lvalue; of anything else K12 (5.3).
#[tactic(auto, using(crate::proofs::UnaryLaws::PlaceLaws::address_laws))]
pub fn address_of(env: &mut Env, at: u32, place: Value) -> Result<Value, Stop>
    requires { Known env.old.types place }
    ensures made { Agrees (shut.address_of at place env.old) result env.new }
    ensures known { IfOk result (λ v. Known env.new.types v) }
    ensures grows { OnOk result (Grows env.old.types env.new.types) }
{
    if place.is_lvalue() {
        let ty = env.pointer_to(place.ty())?;
        let is_fixed = place.is_fixed();
        let place = place.into_node();
        let node = Boxed::new(env.alloc(), Core::Address { at, place })?;
        Ok(Value::computed(at, node, ty).with_fixed(is_fixed))
    } else {
        Err(Stop::Broken(broken(12, at)))
    }
}
