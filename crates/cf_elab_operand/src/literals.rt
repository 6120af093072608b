ghost use Rattle.std.specs.Prelude.{◌≡◌, ◌++◌, ◌∷◌, [], length, IsTrue, IfOk, OnOk};
ghost use Rattle.cf_base.specs.Integers.{fits};
ghost use Rattle.cf_elab.specs.Answer.{Made};
ghost use Rattle.cf_elab_env.specs.Holds.{Known, Grows};
ghost use Rattle.cf_elab_env.specs.SeenOperand.{operand_seen};
ghost use Rattle.cf_elab_operand.specs.Operands.{IsOperand};
ghost use Rattle.cf_elab_operand.specs.Shut as shut;

use cf_base::{Boxed, Bytes, Items, Kind, Memory};
use cf_core::Core;
use cf_elab_env::{Env, Operand, Value};
use std::alloc::Global;

/// An integer or character constant, of a type that it fits (2.5.1, 2.5.2).
#[tactic(auto, using(crate::proofs::LiteralLaws::integer_laws))]
pub fn integer(env: &mut Env, at: u32, number: i64, kind: Kind) -> Result<Operand, Memory>
    requires { IsTrue (fits kind number) }
    ensures made { IfOk result (λ o. shut.integer at number kind env.old ≡ Made (operand_seen o) env.new) }
    ensures known { IfOk result (λ o. IsOperand env.new.types o) }
    ensures grows { OnOk result (Grows env.old.types env.new.types) }
{
    let ty = env.of_kind(kind)?;
    let value = Value::constant(env.alloc(), at, number, ty)?;
    Ok(Operand::Value(value))
}

/// A string literal: an array of `char` with a 0 at its end, which has a number in its function (2.5.4).
#[tactic(auto, using(crate::proofs::LiteralLaws::literal_laws))]
pub fn literal(env: &mut Env, at: u32, bytes: &[u8]) -> Result<Operand, Memory>
    ensures made { IfOk result (λ o. shut.literal at bytes.now env.old ≡ Made (operand_seen o) env.new) }
    ensures known { IfOk result (λ o. IsOperand env.new.types o) }
    ensures grows { OnOk result (Grows env.old.types env.new.types) }
{
    let number = env.next_literal()?;
    let text = ended(env.alloc(), bytes)?;
    let value = text_value(env, at, number, text)?;
    Ok(Operand::Value(value))
}

/// The literal of this number in its function, by all its bytes.
#[tactic(auto, using(crate::proofs::LiteralLaws::text_laws))]
fn text_value(env: &mut Env, at: u32, number: u32, bytes: Bytes) -> Result<Value, Memory>
    ensures made { IfOk result (λ v. shut.text_value at number bytes env.old ≡ Made v env.new) }
    ensures known { IfOk result (λ v. Known env.new.types v) }
    ensures grows { OnOk result (Grows env.old.types env.new.types) }
{
    let count = count_of(bytes.as_slice())?;
    let element = env.of_kind(Kind::Char)?;
    let ty = env.array_of(element, count)?;
    let node = Boxed::new(env.alloc(), Core::Text { at, number, bytes })?;
    Ok(Value::place(at, node, ty, true))
}

/// The bytes with a 0 at their end.
fn ended(alloc: Global, bytes: &[u8]) -> Result<Bytes, Memory>
    ensures { IfOk result (λ made. made ≡ bytes.now ++ 0 ∷ []) }
{
    let mut text = Items::from_slice(alloc, bytes)?;
    text.push(0)?;
    Ok(text)
}

fn count_of(bytes: &[u8]) -> Result<u32, Memory>
    ensures { IfOk result (λ count. count ≡ length bytes.now) }
{
    u32::try_from(bytes.len()).map_err(|_| Memory)
}
