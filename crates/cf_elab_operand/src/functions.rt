ghost use Rattle.std.specs.Prelude.{◌≡◌, bytes_eq, codes, IfOk};
ghost use Rattle.cf_elab.specs.Names as names;
ghost use Rattle.cf_elab.specs.Operand as operand;
ghost use Rattle.cf_elab_env.specs.Answered.{Agrees, AgreesAs};
ghost use Rattle.cf_elab_env.specs.Holds.{IsEntry, Known};
ghost use Rattle.cf_elab_env.specs.SeenOperand.{operand_seen};
ghost use Rattle.cf_elab_operand.specs.Operands.{IsOperand};
ghost use Rattle.cf_elab_operand.specs.Shut as shut;

use cf_base::{Boxed, Items, Memory};
use cf_core::Core;
use cf_elab_arith::broken;
use cf_elab_env::{Env, FunctionEntry, Operand, Stop, Value};

/// The functions of one name; `main` may not be used, K11 (3.4).
#[tactic(auto, using(crate::proofs::FunctionLaws::named_laws))]
pub(crate) fn functions_named(env: &Env, at: u32, numbers: &[u32]) -> Result<Operand, Stop>
    ensures made { AgreesAs operand_seen (shut.functions_of at numbers.now env.now) result env.now }
    ensures known { IfOk result (λ o. IsOperand env.now.types o) }
{
    if has_main(env, numbers) {
        Err(Stop::Broken(broken(11, at)))
    } else {
        let numbers = Items::from_slice(env.alloc(), numbers)?;
        Ok(Operand::Functions { at, numbers })
    }
}

/// Whether the functions are `main`.
fn has_main(env: &Env, numbers: &[u32]) -> bool
    ensures { result ≡ names.some_main env.now numbers.now }
{
    match numbers.first() {
        Some(number) => match env.entries().get(*number as usize) {
            Some(entry) => is_main(entry.link.as_slice()),
            None => false,
        },
        None => false,
    }
}

fn is_main(link: &[u8]) -> bool
    ensures { result ≡ bytes_eq link.now (codes "__main") }
{
    link == b"__main".as_slice()
}

/// The value of the function of this number; K10 where there is none.
#[tactic(auto, using(crate::proofs::FunctionLaws::one_laws))]
pub(crate) fn one_function(env: &Env, at: u32, number: u32) -> Result<Value, Stop>
    ensures made { Agrees (shut.one_function at number env.now) result env.now }
    ensures known { IfOk result (λ v. Known env.now.types v) }
{
    if (number as usize) < env.entries().len() {
        let value = function_value(env, at, env.entry(number))?;
        Ok(value)
    } else {
        Err(Stop::Broken(broken(10, at)))
    }
}

/// A function as a place.
#[tactic(auto, using(crate::proofs::FunctionLaws::place_known))]
fn function_value(env: &Env, at: u32, entry: &FunctionEntry) -> Result<Value, Memory>
    requires { IsEntry env.now.types entry.now }
    ensures made { IfOk result (λ v. v ≡ operand.function_value at entry.now) }
    ensures known { IfOk result (λ v. Known env.now.types v) }
{
    let name = Items::from_slice(env.alloc(), entry.link.as_slice())?;
    let node = Boxed::new(
        env.alloc(),
        Core::Function {
            at,
            name,
            ty: entry.ty,
        },
    )?;
    Ok(Value::place(at, node, entry.ty, true))
}
