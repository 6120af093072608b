ghost use Rattle.std.specs.Prelude.{◌≡◌, ◌<◌, ◌*◌, ◌/◌, [], length, IfOk, OnOk};
ghost use Rattle.cf_base.specs.Integers.{width};
ghost use Rattle.cf_classes.specs.Layout.{extent, scalar_bytes};
ghost use Rattle.cf_elab.specs.Complete.{bytes_of};
ghost use Rattle.cf_elab.specs.Operand.{sort_of};
ghost use Rattle.cf_elab.specs.Unary as unary;
ghost use Rattle.cf_elab_env.specs.Answered.{Agrees, AgreesAs};
ghost use Rattle.cf_elab_env.specs.Holds.{Known, Grows, IsType};
ghost use Rattle.cf_elab_env.specs.Seen.{sort_seen};
ghost use Rattle.cf_elab_env.specs.SeenOperand.{operand_seen};
ghost use Rattle.cf_elab_operand.specs.Operands.{IsOperand};
ghost use Rattle.cf_elab_operand.specs.Shut as shut;

use crate::operands::value_of;
use cf_base::{Kind, Memory};
use cf_elab_arith::broken;
use cf_elab_env::{Env, Operand, Sort, Stop, Value};
use cf_types::{Ty, TyId, Types};

/// `sizeof` behind its operand: the operand is not evaluated, so the function has the string literals that it had before (5.3.2). `literals` is
/// that number: take `Env::literals` before the operand is elaborated.
#[tactic(auto, using(crate::proofs::SizeLaws::behind_laws))]
pub fn size_behind(env: &mut Env, at: u32, literals: u32, operand: Operand) -> Result<Operand, Stop>
    requires { IsOperand env.old.types operand }
    ensures made { AgreesAs operand_seen (shut.size_behind at literals (operand_seen operand) env.old) result env.new }
    ensures known { IfOk result (λ o. IsOperand env.new.types o) }
    ensures grows { OnOk result (Grows env.old.types env.new.types) }
{
    let value = value_of(env, operand)?;
    env.set_literals(literals);
    let size = size_constant(env, at, value.ty())?;
    Ok(Operand::Value(size))
}

/// `sizeof` of a type, as an `unsigned int`: a reference counts as what it refers to. K18 of a function or `void`, and K30 of what is not
/// complete (5.3.2). Bytes that no `unsigned int` can count are answered as want of memory.
#[tactic(auto, using(crate::proofs::SizeLaws::size_laws))]
pub fn size_constant(env: &mut Env, at: u32, ty: TyId) -> Result<Value, Stop>
    requires { IsType env.old.types ty }
    ensures made { Agrees (shut.size_constant at ty env.old) result env.new }
    ensures known { IfOk result (λ v. Known env.new.types v) }
    ensures grows { OnOk result (Grows env.old.types env.new.types) }
{
    let measured = referred_type(env, ty);
    let size = size_of_object(env, at, measured)?;
    Ok(size)
}

/// What a reference refers to, and any other type itself.
fn referred_type(env: &Env, ty: TyId) -> TyId
    requires { IsType env.now.types ty }
    ensures value { result ≡ unary.referred_type ty (sort_of env.now.types ty) }
    ensures known { IsType env.now.types result }
{
    match env.sort_of(ty) {
        Sort::Reference(target) => target,
        _ => ty,
    }
}

#[tactic(auto, using(crate::proofs::SizeLaws::object_laws))]
fn size_of_object(env: &mut Env, at: u32, ty: TyId) -> Result<Value, Stop>
    requires { IsType env.old.types ty }
    ensures made { Agrees (shut.size_of_object at ty env.old) result env.new }
    ensures known { IfOk result (λ v. Known env.new.types v) }
    ensures grows { OnOk result (Grows env.old.types env.new.types) }
{
    check_sized(env, at, ty)?;
    let bytes = bytes_of_type(env, ty)?;
    let unsigned = env.unsigned_int()?;
    let size = Value::constant(env.alloc(), at, i64::from(bytes), unsigned)?;
    Ok(size)
}

/// An object of the type has a size: K18 of a function or `void`, and K30 of what is not complete.
#[tactic(auto, using(crate::proofs::SizeLaws::sized_laws))]
fn check_sized(env: &Env, at: u32, ty: TyId) -> Result<(), Stop>
    requires { IsType env.now.types ty }
    ensures { Agrees (shut.need_sized at ty env.now) result env.now }
{
    if is_unsized(env.sort_of(ty)) {
        Err(Stop::Broken(broken(18, at)))
    } else if env.is_complete(ty) {
        Ok(())
    } else {
        Err(Stop::Broken(broken(30, at)))
    }
}

fn is_unsized(sort: Sort) -> bool
    ensures { result ≡ unary.is_unsized (sort_seen sort) }
{
    matches!(sort, Sort::Function(_) | Sort::Void)
}

/// The bytes of an object of the type.
#[tactic(auto, using(crate::proofs::SizeLaws::bytes_laws))]
fn bytes_of_type(env: &Env, ty: TyId) -> Result<u32, Memory>
    requires { IsType env.now.types ty }
    ensures { IfOk result (λ bytes. bytes ≡ bytes_of env.now ty) }
{
    let _classes = env.classes();
    let bytes = bytes_in(env.types(), ty)?;
    Ok(bytes)
}

/// The bytes of an object of the type, which holds no class.
#[tactic(auto, using(crate::proofs::ByteLaws::byte_laws))]
fn bytes_in(types: &Types, ty: TyId) -> Result<u32, Memory>
    requires { ty < length types.now.types }
    ensures { IfOk result (λ bytes. bytes ≡ (extent types.now [] ty).size) }
{
    match types.get(ty) {
        Ty::Array(element, count) => {
            let element = bytes_in(types, *element)?;
            let bytes = times(element, *count)?;
            Ok(bytes)
        }
        Ty::Const(inside) => {
            let bytes = bytes_in(types, *inside)?;
            Ok(bytes)
        }
        other => Ok(scalar_size(other)),
    }
}

/// So many times as many bytes.
fn times(bytes: u32, count: u32) -> Result<u32, Memory>
    ensures { IfOk result (λ total. total ≡ bytes * count) }
{
    bytes.checked_mul(count).ok_or(Memory)
}

/// The bytes of a scalar. What is none has 0 here.
fn scalar_size(ty: &Ty) -> u32
    ensures { result ≡ scalar_bytes ty.now }
{
    match ty {
        Ty::Int(kind) => kind_bytes(*kind),
        Ty::Enum(_) | Ty::Ptr(_) | Ty::Ref(_) | Ty::MemData(_, _) => 4,
        Ty::MemFun(_, _) => 12,
        _ => 0,
    }
}

/// The bytes of an integer (3.6.1).
fn kind_bytes(kind: Kind) -> u32
    ensures { result ≡ width kind / 8 }
{
    match kind {
        Kind::Char | Kind::SChar | Kind::UChar => 1,
        Kind::Short | Kind::UShort => 2,
        Kind::Int | Kind::UInt | Kind::Long | Kind::ULong => 4,
    }
}
