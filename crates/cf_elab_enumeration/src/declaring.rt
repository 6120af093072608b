ghost use Rattle.std.specs.Prelude.{◌≡◌, IsTrue, All, OnOk, Some};
ghost use Rattle.cf_base.specs.Integers.{fits};
ghost use Rattle.cf_elab.specs.Answer.{Made};
ghost use Rattle.cf_elab.specs.Enumeration.{number_or_zero as its_number, Counted as Listed};
ghost use Rattle.cf_elab.specs.Operand.{enumeral, sort_of};
ghost use Rattle.cf_elab_env.specs.Holds.{IsType};
ghost use Rattle.cf_elab_enumeration.specs.Shut as shut;

use crate::counted::Counted;
use cf_base::{Kind, Memory};
use cf_elab_env::{Entity, Env};
use cf_types::TyId;

/// The enumeration's name stands for it in the innermost scope.
#[tactic(auto, using(crate::proofs::DeclareLaws::name_laws))]
pub fn declare_name(
    env: &mut Env,
    at: u32,
    name: &[u8],
    enumeration: u32,
    ty: TyId,
) -> Result<(), Memory>
    ensures made { OnOk result (shut.name_declared enumeration ty (Some (at, name.now)) env.old ≡ Made tt env.new) }
    ensures types { env.new.types ≡ env.old.types }
{
    env.holds();
    let _place = (at, ty);
    env.declare(name, Entity::Enum(enumeration))?;
    Ok(())
}

/// Each enumerator is declared in the innermost scope as a constant of the enumeration's type.
#[tactic(auto, using(crate::proofs::DeclareLaws::all_laws))]
pub fn declare_all(env: &mut Env, number: u32, ty: TyId, list: &[Counted]) -> Result<(), Memory>
    requires known { IsType env.old.types ty }
    requires enumeration { sort_of env.old.types ty ≡ enumeral number }
    requires ints { All (λ (c : Listed). IsTrue (fits Kind.Int (its_number c.number))) list.now }
    ensures made { OnOk result (shut.declare_all ty list.now env.old ≡ Made tt env.new) }
    ensures types { env.new.types ≡ env.old.types }
{
    for one in list {
        declare_one(env, number, ty, one)?;
    }
    Ok(())
}

/// One of them.
#[tactic(auto, using(crate::proofs::DeclareLaws::one_laws))]
fn declare_one(env: &mut Env, number: u32, ty: TyId, one: &Counted) -> Result<(), Memory>
    requires known { IsType env.old.types ty }
    requires enumeration { sort_of env.old.types ty ≡ enumeral number }
    requires int { IsTrue (fits Kind.Int (its_number one.now.number)) }
    ensures made { OnOk result (shut.declare_one ty one.now env.old ≡ Made tt env.new) }
    ensures types { env.new.types ≡ env.old.types }
{
    env.holds();
    let _enumeration = number;
    env.declare(
        one.name().as_slice(),
        Entity::Enumerator(ty, Some(one.value())),
    )?;
    Ok(())
}

/// An enumerator is declared for the expressions behind it (3.2). One past `int` counts as 0 there, since K5 comes behind them.
#[tactic(auto, using(crate::proofs::DeclareLaws::counted_laws))]
pub fn declare_counted(env: &mut Env, number: u32, ty: TyId, one: &Counted) -> Result<(), Memory>
    requires known { IsType env.old.types ty }
    requires enumeration { sort_of env.old.types ty ≡ enumeral number }
    ensures made { OnOk result (shut.declare_counted ty one.now env.old ≡ Made tt env.new) }
    ensures types { env.new.types ≡ env.old.types }
{
    let _enumeration = number;
    env.declare(
        one.name().as_slice(),
        Entity::Enumerator(ty, Some(one.counts_as())),
    )?;
    Ok(())
}

/// An enumerator is declared for its own expression, where it has no value yet (3.2).
#[tactic(auto, using(crate::proofs::DeclareLaws::own_laws))]
pub fn declare_own(env: &mut Env, ty: TyId, name: &[u8]) -> Result<(), Memory>
    requires { IsType env.old.types ty }
    ensures made { OnOk result (shut.declare_own ty name.now env.old ≡ Made tt env.new) }
    ensures types { env.new.types ≡ env.old.types }
{
    env.declare(name, Entity::Enumerator(ty, None))?;
    Ok(())
}

/// The enumeration's name stands for it in the expressions of its enumerators (3.2).
#[tactic(auto, using(crate::proofs::DeclareLaws::known_laws))]
pub fn know_name(env: &mut Env, at: u32, name: &[u8], enumeration: u32) -> Result<(), Memory>
    ensures made { OnOk result (shut.name_known enumeration (Some (at, name.now)) env.old ≡ Made tt env.new) }
    ensures types { env.new.types ≡ env.old.types }
{
    let _place = at;
    env.declare(name, Entity::Enum(enumeration))?;
    Ok(())
}
