//! An enumeration with all that is in it.

ghost use Rattle.std.specs.Prelude.{◌≡◌, All, IsTrue, IfOk, OnOk};
ghost use Rattle.std.specs.Option.{option_copied};
ghost use Rattle.cf_base.specs.Integers.{fits};
ghost use Rattle.cf_elab.specs.Answer.{Made};
ghost use Rattle.cf_elab.specs.Enumeration as spec;
ghost use Rattle.cf_elab.specs.Enumeration.{Counted as Listed};
ghost use Rattle.cf_elab.specs.Operand.{enumeral, sort_of};
ghost use Rattle.cf_elab_env.specs.Answered.{Agrees};
ghost use Rattle.cf_elab_env.specs.Holds.{Grows, IsType};
ghost use Rattle.cf_elab_enumeration.specs.Shut as row;
ghost use Rattle.cf_elab_declaration.specs.Enums.Forms.{AreBuilt};
ghost use Rattle.cf_elab_declaration.specs.Enums.Shut as shut;

use crate::enums::checking::check;
use crate::enums::counting::counted;
use crate::enums::making::{label, new_type};
use cf_base::{Items, Kind, Memory, Name};
use cf_elab_enumeration::{Counted, declare_all, declare_name, know_name};
use cf_elab_env::{Env, Stop};
use cf_types::TyId;
use cf_unit::{EnumDef, Enumerator};

/// The type of an enumeration that is defined: its expressions, in a scope in which those behind an enumerator know it; then K48 where it is named in a
/// block, K8, K19 and K5; and its names, which the innermost scope has from there on. Without a name it takes that of the `typedef` that it stands in.
#[tactic(auto, using(crate::proofs::EnumsLaws::DefiningLaws::enumeration_laws))]
pub fn enumeration(d: &EnumDef, alias: Option<&Name>, env: &mut Env) -> Result<TyId, Stop>
    requires { AreBuilt d.now.enumerators }
    ensures made { Agrees (shut.enumeration (option_copied alias.entry) d.now env.old) result env.new }
    ensures known { IfOk result (λ t. IsType env.new.types t) }
    ensures grows { OnOk result (Grows env.old.types env.new.types) }
{
    let label = label(env.alloc(), &d.name, alias)?;
    let (number, ty) = new_type(env, label)?;
    let list = in_scope(d.enumerators.as_slice(), &d.name, number, ty, env)?;
    check(env, d.at, &d.name, list.as_slice())?;
    declare(env, &d.name, number, ty, list.as_slice())?;
    Ok(ty)
}

/// The enumerators with their expressions, in a scope in which the enumeration's own name is known (3.2).
#[tactic(auto, using(crate::proofs::EnumsLaws::DefiningLaws::scope_laws))]
fn in_scope(
    list: &[Enumerator],
    name: &Option<(u32, Name)>,
    number: u32,
    ty: TyId,
    env: &mut Env,
) -> Result<Items<Counted>, Stop>
    requires built { AreBuilt list.now }
    requires known { IsType env.old.types ty }
    requires enumeration { sort_of env.old.types ty ≡ enumeral number }
    ensures made { Agrees (shut.in_scope number ty name.now list.now env.old) result env.new }
    ensures grows { OnOk result (Grows env.old.types env.new.types) }
{
    env.enter_scope()?;
    know_own_name(env, name, number)?;
    let all = in_own_scope(list, number, ty, env)?;
    env.leave_scope();
    Ok(all)
}

/// The enumeration's own name stands for it, if it has one.
#[tactic(auto, using(crate::proofs::EnumsLaws::DefiningLaws::known_laws))]
fn know_own_name(env: &mut Env, name: &Option<(u32, Name)>, number: u32) -> Result<(), Memory>
    ensures made { OnOk result (row.name_known number name.now env.old ≡ Made tt env.new) }
    ensures types { env.new.types ≡ env.old.types }
{
    match name {
        None => Ok(()),
        Some((at, name)) => {
            know_name(env, *at, name.as_slice(), number)?;
            Ok(())
        }
    }
}

/// The enumerators with their expressions, in a scope of their own.
#[tactic(auto, using(crate::proofs::EnumsLaws::DefiningLaws::own_scope_laws))]
fn in_own_scope(
    list: &[Enumerator],
    number: u32,
    ty: TyId,
    env: &mut Env,
) -> Result<Items<Counted>, Stop>
    requires built { AreBuilt list.now }
    requires known { IsType env.old.types ty }
    requires enumeration { sort_of env.old.types ty ≡ enumeral number }
    ensures made { Agrees (shut.in_own_scope ty list.now env.old) result env.new }
    ensures grows { OnOk result (Grows env.old.types env.new.types) }
{
    env.enter_scope()?;
    let all = counted(list, number, ty, env)?;
    env.leave_scope();
    Ok(all)
}

/// The names of the enumeration and of its enumerators are declared in the innermost scope.
#[tactic(auto, using(crate::proofs::EnumsLaws::DefiningLaws::declare_laws))]
fn declare(
    env: &mut Env,
    name: &Option<(u32, Name)>,
    number: u32,
    ty: TyId,
    list: &[Counted],
) -> Result<(), Memory>
    requires known { IsType env.old.types ty }
    requires enumeration { sort_of env.old.types ty ≡ enumeral number }
    requires ints { All (λ (c : Listed). IsTrue (fits Kind.Int (spec.number_or_zero c.number))) list.now }
    ensures made { OnOk result (shut.declared number ty name.now list.now env.old ≡ Made tt env.new) }
    ensures types { env.new.types ≡ env.old.types }
{
    declare_own_name(env, name, number, ty)?;
    declare_all(env, number, ty, list)?;
    Ok(())
}

/// The name of the enumeration, if it has one.
#[tactic(auto, using(crate::proofs::EnumsLaws::DefiningLaws::name_laws))]
fn declare_own_name(
    env: &mut Env,
    name: &Option<(u32, Name)>,
    number: u32,
    ty: TyId,
) -> Result<(), Memory>
    ensures made { OnOk result (row.name_declared number ty name.now env.old ≡ Made tt env.new) }
    ensures types { env.new.types ≡ env.old.types }
{
    match name {
        None => Ok(()),
        Some((at, name)) => {
            declare_name(env, *at, name.as_slice(), number, ty)?;
            Ok(())
        }
    }
}
