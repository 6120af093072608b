//! What is looked at behind the expressions.

ghost use Rattle.std.specs.Prelude.{◌≡◌, All, IsTrue, IfOk, OnOk};
ghost use Rattle.cf_base.specs.Integers.{fits};
ghost use Rattle.cf_elab.specs.Enumeration as spec;
ghost use Rattle.cf_elab.specs.Enumeration.{Counted as Listed};
ghost use Rattle.cf_elab_env.specs.Answered.{Agrees};
ghost use Rattle.cf_elab_enumeration.specs.Shut as row;
ghost use Rattle.cf_elab_declaration.specs.Enums.Shut as shut;

use cf_base::{Items, Kind, Memory, Name};
use cf_elab_enumeration::{
    Counted, check_all_new, check_constant, check_ints, check_name, check_place,
};
use cf_elab_env::{Env, Stop};
use std::alloc::Global;

/// An enumeration with a name stands in the file's own scope, K48; its name and those of its enumerators are new, K8; each expression is a constant, K19,
/// and each number one of `int`, K5.
#[tactic(auto, using(crate::proofs::EnumsLaws::CheckingLaws::checked_laws))]
pub(crate) fn check(
    env: &Env,
    at: u32,
    name: &Option<(u32, Name)>,
    list: &[Counted],
) -> Result<(), Stop>
    ensures made { Agrees (shut.checked at name.now list.now env.now) result env.now }
    ensures ints { OnOk result (All (λ (c : Listed). IsTrue (fits Kind.Int (spec.number_or_zero c.number))) list.now) }
{
    let own = own_names(env.alloc(), name)?;
    check_place(env, at, name.is_some())?;
    check_own_name(env, name)?;
    check_all_new(env, own.as_slice(), list)?;
    check_constant(env, list)?;
    check_ints(env, list)?;
    Ok(())
}

/// The enumeration's own name is new, if it has one.
#[tactic(auto, using(crate::proofs::EnumsLaws::CheckingLaws::name_laws))]
fn check_own_name(env: &Env, name: &Option<(u32, Name)>) -> Result<(), Stop>
    ensures { Agrees (row.name_checked name.now env.now) result env.now }
{
    match name {
        None => Ok(()),
        Some((at, name)) => {
            check_name(env, *at, name.as_slice())?;
            Ok(())
        }
    }
}

/// The name of the enumeration, if it has one.
fn own_names(alloc: Global, name: &Option<(u32, Name)>) -> Result<Items<Name>, Memory>
    ensures { IfOk result (λ names. names ≡ spec.own_names name.now) }
{
    let mut names = Items::new(alloc);
    if let Some((_, name)) = name {
        names.push(Name::from_slice(alloc, name.as_slice())?)?;
    }
    Ok(names)
}
