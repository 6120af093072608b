ghost use Rattle.std.specs.Prelude.{◌≡◌, ◌++◌, Some, OnOk};
ghost use Rattle.cf_elab_env.specs.Answered.{Agrees};
ghost use Rattle.cf_elab_enumeration.specs.Shut as shut;

use crate::counted::Counted;
use cf_base::{Memory, Name};
use cf_elab_arith::broken;
use cf_elab_env::{Env, Stop};
use cf_name_list::Names;

/// The innermost scope has no enumeration's name yet; else K8 (3.2).
#[tactic(auto, using(crate::proofs::NewLaws::name_laws))]
pub fn check_name(env: &Env, at: u32, name: &[u8]) -> Result<(), Stop>
    ensures { Agrees (shut.name_checked (Some (at, name.now)) env.now) result env.now }
{
    env.holds();
    if env.declared_here(name).is_some() {
        Err(Stop::Broken(broken(8, at)))
    } else {
        Ok(())
    }
}

/// No enumerator has a name of the innermost scope, of one before it, or of these, which are the enumeration's own; else K8 (3.2).
pub fn check_all_new(env: &Env, own: &[Name], list: &[Counted]) -> Result<(), Stop>
    ensures { Agrees (shut.all_new own.now list.now env.now) result env.now }
{
    let mut before = Names::new(env.alloc());
    add_own(&mut before, own)?;
    check_each(env, &mut before, list)?;
    Ok(())
}

/// Puts these names in front of others, in their order.
fn add_own<'a>(before: &mut Names<'a>, own: &'a [Name]) -> Result<(), Memory>
    ensures { OnOk result (before.new ≡ own.now ++ before.old) }
{
    let mut left = own.len();
    while left > 0 {
        left -= 1;
        before.add(own[left].as_slice())?;
    }
    Ok(())
}

/// No enumerator has a name of the innermost scope, or of those before it; else K8.
#[tactic(auto, using(crate::proofs::NewLaws::each_laws))]
fn check_each<'a>(env: &Env, before: &mut Names<'a>, list: &'a [Counted]) -> Result<(), Stop>
    ensures { Agrees (shut.all_new before.old list.now env.now) result env.now }
{
    for one in list {
        let name = one.name().as_slice();
        check_new(env, name, one.at(), before)?;
        before.add(name)?;
    }
    Ok(())
}

/// Neither the innermost scope nor one of these before has the name; else K8.
#[tactic(auto, using(crate::proofs::NewLaws::new_laws))]
fn check_new(env: &Env, name: &[u8], at: u32, before: &Names) -> Result<(), Stop>
    ensures { Agrees (shut.needs_new name.now at before.now env.now) result env.now }
{
    env.holds();
    if env.declared_here(name).is_some() || before.has(name) {
        Err(Stop::Broken(broken(8, at)))
    } else {
        Ok(())
    }
}
