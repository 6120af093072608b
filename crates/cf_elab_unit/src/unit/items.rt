//! What a file is made of (17).

ghost use Rattle.cf_elab_env.specs.Answered.{Agrees};
ghost use Rattle.cf_elab_unit.specs.Unit.Shut as shut;

use crate::body::declaration;
use crate::definitions::definition;
use cf_elab_env::{Env, Stop};
use cf_elab_file::check_all_defined;
use cf_unit::Item;

/// The items of a file in order; at the end each function that it declares is defined in it.
#[tactic(auto, using(crate::proofs::UnitLaws::ItemRows::whole_is))]
pub(crate) fn whole(items: &[Item], env: &mut Env) -> Result<(), Stop>
    requires { shut.AreBuilt items.now }
    ensures { Agrees (shut.whole items.now env.old) result env.new }
{
    each(items, env)?;
    check_all_defined(env)?;
    Ok(())
}

/// The items of a file in order.
fn each(items: &[Item], env: &mut Env) -> Result<(), Stop>
    requires { shut.AreBuilt items.now }
    ensures { Agrees (shut.items items.now env.old) result env.new }
{
    for i in items {
        item(i, env)?;
    }
    Ok(())
}

/// A function with its body, or a declaration.
#[tactic(auto, using(crate::proofs::UnitLaws::ItemRows::item_laws))]
fn item(i: &Item, env: &mut Env) -> Result<(), Stop>
    requires { shut.IsBuilt i.now }
    ensures { Agrees (shut.item i.now env.old) result env.new }
{
    match i {
        Item::Function(f) => {
            definition(f.get(), env)?;
            Ok(())
        }
        Item::Declaration(d) => {
            let _reached = declaration(d.get(), env)?;
            Ok(())
        }
        Item::Linkage(_) => unreachable!(),
    }
}
