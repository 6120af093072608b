ghost use Rattle.std.specs.Prelude.{◌≡◌, ◌==◌, ◌&&◌, not, length, bytes_eq, IfOk};
ghost use Rattle.std.specs.List.{list_any};
ghost use Rattle.cf_elab.specs.Env.{FunctionEntry};
ghost use Rattle.cf_elab_env.specs.Answered.{Agrees};
ghost use Rattle.cf_elab_env.specs.Holds.{IsType};
ghost use Rattle.cf_elab_functions.specs.Seen.{says_seen};
ghost use Rattle.cf_elab_functions.specs.Shut as shut;

use crate::function_types::fun_at;
use crate::says::{Called, Says};
use cf_base::Memory;
use cf_elab_arith::broken;
use cf_elab_env::{Env, Stop};
use cf_types::{Fun, TyId};

/// `main` is `int main()`, neither static nor inline; else K11 (3.4).
#[tactic(auto, using(crate::proofs::CheckLaws::main_laws))]
pub(crate) fn check_main(env: &Env, int: TyId, says: &Says) -> Result<(), Stop>
    requires { IsType env.now.types says.now.ty }
    ensures { Agrees (shut.need_main int (says_seen says.now) env.now) result env.now }
{
    match says.called {
        Called::Plain => Ok(()),
        Called::Main => {
            if has_main_form(env, int, says) {
                Ok(())
            } else {
                Err(Stop::Broken(broken(11, says.at)))
            }
        }
    }
}

/// Whether it is `int main()`, neither static nor inline.
#[tactic(auto, using(crate::proofs::CheckLaws::form_laws))]
fn has_main_form(env: &Env, int: TyId, says: &Says) -> bool
    requires { IsType env.now.types says.now.ty }
    ensures { result ≡ shut.main_form env.now.types int (says_seen says.now) }
{
    match fun_at(env, says.ty) {
        Some(fun) => is_main(fun, int, says.is_internal()),
        None => false,
    }
}

fn is_main(fun: &Fun, int: TyId, is_internal: bool) -> bool
    ensures { result ≡ ((fun.now.result == int) && (length fun.now.params == 0) && not is_internal) }
{
    let returns_int = fun.result == int;
    let takes_nothing = fun.params.len() == 0;
    returns_int && takes_nothing && !is_internal
}

/// The function is the only one of its name, while others with other parameters are not built; else K48 (13.1).
#[tactic(auto, using(crate::proofs::CheckLaws::single_laws))]
pub(crate) fn check_single(env: &Env, says: &Says) -> Result<(), Stop>
    ensures { Agrees (shut.need_single (says_seen says.now) env.now) result env.now }
{
    if env.extent().overloads {
        return Ok(());
    }
    if is_named(env, says)? {
        Err(Stop::Broken(broken(48, says.at)))
    } else {
        Ok(())
    }
}

/// Whether a function of its name is declared: the table of their names has a number for it.
fn is_named(env: &Env, says: &Says) -> Result<bool, Memory>
    ensures { IfOk result (λ named. named ≡ list_any (λ (f : FunctionEntry). bytes_eq f.name says.now.name) env.now.entries) }
{
    let numbers = env.entries_named(says.name.as_slice())?;
    Ok(has_some(numbers.as_slice()))
}

fn has_some(numbers: &[u32]) -> bool
    ensures { result ≡ not (length numbers.now == 0) }
{
    !numbers.is_empty()
}

/// While definitions in other files are not built, the file itself defines what it declares; else K48. What its initialiser breaks comes first.
#[tactic(auto, using(crate::proofs::CheckLaws::definition_laws))]
pub(crate) fn check_definition(env: &Env, says: &Says) -> Result<(), Stop>
    ensures { Agrees (shut.need_definition (says_seen says.now) env.now) result env.now }
{
    if env.extent().elsewhere
        || says.defines
        || says.is_initialised
        || env.defines_name(says.name.as_slice())
    {
        Ok(())
    } else {
        Err(Stop::Broken(broken(48, says.at)))
    }
}
