ghost use Rattle.std.specs.Prelude.{◌≡◌, ◌<◌, ◌≤◌, ◌||◌, not, [], length, IfOk, OnOk};
ghost use Rattle.cf_elab.specs.Functions as functions;
ghost use Rattle.cf_elab_env.specs.Answered.{Agrees};
ghost use Rattle.cf_elab_env.specs.Holds.{IsType};
ghost use Rattle.cf_elab_functions.specs.Seen.{says_seen};
ghost use Rattle.cf_elab_functions.specs.Shut as shut;

use crate::function_types::result_of;
use crate::says::Says;
use cf_base::{Memory, Name};
use cf_elab_arith::broken;
use cf_elab_env::{Env, FunctionEntry, Stop};
use std::alloc::Global;

/// The function of this number said again: its result is the same, K8; it stays external where it was, K9; and it has one body, K8 (3.3).
#[tactic(auto, using(crate::proofs::AgainLaws::known_laws))]
pub(crate) fn known_entry(env: &mut Env, says: &Says, number: u32) -> Result<u32, Stop>
    requires known { IsType env.old.types says.now.ty }
    requires inside { number < length env.old.entries }
    ensures made { Agrees (shut.known_at (says_seen says.now) number env.old) result env.new }
    ensures number { IfOk result (λ known. known < length env.new.entries) }
    ensures types { env.new.types ≡ env.old.types }
    ensures entities { OnOk result (env.new.entities ≡ env.old.entities) }
{
    env.holds();
    let entry = env.entry(number);
    check_again(env, says, entry)?;
    let changed = said_again(env.alloc(), says, entry)?;
    env.set_entry(number, changed);
    Ok(number)
}

/// Whether this declaration may say the function again.
#[tactic(auto, using(crate::proofs::AgainLaws::fits_laws))]
fn check_again(env: &Env, says: &Says, entry: &FunctionEntry) -> Result<(), Stop>
    requires known { IsType env.now.types says.now.ty }
    requires entry_known { IsType env.now.types entry.now.type }
    ensures { Agrees (shut.fits_entry (says_seen says.now) entry.now env.now) result env.now }
{
    let is_same = result_of(env, entry.ty) == result_of(env, says.ty);
    check(env, is_same, 8, says.at)?;
    check(env, keeps_linkage(says, entry), 9, says.at)?;
    check(env, may_define(says, entry), 8, says.at)?;
    Ok(())
}

/// Where this holds nothing; else the rule of this number is broken.
#[tactic(auto, using(crate::proofs::AgainLaws::need_laws))]
fn check(env: &Env, is_fine: bool, rule: u8, at: u32) -> Result<(), Stop>
    requires from_one { 1 ≤ rule }
    requires to_last { rule ≤ 48 }
    ensures { Agrees (shut.need_that is_fine rule at env.now) result env.now }
{
    let _env = env;
    if is_fine {
        Ok(())
    } else {
        Err(Stop::Broken(broken(rule, at)))
    }
}

/// Whether it makes no external name internal (3.3).
fn keeps_linkage(says: &Says, entry: &FunctionEntry) -> bool
    ensures { result ≡ (not (functions.says_internal (says_seen says.now)) || entry.now.is_internal) }
{
    !says.is_internal() || entry.is_internal
}

/// Whether it is no second body. Those of the library are defined elsewhere.
fn may_define(says: &Says, entry: &FunctionEntry) -> bool
    ensures { result ≡ (not says.now.defines || not (entry.now.is_defined || functions.is_library entry.now.link)) }
{
    !says.defines || !(entry.is_defined || is_library(entry.link.as_slice()))
}

fn is_library(link: &[u8]) -> bool
    ensures { result ≡ functions.is_library link.now }
{
    link == b"putchar".as_slice() || link == b"getchar".as_slice() || link == b"exit".as_slice()
}

/// The function as it is known behind this declaration.
fn said_again(alloc: Global, says: &Says, entry: &FunctionEntry) -> Result<FunctionEntry, Memory>
    ensures { IfOk result (λ changed. changed ≡ record entry.now { defaults = []; is_defined = entry.now.is_defined || says.now.defines }) }
{
    Ok(FunctionEntry {
        name: Name::from_slice(alloc, entry.name.as_slice())?,
        link: Name::from_slice(alloc, entry.link.as_slice())?,
        ty: entry.ty,
        at: entry.at,
        is_defined: entry.is_defined || says.defines,
        is_internal: entry.is_internal,
    })
}
