//! Link names (7.2.1).

ghost use Rattle.std.specs.Prelude.{◌≡◌, ◌++◌, IfOk, map};
ghost use Rattle.std.specs.List.{list_all};
ghost use Rattle.cf_core.specs.FromUnit as core;
ghost use Rattle.cf_core.specs.Valid as valid;
ghost use Rattle.cf_elab_ends.specs.Linked.{seen, link_names};
ghost use Rattle.cf_elab_valid_files.specs.File.Ends as ends;

use cf_base::Memory;
use cf_core::{CoreFn, CoreStatic};
use cf_elab_env::Env;
use cf_name_list::Names;
use std::alloc::Global;

/// The most bytes of a link name.
const MOST_NAME: usize = 1 << 20;

/// Whether the link names of the functions and static objects differ and are short.
pub(crate) fn names_right(env: &Env) -> Result<bool, Memory>
    ensures { IfOk result (λ right. right ≡ ends.names_right env.now) }
{
    let names = link_names(env.alloc(), env.functions(), env.statics())?;
    let differ = all_differ(env.alloc(), names.as_slice())?;
    Ok(differ && functions_short(env.functions()) && statics_short(env.statics()))
}

/// The link names of functions and static objects, in order.
fn link_names<'a>(
    alloc: Global,
    functions: &'a [CoreFn],
    statics: &'a [CoreStatic],
) -> Result<Vec<&'a [u8]>, Memory>
    ensures { IfOk result (λ names. seen names.items ≡ link_names functions.now statics.now) }
{
    let mut names = Vec::new(alloc);
    for f in functions {
        names.push(f.name.as_slice())?;
    }
    for x in statics {
        names.push(x.name.as_slice())?;
    }
    Ok(names)
}

/// Whether no two names are the same.
fn all_differ(alloc: Global, all: &[&[u8]]) -> Result<bool, Memory>
    ensures { IfOk result (λ differ. differ ≡ valid.all_differ (seen all.now)) }
{
    let mut behind = Names::new(alloc);
    let mut left = all.len();
    while left > 0 {
        left -= 1;
        let name = all[left];
        if behind.has(name) {
            return Ok(false);
        }
        behind.add(name)?;
    }
    Ok(true)
}

fn functions_short(functions: &[CoreFn]) -> bool
    ensures { result ≡ list_all (λ (f : CoreFn). core.is_short f.name) functions.now }
{
    for f in functions {
        if !is_short(f.name.as_slice()) {
            return false;
        }
    }
    true
}

fn statics_short(statics: &[CoreStatic]) -> bool
    ensures { result ≡ list_all (λ (x : CoreStatic). core.is_short x.name) statics.now }
{
    for x in statics {
        if !is_short(x.name.as_slice()) {
            return false;
        }
    }
    true
}

fn is_short(name: &[u8]) -> bool
    ensures { result ≡ core.is_short name.now }
{
    name.len() <= MOST_NAME
}
