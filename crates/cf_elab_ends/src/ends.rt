//! The end of a file (17).

ghost use Rattle.std.specs.Prelude.{◌≡◌, ◌&&◌, IfOk};
ghost use Rattle.std.specs.List.{list_all};
ghost use Rattle.cf_elab_valid_files.specs.File.Ends as ends;

use crate::hand::has_no_locals;
use crate::names::names_right;
use crate::objects::objects_right;
use crate::types::all_aim;
use cf_base::Memory;
use cf_elab_env::Env;

/// Whether what is known at the end of a file makes a valid core: no function is at hand, types lead where they may, link names differ and are short,
/// and objects are of types of which objects are. The environment stays as it is.
pub fn is_finished(env: &mut Env) -> Result<bool, Memory>
    ensures value { IfOk result (λ finished. finished ≡ ends.is_finished env.old) }
    ensures kept { env.new ≡ env.old }
{
    let no_locals = has_no_locals(env);
    let names = names_right(env)?;
    Ok(all_right(env, no_locals, names))
}

/// The same, where it is known whether there are no locals and whether the link names are right.
fn all_right(env: &Env, no_locals: bool, names: bool) -> bool
    ensures { result ≡ (no_locals && list_all (ends.aims_right env.now.types) env.now.types.types && (names && ends.objects_right env.now)) }
{
    no_locals && all_aim(env) && names && objects_right(env)
}
