ghost use Rattle.std.specs.Prelude.{◌≡◌};
ghost use Rattle.cf_elab.specs.Objects as objects;
ghost use Rattle.cf_elab.specs.Operand as operand;
ghost use Rattle.cf_elab_env.specs.Holds.{IsType};
ghost use Rattle.cf_elab_env.specs.Seen.{sort_seen};

use cf_base::{Boxed, Name};
use cf_core::{Core, CoreStatic};
use cf_elab_env::{Env, Sort};
use cf_types::TyId;

/// Whether an object of the type must have an initialiser: a const one, and a reference (8.4, 8.4.3).
pub fn needs_initialiser(env: &Env, ty: TyId) -> bool
    requires { IsType env.now.types ty }
    ensures { result ≡ objects.needs_initialiser env.now ty }
{
    env.is_const(ty) || is_reference(env.sort_of(ty))
}

fn is_reference(sort: Sort) -> bool
    ensures { result ≡ operand.is_reference (sort_seen sort) }
{
    matches!(sort, Sort::Reference(_))
}

/// A static object, which the files of a program do not share.
pub fn static_of(
    name: Name,
    ty: TyId,
    start: Boxed<Core>,
    owner: Option<Name>,
    is_constant: bool,
    is_local: bool,
) -> CoreStatic
    ensures { result ≡ objects.static_of name ty start owner is_constant is_local }
{
    CoreStatic {
        name,
        ty,
        start: start.into_inner(),
        owner,
        is_constant,
        is_shared: false,
        is_local,
    }
}
