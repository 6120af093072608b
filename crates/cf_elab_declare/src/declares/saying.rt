ghost use Rattle.std.specs.Prelude.{◌≡◌, IfOk};
ghost use Rattle.cf_elab.specs.Declaration as declaration;
ghost use Rattle.cf_elab_objects.specs.Objects.Seen.{says_seen};

use cf_base::{Memory, Name};
use cf_elab_objects::Says;
use cf_elab_specifiers::Gathered;
use cf_types::TyId;
use std::alloc::Global;

/// How a declaration says an object of this name and type, which it defines or not, with an initialiser or without (3.3).
pub fn object_says(
    alloc: Global,
    gathered: &Gathered,
    name: &[u8],
    at: u32,
    ty: TyId,
    defines: bool,
    is_initialised: bool,
) -> Result<Says, Memory>
    ensures { IfOk result (λ says. says_seen says ≡ declaration.object_says gathered.now name.now at ty defines is_initialised) }
{
    Ok(Says {
        name: Name::from_slice(alloc, name)?,
        at,
        ty,
        is_static: gathered.is_static(),
        is_extern: gathered.is_extern(),
        defines,
        is_initialised,
    })
}
