ghost use Rattle.std.specs.Prelude.{◌≡◌, None, IfSome, OnOk};
ghost use Rattle.cf_elab.specs.Built.{of_name};
ghost use Rattle.cf_elab_declaration.specs.Declarators.Shut as shut;
ghost use Rattle.cf_elab_declare.specs.Defines.Reached.{maybe_reached};
ghost use Rattle.cf_elab_env.specs.Answered.{AgreesAs};
ghost use Rattle.cf_elab_env.specs.Holds.{Grows, IsType};
ghost use Rattle.cf_elab_shape.specs.Shapes.Holds.{IsShape};
ghost use Rattle.cf_elab_shape.specs.Shapes.Seen.{shape_seen};
ghost use Rattle.cf_elab_declaration.specs.WrittenTrees.Shut as written;

use crate::declarators::kinds::by_shape;
use cf_elab_declare::head;
use cf_elab_env::{Env, Stop};
use cf_elab_made::Reached;
use cf_elab_shape::Shape;
use cf_elab_specifiers::Gathered;
use cf_syntax::Name;
use cf_unit::Initialiser;

/// A declarator of this name at this byte place, behind its specifiers: the type that it declares, and then what its name is: a type, a function or an
/// object with its initialiser (7.1, 8.2, 8.4). It gives the statement that it makes in a block, if it makes one.
#[tactic(auto, using(crate::proofs::DeclaratorsLaws::NamedRows::named_laws))]
pub fn named_declarator(
    initialiser: &Option<Initialiser>,
    name: &Name,
    shape: &Shape,
    gathered: &Gathered,
    at: u32,
    env: &mut Env,
) -> Result<Option<Reached>, Stop>
    requires built { written.PartsAreBuilt initialiser.now }
    requires plain { of_name name.now ≡ None }
    requires shape_known { IsShape env.old.types (shape_seen shape.now) }
    requires named { IfSome gathered.now.named (λ t. IsType env.old.types t) }
    ensures made { AgreesAs maybe_reached (shut.named_declarator gathered.now at initialiser.now (shape_seen shape.now) name.now env.old) result env.new }
    ensures grows { OnOk result (Grows env.old.types env.new.types) }
{
    let found = head(env, gathered, at, shape, initialiser.is_some())?;
    let reached = by_shape(
        initialiser,
        name,
        shape,
        gathered,
        found.in_file,
        found.shaped,
        env,
    )?;
    Ok(reached)
}
