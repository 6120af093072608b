ghost use Rattle.std.specs.Prelude.{◌≡◌, ◌&&◌, ◌||◌, not, None, OnOk};
ghost use Rattle.cf_elab.specs.Built.{of_name};
ghost use Rattle.cf_elab.specs.Specifiers.{is_extern};
ghost use Rattle.cf_elab_declaration.specs.Declarators.Shut as shut;
ghost use Rattle.cf_elab_declare.specs.Defines.Reached.{maybe_reached};
ghost use Rattle.cf_elab_env.specs.Answered.{AgreesAs};
ghost use Rattle.cf_elab_env.specs.Holds.{Grows, IsType};
ghost use Rattle.cf_elab_objects.specs.Objects.Seen.{says_seen};
ghost use Rattle.cf_elab_declaration.specs.WrittenTrees.Shut as written;

use crate::written_trees::{initial_at, outline, parts_of};
use cf_base::{Broken, Rule};
use cf_elab_declare::{array_given, begin, check_object, finish, identifier, object_says};
use cf_elab_env::{Env, Stop};
use cf_elab_limits::check_type;
use cf_elab_made::Reached;
use cf_elab_objects::Says;
use cf_elab_specifiers::Gathered;
use cf_syntax::Name;
use cf_types::TyId;
use cf_unit::Initialiser;

/// An object of this name and type with its initialiser, if it has one (6.7, 8.4).
#[tactic(auto, using(crate::proofs::DeclaratorsLaws::ObjectRows::object_laws))]
pub(crate) fn object_row(
    initialiser: &Option<Initialiser>,
    name: &Name,
    gathered: &Gathered,
    in_file: bool,
    ty: TyId,
    env: &mut Env,
) -> Result<Option<Reached>, Stop>
    requires built { written.PartsAreBuilt initialiser.now }
    requires plain { of_name name.now ≡ None }
    requires typed { IsType env.old.types ty }
    ensures made { AgreesAs maybe_reached (shut.object_row in_file gathered.now name.now ty initialiser.now env.old) result env.new }
    ensures grows { OnOk result (Grows env.old.types env.new.types) }
{
    let own = identifier(name);
    check_object(env, name.last_at, ty)?;
    let defines = is_defining(gathered, in_file, initialiser.is_some());
    let says = object_says(
        env.alloc(),
        gathered,
        own.as_slice(),
        name.last_at,
        ty,
        defines,
        initialiser.is_some(),
    )?;
    let reached = nodes(initialiser, in_file, &says, env)?;
    check_type(env, ty)?;
    Ok(reached)
}

/// Whether a declaration defines its object.
fn is_defining(gathered: &Gathered, in_file: bool, is_initialised: bool) -> bool
    ensures { result ≡ (not (is_extern gathered.now) || (in_file && is_initialised)) }
{
    !gathered.is_extern() || (in_file && is_initialised)
}

/// The object before its initialiser, the initialiser, and the object behind it.
#[tactic(auto, using(crate::proofs::DeclaratorsLaws::ObjectRows::node_laws))]
fn nodes(
    initialiser: &Option<Initialiser>,
    in_file: bool,
    says: &Says,
    env: &mut Env,
) -> Result<Option<Reached>, Stop>
    requires built { written.PartsAreBuilt initialiser.now }
    requires typed { IsType env.old.types says.now.ty }
    ensures made { AgreesAs maybe_reached (shut.nodes in_file (says_seen says.now) initialiser.now env.old) result env.new }
    ensures grows { OnOk result (Grows env.old.types env.new.types) }
{
    let begun = begin(env, in_file, says)?;
    let written = parts_of(initialiser, env)?;
    let reached = finish(env, begun, says, initial_at(initialiser), written)?;
    Ok(reached)
}

/// An array of this element whose initialiser gives the bound; K26 where it has none (8.2.4).
#[tactic(auto, using(crate::proofs::DeclaratorsLaws::BoundRows::unbounded_laws))]
pub(crate) fn unbounded(
    initialiser: &Option<Initialiser>,
    name: &Name,
    gathered: &Gathered,
    in_file: bool,
    element: TyId,
    env: &mut Env,
) -> Result<Option<Reached>, Stop>
    requires built { written.PartsAreBuilt initialiser.now }
    requires plain { of_name name.now ≡ None }
    requires typed { IsType env.old.types element }
    ensures made { AgreesAs maybe_reached (shut.unbounded in_file gathered.now name.now initialiser.now element env.old) result env.new }
    ensures grows { OnOk result (Grows env.old.types env.new.types) }
{
    match initialiser {
        None => Err(Stop::Broken(Broken {
            rule: Rule::new(26),
            at: name.last_at,
        })),
        Some(given) => {
            let outline = outline(given, env.alloc())?;
            let ty = array_given(env, element, &outline)?;
            let reached = object_row(initialiser, name, gathered, in_file, ty, env)?;
            Ok(reached)
        }
    }
}
