ghost use Rattle.std.specs.Prelude.{◌≡◌, None, OnOk};
ghost use Rattle.cf_elab.specs.Built.{of_name};
ghost use Rattle.cf_elab.specs.Operand as operand;
ghost use Rattle.cf_elab_declaration.specs.Declarators.Shut as shut;
ghost use Rattle.cf_elab_declare.specs.Defines.Reached.{maybe_reached};
ghost use Rattle.cf_elab_env.specs.Answered.{Agrees, AgreesAs};
ghost use Rattle.cf_elab_env.specs.Holds.{Grows, IsFunctionSort, IsType};
ghost use Rattle.cf_elab_env.specs.Seen.{sort_seen};
ghost use Rattle.cf_elab_shape.specs.Shapes.Holds.{IsShape};
ghost use Rattle.cf_elab_shape.specs.Shapes.Seen.{shape_seen, shaped_seen, type_of};
ghost use Rattle.cf_elab_declaration.specs.WrittenTrees.Shut as written;

use crate::declarators::objects::{object_row, unbounded};
use crate::written_trees::{initial_at, parts_of};
use cf_elab_declare::{function_declared, identifier};
use cf_elab_env::{Env, Sort, Stop};
use cf_elab_made::Reached;
use cf_elab_objects::{aliased, check_no_initialiser};
use cf_elab_shape::{Shape, Shaped};
use cf_elab_specifiers::Gathered;
use cf_syntax::Name;
use cf_types::TyId;
use cf_unit::Initialiser;

/// What a name is declared as, where an array's initialiser may give its bound (8.2.4).
#[tactic(auto, using(crate::proofs::DeclaratorsLaws::KindRows::shape_laws))]
pub(crate) fn by_shape(
    initialiser: &Option<Initialiser>,
    name: &Name,
    shape: &Shape,
    gathered: &Gathered,
    in_file: bool,
    shaped: Shaped,
    env: &mut Env,
) -> Result<Option<Reached>, Stop>
    requires built { written.PartsAreBuilt initialiser.now }
    requires plain { of_name name.now ≡ None }
    requires shape_known { IsShape env.old.types (shape_seen shape.now) }
    requires typed { IsType env.old.types (type_of (shaped_seen shaped)) }
    ensures made { AgreesAs maybe_reached (shut.by_shape in_file gathered.now name.now (shape_seen shape.now) initialiser.now (shaped_seen shaped) env.old) result env.new }
    ensures grows { OnOk result (Grows env.old.types env.new.types) }
{
    match shaped {
        Shaped::Whole(ty) => {
            let reached = by_kind(initialiser, name, shape, gathered, in_file, ty, env)?;
            Ok(reached)
        }
        Shaped::Unbounded(element) => {
            let reached = unbounded(initialiser, name, gathered, in_file, element, env)?;
            Ok(reached)
        }
    }
}

/// A name of this type: a type itself, a function, or an object.
#[tactic(auto, using(crate::proofs::DeclaratorsLaws::KindRows::kind_laws))]
fn by_kind(
    initialiser: &Option<Initialiser>,
    name: &Name,
    shape: &Shape,
    gathered: &Gathered,
    in_file: bool,
    ty: TyId,
    env: &mut Env,
) -> Result<Option<Reached>, Stop>
    requires built { written.PartsAreBuilt initialiser.now }
    requires plain { of_name name.now ≡ None }
    requires shape_known { IsShape env.old.types (shape_seen shape.now) }
    requires typed { IsType env.old.types ty }
    ensures made { AgreesAs maybe_reached (shut.by_kind in_file gathered.now name.now (shape_seen shape.now) initialiser.now ty env.old) result env.new }
    ensures grows { OnOk result (Grows env.old.types env.new.types) }
{
    if gathered.is_typedef() {
        let own = identifier(name);
        typedef_row(initialiser, own.as_slice(), name.last_at, ty, env)?;
        Ok(None)
    } else if is_function(env.sort_of(ty)) {
        function_row(initialiser, name, shape, gathered, ty, env)?;
        Ok(None)
    } else {
        let reached = object_row(initialiser, name, gathered, in_file, ty, env)?;
        Ok(reached)
    }
}

/// A `typedef` of this name: K8 where the innermost scope declares the name as anything but the same type; and it has no initialiser (7.1.3).
#[tactic(auto, using(crate::proofs::DeclaratorsLaws::RefusedRows::typedef_laws))]
fn typedef_row(
    initialiser: &Option<Initialiser>,
    name: &[u8],
    at: u32,
    ty: TyId,
    env: &mut Env,
) -> Result<(), Stop>
    requires built { written.PartsAreBuilt initialiser.now }
    requires typed { IsType env.old.types ty }
    ensures made { Agrees (shut.typedef_row name.now at ty initialiser.now env.old) result env.new }
    ensures grows { OnOk result (Grows env.old.types env.new.types) }
{
    aliased(env, name, at, ty)?;
    not_initialised(initialiser, env)?;
    Ok(())
}

/// A declaration of a function of this name and type, which has no initialiser (8.2.5).
#[tactic(auto, using(crate::proofs::DeclaratorsLaws::RefusedRows::function_laws))]
fn function_row(
    initialiser: &Option<Initialiser>,
    name: &Name,
    shape: &Shape,
    gathered: &Gathered,
    ty: TyId,
    env: &mut Env,
) -> Result<(), Stop>
    requires built { written.PartsAreBuilt initialiser.now }
    requires plain { of_name name.now ≡ None }
    requires shape_known { IsShape env.old.types (shape_seen shape.now) }
    requires typed { IsType env.old.types ty }
    requires function { IsFunctionSort (operand.sort_of env.old.types ty) }
    ensures made { Agrees (shut.function_row gathered.now name.now ty (shape_seen shape.now) initialiser.now env.old) result env.new }
    ensures grows { OnOk result (Grows env.old.types env.new.types) }
{
    function_declared(env, gathered, name, shape, ty, initialiser.is_some())?;
    not_initialised(initialiser, env)?;
    Ok(())
}

/// No initialiser may stand here; where one does, its parts, and then K28 at it (8.4).
#[tactic(auto, using(crate::proofs::DeclaratorsLaws::RefusedRows::refused_laws))]
fn not_initialised(initialiser: &Option<Initialiser>, env: &mut Env) -> Result<(), Stop>
    requires { written.PartsAreBuilt initialiser.now }
    ensures made { Agrees (shut.not_initialised initialiser.now env.old) result env.new }
    ensures grows { OnOk result (Grows env.old.types env.new.types) }
{
    let _parts = parts_of(initialiser, env)?;
    check_no_initialiser(env, initial_at(initialiser))?;
    Ok(())
}

fn is_function(sort: Sort) -> bool
    ensures { result ≡ operand.is_function (sort_seen sort) }
{
    matches!(sort, Sort::Function(_))
}
