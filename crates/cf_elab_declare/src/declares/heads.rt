ghost use Rattle.std.specs.Prelude.{◌≡◌, ◌&&◌, false, not, IfOk, IfSome, OnOk};
ghost use Rattle.cf_elab.specs.Specifiers.{is_typedef};
ghost use Rattle.cf_elab_declare.specs.Declares.Headed.{headed_seen};
ghost use Rattle.cf_elab_declare.specs.Declares.Shut as shut;
ghost use Rattle.cf_elab_env.specs.Answered.{AgreesAs};
ghost use Rattle.cf_elab_env.specs.Holds.{Grows, IsType};
ghost use Rattle.cf_elab_shape.specs.Shapes.Holds.{IsShape};
ghost use Rattle.cf_elab_shape.specs.Shapes.Seen.{shape_seen, shaped_seen, type_of};

use crate::declares::checks::{check_conflict, check_no_definition, declares_function};
use cf_elab_env::{Env, Stop};
use cf_elab_shape::{Position, Shape, Shaped, check_bounds, typed};
use cf_elab_specifiers::{Gathered, base_type};

/// What a declarator's name is declared as, and whether in the file's own scope.
#[derive(Clone, Copy, Debug)]
pub struct Headed {
    pub in_file: bool,
    pub shaped: Shaped,
}

/// The type of a declarator at this byte place, which has an initialiser or not: the specifiers do not conflict, K24; a function's result is not defined
/// in it, K26; each operator stands where it may, K26; and each bound is a constant, K19 (7.1, 8.2).
#[tactic(auto, using(crate::proofs::DeclaresLaws::HeadLaws::head_laws))]
pub fn head(
    env: &mut Env,
    gathered: &Gathered,
    at: u32,
    shape: &Shape,
    is_initialised: bool,
) -> Result<Headed, Stop>
    requires named { IfSome gathered.now.named (λ t. IsType env.old.types t) }
    requires shape_known { IsShape env.old.types (shape_seen shape.now) }
    ensures made { AgreesAs headed_seen (shut.head gathered.now at (shape_seen shape.now) is_initialised env.old) result env.new }
    ensures known { IfOk result (λ h. IsType env.new.types (type_of (shaped_seen h.shaped))) }
    ensures grows { OnOk result (Grows env.old.types env.new.types) }
{
    let base = base_type(env, gathered)?;
    let in_file = env.is_file_scope();
    let is_function = declares_function(env, base, shape);
    check_conflict(env, in_file, is_function, at, gathered)?;
    check_no_definition(env, gathered, shape)?;
    let shaped = typed(env, position(gathered, is_initialised), shape, base)?;
    check_bounds(env, shape)?;
    Ok(Headed { in_file, shaped })
}

/// The bound of an array may be left out where its initialiser gives it (8.2.4).
fn position(gathered: &Gathered, is_initialised: bool) -> Position
    ensures { result ≡ record { unbounded = is_initialised && not (is_typedef gathered.now); const_function = false } }
{
    Position {
        unbounded: is_initialised && !gathered.is_typedef(),
        const_function: false,
    }
}
