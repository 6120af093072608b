ghost use Rattle.std.specs.Prelude.{◌≡◌, ◌&&◌, IfOk, OnOk};
ghost use Rattle.cf_elab.specs.Shape.{is_inner};
ghost use Rattle.cf_elab_env.specs.Answered.{AgreesAs};
ghost use Rattle.cf_elab_env.specs.Holds.{Grows, IsType};
ghost use Rattle.cf_elab_shape.specs.Shapes.Holds.{IsShape};
ghost use Rattle.cf_elab_shape.specs.Shapes.Seen.{shape_seen, shaped_seen, type_of};
ghost use Rattle.cf_elab_shape.specs.Shapes.Shut as shut;

use crate::shapes::arrays::{array_of, unbounded};
use crate::shapes::functions::function_of;
use crate::shapes::pointers::{pointer_to, reference_to};
use crate::shapes::position::Position;
use crate::shapes::shape::Shape;
use crate::shapes::shaped::Shaped;
use cf_elab_env::{Env, Stop};
use cf_types::TyId;

/// The type of what is declared, made from that of the specifiers by the operators from the outside in; each is looked at as its turn comes, and
/// breaks K26 where it may not stand (8.2).
#[tactic(auto, using(crate::proofs::ShapesLaws::TypedLaws::typed_laws))]
pub fn typed(env: &mut Env, position: Position, shape: &Shape, base: TyId) -> Result<Shaped, Stop>
    requires shape_known { IsShape env.old.types (shape_seen shape.now) }
    requires base_known { IsType env.old.types base }
    ensures made { AgreesAs shaped_seen (shut.typed position (shape_seen shape.now) base env.old) result env.new }
    ensures known { IfOk result (λ s. IsType env.new.types (type_of (shaped_seen s))) }
    ensures grows { OnOk result (Grows env.old.types env.new.types) }
{
    match shape {
        Shape::Inner => Ok(Shaped::Whole(base)),
        Shape::Pointing {
            at,
            is_const,
            inside,
        } => {
            let inside = inside.get();
            let pointer = pointer_to(env, *at, *is_const, base)?;
            let shaped = typed(env, position, inside, pointer)?;
            Ok(shaped)
        }
        Shape::Referring { at, inside } => {
            let inside = inside.get();
            let reference = reference_to(env, *at, base)?;
            let shaped = typed(env, position, inside, reference)?;
            Ok(shaped)
        }
        Shape::Taking {
            at,
            parameters,
            is_const,
            inside,
        } => {
            let inside = inside.get();
            let may = may_be_const(position, inside);
            let function = function_of(env, *at, parameters.as_slice(), *is_const, may, base)?;
            let shaped = typed(env, position, inside, function)?;
            Ok(shaped)
        }
        Shape::Holding { at, bound, inside } => {
            let inside = inside.get();
            match bound {
                Some(bound) => {
                    let array = array_of(env, *at, bound, base)?;
                    let shaped = typed(env, position, inside, array)?;
                    Ok(shaped)
                }
                None => {
                    let may = may_be_unbounded(position, inside);
                    let shaped = unbounded(env, *at, may, base)?;
                    Ok(shaped)
                }
            }
        }
    }
}

/// Whether `const` may stand behind the parameters of a function that this is declared as.
fn may_be_const(position: Position, inside: &Shape) -> bool
    ensures { result ≡ (is_inner (shape_seen inside.now) && position.const_function) }
{
    inside.is_inner() && position.const_function
}

/// Whether the bound of an array that this is declared as may be left out.
fn may_be_unbounded(position: Position, inside: &Shape) -> bool
    ensures { result ≡ (is_inner (shape_seen inside.now) && position.unbounded) }
{
    inside.is_inner() && position.unbounded
}
