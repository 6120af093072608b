ghost use Rattle.cf_elab_env.specs.Answered.{Agrees};
ghost use Rattle.cf_elab_shape.specs.Shapes.Seen.{shape_seen};
ghost use Rattle.cf_elab_shape.specs.Shapes.Shut as shut;

use crate::shapes::shape::Shape;
use cf_elab_arith::broken;
use cf_elab_env::{Env, Stop, Value};

/// Each bound is a constant; else K19 at the first in the text that is none: those inside come first (8.2.4).
#[tactic(auto, using(crate::proofs::ShapesLaws::BoundLaws::bound_laws))]
pub fn check_bounds(env: &Env, shape: &Shape) -> Result<(), Stop>
    ensures { Agrees (shut.bounds_constant (shape_seen shape.now) env.now) result env.now }
{
    match shape {
        Shape::Inner => Ok(()),
        Shape::Pointing { inside, .. } => {
            check_bounds(env, inside.get())?;
            Ok(())
        }
        Shape::Referring { inside, .. } => {
            check_bounds(env, inside.get())?;
            Ok(())
        }
        Shape::Taking { inside, .. } => {
            check_bounds(env, inside.get())?;
            Ok(())
        }
        Shape::Holding { at, bound, inside } => {
            check_bounds(env, inside.get())?;
            check_bound(env, *at, bound)?;
            Ok(())
        }
    }
}

/// A bound, if there is one, is a constant; else K19.
#[tactic(auto, using(crate::proofs::ShapesLaws::BoundLaws::one_bound_laws))]
fn check_bound(env: &Env, at: u32, bound: &Option<Value>) -> Result<(), Stop>
    ensures { Agrees (shut.known_bound at bound.now env.now) result env.now }
{
    let _env = env;
    match bound {
        Some(bound) => {
            if bound.number().is_some() {
                Ok(())
            } else {
                Err(Stop::Broken(broken(19, at)))
            }
        }
        None => Ok(()),
    }
}
