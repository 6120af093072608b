ghost use Rattle.std.specs.Prelude.{◌≡◌, IfOk, OnOk};
ghost use Rattle.cf_elab.specs.Answer.{Made};
ghost use Rattle.cf_elab_env.specs.Holds.{Grows, IsType};
ghost use Rattle.cf_elab_shape.specs.Shapes.Seen.{shaped_seen, type_of};
ghost use Rattle.cf_elab_shape.specs.Shapes.Shut as shut;

use cf_base::Memory;
use cf_elab_env::{Env, Sort};
use cf_types::TyId;

/// The type of what is declared, or the type of an array's elements whose bound is left out (8.2.4).
#[derive(Clone, Copy, Debug, PartialEq, Eq)]
pub enum Shaped {
    Whole(TyId),
    Unbounded(TyId),
}

impl Shaped {
    /// The type, or that of the elements.
    pub fn ty(self) -> TyId
        ensures { result ≡ type_of (shaped_seen self) }
    {
        match self {
            Shaped::Whole(ty) | Shaped::Unbounded(ty) => ty,
        }
    }
}

/// The type of a parameter: an array is a pointer to its elements, and a function a pointer to it (8.2.5).
#[tactic(auto, using(crate::proofs::ShapesLaws::ObjectLaws::object_laws))]
pub fn as_object(env: &mut Env, shaped: Shaped) -> Result<TyId, Memory>
    requires { IsType env.old.types (type_of (shaped_seen shaped)) }
    ensures made { IfOk result (λ t. shut.as_object (shaped_seen shaped) env.old ≡ Made t env.new) }
    ensures known { IfOk result (λ t. IsType env.new.types t) }
    ensures grows { OnOk result (Grows env.old.types env.new.types) }
{
    match shaped {
        Shaped::Whole(ty) => {
            let object = adjusted(env, ty)?;
            Ok(object)
        }
        Shaped::Unbounded(element) => {
            let pointer = env.pointer_to(element)?;
            Ok(pointer)
        }
    }
}

/// A type as that of a parameter.
#[tactic(auto, using(crate::proofs::ShapesLaws::ObjectLaws::adjusted_laws))]
fn adjusted(env: &mut Env, ty: TyId) -> Result<TyId, Memory>
    requires { IsType env.old.types ty }
    ensures made { IfOk result (λ t. shut.adjusted ty env.old ≡ Made t env.new) }
    ensures known { IfOk result (λ t. IsType env.new.types t) }
    ensures grows { OnOk result (Grows env.old.types env.new.types) }
{
    match env.sort_of(ty) {
        Sort::Function(_) => {
            let pointer = env.pointer_to(ty)?;
            Ok(pointer)
        }
        Sort::Array(element, _) => {
            let pointer = env.pointer_to(element)?;
            Ok(pointer)
        }
        _ => Ok(ty),
    }
}
