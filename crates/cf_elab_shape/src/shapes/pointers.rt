ghost use Rattle.std.specs.Prelude.{◌≡◌, IfOk, OnOk, true};
ghost use Rattle.cf_elab_env.specs.Answered.{Agrees};
ghost use Rattle.cf_elab_env.specs.Holds.{Grows, IsType};
ghost use Rattle.cf_elab_shape.specs.Shapes.Seen.{is_built, pointed_shape, shape_seen};
ghost use Rattle.cf_elab_shape.specs.Shapes.Shut as shut;

use crate::shapes::forms::{check_form, has_pointers, has_references};
use crate::shapes::shape::Shape;
use cf_base::{Boxed, Memory};
use cf_elab_env::{Env, Stop};
use cf_syntax::Pointer;
use cf_types::TyId;
use std::alloc::Global;

/// A declarator behind an operator before its name (8.2.1, 8.2.2). Pointers to members are not built.
pub fn pointed(alloc: Global, pointer: &Pointer, inside: Shape) -> Result<Shape, Memory>
    requires { is_built pointer.now ≡ true }
    ensures { IfOk result (λ s. shape_seen s ≡ pointed_shape pointer.now (shape_seen inside)) }
{
    match pointer {
        Pointer::To(at, is_const) => {
            let inside = Boxed::new(alloc, inside)?;
            Ok(Shape::Pointing {
                at: *at,
                is_const: *is_const,
                inside,
            })
        }
        Pointer::Reference(at) => {
            let inside = Boxed::new(alloc, inside)?;
            Ok(Shape::Referring { at: *at, inside })
        }
        Pointer::ToMember(_, _, _) => Ok(inside),
    }
}

/// The type of a pointer, const or not, to the type; of a reference K26 (8.2.1).
#[tactic(auto, using(crate::proofs::ShapesLaws::StepLaws::pointing_laws))]
pub(crate) fn pointer_to(env: &mut Env, at: u32, is_const: bool, to: TyId) -> Result<TyId, Stop>
    requires { IsType env.old.types to }
    ensures made { Agrees (shut.pointing at is_const to env.old) result env.new }
    ensures known { IfOk result (λ t. IsType env.new.types t) }
    ensures grows { OnOk result (Grows env.old.types env.new.types) }
{
    check_form(env, has_pointers(env, to), at)?;
    let pointer = env.pointer_to(to)?;
    let ty = env.const_if(is_const, pointer)?;
    Ok(ty)
}

/// The type of a reference to the type; of a reference or of void K26 (8.2.2).
#[tactic(auto, using(crate::proofs::ShapesLaws::StepLaws::referring_laws))]
pub(crate) fn reference_to(env: &mut Env, at: u32, to: TyId) -> Result<TyId, Stop>
    requires { IsType env.old.types to }
    ensures made { Agrees (shut.referring at to env.old) result env.new }
    ensures known { IfOk result (λ t. IsType env.new.types t) }
    ensures grows { OnOk result (Grows env.old.types env.new.types) }
{
    check_form(env, has_references(env, to), at)?;
    let reference = env.reference_to(to)?;
    Ok(reference)
}
