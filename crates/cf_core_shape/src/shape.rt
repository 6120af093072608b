ghost use Rattle.std.specs.Prelude.{◌≡◌, ◌<◌, length};
ghost use Rattle.std.specs.Option.{option_map};
ghost use Rattle.cf_core_shape.specs.Shapes as spec;

use cf_core::CoreUnit;
use cf_run_tree::{Form, Shape};
use cf_types::{Ty, TyId};

/// The form of a type that is not const: none of classes, arrays, functions and pointers to members.
fn form_of(ty: &Ty) -> Option<Form>
    ensures { result ≡ spec.form_of ty.now }
{
    match ty {
        Ty::Void => Some(Form::Void),
        Ty::Int(kind) => Some(Form::Integer(*kind)),
        Ty::Enum(number) => Some(Form::Enumeration(*number)),
        Ty::Ptr(target) => Some(Form::Pointer(*target)),
        Ty::Ref(target) => Some(Form::Reference(*target)),
        Ty::Class(_) => None,
        Ty::Array(_, _) => None,
        Ty::Fun(_) => None,
        Ty::MemData(_, _) => None,
        Ty::MemFun(_, _) => None,
        Ty::Const(_) => None,
    }
}

fn shaped(is_const: bool, form: Option<Form>) -> Option<Shape>
    ensures { result ≡ option_map (spec.shaped is_const) form }
{
    match form {
        Some(form) => Some(Shape { is_const, form }),
        None => None,
    }
}

/// The shape that the type of this number is, if it is `void` or a scalar that the trees have (3.6).
#[tactic(auto, using(crate::proofs::Shaped::shape_of_const, crate::proofs::Shaped::shape_of_other))]
pub fn shape_of(unit: &CoreUnit, id: TyId) -> Option<Shape>
    requires { id < length unit.now.types.types }
    ensures { result ≡ spec.shape_of unit.now.types.types id }
{
    match unit.ty(id) {
        Ty::Const(inside) => shaped(true, form_of(unit.ty(*inside))),
        other => shaped(false, form_of(other)),
    }
}
