//! Types by what stands outermost in them, behind const.

ghost use Rattle.std.specs.Prelude.{◌≡◌};
ghost use Rattle.cf_core.specs.FromTypes.{type_of};
ghost use Rattle.cf_lower_types.specs.Forms as forms;
ghost use Rattle.cf_lowerable_ready.specs.Types as spec;

use cf_lower_types::{Form, Tables};
use cf_types::{Ty, TyId};

/// The type under a const.
pub fn under_const(ty: &Ty) -> Option<TyId>
    ensures { result ≡ forms.under_const ty.now }
{
    match ty {
        Ty::Const(inside) => Some(*inside),
        Ty::Void
        | Ty::Int(_)
        | Ty::Enum(_)
        | Ty::Class(_)
        | Ty::Ptr(_)
        | Ty::Ref(_)
        | Ty::Array(_, _)
        | Ty::Fun(_)
        | Ty::MemData(_, _)
        | Ty::MemFun(_, _) => None,
    }
}

/// The form of a type that is no const.
fn form_in(ty: &Ty) -> Form
    ensures { result ≡ forms.form_in ty.now }
{
    match ty {
        Ty::Void | Ty::Const(_) => Form::Void,
        Ty::Int(kind) => Form::Integer(*kind),
        Ty::Enum(number) => Form::Enumeration(*number),
        Ty::Class(class) => Form::Class(*class),
        Ty::Ptr(target) => Form::Pointer(*target),
        Ty::Ref(target) => Form::Reference(*target),
        Ty::Array(element, count) => Form::Array(*element, *count),
        Ty::Fun(function) => Form::Function(*function),
        Ty::MemData(class, member) => Form::DataMember(*class, *member),
        Ty::MemFun(class, function) => Form::FunctionMember(*class, *function),
    }
}

/// A type that is no const, by its number and its form.
#[derive(Clone, Copy)]
pub struct Bare {
    pub id: TyId,
    pub form: Form,
}

/// The type of this number without const of its own.
#[tactic(auto, using(crate::proofs::InnerTypes::inside, crate::proofs::InnerTypes::itself, crate::proofs::InnerTypes::its_form, crate::proofs::InnerTypes::function_there, cf_lower_types::proofs::Forms::const_below))]
pub fn inner(tables: &Tables<'_>, id: TyId) -> Bare
    ensures same { type_of tables.now result.id ≡ spec.stripped (type_of tables.now id) }
    ensures form { type_of tables.now result.id ≡ spec.outer_type tables.now result.form }
    ensures known { spec.IsKnown tables.now result.form }
{
    let ty = tables.entry(id);
    match under_const(&ty) {
        Some(inside) => inner(tables, inside),
        None => Bare {
            id,
            form: form_in(&ty),
        },
    }
}
