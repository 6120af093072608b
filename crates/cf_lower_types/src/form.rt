//! Types by their outermost form.

ghost use Rattle.std.specs.Prelude.{◌≡◌};
ghost use Rattle.std.specs.Option.{option_map};
ghost use Rattle.cf_lower_types.specs.Bare.{bare, form_type, Named};
ghost use Rattle.cf_lower_types.specs.Forms as spec;

use crate::tables::Tables;
use cf_base::Kind;
use cf_types::{ClassId, FunId, Ty, TyId};

/// A type that has no const of its own, by its outermost form.
#[derive(Clone, Copy, Debug, PartialEq, Eq)]
pub enum Form {
    Void,
    Integer(Kind),
    /// The enumeration of this number.
    Enumeration(u32),
    Class(ClassId),
    Pointer(TyId),
    Reference(TyId),
    /// So many elements of this type.
    Array(TyId, u32),
    Function(FunId),
    /// A pointer to a data member.
    DataMember(ClassId, TyId),
    /// A pointer to a member function.
    FunctionMember(ClassId, FunId),
}

/// The type under a const.
pub(crate) fn under_const(ty: &Ty) -> Option<TyId>
    ensures { result ≡ spec.under_const ty.now }
{
    match ty {
        Ty::Const(inside) => Some(*inside),
        Ty::Void
        | Ty::Int(_)
        | Ty::Enum(_)
        | Ty::Class(_)
        | Ty::Ptr(_)
        | Ty::Ref(_)
        | Ty::Array(_, _)
        | Ty::Fun(_)
        | Ty::MemData(_, _)
        | Ty::MemFun(_, _) => None,
    }
}

/// The form of a type that is no const.
fn form_in(ty: &Ty) -> Form
    ensures { result ≡ spec.form_in ty.now }
{
    match ty {
        Ty::Void | Ty::Const(_) => Form::Void,
        Ty::Int(kind) => Form::Integer(*kind),
        Ty::Enum(number) => Form::Enumeration(*number),
        Ty::Class(class) => Form::Class(*class),
        Ty::Ptr(target) => Form::Pointer(*target),
        Ty::Ref(target) => Form::Reference(*target),
        Ty::Array(element, count) => Form::Array(*element, *count),
        Ty::Fun(function) => Form::Function(*function),
        Ty::MemData(class, member) => Form::DataMember(*class, *member),
        Ty::MemFun(class, function) => Form::FunctionMember(*class, *function),
    }
}

/// The form of the type of this number, without a const of its own. What it names is there, and stands before it in the table.
#[tactic(auto, using(crate::proofs::Forms::bare_const, crate::proofs::Forms::const_below, crate::proofs::Forms::bare_form, crate::proofs::Forms::form_named, crate::proofs::Forms::later))]
pub fn form_of(tables: &Tables<'_>, id: TyId) -> Form
    ensures is { bare tables.now id ≡ form_type tables.now result }
    ensures named { Named tables.now id result }
{
    let ty = tables.entry(id);
    match under_const(&ty) {
        Some(inside) => form_of(tables, inside),
        None => form_in(&ty),
    }
}

/// What an array holds.
#[derive(Clone, Copy, Debug, PartialEq, Eq)]
pub struct Elements {
    pub ty: TyId,
    pub count: u32,
}

/// The elements of an array.
pub fn elements_in(form: &Form) -> Option<Elements>
    ensures { option_map (λ e. (e.ty, e.count)) result ≡ spec.elements_in form.now }
{
    match form {
        Form::Array(ty, count) => Some(Elements {
            ty: *ty,
            count: *count,
        }),
        Form::Void
        | Form::Integer(_)
        | Form::Enumeration(_)
        | Form::Class(_)
        | Form::Pointer(_)
        | Form::Reference(_)
        | Form::Function(_)
        | Form::DataMember(_, _)
        | Form::FunctionMember(_, _) => None,
    }
}
