//! What scalars are in the small C.

ghost use Rattle.std.specs.Prelude.{◌≡◌};
ghost use Rattle.std.specs.Option.{option_map};
ghost use Rattle.cf_core.specs.FromTypes.{type_of};
ghost use Rattle.cf_core.specs.Places as places;
ghost use Rattle.cf_lower_layout.specs.Sorts as sorts;
ghost use Rattle.cf_lower_types.specs.Bare.{bare, form_type, sort_in};
ghost use Rattle.cf_lower_types.specs.Forms as spec;

use crate::form::{Form, form_of};
use crate::place::PlaceType;
use crate::tables::Tables;
use cf_base::Kind;
use cf_types::TyId;

/// What a scalar is.
#[derive(Clone, Copy, Debug, PartialEq, Eq)]
pub enum Scalar {
    Number(Kind),
    /// The address of a place of this type.
    Address(PlaceType),
    /// A function of this type.
    Code(TyId),
}

fn is_function_form(form: Form) -> bool
    ensures { result ≡ spec.is_function_form form }
{
    match form {
        Form::Function(_) => true,
        Form::Void
        | Form::Integer(_)
        | Form::Enumeration(_)
        | Form::Class(_)
        | Form::Pointer(_)
        | Form::Reference(_)
        | Form::Array(_, _)
        | Form::DataMember(_, _)
        | Form::FunctionMember(_, _) => false,
    }
}

/// What a pointer or a reference to the type of this number is.
#[tactic(auto, using(crate::proofs::Scalars::code_at, crate::proofs::Scalars::address_at))]
pub fn sort_to(tables: &Tables<'_>, id: TyId) -> Scalar
    ensures { sort_in tables.now result ≡ sorts.sort_to (bare tables.now id) }
{
    if is_function_form(form_of(tables, id)) {
        Scalar::Code(id)
    } else {
        Scalar::Address(PlaceType::Of(id))
    }
}

/// What a scalar of a type of this form is; none where its objects are none.
#[tactic(auto, using(crate::proofs::Scalars::function_is_no_scalar))]
fn form_sort(tables: &Tables<'_>, form: Form) -> Option<Scalar>
    ensures { option_map (sort_in tables.now) result ≡ sorts.scalar_sort (form_type tables.now form) }
{
    match form {
        Form::Integer(kind) => Some(Scalar::Number(kind)),
        Form::Enumeration(_) => Some(Scalar::Number(Kind::Int)),
        Form::Pointer(target) | Form::Reference(target) => Some(sort_to(tables, target)),
        Form::Void
        | Form::Class(_)
        | Form::Array(_, _)
        | Form::Function(_)
        | Form::DataMember(_, _)
        | Form::FunctionMember(_, _) => None,
    }
}

/// What a scalar of the type of this number is; none where its objects are none.
#[tactic(auto, using(crate::proofs::Scalars::sort_at))]
pub fn sort_of(tables: &Tables<'_>, id: TyId) -> Option<Scalar>
    ensures { option_map (sort_in tables.now) result ≡ sorts.sort_of (type_of tables.now id) }
{
    form_sort(tables, form_of(tables, id))
}

fn is_scalar_form(form: Form) -> bool
    ensures { result ≡ spec.is_scalar_form form }
{
    match form {
        Form::Integer(_)
        | Form::Enumeration(_)
        | Form::Pointer(_)
        | Form::Reference(_)
        | Form::DataMember(_, _)
        | Form::FunctionMember(_, _) => true,
        Form::Void | Form::Class(_) | Form::Array(_, _) | Form::Function(_) => false,
    }
}

/// Whether objects of this type are scalars (3.6.1).
#[tactic(auto, using(crate::proofs::Scalars::scalar_at))]
pub fn is_scalar(tables: &Tables<'_>, id: TyId) -> bool
    ensures { result ≡ places.is_scalar (type_of tables.now id) }
{
    is_scalar_form(form_of(tables, id))
}
