//! The kind of the characters that an array holds.

ghost use Rattle.std.specs.Prelude.{◌≡◌};
ghost use Rattle.cf_core.specs.FromTypes.{type_of};
ghost use Rattle.cf_core.specs.Objects as meaning;
ghost use Rattle.cf_lower_types.specs.Bare.{type_in};
ghost use Rattle.cf_lower_types.specs.Forms as spec;

use crate::form::{Form, elements_in, form_of};
use crate::place::PlaceType;
use crate::tables::Tables;
use cf_base::Kind;
use cf_types::TyId;

/// The kind of the integers of a form; of what is no integer that of char.
fn kind_in(form: &Form) -> Kind
    ensures { result ≡ spec.kind_in form.now }
{
    match form {
        Form::Integer(kind) => *kind,
        Form::Void
        | Form::Enumeration(_)
        | Form::Class(_)
        | Form::Pointer(_)
        | Form::Reference(_)
        | Form::Array(_, _)
        | Form::Function(_)
        | Form::DataMember(_, _)
        | Form::FunctionMember(_, _) => Kind::Char,
    }
}

/// The kind of the characters that an array of the type of this number holds (8.4.2).
#[tactic(auto, using(crate::proofs::KindLaws::elements_kind, crate::proofs::KindLaws::kind_at, crate::proofs::Forms::elements_below))]
pub fn character_kind(tables: &Tables<'_>, id: TyId) -> Kind
    ensures { result ≡ meaning.character_kind (type_of tables.now id) }
{
    let form = form_of(tables, id);
    match elements_in(&form) {
        Some(elements) => character_kind(tables, elements.ty),
        None => kind_in(&form),
    }
}

/// The same of the type of a place.
#[tactic(auto, using(cf_lower_layout::proofs::Characters::kind_by_bare))]
pub fn place_kind(tables: &Tables<'_>, ty: PlaceType) -> Kind
    ensures { result ≡ meaning.character_kind (type_in tables.now ty) }
{
    match ty {
        PlaceType::Of(id) => character_kind(tables, id),
        PlaceType::Void | PlaceType::Character | PlaceType::Characters(_) => Kind::Char,
    }
}
