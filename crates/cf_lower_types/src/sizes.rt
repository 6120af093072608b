//! The bytes of objects.

ghost use Rattle.std.specs.Prelude.{◌≡◌, ◌/◌, IfOk};
ghost use Rattle.cf_base.specs.Integers.{width};
ghost use Rattle.cf_core.specs.FromTypes.{type_of};
ghost use Rattle.cf_core.specs.Size.{size};
ghost use Rattle.cf_lower_types.specs.Bare.{classes_of, type_in};
ghost use Rattle.cf_lower_types.specs.Forms as spec;

use crate::form::{Form, elements_in, form_of};
use crate::place::PlaceType;
use crate::tables::Tables;
use cf_base::{Kind, Memory};
use cf_types::TyId;

/// The bytes of an integer (3.6.1).
fn bytes(kind: Kind) -> u64
    ensures { result ≡ width kind / 8 }
{
    match kind {
        Kind::Char | Kind::SChar | Kind::UChar => 1,
        Kind::Short | Kind::UShort => 2,
        Kind::Int | Kind::UInt | Kind::Long | Kind::ULong => 4,
    }
}

/// The bytes of an object that is no array.
fn bytes_in(form: &Form) -> u64
    ensures { result ≡ spec.bytes_in form.now }
{
    match form {
        Form::Integer(kind) => bytes(*kind),
        Form::Void | Form::Class(_) | Form::Function(_) | Form::Array(_, _) => 1,
        Form::Enumeration(_) | Form::Pointer(_) | Form::Reference(_) | Form::DataMember(_, _) => 4,
        Form::FunctionMember(_, _) => 12,
    }
}

/// The bytes of an object of the type of this number. Those of a valid unit are few; a number beyond 64 bits is answered as if memory had ended.
#[tactic(auto, using(crate::proofs::SizeLaws::array_at, crate::proofs::SizeLaws::bytes_at, crate::proofs::Forms::elements_below))]
pub fn size_of(tables: &Tables<'_>, id: TyId) -> Result<u64, Memory>
    ensures { IfOk result (λ n. n ≡ size (classes_of tables.now) (type_of tables.now id)) }
{
    let _classes = tables.classes();
    let form = form_of(tables, id);
    match elements_in(&form) {
        Some(elements) => {
            let each = size_of(tables, elements.ty)?;
            u64::from(elements.count).checked_mul(each).ok_or(Memory)
        }
        None => Ok(bytes_in(&form)),
    }
}

/// The bytes of an object of the type of a place.
#[tactic(auto, using(crate::proofs::SizeLaws::size_by_bare, crate::proofs::SizeLaws::characters_at))]
pub fn place_size(tables: &Tables<'_>, ty: PlaceType) -> Result<u64, Memory>
    ensures { IfOk result (λ n. n ≡ size (classes_of tables.now) (type_in tables.now ty)) }
{
    match ty {
        PlaceType::Of(id) => size_of(tables, id),
        PlaceType::Void | PlaceType::Character => Ok(1),
        PlaceType::Characters(count) => Ok(count),
    }
}
