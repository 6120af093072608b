//! Whether two types of places are the same, of which one may be that of a literal.

ghost use Rattle.std.specs.Prelude.{◌≡◌, IfOk};
ghost use Rattle.cf_base.specs.declared.kind.Kind.TheVariants.{Char};
ghost use Rattle.cf_core.specs.Types.{array, integer, type_eq, void};
ghost use Rattle.cf_lower_types.specs.Bare.{bare, type_in};
ghost use Rattle.cf_lower_same.specs.Literals as spec;

use crate::alike::same_kinds;
use crate::same::same_bare;
use cf_base::{Kind, Memory};
use cf_lower_types::{Form, PlaceType, Tables, elements_in, form_of};
use cf_types::TyId;

/// Whether two types of places are the same.
pub fn same_places(tables: &Tables<'_>, a: &PlaceType, b: &PlaceType) -> Result<bool, Memory>
    ensures { IfOk result (λ same. same ≡ type_eq (type_in tables.now a.now) (type_in tables.now b.now)) }
{
    match a {
        PlaceType::Of(id) => same_as(tables, *id, b),
        PlaceType::Void => Ok(same_as_void(tables, b)),
        PlaceType::Character => Ok(same_as_character(tables, b)),
        PlaceType::Characters(count) => Ok(same_as_characters(tables, *count, b)),
    }
}

/// Whether a type of the file is the same as that of a place.
fn same_as(tables: &Tables<'_>, id: TyId, b: &PlaceType) -> Result<bool, Memory>
    ensures { IfOk result (λ same. same ≡ type_eq (bare tables.now id) (type_in tables.now b.now)) }
{
    match b {
        PlaceType::Of(other) => {
            let same = same_bare(tables, id, *other)?;
            Ok(same)
        }
        PlaceType::Void => Ok(is_void(tables, id)),
        PlaceType::Character => Ok(is_character(tables, id)),
        PlaceType::Characters(count) => Ok(is_characters(tables, id, *count)),
    }
}

/// Whether the type of a place is `void`.
fn same_as_void(tables: &Tables<'_>, b: &PlaceType) -> bool
    ensures { result ≡ type_eq void (type_in tables.now b.now) }
{
    match b {
        PlaceType::Of(id) => is_void(tables, *id),
        PlaceType::Void => true,
        PlaceType::Character | PlaceType::Characters(_) => false,
    }
}

/// Whether the type of a place is `char`.
fn same_as_character(tables: &Tables<'_>, b: &PlaceType) -> bool
    ensures { result ≡ type_eq (integer Char) (type_in tables.now b.now) }
{
    match b {
        PlaceType::Of(id) => is_character(tables, *id),
        PlaceType::Character => true,
        PlaceType::Void | PlaceType::Characters(_) => false,
    }
}

/// Whether the type of a place is that of so many characters.
fn same_as_characters(tables: &Tables<'_>, count: u64, b: &PlaceType) -> bool
    ensures { result ≡ type_eq (array (integer Char) count) (type_in tables.now b.now) }
{
    match b {
        PlaceType::Of(id) => is_characters(tables, *id, count),
        PlaceType::Characters(other) => count == *other,
        PlaceType::Void | PlaceType::Character => false,
    }
}

fn is_void_form(form: &Form) -> bool
    ensures { result ≡ spec.is_void form.now }
{
    match form {
        Form::Void => true,
        _ => false,
    }
}

fn is_character_form(form: &Form) -> bool
    ensures { result ≡ spec.is_character form.now }
{
    match form {
        Form::Integer(kind) => same_kinds(*kind, Kind::Char),
        _ => false,
    }
}

/// Whether a type of the file is `void`.
#[tactic(auto, using(crate::proofs::LiteralTypes::void_first, crate::proofs::LiteralTypes::void_second))]
fn is_void(tables: &Tables<'_>, id: TyId) -> bool
    ensures first { result ≡ type_eq void (bare tables.now id) }
    ensures second { result ≡ type_eq (bare tables.now id) void }
{
    is_void_form(&form_of(tables, id))
}

/// Whether a type of the file is `char`.
#[tactic(auto, using(crate::proofs::LiteralTypes::character_first, crate::proofs::LiteralTypes::character_second))]
fn is_character(tables: &Tables<'_>, id: TyId) -> bool
    ensures first { result ≡ type_eq (integer Char) (bare tables.now id) }
    ensures second { result ≡ type_eq (bare tables.now id) (integer Char) }
{
    is_character_form(&form_of(tables, id))
}

/// Whether a type of the file is that of so many characters.
#[tactic(auto, using(crate::proofs::LiteralTypes::characters_first, crate::proofs::LiteralTypes::characters_second, crate::proofs::LiteralTypes::no_array_first, crate::proofs::LiteralTypes::no_array_second))]
fn is_characters(tables: &Tables<'_>, id: TyId, count: u64) -> bool
    ensures first { result ≡ type_eq (array (integer Char) count) (bare tables.now id) }
    ensures second { result ≡ type_eq (bare tables.now id) (array (integer Char) count) }
{
    let form = form_of(tables, id);
    match elements_in(&form) {
        Some(elements) => is_character(tables, elements.ty) && u64::from(elements.count) == count,
        None => false,
    }
}
