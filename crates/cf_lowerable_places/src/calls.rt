//! Which calls fit.

ghost use Rattle.std.specs.Prelude.{◌≡◌, ◌&&◌, Some, IfOk};
ghost use Rattle.std.specs.Option.{option_map};
ghost use Rattle.cf_core.specs.FromTypes.{Tables as TablesOf, type_of};
ghost use Rattle.cf_core.specs.Types as types;
ghost use Rattle.cf_lower.specs.Kept.{Keeping};
ghost use Rattle.cf_lower_held.specs.Scenes.{locals_in};
ghost use Rattle.cf_lower_layout.specs.Sorts as sorts;
ghost use Rattle.cf_lower_place.specs.Calls as calls;
ghost use Rattle.cf_lower_place.specs.Named as named;
ghost use Rattle.cf_lower_types.specs.Bare.{classes_of, sort_in};
ghost use Rattle.cf_plain.specs.Plain as plain;
ghost use Rattle.cf_lowerable_places.specs.Contents.{known};
ghost use Rattle.cf_lowerable_places.specs.Fits as fits;
ghost use Rattle.cf_lowerable_places.specs.Library as spec;

use crate::content::Content;
use crate::library::{Library, has_library_type, library_named, takes_as_many};
use crate::locals::{are_passed, have_types};
use cf_base::{Kind, Memory};
use cf_lower_held::Scene;
use cf_lower_same::same_bare;
use cf_lower_types::{Scalar, Tables, parameters, result_sort};
use cf_lowerable_types::is_signature;
use cf_types::TyId;

fn is_int(kind: Kind) -> bool
    ensures { result ≡ calls.is_an_int (Some (sorts.number kind)) }
{
    match kind {
        Kind::Int => true,
        Kind::Char
        | Kind::SChar
        | Kind::UChar
        | Kind::Short
        | Kind::UShort
        | Kind::UInt
        | Kind::Long
        | Kind::ULong => false,
    }
}

/// Whether a scalar is an int.
fn is_an_int(scalar: &Option<Scalar>) -> bool
    ensures { (tables : TablesOf) → result ≡ calls.is_an_int (option_map (sort_in tables) scalar.now) }
{
    match scalar {
        Some(Scalar::Number(kind)) => is_int(*kind),
        Some(Scalar::Address(_)) => false,
        Some(Scalar::Code(_)) => false,
        None => false,
    }
}

/// Whether there is no scalar.
fn is_no_sort(scalar: &Option<Scalar>) -> bool
    ensures { (tables : TablesOf) → result ≡ calls.is_no_sort (option_map (sort_in tables) scalar.now) }
{
    match scalar {
        Some(_) => false,
        None => true,
    }
}

/// Whether functions of the type give an int.
fn gives_int(tables: &Tables<'_>, ty: TyId) -> bool
    ensures { result ≡ calls.is_an_int (sorts.sort_of (types.result (type_of tables.now ty))) }
{
    is_an_int(&result_sort(tables, ty))
}

/// Whether they give no scalar.
fn gives_nothing(tables: &Tables<'_>, ty: TyId) -> bool
    ensures { result ≡ calls.is_no_sort (sorts.sort_of (types.result (type_of tables.now ty))) }
{
    is_no_sort(&result_sort(tables, ty))
}

/// Whether functions of the type give what the library's function does.
fn gives_as(tables: &Tables<'_>, library: Library, ty: TyId) -> bool
    ensures { result ≡ spec.gives_as library (type_of tables.now ty) }
{
    match library {
        Library::Putchar => gives_int(tables, ty),
        Library::Exit => gives_nothing(tables, ty),
        Library::Getchar => gives_int(tables, ty),
    }
}

/// Whether so many locals are passed as the library's function takes, each the object of a parameter.
fn pass_as_many(x: &Scene<'_>, library: Library, arguments: &[u32]) -> bool
    ensures { result ≡ (spec.as_many library arguments.now && calls.are_passed (locals_in x.now) arguments.now) }
{
    takes_as_many(library, arguments) && are_passed(x, arguments)
}

/// Whether a call of a function of the library fits.
fn library_call(x: &Scene<'_>, library: Library, ty: TyId, arguments: &[u32]) -> bool
    ensures { result ≡ spec.library_call_fits (locals_in x.now) library (type_of x.now.tables.now ty) arguments.now }
{
    gives_as(x.tables, library, ty) && pass_as_many(x, library, arguments)
}

/// Whether a call of this type takes these locals.
#[tactic(auto, using(crate::proofs::CallLaws::taken, crate::proofs::CallLaws::not_taken))]
fn takes_locals(x: &Scene<'_>, ty: TyId, arguments: &[u32]) -> Result<bool, Memory>
    ensures { IfOk result (λ takes. takes ≡ named.takes_locals (locals_in x.now) (type_of x.now.tables.now ty) arguments.now) }
{
    if !is_signature(x.tables, ty) {
        return Ok(false);
    }
    let takes = have_types(x, arguments, parameters(x.tables, ty))?;
    Ok(takes)
}

/// Whether a call of a function of the program fits.
#[tactic(auto, using(crate::proofs::CallLaws::both_so, crate::proofs::CallLaws::first_not))]
fn own_call(x: &Scene<'_>, ty: TyId, arguments: &[u32]) -> Result<bool, Memory>
    ensures { IfOk result (λ good. good ≡ (calls.are_passed (locals_in x.now) arguments.now && named.takes_locals (locals_in x.now) (type_of x.now.tables.now ty) arguments.now)) }
{
    if !are_passed(x, arguments) {
        return Ok(false);
    }
    let takes = takes_locals(x, ty, arguments)?;
    Ok(takes)
}

/// Whether a call by name fits.
#[tactic(auto, using(crate::proofs::CallLaws::named_library, crate::proofs::CallLaws::named_own))]
fn named_call(x: &Scene<'_>, name: &[u8], ty: TyId, arguments: &[u32]) -> Result<bool, Memory>
    ensures { IfOk result (λ good. good ≡ fits.named_fits (locals_in x.now) (fits.given_in x.now) (classes_of x.now.tables.now) name.now (type_of x.now.tables.now ty) arguments.now) }
{
    match library_named(name) {
        Some(library) => Ok(library_call(x, library, ty, arguments)),
        None => {
            let good = own_call(x, ty, arguments)?;
            Ok(good)
        }
    }
}

/// Whether what a register holds is a function of this type.
fn is_code_for(tables: &Tables<'_>, ty: TyId, content: &Content) -> Result<bool, Memory>
    ensures { IfOk result (λ is. is ≡ calls.is_code_for (type_of tables.now ty) (known tables.now content.now)) }
{
    match content {
        Content::Code(own) => {
            let same = same_bare(tables, *own, ty)?;
            Ok(same)
        }
        Content::Nothing => Ok(false),
        Content::Number(_) => Ok(false),
        Content::Place(_) => Ok(false),
        Content::Argument(_, _) => Ok(false),
    }
}

/// Whether a call through a pointer takes what the library's function takes, if it may lead there.
fn may_lead(tables: &Tables<'_>, library: Library, ty: TyId, arguments: &[u32]) -> bool
    ensures { result ≡ spec.may_lead library (type_of tables.now ty) arguments.now }
{
    !has_library_type(tables, library, ty) || takes_as_many(library, arguments)
}

/// The same of each function of the library.
fn may_lead_to_each(tables: &Tables<'_>, ty: TyId, arguments: &[u32]) -> bool
    ensures { result ≡ spec.may_lead_to_each (type_of tables.now ty) arguments.now }
{
    may_lead(tables, Library::Getchar, ty, arguments)
        && (may_lead(tables, Library::Putchar, ty, arguments)
            && may_lead(tables, Library::Exit, ty, arguments))
}

/// Whether a call through what a register holds fits.
#[tactic(auto, using(crate::proofs::CallLaws::pointed_no_code))]
fn pointed_call(
    x: &Scene<'_>,
    pointer: &Content,
    ty: TyId,
    arguments: &[u32],
) -> Result<bool, Memory>
    ensures { IfOk result (λ good. good ≡ fits.pointed_fits (locals_in x.now) (fits.given_in x.now) (classes_of x.now.tables.now) (known x.now.tables.now pointer.now) (type_of x.now.tables.now ty) arguments.now) }
{
    if !is_code_for(x.tables, ty, pointer)? {
        return Ok(false);
    }
    if !own_call(x, ty, arguments)? {
        return Ok(false);
    }
    Ok(may_lead_to_each(x.tables, ty, arguments))
}

/// Whether a register may be set by a call by name, on no object and with no place for its result.
pub fn set_by_name(
    x: &Scene<'_>,
    name: &[u8],
    ty: TyId,
    object: Option<u32>,
    arguments: &[u32],
    into: Option<u32>,
) -> Result<bool, Memory>
    ensures { (h : Keeping) → IfOk result (λ good. good ≡ fits.set_fits (locals_in x.now) (fits.given_in x.now) (classes_of x.now.tables.now) h (plain.call name.now (type_of x.now.tables.now ty) object arguments.now into)) }
{
    match object {
        Some(_) => Ok(false),
        None => match into {
            Some(_) => Ok(false),
            None => {
                let good = named_call(x, name, ty, arguments)?;
                Ok(good)
            }
        },
    }
}

/// Whether it may be set by a call through what a register holds.
#[tactic(auto, using(crate::proofs::CallLaws::pointed_at))]
pub fn set_by_pointer(
    x: &Scene<'_>,
    content: &Content,
    pointer: u32,
    ty: TyId,
    object: Option<u32>,
    arguments: &[u32],
    into: Option<u32>,
) -> Result<bool, Memory>
    ensures { (h : Keeping) → known x.now.tables.now content.now ≡ h pointer → IfOk result (λ good. good ≡ fits.set_fits (locals_in x.now) (fits.given_in x.now) (classes_of x.now.tables.now) h (plain.pointer_call object pointer (type_of x.now.tables.now ty) arguments.now into)) }
{
    let _pointer = pointer;
    match object {
        Some(_) => Ok(false),
        None => match into {
            Some(_) => Ok(false),
            None => {
                let good = pointed_call(x, content, ty, arguments)?;
                Ok(good)
            }
        },
    }
}
