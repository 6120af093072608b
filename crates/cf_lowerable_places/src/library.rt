//! The functions of the library.

ghost use Rattle.std.specs.Prelude.{◌≡◌};
ghost use Rattle.cf_core.specs.FromTypes.{type_of};
ghost use Rattle.cf_core.specs.Types as types;
ghost use Rattle.cf_lower_place.specs.Named as named;
ghost use Rattle.cf_lower_same.specs.Literals as literals;
ghost use Rattle.cf_lower_types.specs.Bare.{bare};
ghost use Rattle.cf_lowerable_places.specs.Library as spec;

use cf_base::Kind;
use cf_lower_types::{Form, Tables, form_of};
use cf_lowerable_types::is_integer_type;
use cf_types::{Fun, TyId};

/// The functions of the library.
#[derive(Clone, Copy, Debug, PartialEq, Eq)]
pub enum Library {
    /// Takes an int, and gives one.
    Putchar,
    /// Takes an int, and gives nothing.
    Exit,
    /// Gives an int.
    Getchar,
}

/// The function of the library of this name, if there is one.
pub fn library_named(name: &[u8]) -> Option<Library>
    ensures { result ≡ spec.library_named name.now }
{
    if name == b"putchar".as_slice() {
        Some(Library::Putchar)
    } else if name == b"exit".as_slice() {
        Some(Library::Exit)
    } else if name == b"getchar".as_slice() {
        Some(Library::Getchar)
    } else {
        None
    }
}

/// Whether so many locals are passed as the function has parameters.
pub fn takes_as_many(library: Library, arguments: &[u32]) -> bool
    ensures { result ≡ spec.as_many library arguments.now }
{
    match library {
        Library::Getchar => arguments.len() == 0,
        Library::Putchar => arguments.len() == 1,
        Library::Exit => arguments.len() == 1,
    }
}

fn is_void_form(form: &Form) -> bool
    ensures { result ≡ literals.is_void form.now }
{
    match form {
        Form::Void => true,
        _ => false,
    }
}

/// Whether the type is `void`, but for const.
#[tactic(auto, using(cf_lower_same::proofs::LiteralTypes::void_first))]
fn is_void_type(tables: &Tables<'_>, id: TyId) -> bool
    ensures { result ≡ types.type_eq types.void (bare tables.now id) }
{
    is_void_form(&form_of(tables, id))
}

/// Whether a function takes one int alone.
fn takes_int(tables: &Tables<'_>, function: &Fun) -> bool
    ensures { result ≡ spec.one_int tables.now function.now.params }
{
    match function.params.as_slice().split_first() {
        Some((first, rest)) => { rest.len() == 0 && is_integer_type(tables, Kind::Int, *first) }
        None => false,
    }
}

/// Whether a function takes and gives what the library's does.
fn is_alike(tables: &Tables<'_>, library: Library, function: &Fun) -> bool
    ensures { result ≡ spec.has_parts tables.now library function.now.params function.now.result }
{
    match library {
        Library::Putchar => {
            takes_int(tables, function) && is_integer_type(tables, Kind::Int, function.result)
        }
        Library::Exit => takes_int(tables, function) && is_void_type(tables, function.result),
        Library::Getchar => {
            function.params.len() == 0 && is_integer_type(tables, Kind::Int, function.result)
        }
    }
}

/// Whether the type is that of a function of the library, but for const.
#[tactic(auto, using(crate::proofs::LibraryLaws::alike_function, crate::proofs::LibraryLaws::other_form))]
pub fn has_library_type(tables: &Tables<'_>, library: Library, id: TyId) -> bool
    ensures { result ≡ types.type_eq (spec.type_of_library library) (bare tables.now id) }
{
    match form_of(tables, id) {
        Form::Function(function) => is_alike(tables, library, tables.fun(function)),
        Form::Void => false,
        Form::Integer(_) => false,
        Form::Enumeration(_) => false,
        Form::Class(_) => false,
        Form::Pointer(_) => false,
        Form::Reference(_) => false,
        Form::Array(_, _) => false,
        Form::DataMember(_, _) => false,
        Form::FunctionMember(_, _) => false,
    }
}

/// Whether a name may stand for a function of this type: those of the library have their types.
#[tactic(auto, using(crate::proofs::LibraryLaws::named_some, crate::proofs::LibraryLaws::named_none))]
pub fn may_be_named(tables: &Tables<'_>, name: &[u8], ty: TyId) -> bool
    ensures { result ≡ named.may_be_named name.now (type_of tables.now ty) }
{
    match library_named(name) {
        Some(library) => has_library_type(tables, library, ty),
        None => true,
    }
}
