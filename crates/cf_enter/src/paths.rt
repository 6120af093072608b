//! What the name of a type stands for.

ghost use Rattle.std.specs.Prelude.{◌≡◌};
ghost use Rattle.cf_syntax.specs.Named as named;
ghost use Rattle.cf_unit.specs.Enters as spec;

use cf_base::Bytes;
use cf_syntax::{Asked, NameKind, Path, TypeNames};

/// What a name stands for where it is asked.
fn kind_at(names: &TypeNames, asked: Asked, name: &[u8]) -> Option<NameKind>
    ensures { result ≡ named.kind_at names.now asked name.now }
{
    match asked {
        Asked::Scopes => names.find(name),
        Asked::File => names.find_in_file(name),
        Asked::Class(class) => names.find_in(class, name),
        Asked::Nothing => None,
    }
}

/// Where the name behind a type's name and `::` is asked.
fn inside(kind: Option<NameKind>) -> Option<Asked>
    ensures { result ≡ named.inside kind }
{
    match kind {
        Some(NameKind::Plain) => Some(Asked::Nothing),
        Some(NameKind::OfClass(class)) => Some(Asked::Class(class)),
        _ => None,
    }
}

/// What the last of these names stands for, each asked in the one before.
fn kind_from(names: &TypeNames, asked: Asked, path: &[Bytes]) -> Option<NameKind>
    ensures { result ≡ spec.path_kind_from names.now asked path.now }
{
    match path {
        [] => None,
        [name] => kind_at(names, asked, name.as_slice()),
        [name, rest @ ..] => match inside(kind_at(names, asked, name.as_slice())) {
            Some(next) => kind_from(names, next, rest),
            None => None,
        },
    }
}

/// What the last name of a path stands for.
pub fn path_kind(names: &TypeNames, path: &Path) -> Option<NameKind>
    ensures { result ≡ spec.path_kind names.now path.now }
{
    if path.from_file {
        kind_from(names, Asked::File, path.names.as_slice())
    } else {
        kind_from(names, Asked::Scopes, path.names.as_slice())
    }
}

/// A type, also where nothing is known of it.
pub fn some_type(kind: Option<NameKind>) -> NameKind
    ensures { result ≡ spec.some_type kind }
{
    match kind {
        Some(NameKind::OfClass(class)) => NameKind::OfClass(class),
        _ => NameKind::Plain,
    }
}
