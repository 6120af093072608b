//! Names, specifiers and pointers (5.1, 7.1, 8.2).
//!
//! Each walk gives the byte place of the first form of its part that is not built; none where all are.

ghost use Rattle.std.specs.Prelude.{◌≡◌};
ghost use Rattle.cf_elab.specs.Built as built;

use crate::built::place::first;
use cf_base::Bytes;
use cf_syntax::{ClassKey, Last, Name, Path, Pointer, Storage, TypeSpecifier};

/// Whether `::` or names of classes stand before the last part of a name.
fn is_qualified(from_file: bool, scopes: &[Bytes]) -> bool
    ensures { result ≡ built.is_qualified from_file scopes.now }
{
    match scopes {
        [] => from_file,
        [_, ..] => true,
    }
}

/// The last part of a name at this place: all but an identifier is not built.
fn last_part(at: u32, last: &Last) -> Option<u32>
    ensures { result ≡ built.of_last at last.now }
{
    match last {
        Last::Ident(_) => None,
        Last::Destructor(_) | Last::Operator(_) | Last::Conversion(_, _) => Some(at),
    }
}

/// A name (5.1): one with classes or `::` before it is not built.
pub fn name(n: &Name) -> Option<u32>
    ensures { result ≡ built.of_name n.now }
{
    if is_qualified(n.from_file, n.scopes.as_slice()) {
        Some(n.at)
    } else {
        last_part(n.at, &n.last)
    }
}

/// The names behind the first.
fn behind_first(names: &[Bytes]) -> &[Bytes]
    ensures { result.now ≡ built.behind_first names.now }
{
    match names {
        [] => names,
        [_, behind @ ..] => behind,
    }
}

/// A type's name: one with classes or `::` before it is not built.
pub fn path(p: &Path) -> Option<u32>
    ensures { result ≡ built.of_path p.now }
{
    if is_qualified(p.from_file, behind_first(p.names.as_slice())) {
        Some(p.at)
    } else {
        None
    }
}

/// A word of a declaration at this place (7.1): `virtual` and `friend` are not built.
fn storage(at: u32, word: Storage) -> Option<u32>
    ensures { result ≡ built.of_storage at word }
{
    match word {
        Storage::Virtual | Storage::Friend => Some(at),
        Storage::Auto
        | Storage::Register
        | Storage::Static
        | Storage::Extern
        | Storage::Inline
        | Storage::Typedef => None,
    }
}

/// A key at this place and a name (7.1.6): those of classes are not built.
fn elaborated(at: u32, key: ClassKey, p: &Path) -> Option<u32>
    ensures { result ≡ built.of_key at key p.now }
{
    match key {
        ClassKey::Enum => path(p),
        ClassKey::Class | ClassKey::Struct => Some(at),
    }
}

/// A specifier that defines nothing (7.1).
pub fn specifier(s: &TypeSpecifier) -> Option<u32>
    ensures { result ≡ built.of_specifier s.now }
{
    match s {
        TypeSpecifier::Storage(at, word) => storage(*at, *word),
        TypeSpecifier::Const(_) | TypeSpecifier::Basic(_, _) => None,
        TypeSpecifier::Elaborated(at, key, p) => elaborated(*at, *key, p),
        TypeSpecifier::Named(p) => path(p),
    }
}

/// Specifiers in order.
pub fn specifiers(all: &[TypeSpecifier]) -> Option<u32>
    ensures { result ≡ built.of_specifiers all.now }
{
    let mut found = None;
    for s in all {
        found = first(found, specifier(s));
    }
    found
}

/// An operator before a declarator (8.2.1 to 8.2.3): pointers to members are not built.
pub fn pointer(p: &Pointer) -> Option<u32>
    ensures { result ≡ built.of_pointer p.now }
{
    match p {
        Pointer::To(_, _) | Pointer::Reference(_) => None,
        Pointer::ToMember(at, _, _) => Some(*at),
    }
}
