//! Classes that are named and defined (9.1, 11.4).

ghost use Rattle.std.specs.Prelude.{◌≡◌, length};
ghost use Rattle.std.specs.Option.{option_copied};
ghost use Rattle.cf_syntax.specs.Names.{find_here};
ghost use Rattle.cf_syntax.specs.Entered.{find_type};
ghost use Rattle.cf_unit.specs.Enters as spec;
ghost use Rattle.cf_enter.specs.Names.{both};

use crate::paths::{path_kind, some_type};
use cf_base::{Bytes, Memory};
use cf_syntax::{ClassKey, NameKind, Path, TypeNames};

/// A new class with this name in the last of so many open scopes.
fn new_class_at(names: &mut TypeNames, count: usize, name: &[u8]) -> Result<u32, Memory>
    ensures { both result names.new (length names.old.classes) (spec.new_class_at count names.old name.now) }
{
    let class = names.new_class()?;
    names.declare_in(count, name, NameKind::OfClass(class))?;
    Ok(class)
}

/// The class of this name, which is entered where it is not found.
pub fn named_class(names: &mut TypeNames, is_friend: bool, name: &[u8]) -> Result<NameKind, Memory>
    ensures { both result names.new (spec.named_class is_friend names.old name.now (find_type names.old name.now)).0 (spec.named_class is_friend names.old name.now (find_type names.old name.now)).1 }
{
    if let Some(kind) = names.find_type(name) {
        return Ok(some_type(Some(kind)));
    }
    let count = if is_friend {
        names.outside_classes()
    } else {
        names.open_scopes()
    };
    let class = new_class_at(names, count, name)?;
    Ok(NameKind::OfClass(class))
}

/// The only name of a path, if it is one name alone.
fn one_name(path: &Path) -> Option<&[u8]>
    ensures { option_copied result ≡ spec.one_name path.now }
{
    if path.from_file {
        return None;
    }
    match path.names.as_slice() {
        [name] => Some(name.as_slice()),
        _ => None,
    }
}

/// The class of this path, which is entered where it is one name that is not found.
fn keyed_class(names: &mut TypeNames, is_friend: bool, path: &Path) -> Result<NameKind, Memory>
    ensures { both result names.new (spec.keyed_class is_friend names.old path.now (spec.one_name path.now)).0 (spec.keyed_class is_friend names.old path.now (spec.one_name path.now)).1 }
{
    match one_name(path) {
        Some(name) => named_class(names, is_friend, name),
        None => Ok(some_type(path_kind(names, path))),
    }
}

/// What stands behind `class`, `struct` or `enum` (7.1.6).
pub fn keyed(
    names: &mut TypeNames,
    key: ClassKey,
    is_friend: bool,
    path: &Path,
) -> Result<NameKind, Memory>
    ensures { both result names.new (spec.keyed key is_friend names.old path.now).0 (spec.keyed key is_friend names.old path.now).1 }
{
    match key {
        ClassKey::Enum => Ok(NameKind::Plain),
        ClassKey::Class => keyed_class(names, is_friend, path),
        ClassKey::Struct => keyed_class(names, is_friend, path),
    }
}

/// A new class with this name in the innermost scope.
fn new_class_here(names: &mut TypeNames, name: &[u8]) -> Result<u32, Memory>
    ensures { both result names.new (length names.old.classes) (spec.new_class_at (length names.old.inner) names.old name.now) }
{
    let count = names.open_scopes();
    new_class_at(names, count, name)
}

/// The class that a definition with this name defines (9.1).
fn class_named(names: &mut TypeNames, name: &[u8]) -> Result<u32, Memory>
    ensures { both result names.new (spec.class_found names.old name.now (find_here names.old name.now)).0 (spec.class_found names.old name.now (find_here names.old name.now)).1 }
{
    match names.find_here(name) {
        Some(NameKind::OfClass(class)) => {
            if names.is_defined(class) {
                new_class_here(names, name)
            } else {
                Ok(class)
            }
        }
        Some(NameKind::Plain) => new_class_here(names, name),
        Some(NameKind::Value) => new_class_here(names, name),
        None => new_class_here(names, name),
    }
}

/// The class that a definition with this name, or with none, defines (9.1).
pub fn class_to_define(names: &mut TypeNames, name: &Option<(u32, Bytes)>) -> Result<u32, Memory>
    ensures { both result names.new (spec.class_to_define names.old name.now).0 (spec.class_to_define names.old name.now).1 }
{
    match name {
        Some((_, bytes)) => class_named(names, bytes.as_slice()),
        None => names.new_class(),
    }
}
