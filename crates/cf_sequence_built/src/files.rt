ghost use Rattle.std.specs.Prelude.{◌≡◌, true};
ghost use Rattle.cf_core.specs.FromTypes.{type_of};
ghost use Rattle.std.specs.Char.{is_ascii_digit};
ghost use Rattle.std.specs.List.{list_all};
ghost use Rattle.cf_core.specs.FromUnit.{tables_of};
ghost use Rattle.cf_core.specs.Numbers.{function_known, static_known};
ghost use Rattle.cf_sequence_built.specs.Unbuilt as spec;

use crate::arms::unfit;
use crate::constants::sets_object;
use crate::statements::{is_blank, statement};
use crate::types::is_of_class;
use cf_core::{CoreFn, CoreStatic, CoreUnit, Role};

/// Whether it is a function of numbers and pointers; `main` takes nothing.
fn is_usual(unit: &CoreUnit, f: &CoreFn) -> bool
    requires { function_known (tables_of unit.now) f.now ≡ true }
    ensures { result ≡ spec.is_usual (tables_of unit.now) f.now }
{
    matches!(f.role, Role::Plain)
        && (f.name.as_slice() != b"__main".as_slice() || f.params.len() == 0)
        && !is_of_class(unit, f.result)
}

/// The place of the first construct of a function that is not built.
fn in_function(unit: &CoreUnit, f: &CoreFn) -> Option<u32>
    requires { function_known (tables_of unit.now) f.now ≡ true }
    ensures { result ≡ spec.in_function (tables_of unit.now) f.now }
{
    if is_usual(unit, f) {
        let count = f.params.as_slice().len() as u64 + f.locals.as_slice().len() as u64;
        statement(unit, f.params.len() as u64, &f.body).or(unfit(unit, count, &f.body))
    } else {
        Some(f.body.at())
    }
}

/// The same of the functions in order.
fn in_functions(unit: &CoreUnit) -> Option<u32>
    ensures { result ≡ spec.in_functions (tables_of unit.now) unit.now.functions }
{
    for f in unit.functions() {
        let found = in_function(unit, f);
        if found.is_some() {
            return found;
        }
    }
    None
}

/// Whether these are decimal digits.
fn are_digits(bytes: &[u8]) -> bool
    ensures { result ≡ list_all is_ascii_digit bytes.now }
{
    bytes.iter().all(|byte| byte.is_ascii_digit())
}

/// Whether these are decimal digits, one at least.
fn is_numeral(bytes: &[u8]) -> bool
    ensures { result ≡ spec.is_numeral bytes.now }
{
    !bytes.is_empty() && are_digits(bytes)
}

/// Whether a name is `__u` and a number.
fn is_mark(name: &[u8]) -> bool
    ensures { result ≡ spec.is_mark name.now }
{
    match name {
        [_, _, _, rest @ ..] => name.starts_with(b"__u") && is_numeral(rest),
        _ => false,
    }
}

/// Whether a name ends so, which joining puts behind a name that is local to its file.
fn has_mark(name: &[u8]) -> bool
    ensures { result ≡ spec.has_mark name.now }
{
    match name {
        [] => false,
        [_, rest @ ..] => is_mark(name) || has_mark(rest),
    }
}

/// Whether it is a static object with a constant initialiser.
fn is_usual_object(unit: &CoreUnit, x: &CoreStatic) -> bool
    requires known { static_known (tables_of unit.now) x.now ≡ true }
    requires named { spec.type_named (tables_of unit.now) unit.now.statics x.now.name ≡ type_of (tables_of unit.now) x.now.ty }
    ensures { result ≡ spec.is_usual_object (tables_of unit.now) unit.now.statics x.now }
{
    x.is_constant
        && (is_blank(&x.start) || sets_object(unit, x.ty, &x.start))
        && !has_mark(x.name.as_slice())
}

/// The place of the initialiser of a static object that is not built.
fn in_static(unit: &CoreUnit, x: &CoreStatic) -> Option<u32>
    requires known { static_known (tables_of unit.now) x.now ≡ true }
    requires named { spec.type_named (tables_of unit.now) unit.now.statics x.now.name ≡ type_of (tables_of unit.now) x.now.ty }
    ensures { result ≡ spec.in_static (tables_of unit.now) unit.now.statics x.now }
{
    if is_usual_object(unit, x) {
        None
    } else {
        Some(x.start.at())
    }
}

/// The same of the static objects in order.
fn in_statics(unit: &CoreUnit) -> Option<u32>
    ensures { result ≡ spec.in_statics (tables_of unit.now) unit.now.statics unit.now.statics }
{
    let _valid = unit.functions();
    for x in unit.statics() {
        let found = in_static(unit, x);
        if found.is_some() {
            return found;
        }
    }
    None
}

/// The byte place of the first construct of a file that is not built so far; none where all are. Where the file defines a class it is 0.
pub fn unbuilt(unit: &CoreUnit) -> Option<u32>
    ensures { result ≡ spec.in_file unit.now }
{
    if unit.classes().count() == 0 {
        in_statics(unit).or(in_functions(unit))
    } else {
        Some(0)
    }
}
