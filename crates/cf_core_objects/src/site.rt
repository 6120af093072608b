ghost use Rattle.std.specs.Prelude.{◌≡◌, [], IfSome, Some, None, option_map, pos};
ghost use Rattle.cf_base.specs.Integers.{convert};
ghost use Rattle.cf_core.specs.FromTypes.{Tables};
ghost use Rattle.cf_core.specs.Objects as meaning;
ghost use Rattle.cf_core.specs.Places.{type_at};
ghost use Rattle.cf_core.specs.Store.{Number, zero_of};
ghost use Rattle.cf_core.specs.Types.{SourceType};
ghost use Rattle.cf_core_place.specs.Routes.{route_of};
ghost use Rattle.cf_core_objects.specs.Log.{value_of};
ghost use Rattle.cf_core_objects.specs.Site as sites;
ghost use Rattle.cf_core_objects.specs.Site.{IsSite, HasItems, sort_with, constant_with};
ghost use Rattle.cf_core_objects.specs.Store.{first_held, object_of, objects_of};

use crate::answer::Value;
use crate::object::{Cell, Objects, Storage};
use cf_base::Kind;
use cf_core_place::{Part, Place, bound, count, is_inside};
use cf_run_tree::{Bounds, Form, Shape};
use cf_types::convert_int;

/// What a type is, as far as objects go.
#[derive(Clone, Copy, Debug)]
pub enum Sort {
    Void,
    /// An integer type or an enumeration.
    Number,
    Pointer,
    Reference,
    /// An array of so many elements.
    Array(u32),
}

/// What is at a place, but for what it holds.
#[derive(Clone, Copy, Debug)]
pub struct Site {
    pub sort: Sort,
    /// Whether it is no end of an array, nor lies in one.
    pub is_inside: bool,
    /// Whether its object has ended.
    pub is_gone: bool,
    /// Whether its object was declared const, or is a string literal.
    pub is_constant: bool,
    /// How many elements the array has of which it is an element; an object that is none counts as the one element of an array (5.7).
    pub bound: u32,
}

/// Whether it is one of scalars (3.6.1).
pub fn is_scalar(sort: Sort) -> bool
    ensures { result ≡ sites.scalar_sort sort }
{
    match sort {
        Sort::Void => false,
        Sort::Number => true,
        Sort::Pointer => true,
        Sort::Reference => true,
        Sort::Array(_) => false,
    }
}

/// What zeroed storage holds (8.4).
pub fn zero<'a>(sort: Sort) -> Value<'a>
    ensures { value_of result ≡ sites.zero_sort sort }
{
    match sort {
        Sort::Number => Value::Number(0),
        _ => Value::Null,
    }
}

/// What a part of this sort holds where nothing was done to it.
pub fn first<'a>(cell: &Cell<'a>, part: Part, sort: Sort) -> Option<Value<'a>>
    ensures { (t : SourceType) → zero_of (type_at [] t (route_of part)) ≡ sites.zero_sort sort → first_held t cell.now.storage (route_of part) ≡ option_map value_of result }
{
    match cell.storage {
        Storage::Automatic => None,
        Storage::Permanent => Some(zero(sort)),
        Storage::Literal(bytes) => byte_at(bytes, part),
    }
}

/// The byte of a string literal at a part of its object, as a char (2.5.4).
fn byte_at<'a>(bytes: &[u8], part: Part) -> Option<Value<'a>>
    ensures { option_map value_of result ≡ meaning.byte_at bytes.now (route_of part) }
{
    match part {
        Part::Item(index) => match bytes.get(index as usize) {
            None => None,
            Some(byte) => Some(character(Kind::Char, *byte)),
        },
        _ => None,
    }
}

/// A byte as a character of this kind.
pub fn character<'a>(kind: Kind, byte: u8) -> Value<'a>
    ensures { value_of result ≡ Number (convert kind (pos byte)) }
{
    Value::Number(convert_int(i64::from(byte), kind))
}

/// What a form is.
fn sort_of(form: Form) -> Sort
    ensures { result ≡ sort_with form None }
{
    match form {
        Form::Void => Sort::Void,
        Form::Integer(_) => Sort::Number,
        Form::Enumeration(_) => Sort::Number,
        Form::Pointer(_) => Sort::Pointer,
        Form::Reference(_) => Sort::Reference,
    }
}

/// What an array of so many elements is, or a scalar where it is none.
fn sort_at(shape: Shape, count: Option<u32>) -> Sort
    ensures { result ≡ sort_with shape.form count }
{
    match count {
        Some(count) => Sort::Array(count),
        None => sort_of(shape.form),
    }
}

/// Whether what has such scalars and so many elements may not be changed.
fn is_constant(cell: &Cell<'_>, count: Option<u32>) -> bool
    ensures { result ≡ constant_with cell.now.storage cell.now.shape.is_const count }
{
    match cell.storage {
        Storage::Literal(_) => true,
        _ => match count {
            Some(_) => false,
            None => cell.shape.is_const,
        },
    }
}

/// What is at a part of an object.
pub fn site_in(cell: &Cell<'_>, part: Part) -> Site
    ensures site { (T : Tables) → IsSite (object_of T (Some cell.now)) (route_of part) result }
    ensures items { HasItems part result }
{
    let count = count(cell.bounds, part);
    Site {
        sort: sort_at(cell.shape, count),
        is_inside: is_inside(cell.bounds, part),
        is_gone: cell.is_gone,
        is_constant: is_constant(cell, count),
        bound: bound(cell.bounds, part),
    }
}

/// What is at a part of an object that was not made: such a one is void.
fn nowhere(part: Part) -> Site
    ensures site { (T : Tables) → IsSite (object_of T None) (route_of part) result }
    ensures items { HasItems part result }
{
    Site {
        sort: Sort::Void,
        is_inside: is_inside(Bounds::None, part),
        is_gone: false,
        is_constant: false,
        bound: bound(Bounds::None, part),
    }
}

/// What is at a place.
pub fn site_at(objects: &Objects<'_>, place: Place) -> Site
    ensures site { (T : Tables) → IsSite (objects_of T objects.now.cells.items place.object) (route_of place.part) result }
    ensures items { HasItems place.part result }
{
    match objects.cells.get(place.object) {
        None => nowhere(place.part),
        Some(cell) => site_in(cell, place.part),
    }
}
