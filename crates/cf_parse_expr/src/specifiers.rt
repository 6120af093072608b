//! Specifiers that define nothing, and whole names (5.1, 7.1). Each is as long as it can be.

ghost use Rattle.std.specs.Prelude.{◌≡◌, get_or, IfOk};
ghost use Rattle.cf_syntax.specs.Specified.{storage_of, basic_of, key_of, operator_number, no_specifiers};
ghost use Rattle.cf_parse_expr.specs.Reads.{Reads, Always};
ghost use Rattle.cf_parse_expr.specs.Leaves.{a_name, some_specifiers};
ghost use Rattle.cf_parse_expr.specs.Specified as spec;

use crate::cursor::Cursor;
use crate::names::{ident_path, pointers_read, qualifiers, type_path_read};
use crate::scopes::Scopes;
use crate::stop::Stop;
use crate::words::{
    CONST, LEFT_BRACKET, LEFT_PAREN, OPERATOR, RIGHT_BRACKET, RIGHT_PAREN, SCOPE, TILDE,
};
use cf_base::{Bytes, Items, Memory};
use cf_syntax::{BasicType, ClassKey, Last, Name, Qualifiers, Specifiers, Storage, TypeSpecifier};
use std::alloc::Global;

fn storage_of(code: u16) -> Option<Storage>
    ensures { result ≡ storage_of code }
{
    match code {
        65 => Some(Storage::Auto),
        93 => Some(Storage::Register),
        98 => Some(Storage::Static),
        79 => Some(Storage::Extern),
        85 => Some(Storage::Inline),
        108 => Some(Storage::Virtual),
        82 => Some(Storage::Friend),
        105 => Some(Storage::Typedef),
        _ => None,
    }
}

/// The fundamental type that a word names, or a part of one.
pub(crate) fn basic_of(code: u16) -> Option<BasicType>
    ensures { result ≡ basic_of code }
{
    match code {
        69 => Some(BasicType::Char),
        95 => Some(BasicType::Short),
        86 => Some(BasicType::Int),
        87 => Some(BasicType::Long),
        96 => Some(BasicType::Signed),
        107 => Some(BasicType::Unsigned),
        109 => Some(BasicType::Void),
        _ => None,
    }
}

fn key_of(code: u16) -> Option<ClassKey>
    ensures { result ≡ key_of code }
{
    match code {
        70 => Some(ClassKey::Class),
        99 => Some(ClassKey::Struct),
        78 => Some(ClassKey::Enum),
        _ => None,
    }
}

/// A type's name, where no type was named yet.
#[tactic(auto, unfolding(crate::specs::Specified::named_type))]
fn named_type(
    alloc: Global,
    names: &Scopes<'_>,
    c: &mut Cursor<'_>,
    has_type: bool,
) -> Result<(TypeSpecifier, bool), Stop>
    ensures { Reads (spec.named_type names.now has_type c.old) result c.new }
{
    if has_type {
        return Err(Stop::Nothing);
    }
    let path = type_path_read(alloc, names, c)?;
    Ok((TypeSpecifier::Named(path), true))
}

/// A class key with a name behind it.
#[tactic(auto, unfolding(crate::specs::Specified::keyed_type))]
fn keyed_type(
    alloc: Global,
    names: &Scopes<'_>,
    c: &mut Cursor<'_>,
    key: ClassKey,
) -> Result<(TypeSpecifier, bool), Stop>
    ensures { Reads (spec.keyed_type names.now key c.old) result c.new }
{
    let at = c.place();
    c.skip();
    let path = ident_path(alloc, names, c)?;
    Ok((TypeSpecifier::Elaborated(at, key, path), true))
}

#[tactic(auto, unfolding(crate::specs::Specified::type_at_front))]
fn class_or_type(
    alloc: Global,
    names: &Scopes<'_>,
    c: &mut Cursor<'_>,
    has_type: bool,
) -> Result<(TypeSpecifier, bool), Stop>
    ensures { Reads (spec.type_at_front names.now has_type c.old) result c.new }
{
    match key_of(c.front()) {
        Some(key) => keyed_type(alloc, names, c, key),
        None => named_type(alloc, names, c, has_type),
    }
}

#[tactic(auto, unfolding(crate::specs::Specified::basic_at_front))]
fn any_type(
    alloc: Global,
    names: &Scopes<'_>,
    c: &mut Cursor<'_>,
    has_type: bool,
) -> Result<(TypeSpecifier, bool), Stop>
    ensures { Reads (spec.basic_at_front names.now has_type c.old) result c.new }
{
    match basic_of(c.front()) {
        Some(basic) => {
            let at = c.place();
            c.skip();
            Ok((TypeSpecifier::Basic(at, basic), true))
        }
        None => class_or_type(alloc, names, c, has_type),
    }
}

/// One specifier, and whether it names a type.
#[tactic(auto, unfolding(crate::specs::Specified::specifier_at))]
pub fn specifier(
    alloc: Global,
    names: &Scopes<'_>,
    c: &mut Cursor<'_>,
    has_type: bool,
) -> Result<(TypeSpecifier, bool), Stop>
    ensures { Reads (spec.specifier_at names.now has_type c.old) result c.new }
{
    let at = c.place();
    match storage_of(c.front()) {
        Some(storage) => {
            c.skip();
            Ok((TypeSpecifier::Storage(at, storage), false))
        }
        None => {
            if c.front() == CONST {
                c.skip();
                return Ok((TypeSpecifier::Const(at), false));
            }
            any_type(alloc, names, c, has_type)
        }
    }
}

/// The specifiers with one more.
fn put(s: Specifiers, word: TypeSpecifier, is_type: bool) -> Result<Specifiers, Memory>
    ensures { IfOk result (λ all. all ≡ spec.put s (word, is_type)) }
{
    let Specifiers { mut list, has_type } = s;
    list.push(word)?;
    Ok(Specifiers {
        list,
        has_type: is_type || has_type,
    })
}

fn more_specifiers(
    alloc: Global,
    names: &Scopes<'_>,
    c: &mut Cursor<'_>,
    first: Specifiers,
) -> Result<Specifiers, Memory>
    ensures { Always (spec.more_specifiers names.now first c.old) result c.new }
{
    let mut s = first;
    for _turn in 0..c.len() {
        let before = c.rest();
        match specifier(alloc, names, c, s.has_type) {
            Ok((word, is_type)) => s = put(s, word, is_type)?,
            Err(Stop::Nothing) => {
                c.set(before);
                return Ok(s);
            }
            Err(Stop::Memory) => return Err(Memory),
        }
    }
    Ok(s)
}

fn none_yet(alloc: Global) -> Specifiers
    ensures { result ≡ no_specifiers }
{
    Specifiers {
        list: Items::new(alloc),
        has_type: false,
    }
}

#[tactic(auto, unfolding(crate::specs::Specified::specifiers_at))]
fn specifiers_read(
    alloc: Global,
    names: &Scopes<'_>,
    c: &mut Cursor<'_>,
) -> Result<Items<TypeSpecifier>, Stop>
    ensures { Reads (spec.specifiers_at names.now c.old) result c.new }
{
    let (word, is_type) = specifier(alloc, names, c, false)?;
    let first = put(none_yet(alloc), word, is_type)?;
    let Specifiers { list, has_type: _ } = more_specifiers(alloc, names, c, first)?;
    Ok(list)
}

/// Specifiers, one at least (7.1).
pub fn specifiers(
    alloc: Global,
    names: &Scopes<'_>,
    c: &mut Cursor<'_>,
) -> Result<Items<TypeSpecifier>, Stop>
    ensures { Reads (some_specifiers names.now c.old) result c.new }
{
    specifiers_read(alloc, names, c)
}

/// The number of each operator in the table of link names, by the number of its sign; 255 for the others.
const OPERATOR_NUMBERS: [u8; 49] = [
    255, 255, 255, 255, 255, 255, 255, 27, 255, 255, 255, 255, 255, 23, 24, 255, 19, 18, 3, 4, 0,
    1, 2, 13, 14, 15, 9, 10, 22, 7, 8, 11, 12, 16, 17, 5, 6, 20, 21, 28, 29, 30, 31, 32, 35, 36,
    37, 33, 34,
];

fn operator_number(code: u16) -> u8
    ensures { result ≡ operator_number code }
{
    number_at(&OPERATOR_NUMBERS, code)
}

/// The number at an index of a table, and 255 past its end.
fn number_at(table: &[u8], index: u16) -> u8
    ensures { result ≡ get_or table.now index 255 }
{
    match table.get(usize::from(index)) {
        Some(number) => *number,
        None => 255,
    }
}

/// Two signs that stand for an operator.
#[tactic(auto, unfolding(crate::specs::Specified::pair_at))]
fn pair(c: &mut Cursor<'_>, close: u16, number: u8) -> Result<Last, Stop>
    ensures { Reads (spec.pair_at close number c.old) result c.new }
{
    c.skip();
    c.word(close)?;
    Ok(Last::Operator(number))
}

#[tactic(auto, unfolding(crate::specs::Specified::conversion_at))]
fn conversion(alloc: Global, names: &Scopes<'_>, c: &mut Cursor<'_>) -> Result<Last, Stop>
    ensures { Reads (spec.conversion_at names.now c.old) result c.new }
{
    let list = specifiers_read(alloc, names, c)?;
    let ps = pointers_read(alloc, names, c)?;
    Ok(Last::Conversion(list, ps))
}

/// What stands behind `operator`.
#[tactic(auto, unfolding(crate::specs::Specified::operator_at))]
fn operator_name(alloc: Global, names: &Scopes<'_>, c: &mut Cursor<'_>) -> Result<Last, Stop>
    ensures { Reads (spec.operator_at names.now c.old) result c.new }
{
    let front = c.front();
    if front == LEFT_PAREN {
        return pair(c, RIGHT_PAREN, 25);
    }
    if front == LEFT_BRACKET {
        return pair(c, RIGHT_BRACKET, 26);
    }
    let number = operator_number(front);
    if number == 255 {
        return conversion(alloc, names, c);
    }
    c.skip();
    Ok(Last::Operator(number))
}

#[tactic(auto, unfolding(crate::specs::Specified::destructor_at))]
fn destructor(alloc: Global, c: &mut Cursor<'_>) -> Result<Last, Stop>
    ensures { Reads (spec.destructor_at c.old) result c.new }
{
    match c.second_ident() {
        Some(name) => {
            c.skip_two();
            Ok(Last::Destructor(Bytes::from_slice(alloc, name)?))
        }
        None => Err(Stop::Nothing),
    }
}

#[tactic(auto, unfolding(crate::specs::Specified::ident_last_at))]
fn ident_last(alloc: Global, c: &mut Cursor<'_>) -> Result<Last, Stop>
    ensures { Reads (spec.ident_last_at c.old) result c.new }
{
    match c.ident() {
        Some(name) => {
            c.skip();
            Ok(Last::Ident(Bytes::from_slice(alloc, name)?))
        }
        None => Err(Stop::Nothing),
    }
}

/// The last part of a name.
#[tactic(auto, unfolding(crate::specs::Specified::last_at))]
fn last_part(alloc: Global, names: &Scopes<'_>, c: &mut Cursor<'_>) -> Result<Last, Stop>
    ensures { Reads (spec.last_at names.now c.old) result c.new }
{
    if c.front() == TILDE {
        return destructor(alloc, c);
    }
    if c.front() == OPERATOR {
        c.skip();
        return operator_name(alloc, names, c);
    }
    if c.second() == SCOPE {
        return Err(Stop::Nothing);
    }
    ident_last(alloc, c)
}

#[tactic(auto, unfolding(crate::specs::Specified::name_at))]
fn name_read(
    alloc: Global,
    names: &Scopes<'_>,
    c: &mut Cursor<'_>,
) -> Result<(Name, Items<u32>), Stop>
    ensures { Reads (spec.name_at names.now c.old) result c.new }
{
    let at = c.place();
    let q = qualifiers(alloc, names, c)?;
    let last_at = c.place();
    let last = last_part(alloc, names, c)?;
    let Qualifiers {
        from_file,
        names: scopes,
        classes,
        asked: _,
    } = q;
    Ok((
        Name {
            at,
            from_file,
            scopes,
            last_at,
            last,
        },
        classes,
    ))
}

/// A name (5.1), and the numbers of the classes that qualify it.
pub fn name(
    alloc: Global,
    names: &Scopes<'_>,
    c: &mut Cursor<'_>,
) -> Result<(Name, Items<u32>), Stop>
    ensures { Reads (a_name names.now c.old) result c.new }
{
    name_read(alloc, names, c)
}
