//! Types' names and the operators of declarators (5.1, 7.1.6, 8.2). Each is as long as it can be.

ghost use Rattle.std.specs.Prelude.{◌≡◌, ◌++◌, length, IfOk, OnOk, Some};
ghost use Rattle.std.specs.Option.{option_map};
ghost use Rattle.cf_syntax.specs.Named.{inside, kind_at, grown, unqualified, path_of, class_of, no_names};
ghost use Rattle.cf_parse_expr.specs.Reads.{Reads, Always};
ghost use Rattle.cf_parse_expr.specs.Leaves.{a_type_path, a_pointer, all_pointers};
ghost use Rattle.cf_parse_expr.specs.Named as spec;

use crate::cursor::Cursor;
use crate::scopes::Scopes;
use crate::stop::Stop;
use crate::words::{AMPERSAND, CONST, SCOPE, STAR};
use cf_base::{Bytes, Items, Memory};
use cf_syntax::{Asked, NameKind, Path, Pointer, Qualifiers};
use std::alloc::Global;

fn kind_at(names: &Scopes<'_>, asked: Asked, name: &[u8]) -> Option<NameKind>
    ensures { result ≡ kind_at names.now asked name.now }
{
    match asked {
        Asked::Scopes => names.find(name),
        Asked::File => names.find_in_file(name),
        Asked::Class(class) => names.find_in(class, name),
        Asked::Nothing => None,
    }
}

/// What is asked behind a type's name.
fn inside(kind: Option<NameKind>) -> Option<Asked>
    ensures { result ≡ inside kind }
{
    match kind {
        Some(NameKind::OfClass(class)) => Some(Asked::Class(class)),
        Some(NameKind::Plain) => Some(Asked::Nothing),
        Some(NameKind::Value) | None => None,
    }
}

/// The identifier that comes next, if it is a type's name, and what is asked behind it.
#[tactic(auto, unfolding(crate::specs::Named::typed))]
fn typed<'a>(names: &Scopes<'_>, asked: Asked, c: &Cursor<'a>) -> Option<(&'a [u8], Asked)>
    ensures { option_map (λ p. (p.0.now, p.1)) result ≡ spec.typed names.now asked c.now }
{
    match c.ident() {
        Some(name) => match inside(kind_at(names, asked, name)) {
            Some(next) => Some((name, next)),
            None => None,
        },
        None => None,
    }
}

/// The same where `::` stands behind it.
#[tactic(auto, unfolding(crate::specs::Named::ahead))]
fn ahead<'a>(names: &Scopes<'_>, asked: Asked, c: &Cursor<'a>) -> Option<(&'a [u8], Asked)>
    ensures { option_map (λ p. (p.0.now, p.1)) result ≡ spec.ahead names.now asked c.now }
{
    if c.second() == SCOPE {
        typed(names, asked, c)
    } else {
        None
    }
}

/// The same where an identifier stands behind both.
#[tactic(auto, unfolding(crate::specs::Named::ahead_of_ident))]
fn ahead_of_ident<'a>(names: &Scopes<'_>, asked: Asked, c: &Cursor<'a>) -> Option<(&'a [u8], Asked)>
    ensures { option_map (λ p. (p.0.now, p.1)) result ≡ spec.ahead_of_ident names.now asked c.now }
{
    if c.third_is_ident() {
        ahead(names, asked, c)
    } else {
        None
    }
}

/// Adds the number of the class whose scope is asked, if one is.
fn add_class(classes: &mut Items<u32>, next: Asked) -> Result<(), Memory>
    ensures { OnOk result (classes.new ≡ classes.old ++ class_of next) }
{
    match next {
        Asked::Class(class) => classes.push(class),
        Asked::Scopes | Asked::File | Asked::Nothing => Ok(()),
    }
}

/// Adds a qualifier.
fn grow(alloc: Global, q: &mut Qualifiers, name: &[u8], next: Asked) -> Result<(), Memory>
    ensures { OnOk result (q.new ≡ grown q.old name.now next) }
{
    q.names.push(Bytes::from_slice(alloc, name)?)?;
    add_class(&mut q.classes, next)?;
    q.asked = next;
    Ok(())
}

fn more_qualifiers(
    alloc: Global,
    names: &Scopes<'_>,
    c: &mut Cursor<'_>,
    mut q: Qualifiers,
) -> Result<Qualifiers, Memory>
    ensures { Always (spec.more_qualifiers names.now q c.old) result c.new }
{
    for _turn in 0..c.len() {
        match ahead(names, q.asked, c) {
            Some((name, next)) => {
                grow(alloc, &mut q, name, next)?;
                c.skip_two();
            }
            None => return Ok(q),
        }
    }
    Ok(q)
}

fn more_before_ident(
    alloc: Global,
    names: &Scopes<'_>,
    c: &mut Cursor<'_>,
    mut q: Qualifiers,
) -> Result<Qualifiers, Memory>
    ensures { Always (spec.more_before_ident names.now q c.old) result c.new }
{
    for _turn in 0..c.len() {
        match ahead_of_ident(names, q.asked, c) {
            Some((name, next)) => {
                grow(alloc, &mut q, name, next)?;
                c.skip_two();
            }
            None => return Ok(q),
        }
    }
    Ok(q)
}

fn unqualified(alloc: Global, from_file: bool) -> Qualifiers
    ensures { result ≡ unqualified from_file }
{
    Qualifiers {
        from_file,
        names: Items::new(alloc),
        classes: Items::new(alloc),
        asked: if from_file {
            Asked::File
        } else {
            Asked::Scopes
        },
    }
}

/// The classes that qualify a name, with the `::` before them.
#[tactic(auto, unfolding(crate::specs::Named::qualifiers_at))]
pub(crate) fn qualifiers(
    alloc: Global,
    names: &Scopes<'_>,
    c: &mut Cursor<'_>,
) -> Result<Qualifiers, Memory>
    ensures { Always (spec.qualifiers_at names.now c.old) result c.new }
{
    if c.front() == SCOPE {
        c.skip();
        more_qualifiers(alloc, names, c, unqualified(alloc, true))
    } else {
        more_qualifiers(alloc, names, c, unqualified(alloc, false))
    }
}

fn path_of(alloc: Global, at: u32, q: Qualifiers, name: &[u8]) -> Result<Path, Memory>
    ensures { IfOk result (λ path. path ≡ path_of at q name.now) }
{
    let Qualifiers {
        from_file,
        mut names,
        classes: _,
        asked: _,
    } = q;
    names.push(Bytes::from_slice(alloc, name)?)?;
    Ok(Path {
        at,
        from_file,
        names,
    })
}

/// A type's name with its qualifiers.
#[tactic(auto, unfolding(crate::specs::Named::path_at))]
pub(crate) fn type_path_read(
    alloc: Global,
    names: &Scopes<'_>,
    c: &mut Cursor<'_>,
) -> Result<Path, Stop>
    ensures { Reads (spec.path_at names.now c.old) result c.new }
{
    let at = c.place();
    let q = qualifiers(alloc, names, c)?;
    match typed(names, q.asked, c) {
        Some((name, _)) => {
            c.skip();
            Ok(path_of(alloc, at, q, name)?)
        }
        None => Err(Stop::Nothing),
    }
}

#[tactic(auto, unfolding(crate::specs::Named::ident_path_from))]
fn ident_path_from(
    alloc: Global,
    names: &Scopes<'_>,
    c: &mut Cursor<'_>,
    at: u32,
    from_file: bool,
) -> Result<Path, Stop>
    ensures { Reads (spec.ident_path_from names.now at from_file c.old) result c.new }
{
    let q = more_before_ident(alloc, names, c, unqualified(alloc, from_file))?;
    match c.ident() {
        Some(name) => {
            c.skip();
            Ok(path_of(alloc, at, q, name)?)
        }
        None => Err(Stop::Nothing),
    }
}

/// An identifier with its qualifiers.
#[tactic(auto, unfolding(crate::specs::Named::ident_path_at))]
pub fn ident_path(alloc: Global, names: &Scopes<'_>, c: &mut Cursor<'_>) -> Result<Path, Stop>
    ensures { Reads (spec.ident_path_at names.now c.old) result c.new }
{
    let at = c.place();
    if c.front() == SCOPE {
        c.skip();
        ident_path_from(alloc, names, c, at, true)
    } else {
        ident_path_from(alloc, names, c, at, false)
    }
}

/// Whether `const` comes next; it goes past it.
#[tactic(auto, unfolding(crate::specs::Named::const_at))]
pub fn const_behind(c: &mut Cursor<'_>) -> bool
    ensures { spec.const_at c.old ≡ Some (result, c.new) }
{
    if c.front() == CONST {
        c.skip();
        true
    } else {
        false
    }
}

#[tactic(auto, unfolding(crate::specs::Named::to_member_at))]
fn to_member(alloc: Global, names: &Scopes<'_>, c: &mut Cursor<'_>) -> Result<Pointer, Stop>
    ensures { Reads (spec.to_member_at names.now c.old) result c.new }
{
    let at = c.place();
    let q = qualifiers(alloc, names, c)?;
    if has_none(&q.names) {
        return Err(Stop::Nothing);
    }
    c.word(STAR)?;
    let is_const = const_behind(c);
    let Qualifiers {
        from_file,
        names: path,
        classes: _,
        asked: _,
    } = q;
    Ok(Pointer::ToMember(
        at,
        Path {
            at,
            from_file,
            names: path,
        },
        is_const,
    ))
}

fn has_none(names: &Items<Bytes>) -> bool
    ensures { result ≡ no_names names.now }
{
    match names.as_slice() {
        [] => true,
        [_, ..] => false,
    }
}

/// An operator of a declarator: `*`, `&` or `A::*`.
#[tactic(auto, unfolding(crate::specs::Named::pointer_at))]
fn pointer_read(alloc: Global, names: &Scopes<'_>, c: &mut Cursor<'_>) -> Result<Pointer, Stop>
    ensures { Reads (spec.pointer_at names.now c.old) result c.new }
{
    let at = c.place();
    if c.front() == STAR {
        c.skip();
        let is_const = const_behind(c);
        Ok(Pointer::To(at, is_const))
    } else if c.front() == AMPERSAND {
        c.skip();
        Ok(Pointer::Reference(at))
    } else {
        to_member(alloc, names, c)
    }
}

/// The operators of a declarator, as many as there are.
#[tactic(auto, unfolding(crate::specs::Named::pointers_at))]
pub(crate) fn pointers_read(
    alloc: Global,
    names: &Scopes<'_>,
    c: &mut Cursor<'_>,
) -> Result<Items<Pointer>, Memory>
    ensures { Always (spec.pointers_at names.now c.old) result c.new }
{
    let mut all = Items::new(alloc);
    for _turn in 0..c.len() {
        let before = c.rest();
        match pointer_read(alloc, names, c) {
            Ok(p) => all.push(p)?,
            Err(Stop::Nothing) => {
                c.set(before);
                return Ok(all);
            }
            Err(Stop::Memory) => return Err(Memory),
        }
    }
    Ok(all)
}

/// A type's name with its qualifiers (7.1.6).
pub fn type_path(alloc: Global, names: &Scopes<'_>, c: &mut Cursor<'_>) -> Result<Path, Stop>
    ensures { Reads (a_type_path names.now c.old) result c.new }
{
    type_path_read(alloc, names, c)
}

/// An operator of a declarator: `*`, `&` or `A::*` (8.2.1 to 8.2.3).
pub fn one_pointer(alloc: Global, names: &Scopes<'_>, c: &mut Cursor<'_>) -> Result<Pointer, Stop>
    ensures { Reads (a_pointer names.now c.old) result c.new }
{
    pointer_read(alloc, names, c)
}

/// The operators of a declarator, as many as there are.
pub fn pointers(
    alloc: Global,
    names: &Scopes<'_>,
    c: &mut Cursor<'_>,
) -> Result<Items<Pointer>, Memory>
    ensures { Always (all_pointers names.now c.old) result c.new }
{
    pointers_read(alloc, names, c)
}
