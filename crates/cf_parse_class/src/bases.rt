//! Bases of a class (10).

ghost use Rattle.std.specs.Prelude.{◌≡◌, OnOk};
ghost use Rattle.cf_parse_expr.specs.Reads.{Always, Reads};
ghost use Rattle.cf_unit.specs.Members.{base_word_of};
ghost use Rattle.cf_unit.specs.Enters as enters;
ghost use Rattle.cf_parse_class.specs.Parts as spec;
ghost use Rattle.cf_parse_class.specs.Parts.{number_as, ReadsBases};
ghost use Rattle.cf_unit.specs.Read.{reading};
ghost use Rattle.cf_unit.specs.Members as rule;

use cf_base::{Items, Memory};
use cf_enter::path_kind;
use cf_parse_expr::names::type_path;
use cf_parse_expr::words::{COLON, COMMA, PRIVATE, PUBLIC, VIRTUAL};
use cf_parse_expr::{Cursor, Scopes, Stop};
use cf_syntax::{NameKind, TypeNames};
use cf_unit::{Base, BaseWord};
use std::alloc::Global;

/// Bases, as far as they were read, and the numbers of those that are defined classes.
#[derive(Drop)]
pub struct Bases {
    pub list: Items<Base>,
    pub classes: Items<u32>,
}

/// The word of a base of this number.
fn word_of(word: u16) -> Option<BaseWord>
    ensures { result ≡ base_word_of word }
{
    if word == VIRTUAL {
        return Some(BaseWord::Virtual);
    }
    if word == PUBLIC {
        return Some(BaseWord::Public);
    }
    if word == PRIVATE {
        return Some(BaseWord::Private);
    }
    None
}

/// The words before the name of a base.
#[tactic(auto, unfolding(crate::specs::Parts::base_words), using(crate::proofs::Loops::step_more, crate::proofs::Loops::step_none))]
fn base_words(alloc: Global, c: &mut Cursor<'_>) -> Result<Items<(u32, BaseWord)>, Memory>
    ensures { Always (spec.base_words c.old) result c.new }
{
    let mut all = Items::new(alloc);
    for _turn in 0..c.len() {
        match word_of(c.front()) {
            Some(word) => {
                all.push((c.place(), word))?;
                c.skip();
            }
            None => return Ok(all),
        }
    }
    Ok(all)
}

/// A base.
#[tactic(auto, unfolding(crate::specs::Parts::one_base))]
fn one_base(alloc: Global, scopes: &Scopes<'_>, c: &mut Cursor<'_>) -> Result<Base, Stop>
    ensures { Reads (spec.one_base scopes.now c.old) result c.new }
{
    let at = c.place();
    let words = base_words(alloc, c)?;
    let path = type_path(alloc, scopes, c)?;
    Ok(Base { at, words, path })
}

/// The number of a base that is defined.
fn number_of(names: &TypeNames, base: &Base) -> Option<u32>
    ensures { number_as result (enters.base_number names.now (enters.path_kind names.now base.now.path)) }
{
    match path_kind(names, &base.path) {
        Some(NameKind::OfClass(class)) => {
            if names.is_defined(class) {
                Some(class)
            } else {
                None
            }
        }
        _ => None,
    }
}

/// Adds a base.
fn add(names: &TypeNames, all: &mut Bases, base: Base) -> Result<(), Memory>
    ensures { OnOk result (all.new ≡ spec.with_base names.now all.old base) }
{
    if let Some(class) = number_of(names, &base) {
        all.classes.push(class)?;
    }
    all.list.push(base)
}

/// A comma with a base behind it.
#[tactic(auto, unfolding(crate::specs::Parts::next_base))]
fn next_base(alloc: Global, scopes: &Scopes<'_>, c: &mut Cursor<'_>) -> Result<Base, Stop>
    ensures { Reads (spec.next_base scopes.now c.old) result c.new }
{
    c.word(COMMA)?;
    one_base(alloc, scopes, c)
}

fn more_bases(
    alloc: Global,
    names: &TypeNames,
    c: &mut Cursor<'_>,
    first: Bases,
) -> Result<Bases, Memory>
    ensures { Always (spec.more_bases names.now first c.old) result c.new }
{
    let scopes = Scopes::new(alloc, names);
    let mut all = first;
    for _turn in 0..c.len() {
        let before = c.rest();
        let left = c.len();
        match next_base(alloc, &scopes, c) {
            Ok(base) => {
                if c.len() >= left {
                    c.set(before);
                    return Ok(all);
                }
                add(names, &mut all, base)?;
            }
            Err(Stop::Nothing) => {
                c.set(before);
                return Ok(all);
            }
            Err(Stop::Memory) => return Err(Memory),
        }
    }
    Ok(all)
}

#[tactic(auto, unfolding(crate::specs::Parts::some_bases))]
fn some_bases(alloc: Global, names: &TypeNames, c: &mut Cursor<'_>) -> Result<Bases, Stop>
    ensures { Reads (spec.some_bases names.now c.old) result c.new }
{
    let scopes = Scopes::new(alloc, names);
    let first = one_base(alloc, &scopes, c)?;
    let mut all = Bases {
        list: Items::new(alloc),
        classes: Items::new(alloc),
    };
    add(names, &mut all, first)?;
    Ok(more_bases(alloc, names, c, all)?)
}

#[tactic(auto, unfolding(crate::specs::Parts::bases_behind))]
fn bases_read(alloc: Global, names: &TypeNames, c: &mut Cursor<'_>) -> Result<Bases, Stop>
    ensures { Reads (spec.bases_behind names.now c.old) result c.new }
{
    if c.front() == COLON {
        c.word(COLON)?;
        return some_bases(alloc, names, c);
    }
    Ok(Bases {
        list: Items::new(alloc),
        classes: Items::new(alloc),
    })
}

/// The bases of a class behind `:`, if it comes next (10).
pub fn bases_behind(alloc: Global, names: &TypeNames, c: &mut Cursor<'_>) -> Result<Bases, Stop>
    ensures { ReadsBases (reading (rule.bases names.now) c.old) result c.new }
{
    bases_read(alloc, names, c)
}
