//! Classes up to their `{` (9, 10).

ghost use Rattle.std.specs.Prelude.{◌≡◌, IfOk, OnOk};
ghost use Rattle.cf_parse_class.specs.Parts.{ReadsBases};
ghost use Rattle.cf_parse_decl.specs.Reads.{Gives};
ghost use Rattle.cf_parse_expr.specs.Reads.{Reads};
ghost use Rattle.cf_parse_member.specs.Heads as spec;

use cf_base::{Bytes, Items, Memory};
use cf_enter::class_to_define;
use cf_parse_class::{Bases, bases_behind, class_key, maybe_identifier};
use cf_parse_decl::Known;
use cf_parse_expr::words::LEFT_BRACE;
use cf_parse_expr::{Cursor, Stop};
use cf_syntax::{ClassKey, TypeNames};
use cf_unit::Base;
use std::alloc::Global;

/// A class up to its `{`.
#[derive(Drop)]
pub struct Head {
    /// The place of the key.
    pub at: u32,
    pub key: ClassKey,
    /// The place of the name, and the name.
    pub name: Option<(u32, Bytes)>,
    pub bases: Items<Base>,
    /// The number of the class that is defined.
    pub class: u32,
}

/// The name without its place.
fn name_of(alloc: Global, name: &Option<(u32, Bytes)>) -> Result<Option<Bytes>, Memory>
    ensures { IfOk result (λ own. own ≡ spec.name_of name.now) }
{
    match name {
        Some((_, bytes)) => Ok(Some(Bytes::from_slice(alloc, bytes.as_slice())?)),
        None => Ok(None),
    }
}

/// The name of a class, if one comes next.
#[tactic(auto, unfolding(crate::specs::Heads::name_at))]
fn name_at(alloc: Global, c: &mut Cursor<'_>) -> Result<Option<(u32, Bytes)>, Stop>
    ensures { Reads (spec.name_at c.old) result c.new }
{
    maybe_identifier(alloc, c)
}

/// The bases of a class.
#[tactic(auto, unfolding(crate::specs::Heads::bases_at))]
fn bases_at(alloc: Global, names: &TypeNames, c: &mut Cursor<'_>) -> Result<Bases, Stop>
    ensures { ReadsBases (spec.bases_at names.now c.old) result c.new }
{
    bases_behind(alloc, names, c)
}

/// Goes into a class: it is defined from its `{` on.
fn go_in(
    alloc: Global,
    known: &mut Known,
    class: u32,
    bases: &[u32],
    name: &Option<(u32, Bytes)>,
) -> Result<(), Memory>
    ensures { OnOk result (known.new ≡ spec.inside_class known.old.bodies known.old.names class bases.now name.now) }
{
    known.names.define(class, bases)?;
    known.names.open_class(class)?;
    known.own = name_of(alloc, name)?;
    Ok(())
}

/// What stands behind the name of a class of this number, up to the `{`.
#[tactic(auto, unfolding(crate::specs::Heads::head_behind))]
fn head_behind(
    alloc: Global,
    at: u32,
    key: ClassKey,
    name: Option<(u32, Bytes)>,
    class: u32,
    known: &mut Known,
    c: &mut Cursor<'_>,
) -> Result<Head, Stop>
    ensures { Gives (spec.head_behind (at, key) name class known.old.bodies known.old.names c.old) result known.new c.new }
{
    let Bases { list, classes } = bases_at(alloc, &known.names, c)?;
    c.word(LEFT_BRACE)?;
    go_in(alloc, known, class, classes.as_slice(), &name)?;
    Ok(Head {
        at,
        key,
        name,
        bases: list,
        class,
    })
}

/// A class up to its `{` (9, 10): its key, its name, which is entered before the bases are read, and its bases. Behind it the class's scope is open.
#[tactic(auto, unfolding(crate::specs::Heads::head))]
pub fn class_head(alloc: Global, known: &mut Known, c: &mut Cursor<'_>) -> Result<Head, Stop>
    ensures { Gives (spec.head known.old.bodies known.old.names c.old) result known.new c.new }
{
    let (at, key) = class_key(c)?;
    let name = name_at(alloc, c)?;
    let class = class_to_define(&mut known.names, &name)?;
    head_behind(alloc, at, key, name, class, known, c)
}
