//! Whole files.

ghost use Rattle.std.specs.Prelude.{length};
ghost use Rattle.cf_syntax.specs.Names.{no_names};
ghost use Rattle.cf_unit.specs.Files.{file};
ghost use Rattle.cf_unit.specs.Read.{reading};
ghost use Rattle.cf_unit.specs.Known.{in_block};
ghost use Rattle.cf_parse_unit.specs.Files as spec;
ghost use Rattle.cf_parse_unit.specs.Whole.{GivesItems, ReadsFile};

use crate::item::items;
use crate::knot::inside;
use cf_base::Items;
use cf_parse_decl::{Bodies, Grammar, Known};
use cf_parse_expr::{Cursor, Stop};
use cf_syntax::TypeNames;
use cf_tokens::Token;
use cf_unit::{Item, Unit};
use std::alloc::Global;

/// The items of a file whose phrases stand inside one another to this depth at most.
fn items_to(alloc: Global, depth: usize, c: &mut Cursor<'_>) -> Result<Items<Item>, Stop>
    ensures { GivesItems (spec.items depth (in_block no_names) c.old) result }
{
    let mut known = Known {
        names: TypeNames::new(alloc),
        bodies: Bodies::AtOnce,
        own: None,
    };
    let grammar = Grammar {
        alloc,
        depth,
        inside,
    };
    items(&grammar, &mut known, c)
}

/// The items of a file. It stops with `Nothing` exactly where the tokens are no file.
fn items_of(alloc: Global, tokens: &[Token]) -> Result<Items<Item>, Stop>
    ensures { GivesItems (reading (file (length tokens.now)) tokens.now) result }
{
    let mut c = Cursor::new(tokens);
    let depth = c.depth();
    items_to(alloc, depth, &mut c)
}

/// The tree of a file (17). It stops with `Nothing` exactly where no tree spells the tokens.
pub fn file(alloc: Global, tokens: &[Token]) -> Result<Unit, Stop>
    ensures { ReadsFile tokens.now result }
{
    let items = items_of(alloc, tokens)?;
    Ok(Unit { items })
}
