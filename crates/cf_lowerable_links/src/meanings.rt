//! What names mean, by the first item of each.

ghost use Rattle.std.specs.Prelude.{◌≡◌, ℕ, List, Some, map, option_map, if◌then◌else◌, IfOk, OnOk};
ghost use Rattle.std.specs.Borrow.{Bor};
ghost use Rattle.cc_whole.specs.Known.{lookup};
ghost use Rattle.cc_whole.specs.Plain.{items_of};
ghost use Rattle.cc_whole.specs.Valid.{named_by};
ghost use Rattle.cf_name_list.specs.Names.{same_name};
ghost use Rattle.cf_lowerable_links.specs.Meant.{meant_of, found};

use crate::entity::{Entity, entity_of, name_of};
use cc_whole::CItem;
use cf_base::Memory;
use std::alloc::Global;
use std::collections::HashMap;
use std::marker::Model;

/// Items, and a table of what their names mean: what the first item of a name does.
#[derive(Drop)]
pub struct Meanings<'a> {
    items: &'a [CItem],
    table: HashMap<&'a [u8], Entity<'a>>,
}

impl<'a> Model for Meanings<'a> {
    ghost use Rattle.std.specs.Prelude.{◌≡◌, ℕ, List, map};
    ghost use Rattle.std.specs.Borrow.{Bor};
    ghost use Rattle.cc_whole.specs.Known.{Named, lookup};
    ghost use Rattle.cc_whole.specs.Plain.{items_of};
    ghost use Rattle.cc_whole.specs.Valid.{named_by};
    ghost use Rattle.cf_lowerable_links.specs.Meant.{found};

    ghost Value = { List Named };

    ghost view = { λ m. map named_by (items_of m.items.now) };

    ghost invariant = { λ m. (q : Bor (List ℕ)) → found m.table q ≡ lookup (map named_by (items_of m.items.now)) q.now };
}

impl<'a> Meanings<'a> {
    /// What the names of these items mean.
    pub fn of(alloc: Global, items: &'a [CItem]) -> Result<Meanings<'a>, Memory>
        ensures { IfOk result (λ made. made ≡ map named_by (items_of items.now)) }
    {
        let table = table_of(alloc, items)?;
        Ok(Meanings { items, table })
    }

    /// What a name means.
    pub(crate) fn find(&self, name: &[u8]) -> Option<Entity<'a>>
        ensures { option_map meant_of result ≡ lookup self.now name.now }
    {
        get(&self.table, name)
    }
}

fn get<'a>(table: &HashMap<&'a [u8], Entity<'a>>, name: &[u8]) -> Option<Entity<'a>>
    ensures { option_map meant_of result ≡ found table.now name.entry }
{
    table.get(name).copied()
}

/// A name means this, whatever it meant.
fn put<'a>(
    table: &mut HashMap<&'a [u8], Entity<'a>>,
    name: &'a [u8],
    entity: Entity<'a>,
) -> Result<(), Memory>
    ensures { (q : Bor (List ℕ)) → OnOk result (found table.new q ≡ (if same_name name.entry q then Some (meant_of entity.entry) else found table.old q)) }
{
    table.insert(name, entity)?;
    Ok(())
}

/// A table of what the first item of each name means.
fn table_of<'a>(alloc: Global, items: &'a [CItem]) -> Result<HashMap<&'a [u8], Entity<'a>>, Memory>
    ensures { (q : Bor (List ℕ)) → IfOk result (λ table. found table q ≡ lookup (map named_by (items_of items.now)) q.now) }
{
    let mut table = HashMap::new(alloc);
    let mut left = items.len();
    while left > 0 {
        left -= 1;
        let item = &items[left];
        put(&mut table, name_of(item), entity_of(item))?;
    }
    Ok(table)
}
