ghost use Rattle.std.specs.Prelude.{◌≡◌, [], IfOk, OnOk};
ghost use Rattle.cc_whole.specs.Plain.{item_of, items_of};
ghost use Rattle.cc_whole.specs.Valid.{defined_after};
ghost use Rattle.cc_whole.specs.ValidUnit as units;
ghost use Rattle.cc_whole_program.specs.Uses as spec;

use cc_whole::CItem;
use cf_base::Memory;
use cf_name_list::Names;
use std::alloc::Global;

/// Whether an item is static.
pub fn is_static(item: &CItem) -> bool
    ensures { result ≡ units.is_static (item_of item.now) }
{
    match item {
        CItem::Prototype(p) => p.is_static,
        CItem::Extern(_, _) => false,
        CItem::Function(f) => f.prototype.is_static,
        CItem::Variable(v) => v.is_static,
    }
}

/// Puts the name that an item defines in front of others.
fn add_defined<'a>(defined: &mut Names<'a>, item: &'a CItem) -> Result<(), Memory>
    ensures { OnOk result (defined.new ≡ defined_after (item_of item.now) defined.old) }
{
    match item {
        CItem::Prototype(_) => Ok(()),
        CItem::Extern(_, _) => Ok(()),
        CItem::Function(f) => defined.add(f.prototype.name.as_slice()),
        CItem::Variable(v) => defined.add(v.name.as_slice()),
    }
}

/// The names that items define.
pub fn all_defined<'a>(alloc: Global, items: &'a [CItem]) -> Result<Names<'a>, Memory>
    ensures { IfOk result (λ defined. defined ≡ spec.all_defined (items_of items.now) []) }
{
    let mut defined = Names::new(alloc);
    for item in items {
        add_defined(&mut defined, item)?;
    }
    Ok(defined)
}
