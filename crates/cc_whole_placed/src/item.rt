ghost use Rattle.std.specs.Prelude.{◌≡◌};
ghost use Rattle.cc_whole.specs.Plain.{item_of, name_of as its_name};
ghost use Rattle.cc_whole.specs.Valid.{is_definition as defines_it};
ghost use Rattle.cc_whole.specs.ValidUnit.{is_static as static_there};
ghost use Rattle.cc_whole_link.specs.Placed.{is_shared_item};

use cc_whole::CItem;

/// The name that an item declares or defines.
pub fn name_of(item: &CItem) -> &[u8]
    ensures { result.now ≡ its_name (item_of item.now) }
{
    match item {
        CItem::Prototype(p) => p.name.as_slice(),
        CItem::Extern(_, name) => name.as_slice(),
        CItem::Function(f) => f.prototype.name.as_slice(),
        CItem::Variable(v) => v.name.as_slice(),
    }
}

/// Whether it defines its name.
pub fn is_definition(item: &CItem) -> bool
    ensures { result ≡ defines_it (item_of item.now) }
{
    match item {
        CItem::Prototype(_) => false,
        CItem::Extern(_, _) => false,
        CItem::Function(_) => true,
        CItem::Variable(_) => true,
    }
}

/// Whether it is a definition that other units may have too.
pub fn is_shared(item: &CItem) -> bool
    ensures { result ≡ is_shared_item (item_of item.now) }
{
    match item {
        CItem::Prototype(_) => false,
        CItem::Extern(_, _) => false,
        CItem::Function(f) => f.is_shared,
        CItem::Variable(v) => v.is_shared,
    }
}

/// Whether its name is its unit's alone.
pub(crate) fn is_static(item: &CItem) -> bool
    ensures { result ≡ static_there (item_of item.now) }
{
    match item {
        CItem::Prototype(p) => p.is_static,
        CItem::Extern(_, _) => false,
        CItem::Function(f) => f.prototype.is_static,
        CItem::Variable(v) => v.is_static,
    }
}
