//! What items mean by their names.

ghost use Rattle.std.specs.Prelude.{◌≡◌};
ghost use Rattle.cc_whole.specs.Plain as plain;
ghost use Rattle.cc_whole.specs.Valid.{named_by};
ghost use Rattle.cf_lowerable_links.specs.Meant.{meant_of};

use cc_whole::{CItem, CPrototype, CVariableType};

/// What a name means.
#[derive(Clone, Copy)]
pub enum Entity<'a> {
    /// A function with this head.
    Function(&'a CPrototype),
    /// A variable of this type.
    Object(CVariableType),
}

/// The name that an item declares or defines.
pub(crate) fn name_of(item: &CItem) -> &[u8]
    ensures { result.now ≡ plain.name_of (plain.item_of item.now) }
{
    match item {
        CItem::Prototype(head) => head.name.as_slice(),
        CItem::Extern(_, name) => name.as_slice(),
        CItem::Function(function) => function.prototype.name.as_slice(),
        CItem::Variable(variable) => variable.name.as_slice(),
    }
}

/// What an item means by its name.
pub(crate) fn entity_of(item: &CItem) -> Entity<'_>
    ensures { meant_of result ≡ (named_by (plain.item_of item.now)).meant }
{
    match item {
        CItem::Prototype(head) => Entity::Function(head),
        CItem::Extern(ty, _) => Entity::Object(*ty),
        CItem::Function(function) => Entity::Function(&function.prototype),
        CItem::Variable(variable) => Entity::Object(variable.ty),
    }
}
