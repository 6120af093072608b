//! The items that are written.

ghost use Rattle.std.specs.Prelude.{◌≡◌, ◌++◌, ◌∷◌, [], IfOk, OnOk};
ghost use Rattle.cc_whole.specs.Plain.{item_of, items_of, name_of as its_name};

use cc_whole::CItem;
use cf_base::{Items, Memory};

/// The name that an item declares or defines.
pub(crate) fn name_of(item: &CItem) -> &[u8]
    ensures { result.now ≡ its_name (item_of item.now) }
{
    match item {
        CItem::Prototype(head) => head.name.as_slice(),
        CItem::Extern(_, name) => name.as_slice(),
        CItem::Function(function) => function.prototype.name.as_slice(),
        CItem::Variable(variable) => variable.name.as_slice(),
    }
}

/// An item comes behind those so far.
pub(crate) fn push(made: &mut Items<CItem>, item: CItem) -> Result<(), Memory>
    ensures { OnOk result (items_of made.new ≡ items_of made.old ++ item_of item ∷ []) }
{
    made.push(item)?;
    Ok(())
}

/// Items, and others behind them.
pub(crate) fn joined(front: Items<CItem>, back: Items<CItem>) -> Result<Items<CItem>, Memory>
    ensures { IfOk result (λ made. items_of made ≡ items_of front ++ items_of back) }
{
    let mut made = front.into_vec();
    let mut more = back.into_vec();
    made.append(&mut more)?;
    Ok(Items::from_vec(made))
}
