//! Files (17).

ghost use Rattle.std.specs.Prelude.{◌≡◌};
ghost use Rattle.cf_elab.specs.Built as built;

use crate::built::declarations::declaration;
use crate::built::place::first;
use crate::built::statements::function;
use cf_unit::{Item, Unit};

/// A function, a declaration, or a linkage specification, which is not built (7.4).
fn item(i: &Item) -> Option<u32>
    ensures { result ≡ built.of_item i.now }
{
    match i {
        Item::Function(f) => function(f.get()),
        Item::Declaration(d) => declaration(d.get()),
        Item::Linkage(l) => Some(l.at),
    }
}

/// The byte place of the first form of a file that is not built so far; none where all are.
pub fn not_built(unit: &Unit) -> Option<u32>
    ensures { result ≡ built.not_built unit.now }
{
    let mut found = None;
    for i in unit.items.as_slice() {
        found = first(found, item(i));
    }
    found
}
