//! Files (17).

ghost use Rattle.std.specs.Prelude.{◌≡◌};
ghost use Rattle.cf_elab_valid_files.specs.File.Laws as fits;

use crate::declarations::declaration;
use crate::statements::function;
use cf_unit::{Item, Unit};

/// A function or a declaration. A linkage specification is not looked at, since it is not built (7.4).
fn item(i: &Item) -> bool
    ensures { result ≡ fits.item_fits i.now }
{
    match i {
        Item::Function(f) => function(f.get()),
        Item::Declaration(d) => declaration(d.get()),
        Item::Linkage(_) => true,
    }
}

/// Whether the tree of a file is as those of texts are: constants are of their types (2.5), and labels stand in the braces of a `switch`
/// alone (6.4.2).
pub fn file_fits(unit: &Unit) -> bool
    ensures { result ≡ fits.file_fits unit.now }
{
    for i in unit.items.as_slice() {
        if !item(i) {
            return false;
        }
    }
    true
}
