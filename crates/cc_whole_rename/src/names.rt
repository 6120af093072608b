ghost use Rattle.std.specs.Prelude.{◌≡◌, decimal, IfOk, option_map};
ghost use Rattle.cc_whole_link.specs.Placed.{longer as its_longer, static_renaming};
ghost use Rattle.cc_whole_rename.specs.Renamed.{renaming};

use cf_base::{Items, Memory, Name};
use cf_name_list::Names;
use itoa::Buffer;
use std::alloc::Global;

/// The static names of a unit and its number among the units that are linked, from 1.
#[derive(Drop)]
pub struct Statics<'a> {
    pub unit: usize,
    pub names: Names<'a>,
}

/// A copy of a name.
pub(crate) fn copied(alloc: Global, name: &Name) -> Result<Name, Memory>
    ensures { IfOk result (λ made. made ≡ name.now) }
{
    Items::from_slice(alloc, name.as_slice())
}

/// A static name of the unit of this number, as it stands in the program.
pub fn longer(alloc: Global, unit: usize, name: &[u8]) -> Result<Name, Memory>
    ensures { IfOk result (λ made. made ≡ its_longer unit name.now) }
{
    let mut digits = Buffer::new();
    let digits = digits.format(unit).as_bytes();
    let mut made = Vec::from_slice(alloc, name)?;
    made.extend_from_slice(b"__u")?;
    made.extend_from_slice(digits)?;
    Ok(Items::from_vec(made))
}

/// A name of the unit, as it stands in the program.
pub fn renamed(alloc: Global, statics: &Statics<'_>, name: &[u8]) -> Result<Name, Memory>
    ensures { IfOk result (λ made. made ≡ static_renaming statics.now.unit statics.now.names name.now) }
{
    if statics.names.has(name) {
        longer(alloc, statics.unit, name)
    } else {
        Items::from_slice(alloc, name)
    }
}

/// The same where parameters and locals hide some names.
pub(crate) fn used(
    alloc: Global,
    statics: &Statics<'_>,
    hidden: &Names<'_>,
    name: &[u8],
) -> Result<Name, Memory>
    ensures { IfOk result (λ made. made ≡ renaming statics.now.unit statics.now.names hidden.now name.now) }
{
    if hidden.has(name) {
        Items::from_slice(alloc, name)
    } else {
        renamed(alloc, statics, name)
    }
}
