//! Whether two enumerations have one name.

ghost use Rattle.std.specs.Prelude.{◌≡◌, ◌<◌, length, IfOk};
ghost use Rattle.cf_lower_same.specs.Alike as spec;

use cf_base::Memory;
use cf_lower_types::Tables;

/// Whether two enumerations have one name. One that stands in a class is not compared.
pub fn same_enumerations(tables: &Tables<'_>, number: u32, other: u32) -> Result<bool, Memory>
    requires first { number < length tables.now.classes.enums }
    requires second { other < length tables.now.classes.enums }
    ensures { IfOk result (λ same. same ≡ spec.same_enums tables.now number other) }
{
    let classes = tables.classes();
    let first = classes.enum_label(number);
    let second = classes.enum_label(other);
    match first.outer {
        Some(_) => Err(Memory),
        None => match second.outer {
            Some(_) => Err(Memory),
            None => Ok(first.name.as_slice() == second.name.as_slice()),
        },
    }
}
