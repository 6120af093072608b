ghost use Rattle.std.specs.Prelude.{◌≡◌, IfOk};
ghost use Rattle.cf_translate.specs.Translated.{Gives};

use cc_whole::CUnit;
use cc_whole_print::print;
use cc_whole_printed::{printed_text_is_its_text, valid_units_are_written};
use cf_core::CoreUnit;
use cf_lower_unit::lower;
use cf_lower_valid::units_are_valid;
use cf_sequence_unit::{SequenceFault, sequence};
use std::alloc::Global;

/// A file's unit of the small C, with its text.
#[derive(Drop)]
pub struct Translated {
    /// The unit that the file's plain statements are lowered to.
    pub unit: CUnit,
    /// The bytes that are printed for it.
    pub text: Vec<u8>,
}

/// The unit of the small C for a file's core, and the text that is printed for it: the file's plain statements are lowered to this unit. Where lowering's laws are about the
/// plain file the unit is valid, and the text is one of its texts.
///
/// What sequencing does not build is refused by the byte place of its first construct; want of memory may come anywhere.
pub fn translate(alloc: Global, core: CoreUnit) -> Result<Translated, SequenceFault>
    ensures { Gives core result }
{
    units_are_valid();
    valid_units_are_written();
    printed_text_is_its_text();
    let _valid = core.functions();
    let plain = sequence(alloc, core)?;
    let unit = lower(alloc, &plain)?;
    match print(alloc, &unit) {
        Ok(text) => Ok(Translated { unit, text }),
        Err(_) => Err(SequenceFault::Memory),
    }
}
