ghost use Rattle.std.specs.Prelude.{◌≡◌};
ghost use Rattle.cc_whole_read.specs.declared.error.ReadErr.TheVariants as error;

use cf_base::{Limit, Memory};

/// Why a text is not read.
#[derive(Clone, Copy, Debug, PartialEq, Eq)]
pub enum ReadErr {
    /// No unit has this text: it stops being C at this byte, or at its end.
    NotC { at: usize },
    /// The unit that has this text breaks this rule of validity first, 1 for V1 up to 12, at this byte.
    Invalid { rule: u8, at: usize },
    /// The text has too many bytes, or its tokens are nested too deeply.
    Limit(Limit),
    /// Memory was wanting, which tells nothing of the text.
    Memory,
}

impl From<Memory> for ReadErr {
    ghost from_gives = { λ _ e. e ≡ error.Memory };

    fn from(_error: Memory) -> ReadErr {
        ReadErr::Memory
    }
}
