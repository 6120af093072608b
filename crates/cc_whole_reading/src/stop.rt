ghost use Rattle.std.specs.Prelude.{◌≡◌};
ghost use Rattle.cc_whole_reading.specs.declared.stop.Stop.TheVariants as stop;

use cf_base::Memory;

/// Why tokens are not read.
#[derive(Clone, Copy, Debug, PartialEq, Eq)]
pub enum Stop {
    /// They are not C from the token on behind which, it included, so many are left.
    NotC { left: usize },
    /// The constant at this token does not fit 32 bits.
    Unfit { left: usize },
    /// Memory was wanting, which tells nothing of the tokens.
    Memory,
}

impl From<Memory> for Stop {
    ghost from_gives = { λ _ e. e ≡ stop.Memory };

    fn from(_error: Memory) -> Stop {
        Stop::Memory
    }
}
