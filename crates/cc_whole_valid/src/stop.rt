ghost use Rattle.std.specs.Prelude.{◌≡◌};
ghost use Rattle.cc_whole_valid.specs.declared.stop.Stop.TheVariants as stop;

use cf_base::Memory;

/// A broken rule of validity.
#[derive(Clone, Copy, Debug, PartialEq, Eq)]
pub struct Fault {
    /// Its number: 1 for V1, up to 12.
    pub rule: u8,
    /// How many landmarks of the text stand before the one where it is broken.
    pub place: usize,
}

/// Why checking ends before the end of a tree.
#[derive(Clone, Copy, Debug)]
pub enum Stop {
    /// The first broken rule, and how many landmarks stand before it.
    Broken { rule: u8, place: usize },
    /// Memory was wanting, or landmarks are more than a `usize` counts, which no memory holds.
    Memory,
}

impl From<Memory> for Stop {
    ghost from_gives = { λ _ e. e ≡ stop.Memory };

    fn from(_error: Memory) -> Stop {
        Stop::Memory
    }
}
