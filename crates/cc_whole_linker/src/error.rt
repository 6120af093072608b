ghost use Rattle.std.specs.Prelude.{◌≡◌};
ghost use Rattle.cc_whole_linker.specs.declared.error.LinkErr.TheVariants as error;

use cc_whole_link::LinkRule;
use cf_base::{Limit, Memory, Name};
use std::alloc::AllocFailed;

/// A broken rule of linking, and the name that it is about.
#[derive(Debug, Drop)]
pub struct BrokenRule {
    pub rule: LinkRule,
    pub name: Name,
}

/// Why units do not link.
#[derive(Debug, Drop)]
pub enum LinkErr {
    /// A broken rule, and the name that it is about. Of L6 it is the version, in decimal.
    Refused(BrokenRule),
    /// The bytes of all variables pass the limit.
    Limit(Limit),
    Memory,
}

impl From<Memory> for LinkErr {
    ghost from_gives = { λ _ e. e ≡ error.Memory };

    fn from(_error: Memory) -> LinkErr {
        LinkErr::Memory
    }
}

impl<T: Drop> From<AllocFailed<T>> for LinkErr {
    ghost from_gives = { λ _ e. e ≡ error.Memory };

    fn from(_error: AllocFailed<T>) -> LinkErr {
        LinkErr::Memory
    }
}
