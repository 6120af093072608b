ghost use Rattle.std.specs.Prelude.{◌≡◌};
ghost use Rattle.cf_tokens.specs.declared.fault.LexFault.TheVariants as fault;

use cf_base::{Broken, Limit, Memory};
use thiserror::Error;

/// Why the bytes of a file have no list of tokens.
#[derive(Clone, Copy, Debug, PartialEq, Eq, Error)]
pub enum LexFault {
    /// The first broken rule of K1 to K5 and K7, at its place.
    #[error("rule {} broken at byte {}", .0.rule.number(), .0.at)]
    Broken(Broken),
    /// The file has more bytes, or more tokens, than are accepted.
    #[error("limit {:?} {} passed", .0.bound, .0.most)]
    Limit(Limit),
    /// Want of memory.
    #[error("out of memory")]
    Memory,
}

impl From<Memory> for LexFault {
    ghost from_gives = { λ _ e. e ≡ fault.Memory };

    fn from(_want: Memory) -> LexFault {
        LexFault::Memory
    }
}
