use cf_base::{Broken, Limit, Memory};
use thiserror::Error;

/// Why the tokens of a file have no tree.
#[derive(Clone, Copy, Debug, PartialEq, Eq, Error)]
pub enum ParseFault {
    /// They are not in the grammar: K6, at its place.
    #[error("rule {} broken at byte {}", .0.rule.number(), .0.at)]
    Broken(Broken),
    /// They are nested deeper than is accepted.
    #[error("limit {:?} {} passed", .0.bound, .0.most)]
    Limit(Limit),
    /// Want of memory.
    #[error("out of memory")]
    Memory,
}

impl From<Memory> for ParseFault {
    ghost use Rattle.std.specs.Prelude.{◌≡◌};
    ghost use Rattle.cf_parse_file.specs.declared.fault.ParseFault.TheVariants.{Memory};

    ghost from_gives = { λ _ e. e ≡ Memory };

    fn from(_want: Memory) -> ParseFault {
        ParseFault::Memory
    }
}
