use cf_base::{Broken, Limit, Memory};
use thiserror::Error;

/// Why elaboration ended without an answer.
#[derive(Debug, Drop, Error)]
pub enum Stop {
    /// The first broken rule and its place.
    #[error("a rule is broken")]
    Broken(Broken),
    /// A limit that was passed.
    #[error("a limit is passed")]
    Passed(Limit),
    #[error("out of memory")]
    Memory,
}

impl From<Memory> for Stop {
    ghost use Rattle.std.specs.Prelude.{◌≡◌};
    ghost use Rattle.cf_elab_env.specs.declared.stop.Stop.TheVariants.{Memory};

    ghost from_gives = { λ _ e. e ≡ Memory };

    fn from(_error: Memory) -> Stop {
        Stop::Memory
    }
}
