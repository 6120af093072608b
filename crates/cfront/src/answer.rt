ghost use Rattle.std.specs.Prelude.{◌≡◌};
ghost use Rattle.cfront.specs.declared.answer.Stop.TheVariants as stop;

use crate::outcome::Outcome;
use crate::position::Position;
use cf_base::Memory;
use std::alloc::{AllocError, AllocFailed};

/// An answer before its last line, with the position of a refusal.
#[derive(Debug, Drop, PartialEq, Eq)]
pub struct Answer {
    pub outcome: Outcome,
    pub position: Position,
}

impl Answer {
    /// An answer that is no refusal.
    pub fn plain(outcome: Outcome) -> Answer
        ensures { result.outcome ≡ outcome }
    {
        Answer {
            outcome,
            position: Position { line: 1, column: 1 },
        }
    }
}

/// Why a job doesn't go on.
#[derive(Debug, Drop, PartialEq, Eq)]
pub enum Stop {
    Answer(Answer),
    Memory,
}

impl From<Memory> for Stop {
    ghost from_gives = { λ _ e. e ≡ stop.Memory };

    fn from(_error: Memory) -> Stop {
        Stop::Memory
    }
}

impl From<AllocError> for Stop {
    ghost from_gives = { λ _ e. e ≡ stop.Memory };

    fn from(_error: AllocError) -> Stop {
        Stop::Memory
    }
}

impl<T: Drop> From<AllocFailed<T>> for Stop {
    ghost from_gives = { λ _ e. e ≡ stop.Memory };

    fn from(_error: AllocFailed<T>) -> Stop {
        Stop::Memory
    }
}
