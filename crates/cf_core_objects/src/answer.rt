use cf_core_place::Place;
use std::alloc::{AllocError, AllocFailed};

/// What an expression gives.
#[derive(Clone, Copy, Debug)]
pub enum Value<'a> {
    /// Of type void.
    Nothing,
    /// Of a function that ended without the value that it should give.
    Missing,
    /// Of an initialiser that has built its object.
    Built,
    Number(i64),
    Null,
    /// An lvalue, or a pointer to it.
    At(Place),
    /// A function by its link name, or a pointer to it.
    Code(&'a [u8]),
}

/// Why a core is not run on.
#[derive(Clone, Copy, Debug, PartialEq, Eq)]
pub enum Stop {
    /// An act that has no meaning, by its number from 1 to 16.
    Act(u8),
    /// The core is none that elaboration makes.
    Malformed,
    Memory,
}

impl From<AllocError> for Stop {
    ghost use Rattle.std.specs.Prelude.{◌≡◌};
    ghost use Rattle.cf_core_objects.specs.declared.answer.Stop.TheVariants as stop;

    ghost from_gives = { λ _ e. e ≡ stop.Memory };

    fn from(_error: AllocError) -> Stop {
        Stop::Memory
    }
}

impl<T: Drop> From<AllocFailed<T>> for Stop {
    ghost use Rattle.std.specs.Prelude.{◌≡◌};
    ghost use Rattle.cf_core_objects.specs.declared.answer.Stop.TheVariants as stop;

    ghost from_gives = { λ _ e. e ≡ stop.Memory };

    fn from(_error: AllocFailed<T>) -> Stop {
        Stop::Memory
    }
}
