ghost use Rattle.std.specs.Prelude.{◌≡◌, IfOk};

use cc_whole_memory::Act;
use cf_base::Memory;
use std::alloc::{AllocError, AllocFailed};

/// Why a step is not done.
#[derive(Clone, Copy, Debug, PartialEq, Eq)]
pub enum Stop {
    Act(Act),
    Memory,
}

impl From<Act> for Stop {
    ghost use Rattle.std.specs.Prelude.{◌≡◌};
    ghost use Rattle.cc_whole_step.specs.declared.stop.Stop.TheVariants as stop;

    ghost from_gives = { λ act e. e ≡ stop.Act act };

    fn from(act: Act) -> Stop {
        Stop::Act(act)
    }
}

impl From<cc_whole_eval::Stop> for Stop {
    ghost use Rattle.std.specs.Prelude.{◌≡◌};
    ghost use Rattle.cc_whole_step.specs.Stop.{stop_of};

    ghost from_gives = { λ given e. e ≡ stop_of given };

    fn from(given: cc_whole_eval::Stop) -> Stop {
        match given {
            cc_whole_eval::Stop::Act(act) => Stop::Act(act),
            cc_whole_eval::Stop::Memory => Stop::Memory,
        }
    }
}

impl From<Memory> for Stop {
    ghost use Rattle.std.specs.Prelude.{◌≡◌};
    ghost use Rattle.cc_whole_step.specs.declared.stop.Stop.TheVariants as stop;

    ghost from_gives = { λ _ e. e ≡ stop.Memory };

    fn from(_error: Memory) -> Stop {
        Stop::Memory
    }
}

impl From<AllocError> for Stop {
    ghost use Rattle.std.specs.Prelude.{◌≡◌};
    ghost use Rattle.cc_whole_step.specs.declared.stop.Stop.TheVariants as stop;

    ghost from_gives = { λ _ e. e ≡ stop.Memory };

    fn from(_error: AllocError) -> Stop {
        Stop::Memory
    }
}

impl<T: Drop> From<AllocFailed<T>> for Stop {
    ghost use Rattle.std.specs.Prelude.{◌≡◌};
    ghost use Rattle.cc_whole_step.specs.declared.stop.Stop.TheVariants as stop;

    ghost from_gives = { λ _ e. e ≡ stop.Memory };

    fn from(_error: AllocFailed<T>) -> Stop {
        Stop::Memory
    }
}

/// A block's number in 32 bits; a run with more blocks wants memory.
pub fn short(block: usize) -> Result<u32, Memory>
    ensures { IfOk result (λ b. b ≡ block) }
{
    if block > 0xffff_ffff {
        return Err(Memory);
    }
    Ok(block as u32)
}
