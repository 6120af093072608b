ghost use Rattle.std.specs.Prelude.{◌≡◌};
ghost use Rattle.cf_sequence_unit.specs.declared.fault.SequenceFault.TheVariants as fault;

use cf_base::Memory;
use thiserror::Error;

/// Why the core of a file gives no plain statements.
#[derive(Debug, Drop, Error)]
pub enum SequenceFault {
    /// The first construct that sequencing has no form for, by its byte place.
    #[error("the construct at byte {at} is not built in plain statements")]
    NotBuilt { at: u32 },
    #[error("out of memory")]
    Memory,
}

impl From<Memory> for SequenceFault {
    ghost from_gives = { λ _ e. e ≡ fault.Memory };

    fn from(_error: Memory) -> SequenceFault {
        SequenceFault::Memory
    }
}
