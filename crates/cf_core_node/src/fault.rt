use cf_base::Memory;
use thiserror::Error;

/// Why a core gives no tree.
#[derive(Debug, Drop, Error)]
pub enum NotLoaded {
    /// The first construct that the plain program does not have, by its byte place.
    #[error("the construct at byte {at} is not built in the plain program")]
    NotBuilt { at: u32 },
    #[error("out of memory")]
    Memory,
}

impl From<Memory> for NotLoaded {
    ghost use Rattle.std.specs.Prelude.{◌≡◌};
    ghost use Rattle.cf_core_node.specs.declared.fault.NotLoaded.TheVariants.{Memory};

    ghost from_gives = { λ _ e. e ≡ Memory };

    fn from(_error: Memory) -> NotLoaded {
        NotLoaded::Memory
    }
}
