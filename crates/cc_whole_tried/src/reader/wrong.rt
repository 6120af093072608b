use cc_whole_cut::CutError;
use cf_base::Memory;
use std::alloc::AllocError;

/// Why a text of a test makes no program.
#[derive(Clone, Copy, Debug, PartialEq, Eq)]
pub enum Wrong {
    Memory,
    /// No token begins at this byte.
    Stray { at: usize },
    /// Another token is wanted, where so many are left.
    Token { left: usize },
    /// It is nested too deeply.
    Deep,
    /// It is no valid program.
    Invalid,
}

impl From<Memory> for Wrong {
    fn from(_error: Memory) -> Wrong {
        Wrong::Memory
    }
}

impl From<AllocError> for Wrong {
    fn from(_error: AllocError) -> Wrong {
        Wrong::Memory
    }
}

impl From<CutError> for Wrong {
    fn from(error: CutError) -> Wrong {
        match error {
            CutError::Stray { at } => Wrong::Stray { at },
            CutError::OutOfMemory => Wrong::Memory,
        }
    }
}
