// What keeps a call of the outside from its answer.
ghost use Rattle.std.specs.Prelude.{◌≡◌};
ghost use Rattle.policy_outside.specs.declared.faults.FetchFault.TheVariants.{Memory as FetchMemory};

use std::alloc::{AllocError, AllocFailed};

/// Want of memory, and nothing else.
#[derive(Clone, Copy, Debug, PartialEq, Eq)]
pub struct Memory;

impl From<AllocError> for Memory {
    fn from(_error: AllocError) -> Memory {
        Memory
    }
}

impl<T: Drop> From<AllocFailed<T>> for Memory {
    fn from(_refused: AllocFailed<T>) -> Memory {
        Memory
    }
}

/// Why a shelf gave no text.
#[derive(Clone, Copy, Debug, PartialEq, Eq)]
pub enum FetchFault {
    /// The text could not be had; the shelf's count of faults has risen.
    Failed,
    /// The text has more bytes than were asked for at most.
    TooLong,
    /// Want of memory.
    Memory,
}

impl From<AllocError> for FetchFault {
    ghost from_gives = { λ _ fault. fault ≡ FetchMemory };

    fn from(_error: AllocError) -> FetchFault {
        FetchFault::Memory
    }
}

/// Why a sink did not take a whole piece.
#[derive(Clone, Copy, Debug, PartialEq, Eq)]
pub enum PutFault {
    /// The outside took no more; the sink's count of faults has risen.
    Failed,
    /// Want of memory; the sink's count of shortages has risen.
    Memory,
}
