ghost use Rattle.std.specs.Prelude.{⊤};

use std::alloc::{AllocError, AllocFailed};

/// Want of memory: an allocation was refused, and nothing else is wrong.
#[derive(Clone, Copy, Debug, PartialEq, Eq)]
pub struct Memory;

impl From<AllocError> for Memory {
    ghost from_gives = { λ _ _. ⊤ };

    fn from(_e: AllocError) -> Memory {
        Memory
    }
}

impl<T: Drop> From<AllocFailed<T>> for Memory {
    ghost from_gives = { λ _ _. ⊤ };

    fn from(_e: AllocFailed<T>) -> Memory {
        Memory
    }
}
