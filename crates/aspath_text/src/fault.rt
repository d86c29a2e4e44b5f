ghost use Rattle.std.specs.Prelude.{◌≡◌};
ghost use Rattle.aspath_text.specs.declared.fault.PatternFault.TheVariants.{Memory as IsMemory};

use route_types::Memory;

/// Why a pattern was not read.
#[derive(Clone, Copy, Debug, PartialEq, Eq)]
pub enum PatternFault {
    /// The text is not of the grammar.
    NotShaped,
    /// Want of memory.
    Memory,
}

impl From<Memory> for PatternFault {
    ghost from_gives = { λ _ fault. fault ≡ IsMemory };

    fn from(_e: Memory) -> PatternFault {
        PatternFault::Memory
    }
}
