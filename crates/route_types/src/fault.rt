ghost use Rattle.std.specs.Prelude.{◌≡◌};
ghost use Rattle.route_types.specs.declared.fault.RouteFault.TheVariants.{Memory as IsMemory};

use text_words::Memory;

/// Why a text spells no route.
#[derive(Clone, Copy, Debug, PartialEq, Eq)]
pub enum RouteFault {
    /// The first line that is not the form, from 1. A missing line has the number that it would have.
    Line { number: u64 },
    /// Want of memory.
    Memory,
}

impl From<Memory> for RouteFault {
    ghost from_gives = { λ _ fault. fault ≡ IsMemory };

    fn from(_e: Memory) -> RouteFault {
        RouteFault::Memory
    }
}
