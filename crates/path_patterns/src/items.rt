ghost use Rattle.std.specs.Prelude.{◌≡◌};
ghost use Rattle.path_patterns.specs.Items.{in_range, in_set};

use route_types::Row;

/// The AS numbers from `least` to `most`, both of them included; none where `least` is above `most`.
#[derive(Clone, Copy, Debug, PartialEq, Eq, Hash)]
pub struct NumberRange {
    pub least: u32,
    pub most: u32,
}

/// A set of AS numbers: those of its ranges, which stand in any order and may overlap.
#[derive(Debug, PartialEq, Eq, Hash, Drop)]
pub struct NumberSet {
    pub ranges: Row<NumberRange>,
}

/// Takes `least` to `most` numbers of a path, one after the other, each of them in the set. `None` is
/// no upper end; where `most` is below `least` no count of numbers is taken.
#[derive(Debug, PartialEq, Eq, Hash, Drop)]
pub struct TokenItem {
    pub set: NumberSet,
    pub least: u32,
    pub most: Option<u32>,
}

/// Items that together take a whole path, each in its turn.
#[derive(Debug, PartialEq, Eq, Hash, Drop)]
pub struct TokenBranch {
    pub items: Row<TokenItem>,
}

/// A pattern over the numbers of a path: it matches a path where some branch takes the whole path.
#[derive(Debug, PartialEq, Eq, Hash, Drop)]
pub struct TokenPattern {
    pub branches: Row<TokenBranch>,
}

impl NumberRange {
    /// Whether the number lies in the range.
    pub fn holds(&self, number: u32) -> bool
        ensures { result ≡ in_range self.now number }
    {
        self.least <= number && number <= self.most
    }
}

impl NumberSet {
    /// Whether the number lies in one of the ranges.
    pub fn holds(&self, number: u32) -> bool
        ensures { result ≡ in_set self.now number }
    {
        self.ranges
            .as_slice()
            .iter()
            .any(|range| range.holds(number))
    }
}
