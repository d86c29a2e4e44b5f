// The numbers of an item, by the ends of its ranges: a number is in the set where more ranges begin up to it than end
// below it.
ghost use Rattle.std.specs.Prelude.{◌≡◌, ◌++◌, ◌<◌, ◌^◌, ℕ, true, IfOk, OnOk};
ghost use Rattle.path_patterns.specs.Items.{in_range, in_set};
ghost use Rattle.path_classes.specs.Numbers.{in_ends, leasts_of, mosts_of, is_whole};

use crate::numbers::Sorted;
use aspath_text::{NumberRange, NumberSet};
use route_types::Memory;
use std::alloc::Global;

/// The first and the last numbers of the ranges of a set.
#[derive(Debug, Drop)]
pub(crate) struct RangeEnds {
    pub(crate) leasts: Sorted,
    pub(crate) mosts: Sorted,
}

impl RangeEnds {
    /// The ends of a set's ranges. Its one error is want of memory.
    pub(crate) fn of(alloc: Global, set: &NumberSet) -> Result<RangeEnds, Memory>
        ensures { IfOk result (λ e. (n : ℕ) → in_ends e.leasts e.mosts n ≡ in_set set.now n) }
    {
        let ranges = set.ranges.as_slice();
        Ok(RangeEnds {
            leasts: Sorted::from_vec(leasts_of(alloc, ranges)?),
            mosts: Sorted::from_vec(mosts_of(alloc, ranges)?),
        })
    }

    /// Whether the number is in the set. It takes no memory.
    pub(crate) fn holds(&self, number: u32) -> bool
        ensures { result ≡ in_ends self.now.leasts self.now.mosts number }
    {
        self.mosts.below(number) < self.leasts.up_to(number)
    }
}

// The first numbers of the ranges that have numbers.
#[tactic(auto, unfolding(crate::specs::Numbers::leasts_of))]
fn leasts_of(alloc: Global, ranges: &[NumberRange]) -> Result<Vec<u32>, Memory>
    ensures { IfOk result (λ found. found.items ≡ leasts_of ranges.now) }
{
    let mut found = Vec::new(alloc);
    let mut rest = ranges;
    while let [range, tail @ ..] = rest {
        if range.least <= range.most {
            found.push(range.least)?;
        }
        rest = tail;
    }
    Ok(found)
}

// The last numbers of the ranges that have numbers.
#[tactic(auto, unfolding(crate::specs::Numbers::mosts_of))]
fn mosts_of(alloc: Global, ranges: &[NumberRange]) -> Result<Vec<u32>, Memory>
    ensures { IfOk result (λ found. found.items ≡ mosts_of ranges.now) }
{
    let mut found = Vec::new(alloc);
    let mut rest = ranges;
    while let [range, tail @ ..] = rest {
        if range.least <= range.most {
            found.push(range.most)?;
        }
        rest = tail;
    }
    Ok(found)
}

/// Whether one range of the set has all numbers. It takes no memory.
pub(crate) fn is_whole(set: &NumberSet) -> bool
    ensures { result ≡ is_whole set.now }
{
    set.ranges
        .as_slice()
        .iter()
        .any(|range| range.least == 0 && range.most == u32::MAX)
}
