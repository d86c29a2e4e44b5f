// Ranges joined where they overlap or touch, and the ranges of a set in rising order.
ghost use Rattle.std.specs.Prelude.{◌≡◌, ◌++◌, ◌∷◌, [], ℕ, false, IfOk, OnOk, filter};
ghost use Rattle.std.specs.List.{list_any};
ghost use Rattle.path_patterns.specs.Items.{in_range, in_set};
ghost use Rattle.path_patterns.specs.MergedRanges.{AreRising, AreInOrder, has_number, is_wide, touches, both_ranges, joined_from, joined, rising};

use crate::items::{NumberRange, NumberSet};
use route_types::{Memory, Row};
use std::alloc::Global;

fn keep(kept: &mut Vec<NumberRange>, range: &NumberRange) -> Result<(), Memory>
    ensures kept { IfOk result (λ _. kept.new.items ≡ kept.old.items ++ filter has_number (range.now ∷ [])) }
    ensures bounded { OnOk result (list_any is_wide kept.new.items ≡ list_any is_wide kept.old.items) }
{
    if range.least <= range.most {
        kept.push(*range)?;
    }
    Ok(())
}

fn with_numbers(alloc: Global, ranges: &[NumberRange]) -> Result<Vec<NumberRange>, Memory>
    ensures kept { IfOk result (λ kept. kept.items ≡ filter has_number ranges.now) }
    ensures bounded { IfOk result (λ kept. list_any is_wide kept.items ≡ false) }
{
    let mut kept = Vec::new(alloc);
    let mut rest = ranges;
    while let [range, tail @ ..] = rest {
        keep(&mut kept, range)?;
        rest = tail;
    }
    Ok(kept)
}

// The ranges that have a number, by their least numbers.
fn in_order(alloc: Global, ranges: &[NumberRange]) -> Result<Vec<NumberRange>, Memory>
    ensures same { IfOk result (λ kept. (n : ℕ) → list_any (λ r. in_range r n) kept.items ≡ list_any (λ r. in_range r n) ranges.now) }
    ensures ordered { IfOk result (λ kept. AreInOrder kept.items) }
    ensures bounded { IfOk result (λ kept. list_any is_wide kept.items ≡ false) }
{
    let mut kept = with_numbers(alloc, ranges)?;
    kept.sort_by_key(|range| range.least)?;
    Ok(kept)
}

fn touches(range: &NumberRange, next: &NumberRange) -> bool
    ensures { result ≡ touches range.now next.now }
{
    range.least <= next.least && u64::from(next.least) <= u64::from(range.most) + 1
}

fn both_ranges(range: &NumberRange, next: &NumberRange) -> NumberRange
    ensures { result ≡ both_ranges range.now next.now }
{
    NumberRange {
        least: range.least,
        most: range.most.max(next.most),
    }
}

#[tactic(auto, unfolding(crate::specs::MergedRanges::joined_from))]
fn joined_from(
    alloc: Global,
    first: NumberRange,
    others: &[NumberRange],
) -> Result<Row<NumberRange>, Memory>
    ensures { IfOk result (λ joined. joined ≡ joined_from first others.now) }
{
    let mut joined = Row::new(alloc);
    let mut held = first;
    let mut rest = others;
    while let [next, tail @ ..] = rest {
        if touches(&held, next) {
            held = both_ranges(&held, next);
        } else {
            joined.push(held)?;
            held = *next;
        }
        rest = tail;
    }
    joined.push(held)?;
    Ok(joined)
}

/// The ranges in their order, each joined to the one before it where they touch. Its one error is want of
/// memory.
pub(crate) fn joined(alloc: Global, ranges: &[NumberRange]) -> Result<Row<NumberRange>, Memory>
    ensures { IfOk result (λ found. found ≡ joined ranges.now) }
{
    match ranges {
        [] => Ok(Row::new(alloc)),
        [first, others @ ..] => joined_from(alloc, *first, others),
    }
}

/// The ranges of a set in rising order, without empty ones, joined where they overlap or touch. Its one
/// error is want of memory.
pub(crate) fn merged(alloc: Global, set: &NumberSet) -> Result<Row<NumberRange>, Memory>
    ensures exact { IfOk result (λ rs. rs ≡ rising set.now.ranges) }
    ensures same { IfOk result (λ rs. AreRising rs × ((n : ℕ) → list_any (λ r. in_range r n) rs ≡ in_set set.now n)) }
    ensures bounded { IfOk result (λ rs. list_any is_wide rs ≡ false) }
{
    let ordered = in_order(alloc, set.ranges.as_slice())?;
    joined(alloc, ordered.as_slice())
}
