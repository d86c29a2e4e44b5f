// The items that are written for the items of a branch: ranges in rising order, and bounds up to 255.
ghost use Rattle.std.specs.Prelude.{◌≡◌, ◌≤◌, ◌++◌, ◌∷◌, [], Some, IfOk, ◌==◌, not, length, replicate};
ghost use Rattle.path_patterns.specs.Items.{AtMost};
ghost use Rattle.path_patterns.specs.JunosItems.{most_left, never_taken, takes_none, item_of, ending_items, later_items, items_of, Adds, Writes};

use crate::counts::{is_above, is_nothing};
use crate::items::{NumberRange, NumberSet, TokenItem};
use crate::merged::merged;
use route_types::{Memory, Row};
use std::alloc::Global;

// The greatest bound that is written.
const GREATEST: u32 = 255;

fn never_taken(has_numbers: bool, least: u32, most: Option<u32>) -> bool
    ensures { result ≡ never_taken has_numbers least most }
{
    is_above(least, most) || (!has_numbers && 1 <= least)
}

fn takes_none(has_numbers: bool, least: u32, most: Option<u32>) -> bool
    ensures { result ≡ takes_none has_numbers least most }
{
    least == 0 && (!has_numbers || is_nothing(most))
}

fn add_item(
    alloc: Global,
    items: &mut Row<TokenItem>,
    ranges: &[NumberRange],
    least: u32,
    most: Option<u32>,
) -> Result<(), Memory>
    ensures { IfOk result (λ _. items.new ≡ items.old ++ item_of ranges.now least most ∷ []) }
{
    let set = NumberSet {
        ranges: Row::from_vec(Vec::from_slice(alloc, ranges)?),
    };
    items.push(TokenItem { set, least, most })
}

fn add_copies(
    alloc: Global,
    items: &mut Row<TokenItem>,
    ranges: &[NumberRange],
    count: u32,
    least: u32,
) -> Result<(), Memory>
    ensures { IfOk result (λ _. items.new ≡ items.old ++ replicate count (item_of ranges.now least (Some 255))) }
{
    for _turn in 0..count {
        add_item(alloc, items, ranges, least, Some(GREATEST))?;
    }
    Ok(())
}

fn add_ending(
    alloc: Global,
    items: &mut Row<TokenItem>,
    ranges: &[NumberRange],
    least: u32,
    most: u32,
) -> Result<(), Memory>
    ensures { IfOk result (λ _. items.new ≡ items.old ++ ending_items ranges.now least most) }
{
    if most <= GREATEST {
        return add_item(alloc, items, ranges, least, Some(most));
    }
    let rest = most - GREATEST - 1;
    add_item(alloc, items, ranges, least, Some(GREATEST))?;
    add_copies(alloc, items, ranges, rest / GREATEST, 0)?;
    add_item(alloc, items, ranges, 0, Some(rest % GREATEST + 1))
}

fn add_later(
    alloc: Global,
    items: &mut Row<TokenItem>,
    ranges: &[NumberRange],
    least: u32,
    most: Option<u32>,
) -> Result<(), Memory>
    ensures { IfOk result (λ _. items.new ≡ items.old ++ later_items ranges.now least most) }
{
    match most {
        None => add_item(alloc, items, ranges, least, None),
        Some(most) => add_ending(alloc, items, ranges, least, most),
    }
}

// What is left of an upper end behind so many numbers.
fn most_left(least: u32, most: Option<u32>, taken: u32) -> Option<u32>
    requires small { taken ≤ least }
    requires bound { AtMost least most }
    ensures { result ≡ most_left most taken }
{
    match most {
        None => None,
        Some(most) => Some(most - taken),
    }
}

// Puts the items of a count behind those that are there.
#[tactic(auto, unfolding(crate::specs::JunosItems::items_of))]
fn add_count(
    alloc: Global,
    items: &mut Row<TokenItem>,
    ranges: &[NumberRange],
    least: u32,
    most: Option<u32>,
) -> Result<(), Memory>
    requires { AtMost least most }
    ensures { IfOk result (λ _. items.new ≡ items.old ++ items_of ranges.now least most) }
{
    let full = least.saturating_sub(1) / GREATEST;
    let taken = full * GREATEST;
    let left = most_left(least, most, taken);
    add_copies(alloc, items, ranges, full, GREATEST)?;
    add_later(alloc, items, ranges, least - taken, left)
}

// Puts items behind those that are there, which take what the item takes; `false` where no path is taken
// behind it.
fn add_items(alloc: Global, items: &mut Row<TokenItem>, item: &TokenItem) -> Result<bool, Memory>
    ensures { IfOk result (λ answer. Adds item.now items.old items.new answer) }
{
    let ranges = merged(alloc, &item.set)?;
    let has_numbers = !ranges.is_empty();
    if never_taken(has_numbers, item.least, item.most) {
        return Ok(false);
    }
    if takes_none(has_numbers, item.least, item.most) {
        return Ok(true);
    }
    add_count(alloc, items, ranges.as_slice(), item.least, item.most)?;
    Ok(true)
}

/// Items that can be written, and that take the same paths; `None` where no path is taken. Its one error
/// is want of memory.
pub fn written(alloc: Global, items: &[TokenItem]) -> Result<Option<Row<TokenItem>>, Memory>
    ensures { IfOk result (λ found. Writes items.now found) }
{
    let mut found = Row::new(alloc);
    let mut rest = items;
    while let [item, tail @ ..] = rest {
        if !add_items(alloc, &mut found, item)? {
            return Ok(None);
        }
        rest = tail;
    }
    Ok(Some(found))
}
