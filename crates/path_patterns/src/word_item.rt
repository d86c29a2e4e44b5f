ghost use Rattle.std.specs.Prelude.{◌≡◌, ◌≤◌, ℕ, true, false, cond, ◌==◌, IfOk, Some};
ghost use Rattle.std.specs.List.{list_any};
ghost use Rattle.path_patterns.specs.Items.{in_range, in_set};
ghost use Rattle.path_patterns.specs.Counts.{is_above, is_nothing};
ghost use Rattle.path_patterns.specs.MergedRanges.{AreRising};
ghost use Rattle.path_patterns.specs.WordItems.{first_number, BecomesWords, AddsItem, BecomeWords};
ghost use Rattle.path_patterns.specs.declared.word_item.ItemWords.TheVariants.{Never as IsNever, Absent as IsAbsent};

use crate::counts::{is_above, is_nothing};
use crate::items::{NumberRange, TokenItem};
use crate::merged::merged;
use crate::pattern::DigitWord;
use crate::range_words::range_words;
use route_types::{Memory, Row};
use std::alloc::Global;

/// Takes `least` to `most` numbers of a path, each of them spelled by one of the words. `None` is no
/// upper end.
#[derive(Debug, Drop)]
pub struct WordItem {
    pub words: Row<DigitWord>,
    pub least: u32,
    pub most: Option<u32>,
}

/// What an item of a pattern becomes.
#[derive(Debug, Drop)]
pub(crate) enum ItemWords {
    /// No path is taken.
    Never,
    /// No number is taken.
    Absent,
    /// It takes what this item takes.
    There(WordItem),
}

fn first_number(ranges: &[NumberRange]) -> Option<u32>
    ensures { result ≡ first_number ranges.now }
{
    match ranges {
        [] => None,
        [first, ..] => Some(first.least),
    }
}

// An item whose set has no number.
fn without_numbers(least: u32) -> ItemWords
    ensures { result ≡ cond (least == 0) IsAbsent IsNever }
{
    if least == 0 {
        return ItemWords::Absent;
    }
    ItemWords::Never
}

// An item whose set has these ranges, and some number.
fn with_words(
    alloc: Global,
    item: &TokenItem,
    ranges: &[NumberRange],
    number: u32,
) -> Result<ItemWords, Memory>
    requires counts { is_above item.now.least item.now.most ≡ false }
    requires one { is_nothing item.now.most ≡ false }
    requires rising { AreRising ranges.now }
    requires same { (n : ℕ) → list_any (λ r. in_range r n) ranges.now ≡ in_set item.now.set n }
    requires first { Some number ≡ first_number ranges.now }
    ensures { IfOk result (λ words. BecomesWords item.now words) }
{
    let words = range_words(alloc, ranges)?;
    Ok(ItemWords::There(WordItem {
        words,
        least: item.least,
        most: item.most,
    }))
}

fn item_words(alloc: Global, item: &TokenItem) -> Result<ItemWords, Memory>
    ensures { IfOk result (λ words. BecomesWords item.now words) }
{
    if is_above(item.least, item.most) {
        return Ok(ItemWords::Never);
    }
    if is_nothing(item.most) {
        return Ok(ItemWords::Absent);
    }
    let ranges = merged(alloc, &item.set)?;
    match first_number(ranges.as_slice()) {
        None => Ok(without_numbers(item.least)),
        Some(number) => with_words(alloc, item, ranges.as_slice(), number),
    }
}

// Puts an item behind those that were found; false where no path is taken behind it.
fn add_item(alloc: Global, found: &mut Row<WordItem>, item: &TokenItem) -> Result<bool, Memory>
    ensures { IfOk result (λ there. AddsItem found.old item.now found.new there) }
{
    match item_words(alloc, item)? {
        ItemWords::Never => Ok(false),
        ItemWords::Absent => Ok(true),
        ItemWords::There(words) => {
            found.push(words)?;
            Ok(true)
        }
    }
}

/// Items of digit words that take the same paths. `None` comes exactly where no path is taken. Its one
/// error is want of memory.
pub fn word_items(alloc: Global, items: &[TokenItem]) -> Result<Option<Row<WordItem>>, Memory>
    ensures { IfOk result (λ found. BecomeWords items.now found) }
{
    let mut found = Row::new(alloc);
    let mut rest = items;
    while let [item, tail @ ..] = rest {
        if !add_item(alloc, &mut found, item)? {
            return Ok(None);
        }
        rest = tail;
    }
    Ok(Some(found))
}
