ghost use Rattle.std.specs.Prelude.{◌≡◌, ℕ, ◌+◌, ◌-◌, ◌*◌, ◌<◌, ◌^◌, ◌++◌, ◌∷◌, List, IfOk, min};
ghost use Rattle.path_patterns.specs.DigitRanges.{within, chosen, runs, one_spread, each_spread, greatest_front, range_spread, all_spread, spread, all_digits, first_digits, digits_ranges, word_ranges, ranges_of_words, set_of_words};
ghost use Rattle.path_patterns.specs.MergedRanges.{joined};

use crate::items::{NumberRange, NumberSet};
use crate::merged::{joined, merged};
use crate::pattern::{DigitSet, DigitWord};
use route_types::{Memory, Row};
use std::alloc::Global;

const GREATEST: u64 = 4294967295;
// The greatest number that may stand before one more digit.
const GREATEST_FRONT: u32 = 429496729;

// The part of a range that has 32 bits.
fn push_within(out: &mut Vec<NumberRange>, least: u64, most: u64) -> Result<(), Memory>
    ensures { IfOk result (λ _. out.new.items ≡ out.old.items ++ within least most) }
{
    if least > GREATEST {
        return Ok(());
    }
    out.push(NumberRange {
        least: least as u32,
        most: most.min(GREATEST) as u32,
    })?;
    Ok(())
}

#[tactic(auto, unfolding(crate::specs::DigitRanges::chosen))]
fn push_digit(out: &mut Vec<NumberRange>, set: &DigitSet, digit: u8) -> Result<(), Memory>
    ensures { IfOk result (λ _. (rest : List ℕ) → out.new.items ++ chosen set.now rest ≡ out.old.items ++ chosen set.now (digit ∷ rest)) }
{
    if set.has(digit) {
        out.push(NumberRange {
            least: u32::from(digit),
            most: u32::from(digit),
        })?;
    }
    Ok(())
}

#[tactic(auto, unfolding(crate::specs::DigitRanges::chosen))]
pub(crate) fn chosen(
    alloc: Global,
    set: &DigitSet,
    digits: &[u8],
) -> Result<Vec<NumberRange>, Memory>
    ensures { IfOk result (λ found. found.items ≡ chosen set.now digits.now) }
{
    let mut found = Vec::new(alloc);
    let mut rest = digits;
    while let [digit, tail @ ..] = rest {
        push_digit(&mut found, set, *digit)?;
        rest = tail;
    }
    Ok(found)
}

// The runs of digits of a set: of all digits, or of those but 0.
pub(crate) fn runs(alloc: Global, set: &DigitSet, digits: &[u8]) -> Result<Row<NumberRange>, Memory>
    ensures { IfOk result (λ found. found ≡ runs set.now digits.now) }
{
    let digits = chosen(alloc, set, digits)?;
    joined(alloc, digits.as_slice())
}

// A number with a digit behind it.
fn longer(number: u64, digit: u32) -> u64
    requires { number < 2 ^ 33 }
    ensures { result ≡ 10 * number + digit }
{
    10 * number + u64::from(digit)
}

#[tactic(auto, unfolding(crate::specs::DigitRanges::one_spread))]
fn push_one(out: &mut Vec<NumberRange>, number: u64, runs: &[NumberRange]) -> Result<(), Memory>
    requires { number < 2 ^ 33 }
    ensures { IfOk result (λ _. out.new.items ≡ out.old.items ++ one_spread number runs.now) }
{
    let mut rest = runs;
    while let [run, tail @ ..] = rest {
        push_within(out, longer(number, run.least), longer(number, run.most))?;
        rest = tail;
    }
    Ok(())
}

// The numbers of a range, each with a digit of the runs behind it. A number of 32 bits has no greater front
// than the one named, so no number is tried in vain.
fn push_each(
    out: &mut Vec<NumberRange>,
    range: &NumberRange,
    runs: &[NumberRange],
) -> Result<(), Memory>
    ensures { IfOk result (λ _. out.new.items ≡ out.old.items ++ each_spread (min range.now.most greatest_front + 1 - range.now.least) range.now.least runs.now) }
{
    let end = u64::from(range.most.min(GREATEST_FRONT)) + 1;
    let mut number = u64::from(range.least);
    while number < end {
        push_one(out, number, runs)?;
        number += 1;
    }
    Ok(())
}

fn push_range(
    out: &mut Vec<NumberRange>,
    set: &DigitSet,
    runs: &[NumberRange],
    range: &NumberRange,
) -> Result<(), Memory>
    ensures { IfOk result (λ _. out.new.items ≡ out.old.items ++ range_spread set.now runs.now range.now) }
{
    if set.0 == 1023 {
        let least = 10 * u64::from(range.least);
        let most = 10 * u64::from(range.most) + 9;
        return push_within(out, least, most);
    }
    push_each(out, range, runs)
}

#[tactic(auto, unfolding(crate::specs::DigitRanges::all_spread))]
fn push_all(
    out: &mut Vec<NumberRange>,
    set: &DigitSet,
    runs: &[NumberRange],
    ranges: &[NumberRange],
) -> Result<(), Memory>
    ensures { IfOk result (λ _. out.new.items ≡ out.old.items ++ all_spread set.now runs.now ranges.now) }
{
    let mut rest = ranges;
    while let [range, tail @ ..] = rest {
        push_range(out, set, runs, range)?;
        rest = tail;
    }
    Ok(())
}

// The numbers of the ranges, each with a digit of the set behind it.
fn spread_by(
    alloc: Global,
    set: &DigitSet,
    ranges: &[NumberRange],
) -> Result<Row<NumberRange>, Memory>
    ensures { IfOk result (λ found. found ≡ joined (all_spread set.now (runs set.now all_digits) ranges.now)) }
{
    let runs = runs(alloc, set, &[0, 1, 2, 3, 4, 5, 6, 7, 8, 9])?;
    let mut found = Vec::new(alloc);
    push_all(&mut found, set, runs.as_slice(), ranges)?;
    joined(alloc, found.as_slice())
}

#[tactic(auto, unfolding(crate::specs::DigitRanges::spread))]
fn spread(
    alloc: Global,
    first: Row<NumberRange>,
    sets: &[DigitSet],
) -> Result<Row<NumberRange>, Memory>
    ensures { IfOk result (λ found. found ≡ spread first sets.now) }
{
    let mut ranges = first;
    let mut rest = sets;
    while let [set, tail @ ..] = rest {
        ranges = spread_by(alloc, set, ranges.as_slice())?;
        rest = tail;
    }
    Ok(ranges)
}

// The digits of the set that may stand before digits of the others.
pub(crate) fn first_runs(
    alloc: Global,
    set: &DigitSet,
    others: &[DigitSet],
) -> Result<Row<NumberRange>, Memory>
    ensures { IfOk result (λ found. found ≡ runs set.now (first_digits others.now)) }
{
    if others.is_empty() {
        return runs(alloc, set, &[0, 1, 2, 3, 4, 5, 6, 7, 8, 9]);
    }
    runs(alloc, set, &[1, 2, 3, 4, 5, 6, 7, 8, 9])
}

fn digits_ranges(alloc: Global, sets: &[DigitSet]) -> Result<Row<NumberRange>, Memory>
    ensures { IfOk result (λ found. found ≡ digits_ranges sets.now) }
{
    match sets {
        [] => Ok(Row::new(alloc)),
        [set, others @ ..] => spread(alloc, first_runs(alloc, set, others)?, others),
    }
}

fn push_row(out: &mut Vec<NumberRange>, ranges: &[NumberRange]) -> Result<(), Memory>
    ensures { IfOk result (λ _. out.new.items ≡ out.old.items ++ ranges.now) }
{
    out.extend_from_slice(ranges)?;
    Ok(())
}

fn push_word(alloc: Global, out: &mut Vec<NumberRange>, word: &DigitWord) -> Result<(), Memory>
    ensures { IfOk result (λ _. out.new.items ≡ out.old.items ++ word_ranges word.now) }
{
    match word {
        DigitWord::Any => push_within(out, 0, GREATEST),
        DigitWord::Digits(sets) => {
            let ranges = digits_ranges(alloc, sets.as_slice())?;
            push_row(out, ranges.as_slice())
        }
    }
}

#[tactic(auto, unfolding(crate::specs::DigitRanges::ranges_of_words))]
fn ranges_of_words(alloc: Global, words: &[DigitWord]) -> Result<Vec<NumberRange>, Memory>
    ensures { IfOk result (λ found. found.items ≡ ranges_of_words words.now) }
{
    let mut found = Vec::new(alloc);
    let mut rest = words;
    while let [word, tail @ ..] = rest {
        push_word(alloc, &mut found, word)?;
        rest = tail;
    }
    Ok(found)
}

/// The numbers, 0 to 4294967295, that one of the words spells. Its one error is want of memory.
pub(crate) fn set_of_words(alloc: Global, words: &[DigitWord]) -> Result<NumberSet, Memory>
    ensures { IfOk result (λ set. set ≡ set_of_words words.now) }
{
    let ranges = ranges_of_words(alloc, words)?;
    let set = NumberSet {
        ranges: Row::from_vec(ranges),
    };
    Ok(NumberSet {
        ranges: merged(alloc, &set)?,
    })
}
