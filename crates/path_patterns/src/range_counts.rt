// How many ranges the words of a pattern make, counted from their digits.
ghost use Rattle.std.specs.Prelude.{◌≡◌, ◌*◌, ◌^◌, ◌-◌, ◌≤◌, ◌∷◌, List, IfOk, length};
ghost use Rattle.std.specs.List.{list_all};
ghost use Rattle.path_patterns.specs.DigitRanges.{chosen, all_digits, first_digits};
ghost use Rattle.path_patterns.specs.RangeCounts.{ranges_with, ranges_behind, word_count, words_count, few_ranges, few_in_tails, few_in_piece, few_in_branch, few_in_pattern, capped};
ghost use Rattle.path_patterns.specs.declared.pattern.DigitSet.{DigitSet};
ghost use Rattle.path_patterns.specs.declared.pattern.DigitWord.TheVariants.{Digits};
ghost use Rattle.path_patterns.specs.declared.pattern.Piece.TheVariants.{Set};

use crate::digit_ranges::{chosen, first_runs, runs};
use crate::pattern::{DigitSet, DigitWord, IosBranch, Piece, PieceSet, Tail};
use route_types::Memory;
use std::alloc::Global;

// The most ranges that a set of words may make.
const MOST_RANGES: u64 = 1048576;

fn numbers_with(alloc: Global, set: &DigitSet, numbers: u64) -> Result<u64, Memory>
    ensures { IfOk result (λ n. n ≡ capped (numbers * length (chosen set.now all_digits))) }
{
    let digits = chosen(alloc, set, &[0, 1, 2, 3, 4, 5, 6, 7, 8, 9])?;
    Ok(numbers.saturating_mul(digits.len() as u64))
}

fn ranges_with(alloc: Global, set: &DigitSet, numbers: u64, ranges: u64) -> Result<u64, Memory>
    ensures { IfOk result (λ n. n ≡ capped (ranges_with set.now numbers ranges)) }
{
    if set.0 == 1023 {
        return Ok(ranges);
    }
    let runs = runs(alloc, set, &[0, 1, 2, 3, 4, 5, 6, 7, 8, 9])?;
    Ok(numbers.saturating_mul(runs.len() as u64))
}

// So many numbers in so many ranges.
#[derive(Clone, Copy)]
struct Count {
    numbers: u64,
    ranges: u64,
}

// With one more digit behind each number.
#[tactic(auto, using(crate::proofs::RangeCounts::step_is))]
fn count_with(alloc: Global, set: &DigitSet, count: Count) -> Result<Count, Memory>
    ensures step { IfOk result (λ n. (rest : List DigitSet) → capped (ranges_behind n.numbers n.ranges rest) ≡ capped (ranges_behind count.numbers count.ranges (set.now ∷ rest))) }
    ensures within { IfOk result (λ n. n.ranges ≤ 2 ^ 64 - 1) }
{
    let numbers = numbers_with(alloc, set, count.numbers)?;
    let ranges = ranges_with(alloc, set, count.numbers, count.ranges)?;
    Ok(Count { numbers, ranges })
}

#[tactic(auto, unfolding(crate::specs::RangeCounts::ranges_behind))]
fn ranges_behind(alloc: Global, first: Count, sets: &[DigitSet]) -> Result<u64, Memory>
    ensures { IfOk result (λ n. n ≡ capped (ranges_behind first.numbers first.ranges sets.now)) }
{
    let mut count = first;
    let mut rest = sets;
    while let [set, tail @ ..] = rest {
        count = count_with(alloc, set, count)?;
        rest = tail;
    }
    Ok(count.ranges)
}

fn first_numbers(alloc: Global, set: &DigitSet, others: &[DigitSet]) -> Result<u64, Memory>
    ensures { IfOk result (λ n. n ≡ length (chosen set.now (first_digits others.now))) }
{
    if others.is_empty() {
        let digits = chosen(alloc, set, &[0, 1, 2, 3, 4, 5, 6, 7, 8, 9])?;
        return Ok(digits.len() as u64);
    }
    let digits = chosen(alloc, set, &[1, 2, 3, 4, 5, 6, 7, 8, 9])?;
    Ok(digits.len() as u64)
}

fn digits_count(alloc: Global, sets: &[DigitSet]) -> Result<u64, Memory>
    ensures { IfOk result (λ n. n ≡ capped (word_count (Digits sets.now))) }
{
    match sets {
        [] => Ok(0),
        [set, others @ ..] => {
            let numbers = first_numbers(alloc, set, others)?;
            let ranges = first_runs(alloc, set, others)?;
            let ranges = ranges.len() as u64;
            ranges_behind(alloc, Count { numbers, ranges }, others)
        }
    }
}

fn word_count(alloc: Global, word: &DigitWord) -> Result<u64, Memory>
    ensures { IfOk result (λ n. n ≡ capped (word_count word.now)) }
{
    match word {
        DigitWord::Any => Ok(1),
        DigitWord::Digits(sets) => digits_count(alloc, sets.as_slice()),
    }
}

#[tactic(auto, unfolding(crate::specs::RangeCounts::words_count))]
fn words_count(alloc: Global, words: &[DigitWord]) -> Result<u64, Memory>
    ensures { IfOk result (λ n. n ≡ capped (words_count words.now)) }
{
    let mut count = 0u64;
    let mut rest = words;
    while let [word, tail @ ..] = rest {
        count = count.saturating_add(word_count(alloc, word)?);
        rest = tail;
    }
    Ok(count)
}

fn few_ranges(alloc: Global, words: &[DigitWord]) -> Result<bool, Memory>
    ensures { IfOk result (λ few. few ≡ few_ranges words.now) }
{
    let count = words_count(alloc, words)?;
    Ok(count <= MOST_RANGES)
}

fn few_in_tails(alloc: Global, tails: &[Tail]) -> Result<bool, Memory>
    ensures { IfOk result (λ few. few ≡ few_in_tails tails.now) }
{
    let mut rest = tails;
    while let [tail, behind @ ..] = rest {
        if !few_ranges(alloc, tail.words.as_slice())? {
            return Ok(false);
        }
        rest = behind;
    }
    Ok(true)
}

fn few_in_piece(alloc: Global, piece: &Piece) -> Result<bool, Memory>
    ensures { IfOk result (λ few. few ≡ few_in_piece piece.now) }
{
    match piece {
        Piece::Anything => Ok(true),
        Piece::Set(set) => few_in_set(alloc, set),
    }
}

fn few_in_set(alloc: Global, set: &PieceSet) -> Result<bool, Memory>
    ensures { IfOk result (λ few. few ≡ few_in_piece (Set set.now)) }
{
    if !few_ranges(alloc, set.words.as_slice())? {
        return Ok(false);
    }
    few_in_tails(alloc, set.tails.as_slice())
}

fn few_in_pieces(alloc: Global, pieces: &[Piece]) -> Result<bool, Memory>
    ensures { IfOk result (λ few. few ≡ list_all few_in_piece pieces.now) }
{
    let mut rest = pieces;
    while let [piece, tail @ ..] = rest {
        if !few_in_piece(alloc, piece)? {
            return Ok(false);
        }
        rest = tail;
    }
    Ok(true)
}

fn few_in_branch(alloc: Global, branch: &IosBranch) -> Result<bool, Memory>
    ensures { IfOk result (λ few. few ≡ few_in_branch branch.now) }
{
    match branch {
        IosBranch::EmptyPath => Ok(true),
        IosBranch::Pieces(pieces) => few_in_pieces(alloc, pieces.pieces.as_slice()),
    }
}

/// Whether each set of words of the branches makes at most 1,048,576 ranges. Its one error is want of memory.
pub(crate) fn few_in_pattern(alloc: Global, branches: &[IosBranch]) -> Result<bool, Memory>
    ensures { IfOk result (λ few. few ≡ few_in_pattern branches.now) }
{
    let mut rest = branches;
    while let [branch, tail @ ..] = rest {
        if !few_in_branch(alloc, branch)? {
            return Ok(false);
        }
        rest = tail;
    }
    Ok(true)
}
