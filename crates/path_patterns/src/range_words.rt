ghost use Rattle.std.specs.Prelude.{◌≡◌, ℕ, ◌+◌, ◌-◌, ◌/◌, ◌%◌, ◌^◌, ◌<◌, ◌≤◌, [], ◌∷◌, ◌++◌, IfOk, length};
ghost use Rattle.std.specs.List.{list_any, AllByRecursion};
ghost use Rattle.path_patterns.specs.Items.{in_range};
ghost use Rattle.path_patterns.specs.PathItems.{words_hold};
ghost use Rattle.path_patterns.specs.RangeWords.{run_of, last_digit, IsBlock, IsGrown, AreRuns, HaveNumbers, AreWordsBefore};
ghost use Rattle.path_patterns.specs.Shape.{IsDigitWord};
ghost use Rattle.path_patterns.specs.declared.pattern.DigitWord.TheVariants.{Digits};

use crate::items::NumberRange;
use crate::pattern::{DigitSet, DigitWord};
use route_types::{Memory, Row};
use std::alloc::Global;

// Digits that spell the numbers from one to a last one.
#[derive(Drop)]
struct Block {
    sets: Row<DigitSet>,
    last: u32,
}

/// Digit words that spell the numbers of the ranges, and no others of 32 bits; each of their sets is
/// one run of digits. A range is split from its least number upwards, each time by the greatest block of
/// numbers that has one front, one run of digits and any digits behind it. Its one error is want of
/// memory.
#[tactic(auto, using(crate::proofs::RangeWordsGrown::all_hold, crate::proofs::RangeWordsGrown::some_words))]
pub(crate) fn range_words(alloc: Global, ranges: &[NumberRange]) -> Result<Row<DigitWord>, Memory>
    ensures shaped { IfOk result (λ ws. AllByRecursion IsDigitWord ws) }
    ensures runs { IfOk result (λ ws. AreRuns ws) }
    ensures holds { IfOk result (λ ws. (n : ℕ) → n < 2 ^ 32 → words_hold ws n ≡ list_any (λ r. in_range r n) ranges.now) }
    // Where there are ranges and none is empty, there are words.
    ensures some { IfOk result (λ ws. HaveNumbers ranges.now → 1 ≤ length ranges.now → 1 ≤ length ws) }
{
    words_of(alloc, ranges)
}

#[tactic(auto, using(crate::proofs::RangeWordsGrown::before_first))]
fn words_of(alloc: Global, ranges: &[NumberRange]) -> Result<Row<DigitWord>, Memory>
    ensures { IfOk result (λ ws. AreWordsBefore ws [] ranges.now) }
{
    let mut words = Vec::new(alloc);
    let mut rest = ranges;
    while let [range, tail @ ..] = rest {
        push_range(alloc, &mut words, range)?;
        rest = tail;
    }
    Ok(Row::from_vec(words))
}

#[tactic(auto, using(crate::proofs::RangeWordsGrown::grown_any, crate::proofs::RangeWordsGrown::grown_empty))]
fn push_range(alloc: Global, out: &mut Vec<DigitWord>, range: &NumberRange) -> Result<(), Memory>
    ensures { IfOk result (λ _. IsGrown out.old.items out.new.items (in_range range.now)) }
{
    if range.least == 0 && range.most == u32::MAX {
        out.push(DigitWord::Any)?;
        return Ok(());
    }
    if range.most < range.least {
        return Ok(());
    }
    push_blocks(alloc, out, range)
}

fn push_blocks(alloc: Global, out: &mut Vec<DigitWord>, range: &NumberRange) -> Result<(), Memory>
    requires { range.now.least ≤ range.now.most }
    ensures { IfOk result (λ _. IsGrown out.old.items out.new.items (in_range range.now)) }
{
    let end = u64::from(range.most) + 1;
    let mut next = u64::from(range.least);
    while next < end {
        let block = block_from(alloc, next as u32, range.most)?;
        next = u64::from(block.last) + 1;
        push_word(out, block.sets)?;
    }
    Ok(())
}

fn push_word(out: &mut Vec<DigitWord>, sets: Row<DigitSet>) -> Result<(), Memory>
    ensures { IfOk result (λ _. out.new.items ≡ out.old.items ++ Digits sets ∷ []) }
{
    out.push(DigitWord::Digits(sets))?;
    Ok(())
}

// The set of the digits from one to another.
fn run(first: u32, last: u32) -> DigitSet
    requires rises { first ≤ last }
    requires digit { last ≤ 9 }
    ensures { result ≡ run_of first last }
{
    DigitSet((2u16 << last) - (1u16 << first))
}

fn last_digit(least: u32, most: u32) -> u32
    requires { least ≤ most }
    ensures value { result ≡ last_digit least most }
    ensures rises { least % 10 ≤ result }
    ensures digit { result ≤ 9 }
    ensures within { least + (result - least % 10) ≤ most }
{
    let digit = least % 10;
    let room = most - least;
    if room <= 9 - digit { digit + room } else { 9 }
}

// The greatest block of the numbers from `least` to `most` that starts with `least`.
fn block_from(alloc: Global, least: u32, most: u32) -> Result<Block, Memory>
    requires { least ≤ most }
    ensures { IfOk result (λ b. IsBlock least most b.sets b.last) }
{
    if least > 0 && least % 10 == 0 && most - least >= 9 {
        let fronts = block_from(alloc, least / 10, (most - 9) / 10)?;
        return full_block(fronts, least, most);
    }
    if least < 10 {
        return first_block(alloc, least, most);
    }
    let front = block_from(alloc, least / 10, least / 10)?;
    longer_block(front, least, most)
}

// Sets with a run of digits behind them.
fn with_run(front: Row<DigitSet>, first: u32, last: u32) -> Result<Row<DigitSet>, Memory>
    requires rises { first ≤ last }
    requires digit { last ≤ 9 }
    ensures { IfOk result (λ sets. sets ≡ front ++ run_of first last ∷ []) }
{
    let mut sets = front;
    sets.push(run(first, last))?;
    Ok(sets)
}

// All digits behind each front.
fn full_block(fronts: Block, least: u32, most: u32) -> Result<Block, Memory>
    requires some { 0 < least }
    requires even { least % 10 ≡ 0 }
    requires room { least + 9 ≤ most }
    requires fronts { IsBlock (least / 10) ((most - 9) / 10) fronts.sets fronts.last }
    ensures { IfOk result (λ b. IsBlock least most b.sets b.last) }
{
    let last = 10 * fronts.last + 9;
    let sets = with_run(fronts.sets, 0, 9)?;
    Ok(Block { sets, last })
}

// A number of one digit, and those behind it.
#[tactic(auto, using(crate::proofs::RangeWordsBlock::first_is))]
fn first_block(alloc: Global, least: u32, most: u32) -> Result<Block, Memory>
    requires few { least < 10 }
    requires rises { least ≤ most }
    ensures { IfOk result (λ b. IsBlock least most b.sets b.last) }
{
    let last = last_digit(least, most);
    let sets = with_run(Row::new(alloc), least, last)?;
    Ok(Block { sets, last })
}

// A number of more digits, and those that differ from it in the last digit.
fn longer_block(front: Block, least: u32, most: u32) -> Result<Block, Memory>
    requires many { 10 ≤ least }
    requires rises { least ≤ most }
    requires front { IsBlock (least / 10) (least / 10) front.sets front.last }
    ensures { IfOk result (λ b. IsBlock least most b.sets b.last) }
{
    let digit = least % 10;
    let last = last_digit(least, most);
    let sets = with_run(front.sets, digit, last)?;
    Ok(Block {
        sets,
        last: least + (last - digit),
    })
}
