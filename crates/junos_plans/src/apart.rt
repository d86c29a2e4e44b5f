// Whether of some prefixes none contains another, found by one sort.
ghost use Rattle.std.specs.Prelude.{◌≡◌, true, map, IfOk};
ghost use Rattle.std.specs.List.{All, AllByRecursion};
ghost use Rattle.junos_plans.specs.Apart.{AreApart, IsBlock, rise_from};
ghost use Rattle.junos_plans.specs.Fits.{FitsRange};

use prefix_sets::PrefixRange;
use route_types::Memory;
use std::alloc::Global;

// A range and the addresses of its prefix: the first, and the one past the last.
#[derive(Clone, Copy, Debug, PartialEq, Eq)]
pub(crate) struct Block {
    pub first: u128,
    pub past: u128,
    pub range: PrefixRange,
}

fn block_of(range: &PrefixRange) -> Block
    requires { FitsRange range.now }
    ensures range { result.range ≡ range.now }
    ensures block { IsBlock result }
{
    let prefix = range.prefix();
    let host = prefix.host_bits();
    let first = prefix.address().bits;
    Block {
        first,
        past: first + (1u128 << host),
        range: *range,
    }
}

fn blocks_of(alloc: Global, ranges: &[PrefixRange]) -> Result<Vec<Block>, Memory>
    requires { AllByRecursion FitsRange ranges.now }
    ensures ranges { IfOk result (λ bs. map (λ b. b.range) bs.items ≡ ranges.now) }
    ensures blocks { IfOk result (λ bs. All IsBlock bs.items) }
{
    let mut found = Vec::new(alloc);
    let mut rest = ranges;
    while let [first, tail @ ..] = rest {
        found.push(block_of(first))?;
        rest = tail;
    }
    Ok(found)
}

// Whether each block starts where the one before it has ended.
#[tactic(auto, unfolding(crate::specs::Apart::rise_from))]
fn rise_from(past: u128, blocks: &[Block]) -> bool
    ensures { result ≡ rise_from past blocks.now }
{
    let mut past = past;
    let mut rest = blocks;
    while let [first, tail @ ..] = rest {
        if first.first < past {
            return false;
        }
        past = first.past;
        rest = tail;
    }
    true
}

// Whether no prefix contains another: where it says so, none does.
pub(crate) fn are_apart(alloc: Global, ranges: &[PrefixRange]) -> Result<bool, Memory>
    requires { AllByRecursion FitsRange ranges.now }
    ensures { IfOk result (λ apart. apart ≡ true → AreApart ranges.now) }
{
    let mut sorted = blocks_of(alloc, ranges)?;
    sorted.sort_by_key(|block| block.first)?;
    let apart = rise_from(0, sorted.as_slice());
    Ok(apart)
}
