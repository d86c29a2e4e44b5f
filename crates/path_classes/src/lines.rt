// The branches of all patterns in one list, each with the place of its pattern.
ghost use Rattle.std.specs.Prelude.{◌≡◌, ◌++◌, ◌+◌, ℕ, true, IfOk, OnOk, length, map};
ghost use Rattle.path_patterns.specs.Items.{takes_of};
ghost use Rattle.path_classes.specs.Lines.{turn_takes, line_view, branch_view, views_from, AreSound, AreSoundTurns, IsSound};

use crate::ranges::{RangeEnds, is_whole};
use aspath_text::{TokenBranch, TokenItem, TokenPattern};
use route_types::{Memory, Row};
use std::alloc::Global;

/// An item of a branch: it takes `least` to `most` numbers of the set; `whole` sets have all numbers.
#[derive(Debug, Drop)]
pub(crate) struct Turn {
    pub(crate) set: RangeEnds,
    pub(crate) least: u32,
    pub(crate) most: Option<u32>,
    pub(crate) whole: bool,
}

/// A branch of the pattern at a place of the list of patterns.
#[derive(Debug, Drop)]
pub(crate) struct Line {
    pub(crate) pattern: usize,
    pub(crate) turns: Row<Turn>,
}

fn turn_of(alloc: Global, item: &TokenItem) -> Result<Turn, Memory>
    ensures takes { IfOk result (λ t. turn_takes t ≡ takes_of item.now) }
    ensures sound { IfOk result IsSound }
{
    Ok(Turn {
        set: RangeEnds::of(alloc, &item.set)?,
        least: item.least,
        most: item.most,
        whole: is_whole(&item.set),
    })
}

fn turns_of(alloc: Global, items: &[TokenItem]) -> Result<Row<Turn>, Memory>
    ensures takes { IfOk result (λ ts. map turn_takes ts ≡ map takes_of items.now) }
    ensures sound { IfOk result AreSoundTurns }
{
    let mut found = Row::new(alloc);
    let mut rest = items;
    while let [item, tail @ ..] = rest {
        found.push(turn_of(alloc, item)?)?;
        rest = tail;
    }
    Ok(found)
}

// Adds the branches of the pattern at this place.
fn push_lines(
    alloc: Global,
    out: &mut Row<Line>,
    pattern: usize,
    branches: &[TokenBranch],
) -> Result<(), Memory>
    ensures views { OnOk result (map line_view out.new ≡ map line_view out.old ++ map (branch_view pattern) branches.now) }
    ensures sound { OnOk result (AreSound out.old → AreSound out.new) }
{
    let mut rest = branches;
    while let [branch, tail @ ..] = rest {
        let turns = turns_of(alloc, branch.items.as_slice())?;
        out.push(Line { pattern, turns })?;
        rest = tail;
    }
    Ok(())
}

/// The branches of all patterns, in order. Its one error is want of memory.
#[tactic(auto, unfolding(crate::specs::Lines::views_from))]
pub(crate) fn lines_of(alloc: Global, patterns: &[TokenPattern]) -> Result<Row<Line>, Memory>
    ensures views { IfOk result (λ ls. map line_view ls ≡ views_from 0 patterns.now) }
    ensures sound { IfOk result AreSound }
{
    let mut found = Row::new(alloc);
    let mut place = 0;
    let mut rest = patterns;
    while let [pattern, tail @ ..] = rest {
        push_lines(alloc, &mut found, place, pattern.branches.as_slice())?;
        place += 1;
        rest = tail;
    }
    Ok(found)
}
