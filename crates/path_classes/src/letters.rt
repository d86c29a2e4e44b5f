// Letters: numbers that no item tells apart are one letter.
ghost use Rattle.std.specs.Prelude.{◌≡◌, ◌++◌, ◌∷◌, ◌-◌, ◌<◌, ◌^◌, ℕ, List, IfOk, OnOk, length, map};
ghost use Rattle.std.specs.List.{flat_map};
ghost use Rattle.path_patterns.specs.Items.{greatest, IsPath};
ghost use Rattle.path_classes.specs.Letters.{befores, turn_ends, line_ends, all_ends, turn_tests, signature, AreTold, LetterAdded, AllLettered, CutsAll};

use crate::lines::{Line, Turn};
use crate::numbers::Sorted;
use indexmap::IndexSet;
use route_types::{Memory, Row};
use std::alloc::Global;

/// The pieces into which the ends of all ranges cut the numbers: the last number of each piece, its letter, and a
/// number of each letter.
#[derive(Drop)]
pub(crate) struct Letters {
    pub(crate) ends: Sorted,
    pub(crate) letters: Row<usize>,
    pub(crate) numbers: Row<u32>,
}

// ---- where the numbers are cut

// Adds the numbers right before these ones.
#[tactic(auto, unfolding(crate::specs::Letters::befores))]
fn push_befores(out: &mut Vec<u32>, numbers: &[u32]) -> Result<(), Memory>
    ensures { OnOk result (out.new.items ≡ out.old.items ++ befores numbers.now) }
{
    let mut rest = numbers;
    while let [number, tail @ ..] = rest {
        if *number > 0 {
            out.push(*number - 1)?;
        }
        rest = tail;
    }
    Ok(())
}

// Adds the last numbers of the pieces into which the sets of these turns cut the numbers.
fn push_turn_ends(out: &mut Vec<u32>, turns: &[Turn]) -> Result<(), Memory>
    ensures { OnOk result (out.new.items ≡ out.old.items ++ flat_map turn_ends turns.now) }
{
    let mut rest = turns;
    while let [turn, tail @ ..] = rest {
        push_befores(out, turn.set.leasts.as_slice())?;
        out.extend_from_slice(turn.set.mosts.as_slice())?;
        rest = tail;
    }
    Ok(())
}

// The last numbers of all pieces; the greatest number is one of them.
fn all_ends(alloc: Global, lines: &[Line]) -> Result<Vec<u32>, Memory>
    ensures { IfOk result (λ es. es.items ≡ all_ends lines.now) }
{
    let mut found = Vec::new(alloc);
    found.push(u32::MAX)?;
    let mut rest = lines;
    while let [line, tail @ ..] = rest {
        push_turn_ends(&mut found, line.turns.as_slice())?;
        rest = tail;
    }
    Ok(found)
}

// ---- what the items say of a number

fn push_tests(out: &mut Row<bool>, turns: &[Turn], number: u32) -> Result<(), Memory>
    ensures { OnOk result (out.new ≡ out.old ++ map (turn_tests number) turns.now) }
{
    let mut rest = turns;
    while let [turn, tail @ ..] = rest {
        out.push(turn.set.holds(number))?;
        rest = tail;
    }
    Ok(())
}

// Which items have the number.
fn signature(alloc: Global, lines: &[Line], number: u32) -> Result<Row<bool>, Memory>
    ensures { IfOk result (λ s. s ≡ signature lines.now number) }
{
    let mut found = Row::new(alloc);
    let mut rest = lines;
    while let [line, tail @ ..] = rest {
        push_tests(&mut found, line.turns.as_slice(), number)?;
        rest = tail;
    }
    Ok(found)
}

// ---- letters

// The letter of a number: that of a number of which the items say the same, or a new one.
fn letter_of(
    alloc: Global,
    rows: &mut IndexSet<Row<bool>>,
    numbers: &mut Row<u32>,
    lines: &[Line],
    number: u32,
) -> Result<usize, Memory>
    ensures { IfOk result (λ x. AreTold lines.now rows.old.keys numbers.old → LetterAdded lines.now numbers.old rows.new.keys numbers.new number x) }
{
    let row = signature(alloc, lines, number)?;
    let (letter, is_new) = rows.insert_full(row)?;
    if is_new {
        numbers.push(number)?;
    }
    Ok(letter)
}

// The letter of each of these numbers, and a number of each letter.
fn letters_along(
    alloc: Global,
    lines: &[Line],
    ends: &[u32],
) -> Result<(Row<usize>, Row<u32>), Memory>
    ensures { IfOk result (λ r. AllLettered lines.now ends.now r.0 r.1) }
{
    let mut rows = IndexSet::new(alloc);
    let mut numbers = Row::new(alloc);
    let mut letters = Row::new(alloc);
    let mut rest = ends;
    while let [end, tail @ ..] = rest {
        letters.push(letter_of(alloc, &mut rows, &mut numbers, lines, *end)?)?;
        rest = tail;
    }
    Ok((letters, numbers))
}

/// The letters of all numbers. Its one error is want of memory.
pub(crate) fn letters_of(alloc: Global, lines: &[Line]) -> Result<Letters, Memory>
    ensures { IfOk result (λ l. CutsAll lines.now l.ends l.letters l.numbers) }
{
    let ends = Sorted::once_each(all_ends(alloc, lines)?);
    let (letters, numbers) = letters_along(alloc, lines, ends.as_slice())?;
    Ok(Letters {
        ends,
        letters,
        numbers,
    })
}
