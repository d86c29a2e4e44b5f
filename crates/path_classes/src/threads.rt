// How far a path has come in a line: threads, and where a number leads one.
ghost use Rattle.std.specs.Prelude.{◌≡◌, ◌++◌, ◌-◌, ◌<◌, ◌^◌, ◌==◌, ◌∷◌, [], IfOk, OnOk, length};
ghost use Rattle.path_patterns.specs.PathMatches.{has_room, one_fewer};
ghost use Rattle.path_classes.specs.Threads.{turns_at, last_turns, stays_always, stay, entered, after, next_inside, next, starts_from};

use crate::lines::{Line, Turn};
use route_types::{Memory, Row};
use std::alloc::Global;

/// Where a path stands in a line: before or amid the first of the `left` last turns, which takes `least` to `most`
/// more numbers.
#[derive(Clone, Copy, Debug, PartialEq, Eq, Hash)]
pub(crate) struct Inside {
    pub(crate) line: usize,
    pub(crate) left: usize,
    pub(crate) least: u32,
    pub(crate) most: Option<u32>,
}

/// What a path may still be followed by.
#[derive(Clone, Copy, Debug, PartialEq, Eq, Hash)]
pub(crate) enum Stage {
    /// Anything.
    Always,
    /// Nothing.
    Ended,
    /// One number for a turn at least.
    Inside(Inside),
}

/// One way in which a pattern may match a path that goes on.
#[derive(Clone, Copy, Debug, PartialEq, Eq, Hash)]
pub(crate) struct Thread {
    pub(crate) pattern: usize,
    pub(crate) stage: Stage,
}

// The turns of a line from the place on at which so many are left.
fn last_turns(turns: &[Turn], left: usize) -> &[Turn]
    ensures { result.now ≡ last_turns turns.now left }
{
    if left < turns.len() {
        return &turns[turns.len() - left..];
    }
    turns
}

fn turns_at(lines: &[Line], line: usize, left: usize) -> &[Turn]
    ensures { result.now ≡ turns_at lines.now line left }
{
    match lines.get(line) {
        None => &[],
        Some(line) => last_turns(line.turns.as_slice(), left),
    }
}

fn has_room(most: Option<u32>) -> bool
    ensures { result ≡ has_room most }
{
    match most {
        None => true,
        Some(most) => 1 <= most,
    }
}

fn one_fewer(most: Option<u32>) -> Option<u32>
    ensures { result ≡ one_fewer most }
{
    match most {
        None => None,
        Some(most) => Some(most.saturating_sub(1)),
    }
}

// Whether all paths are taken: by a last turn that takes any count of any numbers.
fn stays_always(turn: &Turn, behind: &[Turn], at: &Inside) -> bool
    ensures { result ≡ stays_always turn.now behind.now at.now }
{
    behind.is_empty() && turn.whole && at.least == 0 && at.most.is_none()
}

// Adds the thread that takes a number for the turn.
fn push_stay(
    out: &mut Row<Thread>,
    pattern: usize,
    turn: &Turn,
    behind: &[Turn],
    at: &Inside,
) -> Result<(), Memory>
    ensures { OnOk result (out.new ≡ out.old ++ stay pattern turn.now behind.now at.now) }
{
    if stays_always(turn, behind, at) {
        let stage = Stage::Always;
        return out.push(Thread { pattern, stage });
    }
    if has_room(at.most) {
        let stage = Stage::Inside(*at);
        return out.push(Thread { pattern, stage });
    }
    Ok(())
}

// Adds the threads of turns that are still untouched.
#[tactic(auto, unfolding(crate::specs::Threads::entered))]
fn push_entered(
    out: &mut Row<Thread>,
    pattern: usize,
    line: usize,
    turns: &[Turn],
) -> Result<(), Memory>
    ensures { OnOk result (out.new ≡ out.old ++ entered pattern line turns.now) }
{
    let mut rest = turns;
    while let [turn, behind @ ..] = rest {
        let at = Inside {
            line,
            left: rest.len(),
            least: turn.least,
            most: turn.most,
        };
        push_stay(out, pattern, turn, behind, &at)?;
        if turn.least > 0 {
            return Ok(());
        }
        rest = behind;
    }
    let stage = Stage::Ended;
    out.push(Thread { pattern, stage })
}

// Adds the threads of a turn that has been touched, and of those behind it.
fn push_after(
    out: &mut Row<Thread>,
    pattern: usize,
    turn: &Turn,
    behind: &[Turn],
    at: &Inside,
) -> Result<(), Memory>
    ensures { OnOk result (out.new ≡ out.old ++ after pattern turn.now behind.now at.now) }
{
    push_stay(out, pattern, turn, behind, at)?;
    if at.least > 0 {
        return Ok(());
    }
    push_entered(out, pattern, at.line, behind)
}

// Adds where a number leads a thread that is inside a line, of which these turns are left.
fn push_inside(
    out: &mut Row<Thread>,
    pattern: usize,
    turns: &[Turn],
    at: &Inside,
    number: u32,
) -> Result<(), Memory>
    ensures { OnOk result (out.new ≡ out.old ++ next_inside number pattern turns.now at.now) }
{
    let [turn, behind @ ..] = turns else {
        return Ok(());
    };
    if !has_room(at.most) || !turn.set.holds(number) {
        return Ok(());
    }
    let taken = Inside {
        line: at.line,
        left: at.left,
        least: at.least.saturating_sub(1),
        most: one_fewer(at.most),
    };
    push_after(out, pattern, turn, behind, &taken)
}

/// Adds where a number leads a thread. Its one error is want of memory.
pub(crate) fn push_next(
    out: &mut Row<Thread>,
    lines: &[Line],
    number: u32,
    thread: &Thread,
) -> Result<(), Memory>
    ensures { OnOk result (out.new ≡ out.old ++ next lines.now number thread.now) }
{
    match &thread.stage {
        Stage::Always => out.push(*thread),
        Stage::Ended => Ok(()),
        Stage::Inside(at) => {
            let turns = turns_at(lines, at.line, at.left);
            push_inside(out, thread.pattern, turns, at, number)
        }
    }
}

/// Adds the threads of the empty path. Its one error is want of memory.
#[tactic(auto, unfolding(crate::specs::Threads::starts_from))]
pub(crate) fn push_starts(out: &mut Row<Thread>, lines: &[Line]) -> Result<(), Memory>
    ensures { OnOk result (out.new ≡ out.old ++ starts_from 0 lines.now) }
{
    let mut place = 0;
    let mut rest = lines;
    while let [line, tail @ ..] = rest {
        push_entered(out, line.pattern, place, line.turns.as_slice())?;
        place += 1;
        rest = tail;
    }
    Ok(())
}
