// Neighbouring entries of one action as one.
ghost use Rattle.std.specs.Prelude.{◌≡◌, ◌++◌, ◌∷◌, List, IfOk};
ghost use Rattle.rpl_plans.specs.Choices.{Joins, JoinsChoice, grouped_from, grouped};
ghost use Rattle.rpl_plans.specs.declared.choice.Choice.{Choice};

use crate::choice::Choice;
use crate::test::PlannedTest;
use route_types::{Duplicate, Memory, Row};
use std::alloc::Global;

// Adds copies of values behind others.
fn append<T: Duplicate>(alloc: Global, values: &mut Row<T>, more: &[T]) -> Result<(), Memory>
    ensures { IfOk result (λ _. values.new ≡ values.old ++ more.now) }
{
    let mut rest = more;
    while let [first, tail @ ..] = rest {
        let copied = first.duplicate(alloc)?;
        values.push(copied)?;
        rest = tail;
    }
    Ok(())
}

// Makes the first test hold where one of the two does, where one test can say so.
fn join(alloc: Global, first: &mut PlannedTest, second: &PlannedTest) -> Result<bool, Memory>
    ensures { IfOk result (λ done. Joins first.old second.now done first.new) }
{
    match first {
        PlannedTest::Destination(ranges) => match second {
            PlannedTest::Destination(more) => {
                append(alloc, ranges, more.as_slice())?;
                Ok(true)
            }
            _ => Ok(false),
        },
        PlannedTest::NextHop(ranges) => match second {
            PlannedTest::NextHop(more) => {
                append(alloc, ranges, more.as_slice())?;
                Ok(true)
            }
            _ => Ok(false),
        },
        PlannedTest::PathIn(texts) => match second {
            PlannedTest::PathIn(more) => {
                append(alloc, texts, more.as_slice())?;
                Ok(true)
            }
            _ => Ok(false),
        },
        PlannedTest::MatchesAny(rects) => match second {
            PlannedTest::MatchesAny(more) => {
                append(alloc, rects, more.as_slice())?;
                Ok(true)
            }
            _ => Ok(false),
        },
        _ => Ok(false),
    }
}

// The same for entries, where both do the same.
fn join_choice(alloc: Global, first: &mut Choice, second: &Choice) -> Result<bool, Memory>
    ensures { IfOk result (λ done. JoinsChoice first.old second.now done first.new) }
{
    if first.permit != second.permit {
        return Ok(false);
    }
    let done = join(alloc, &mut first.test, &second.test)?;
    Ok(done)
}

// Takes one more entry: it becomes one with the entry under way, or that is done and the other one is under way.
fn take(
    alloc: Global,
    found: &mut Row<Choice>,
    current: Choice,
    next: &Choice,
) -> Result<Choice, Memory>
    ensures { IfOk result (λ under_way. (cs : List Choice) → found.new ++ grouped_from under_way cs ≡ found.old ++ grouped_from current (next.now ∷ cs)) }
{
    let mut current = current;
    let done = join_choice(alloc, &mut current, next)?;
    if done {
        return Ok(current);
    }
    let following = next.duplicate(alloc)?;
    found.push(current)?;
    Ok(following)
}

// An entry and those behind it, neighbours of one action as one.
#[tactic(auto, unfolding(crate::specs::Choices::grouped_from))]
fn grouped_from(alloc: Global, first: Choice, others: &[Choice]) -> Result<Row<Choice>, Memory>
    ensures { IfOk result (λ found. found ≡ grouped_from first others.now) }
{
    let mut found = Row::new(alloc);
    let mut current = first;
    let mut rest = others;
    while let [next, tail @ ..] = rest {
        current = take(alloc, &mut found, current, next)?;
        rest = tail;
    }
    found.push(current)?;
    Ok(found)
}

// The entries of a list, neighbours of one action as one.
pub(crate) fn grouped(alloc: Global, choices: &[Choice]) -> Result<Row<Choice>, Memory>
    ensures { IfOk result (λ found. found ≡ grouped choices.now) }
{
    let [first, tail @ ..] = choices else {
        return Ok(Row::new(alloc));
    };
    let first = first.duplicate(alloc)?;
    let found = grouped_from(alloc, first, tail)?;
    Ok(found)
}
