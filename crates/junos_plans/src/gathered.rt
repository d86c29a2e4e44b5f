// One condition in place of the terms of lists, where they all accept.
ghost use Rattle.std.specs.Prelude.{◌≡◌, ◌++◌, true, IfOk};
ghost use Rattle.std.specs.List.{list_any, AllByRecursion};
ghost use Rattle.route_types.specs.Route.{RouteParts};
ghost use Rattle.junos_plans.specs.Conditions.{condition_holds, entries_accept, test_holds};
ghost use Rattle.junos_plans.specs.Entries.{or_never};
ghost use Rattle.junos_plans.specs.Fits.{IsApart, FitsValue, FitsValues, FitsList, FitsTest};
ghost use Rattle.junos_plans.specs.Gathered.{Joins, GathersEntry, GathersEntries, GathersLists, SaysLists, IsFound};

use crate::apart::are_apart;
use crate::condition::{PlannedCondition, PlannedEntry, PlannedList, PlannedTest};
use route_types::{Duplicate, Memory, Row};
use std::alloc::Global;

// Adds copies of values behind others.
fn append<T: Duplicate>(alloc: Global, values: &mut Row<T>, more: &[T]) -> Result<(), Memory>
    ensures { IfOk result (λ _. values.new ≡ values.old ++ more.now) }
{
    let mut rest = more;
    while let [first, tail @ ..] = rest {
        let copied = first.duplicate(alloc)?;
        values.push(copied)?;
        rest = tail;
    }
    Ok(())
}

// Makes the first condition hold where one of the two does, where one can say so.
fn join(
    alloc: Global,
    first: &mut PlannedCondition,
    second: &PlannedCondition,
) -> Result<bool, Memory>
    ensures { IfOk result (λ done. Joins first.old second.now done first.new) }
{
    match first {
        PlannedCondition::Destination(ranges) => match second {
            PlannedCondition::Destination(more) => {
                append(alloc, ranges, more.as_slice())?;
                Ok(true)
            }
            _ => Ok(false),
        },
        PlannedCondition::NextHop(hops) => match second {
            PlannedCondition::NextHop(more) => {
                append(alloc, hops, more.as_slice())?;
                Ok(true)
            }
            _ => Ok(false),
        },
        PlannedCondition::Path(texts) => match second {
            PlannedCondition::Path(more) => {
                append(alloc, texts, more.as_slice())?;
                Ok(true)
            }
            _ => Ok(false),
        },
        PlannedCondition::Communities(sets) => match second {
            PlannedCondition::Communities(more) => {
                append(alloc, sets, more.as_slice())?;
                Ok(true)
            }
            _ => Ok(false),
        },
        _ => Ok(false),
    }
}

// Puts the condition of a term to those that are gathered, where it accepts and one condition can say both.
fn gather(
    alloc: Global,
    gathered: &mut Option<PlannedCondition>,
    entry: &PlannedEntry,
) -> Result<bool, Memory>
    ensures { IfOk result (λ done. GathersEntry gathered.old entry.now done gathered.new) }
{
    if !entry.permit {
        return Ok(false);
    }
    match gathered {
        None => {
            let copied = entry.condition.duplicate(alloc)?;
            *gathered = Some(copied);
            Ok(true)
        }
        Some(first) => {
            let done = join(alloc, first, &entry.condition)?;
            Ok(done)
        }
    }
}

// The same for the terms of a list.
fn gather_entries(
    alloc: Global,
    gathered: &mut Option<PlannedCondition>,
    entries: &[PlannedEntry],
) -> Result<bool, Memory>
    ensures { IfOk result (λ done. GathersEntries gathered.old entries.now done gathered.new) }
{
    let mut rest = entries;
    while let [first, tail @ ..] = rest {
        let done = gather(alloc, gathered, first)?;
        if !done {
            return Ok(false);
        }
        rest = tail;
    }
    Ok(true)
}

// The same for lists.
fn gather_lists(
    alloc: Global,
    gathered: &mut Option<PlannedCondition>,
    lists: &[PlannedList],
) -> Result<bool, Memory>
    ensures { IfOk result (λ done. GathersLists gathered.old lists.now done gathered.new) }
{
    let mut rest = lists;
    while let [first, tail @ ..] = rest {
        let done = gather_entries(alloc, gathered, first.entries.as_slice())?;
        if !done {
            return Ok(false);
        }
        rest = tail;
    }
    Ok(true)
}

// Whether the longest match can't confuse route-filters.
fn is_apart(alloc: Global, condition: &PlannedCondition) -> Result<bool, Memory>
    requires { FitsValues condition.now }
    ensures { IfOk result (λ apart. apart ≡ true → IsApart condition.now) }
{
    match condition {
        PlannedCondition::Destination(ranges) => {
            let apart = are_apart(alloc, ranges.as_slice())?;
            Ok(apart)
        }
        _ => Ok(true),
    }
}

// The condition, if there is one and it is apart.
fn if_apart(
    alloc: Global,
    gathered: Option<PlannedCondition>,
) -> Result<Option<PlannedCondition>, Memory>
    requires { FitsValue FitsValues gathered }
    ensures { IfOk result (λ found. IsFound gathered found) }
{
    let Some(condition) = gathered else {
        return Ok(None);
    };
    let apart = is_apart(alloc, &condition)?;
    if !apart {
        return Ok(None);
    }
    Ok(Some(condition))
}

// One condition that holds where one of the lists accepts, where there is one.
fn one_condition(alloc: Global, lists: &[PlannedList]) -> Result<Option<PlannedCondition>, Memory>
    requires { AllByRecursion FitsList lists.now }
    ensures { IfOk result (SaysLists lists.now) }
{
    let mut gathered = None;
    let done = gather_lists(alloc, &mut gathered, lists)?;
    if !done {
        return Ok(None);
    }
    let found = if_apart(alloc, gathered)?;
    Ok(found)
}

// The lists; where there is none, one without terms.
fn or_never(alloc: Global, lists: Row<PlannedList>) -> Result<Row<PlannedList>, Memory>
    ensures { IfOk result (λ ls. ls ≡ or_never lists) }
{
    let mut lists = lists;
    if lists.as_slice().is_empty() {
        lists.push(PlannedList {
            entries: Row::new(alloc),
        })?;
    }
    Ok(lists)
}

/// What holds where one of the lists accepts: one condition, if there is one that says so, else the lists.
pub(crate) fn simplified(alloc: Global, lists: Row<PlannedList>) -> Result<PlannedTest, Memory>
    requires { AllByRecursion FitsList lists }
    ensures fits { IfOk result (λ test. FitsTest test) }
    ensures holds { IfOk result (λ test. (r : RouteParts) → test_holds (condition_holds r) test ≡ list_any (λ l. entries_accept (condition_holds r) l.entries) lists) }
{
    match one_condition(alloc, lists.as_slice())? {
        Some(condition) => Ok(PlannedTest::Asked(condition)),
        None => {
            let lists = or_never(alloc, lists)?;
            Ok(PlannedTest::Listed(lists))
        }
    }
}
