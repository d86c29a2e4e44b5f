// Path lists behind numbers that are put before the path.
ghost use Rattle.std.specs.Prelude.{◌≡◌, IfOk, map};
ghost use Rattle.resolved_tests.specs.Answers.{entry_behind, list_behind, lists_behind};

use core_nodes::{PathEntry, PathList};
use path_suffixes::suffix_pattern_of_all;
use route_types::{Memory, Row};
use std::alloc::Global;

/// The lists with what their patterns still ask behind the numbers. The one error is want of memory.
pub(crate) fn lists_behind(
    alloc: Global,
    numbers: &[u32],
    lists: &[PathList],
) -> Result<Row<PathList>, Memory>
    ensures { IfOk result (λ found. found ≡ lists_behind numbers.now lists.now) }
{
    let mut found = Row::new(alloc);
    let mut rest = lists;
    while let [first, tail @ ..] = rest {
        let list = list_behind(alloc, numbers, first)?;
        found.push(list)?;
        rest = tail;
    }
    Ok(found)
}

fn list_behind(alloc: Global, numbers: &[u32], list: &PathList) -> Result<PathList, Memory>
    ensures { IfOk result (λ l. l ≡ list_behind numbers.now list.now) }
{
    let entries = entries_behind(alloc, numbers, list.entries.as_slice())?;
    Ok(PathList { entries })
}

fn entries_behind(
    alloc: Global,
    numbers: &[u32],
    entries: &[PathEntry],
) -> Result<Row<PathEntry>, Memory>
    ensures { IfOk result (λ found. found ≡ map (λ e. entry_behind numbers.now e) entries.now) }
{
    let mut found = Row::new(alloc);
    let mut rest = entries;
    while let [first, tail @ ..] = rest {
        let entry = entry_behind(alloc, numbers, first)?;
        found.push(entry)?;
        rest = tail;
    }
    Ok(found)
}

fn entry_behind(alloc: Global, numbers: &[u32], entry: &PathEntry) -> Result<PathEntry, Memory>
    ensures { IfOk result (λ e. e ≡ entry_behind numbers.now entry.now) }
{
    let pattern = suffix_pattern_of_all(alloc, &entry.pattern, numbers)?;
    Ok(PathEntry {
        permit: entry.permit,
        pattern,
    })
}
