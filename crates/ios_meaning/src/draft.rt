// What the lines of entries make of a route.
ghost use Rattle.std.specs.Prelude.{◌≡◌, not, IfOk, map, filter};
ghost use Rattle.ios_meaning.specs.Meaning.{deletes, set_by_entries};
ghost use Rattle.ios_meaning.specs.Drafts.{entry_of, removes_by, draft_by, draft_by_lines, deletes_as, draft_by_entry, draft_by_entries};

use crate::deletions::{ListsByName, lists_by_name, without_list};
use crate::entries::MapEntry;
use ios_reader::{IosItem, MapLine};
use route_drafts::Draft;
use route_types::{Memory, NextHop, Route};
use std::alloc::Global;

fn without<'a>(
    alloc: Global,
    lists: &ListsByName<'a>,
    name: &'a [u8],
    draft: Draft,
) -> Result<Draft, Memory>
    ensures { IfOk result (λ d. d ≡ record draft { communities = filter (λ c. not (removes_by lists.now name.now c)) draft.communities }) }
{
    let communities = without_list(alloc, lists, name, draft.communities.as_slice())?;
    Ok(Draft {
        communities,
        ..draft
    })
}

// The attributes behind a line.
fn with_line<'a>(
    alloc: Global,
    lists: &ListsByName<'a>,
    line: &'a MapLine,
    draft: Draft,
) -> Result<Draft, Memory>
    ensures { IfOk result (λ d. d ≡ draft_by (removes_by lists.now) line.now draft) }
{
    match line {
        MapLine::SetLocalPreference(number) => Ok(Draft {
            local_preference: *number,
            ..draft
        }),
        MapLine::SetMetric(number) => Ok(Draft {
            med: *number,
            ..draft
        }),
        MapLine::SetWeight(number) => Ok(Draft {
            weight: *number,
            ..draft
        }),
        MapLine::SetOrigin(origin) => Ok(Draft {
            origin: *origin,
            ..draft
        }),
        MapLine::SetNextHop(address) => Ok(Draft {
            next_hop: NextHop::At(*address),
            ..draft
        }),
        MapLine::SetPrepend(numbers) => draft.with_prepended(alloc, numbers.as_slice()),
        MapLine::SetCommunity(setting) => {
            draft.with_communities(alloc, setting.additive, setting.communities.as_slice())
        }
        MapLine::DeleteCommunities(list) => without(alloc, lists, list.as_slice(), draft),
        MapLine::MatchPrefix(_) | MapLine::MatchNextHop(_) => Ok(draft),
        MapLine::MatchCommunity(_) | MapLine::MatchPath(_) | MapLine::MatchMetric(_) => Ok(draft),
        MapLine::Continue(_) | MapLine::Description => Ok(draft),
    }
}

fn deletes(line: &MapLine) -> bool
    ensures { result ≡ deletes line.now }
{
    matches!(line, MapLine::DeleteCommunities(_))
}

// The attributes behind those of the lines that delete communities, or behind the others.
fn with_lines<'a>(
    alloc: Global,
    lists: &ListsByName<'a>,
    lines: &[&'a MapLine],
    deleting: bool,
    draft: Draft,
) -> Result<Draft, Memory>
    ensures { IfOk result (λ d. d ≡ draft_by_lines (removes_by lists.now) (filter (deletes_as deleting) (map (λ l. l.now) lines.now)) draft) }
{
    let mut draft = draft;
    let mut rest = lines;
    while let [line, behind @ ..] = rest {
        if deletes(line) == deleting {
            draft = with_line(alloc, lists, line, draft)?;
        }
        rest = behind;
    }
    Ok(draft)
}

// The attributes behind an entry, which deletes communities before all else.
fn with_entry<'a>(
    alloc: Global,
    lists: &ListsByName<'a>,
    entry: &MapEntry<'a>,
    draft: Draft,
) -> Result<Draft, Memory>
    ensures { IfOk result (λ d. d ≡ draft_by_entry (removes_by lists.now) (entry_of entry.now) draft) }
{
    let lines = entry.lines.as_slice();
    let draft = with_lines(alloc, lists, lines, true, draft)?;
    with_lines(alloc, lists, lines, false, draft)
}

// The attributes behind entries, one after the other.
fn with_entries<'a>(
    alloc: Global,
    lists: &ListsByName<'a>,
    entries: &[MapEntry<'a>],
    draft: Draft,
) -> Result<Draft, Memory>
    ensures { IfOk result (λ d. d ≡ draft_by_entries (removes_by lists.now) (map entry_of entries.now) draft) }
{
    let mut draft = draft;
    let mut rest = entries;
    while let [entry, behind @ ..] = rest {
        draft = with_entry(alloc, lists, entry, draft)?;
        rest = behind;
    }
    Ok(draft)
}

/// What the entries that held make of a route.
pub fn changed<'a>(
    alloc: Global,
    items: &'a [IosItem],
    held: &[MapEntry<'a>],
    route: &Route,
) -> Result<Route, Memory>
    ensures { IfOk result (λ r. r ≡ set_by_entries items.now (map entry_of held.now) route.now) }
{
    let lists = lists_by_name(alloc, items)?;
    let draft = Draft::of_route(alloc, route)?;
    let behind = with_entries(alloc, &lists, held, draft)?;
    let changed = behind.finished(alloc, route.prefix())?;
    Ok(changed)
}
