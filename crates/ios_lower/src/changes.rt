//! The changes of the set lines of an entry.

ghost use Rattle.std.specs.Prelude.{◌≡◌, ◌<◌, ◌^◌, ◌∷◌, [], List, true, false, IfOk, map, reverse};
ghost use Rattle.path_patterns.specs.Items.{IsPath};
ghost use Rattle.ios_meaning.specs.Meaning.{deletes};
ghost use Rattle.ios_meaning.specs.Drafts.{deletes_as};
ghost use Rattle.ios_tree.specs.declared.item.IosItem.{IosItem};
ghost use Rattle.ios_tree.specs.declared.item.MapLine.{MapLine as Line};
ghost use Rattle.ios_lower.specs.Deletions.{every};
ghost use Rattle.ios_lower.specs.Changes.{setting_change, changes_of, Deletes};
ghost use Rattle.ios_lower.specs.ChangeSteps.{AreSmall, IsSmall, AreOfLine, AreBefore, AreOfEntry};
ghost use Rattle.ios_lower.specs.Lists.{AreLists};

use crate::deletion::every;
use crate::lists::Lists;
use crate::taken::taken_by;
use ios_reader::{CommunitySetting, MapLine};
use route_types::{Change, CommChange, Community, Memory, NextHop, Rect, Row};
use std::alloc::Global;

fn one(alloc: Global, change: Change) -> Result<Vec<Change>, Memory>
    ensures { IfOk result (λ cs. cs.items ≡ change ∷ []) }
{
    let mut found = Vec::new(alloc);
    found.push(change)?;
    Ok(found)
}

// A number put before the path, which has 32 bits.
fn prepend(number: &u32) -> Change
    ensures same { result ≡ Change.Prepend number.now }
    ensures small { number.now < 2 ^ 32 }
{
    Change::Prepend(*number)
}

// A number each, the first one first; each has 32 bits.
fn each_prepended(alloc: Global, numbers: &[u32]) -> Result<Vec<Change>, Memory>
    ensures same { IfOk result (λ cs. cs.items ≡ map (λ n. Change.Prepend n) numbers.now) }
    ensures small { IfOk result (λ cs. IsPath numbers.now) }
{
    let mut found = Vec::new(alloc);
    let mut rest = numbers;
    while let [first, behind @ ..] = rest {
        found.push(prepend(first))?;
        rest = behind;
    }
    Ok(found)
}

// A number each, the last one first; each has 32 bits.
fn prepends(alloc: Global, numbers: &[u32]) -> Result<Vec<Change>, Memory>
    ensures same { IfOk result (λ cs. cs.items ≡ reverse (map (λ n. Change.Prepend n) numbers.now)) }
    ensures small { IfOk result (λ cs. IsPath numbers.now) }
{
    let mut found = each_prepended(alloc, numbers)?;
    found.reverse();
    Ok(found)
}

// What goes before `set community` adds.
fn replaced(alloc: Global, additive: bool) -> Result<Row<Rect>, Memory>
    ensures { IfOk result (λ rects. rects ≡ elim additive [ true ↦ [] | false ↦ every ∷ [] ]) }
{
    let mut removed = Row::new(alloc);
    if additive {
        return Ok(removed);
    }
    removed.push(every())?;
    Ok(removed)
}

// A community, which has 32 bits.
fn copy_of(community: &Community) -> Community
    ensures same { result ≡ community.now }
    ensures small { community.now.0 < 2 ^ 32 }
{
    of_bits(community.0)
}

fn of_bits(bits: u32) -> Community
    ensures same { result ≡ record { 0 = bits } }
    ensures small { bits < 2 ^ 32 }
{
    Community(bits)
}

// The communities, each of which has 32 bits.
fn copied(alloc: Global, communities: &[Community]) -> Result<Row<Community>, Memory>
    ensures same { IfOk result (λ cs. cs ≡ communities.now) }
    ensures small { IfOk result (λ cs. AreSmall communities.now) }
{
    let mut copy = Row::new(alloc);
    let mut rest = communities;
    while let [first, behind @ ..] = rest {
        copy.push(copy_of(first))?;
        rest = behind;
    }
    Ok(copy)
}

fn setting_change(alloc: Global, setting: &CommunitySetting) -> Result<CommChange, Memory>
    ensures same { IfOk result (λ c. c ≡ setting_change setting.now) }
    ensures small { IfOk result (λ c. AreSmall setting.now.communities) }
{
    let removed = replaced(alloc, setting.additive)?;
    let added = copied(alloc, setting.communities.as_slice())?;
    Ok(CommChange { removed, added })
}

fn set_communities(alloc: Global, setting: &CommunitySetting) -> Result<Vec<Change>, Memory>
    ensures same { IfOk result (λ cs. cs.items ≡ changes_of (MapLine.SetCommunity setting.now)) }
    ensures small { IfOk result (λ cs. IsSmall (MapLine.SetCommunity setting.now)) }
{
    let change = setting_change(alloc, setting)?;
    let changes = one(alloc, Change::Communities(change))?;
    Ok(changes)
}

// The changes of a line, but for those that delete communities.
fn plain_changes(alloc: Global, line: &MapLine) -> Result<Vec<Change>, Memory>
    ensures same { IfOk result (λ cs. cs.items ≡ changes_of line.now) }
    ensures small { IfOk result (λ cs. IsSmall line.now) }
{
    match line {
        MapLine::SetLocalPreference(number) => one(alloc, Change::LocalPreference(*number)),
        MapLine::SetMetric(number) => one(alloc, Change::Med(*number)),
        MapLine::SetWeight(number) => one(alloc, Change::Weight(*number)),
        MapLine::SetPrepend(numbers) => prepends(alloc, numbers.as_slice()),
        MapLine::SetOrigin(origin) => one(alloc, Change::Origin(*origin)),
        MapLine::SetNextHop(address) => one(alloc, Change::NextHop(NextHop::At(*address))),
        MapLine::SetCommunity(setting) => set_communities(alloc, setting),
        MapLine::DeleteCommunities(_) | MapLine::MatchPrefix(_) => Ok(Vec::new(alloc)),
        MapLine::MatchNextHop(_) | MapLine::MatchCommunity(_) => Ok(Vec::new(alloc)),
        MapLine::MatchPath(_) | MapLine::MatchMetric(_) => Ok(Vec::new(alloc)),
        MapLine::Continue(_) | MapLine::Description => Ok(Vec::new(alloc)),
    }
}

// The change that deletes what the list of this name answers yes on.
fn deletion<'a>(alloc: Global, lists: &Lists<'a>, list: &'a [u8]) -> Result<Change, Memory>
    requires { AreLists lists.now }
    ensures { IfOk result (Deletes lists.now.items.now list.now) }
{
    let removed = taken_by(alloc, &lists.of_communities, &lists.taken, list)?;
    let added = Row::new(alloc);
    Ok(Change::Communities(CommChange { removed, added }))
}

fn deletion_changes<'a>(
    alloc: Global,
    lists: &Lists<'a>,
    list: &'a [u8],
) -> Result<Vec<Change>, Memory>
    requires { AreLists lists.now }
    ensures { IfOk result (λ cs. AreOfLine lists.now.items.now (MapLine.DeleteCommunities list.now) cs.items) }
{
    let change = deletion(alloc, lists, list)?;
    let changes = one(alloc, change)?;
    Ok(changes)
}

// The changes of a line that deletes nothing, in the order in which they run.
fn kept_line(alloc: Global, line: &MapLine) -> Result<Vec<Change>, Memory>
    ensures { IfOk result (λ cs. (all : List IosItem) → deletes line.now ≡ false → AreOfLine all line.now cs.items) }
{
    let changes = plain_changes(alloc, line)?;
    Ok(changes)
}

// The changes of a line, in the order in which they run.
fn line_changes<'a>(
    alloc: Global,
    lists: &Lists<'a>,
    line: &'a MapLine,
) -> Result<Vec<Change>, Memory>
    requires { AreLists lists.now }
    ensures { IfOk result (λ cs. AreOfLine lists.now.items.now line.now cs.items) }
{
    if let MapLine::DeleteCommunities(list) = line {
        let changes = deletion_changes(alloc, lists, list.as_slice())?;
        return Ok(changes);
    }
    let changes = kept_line(alloc, line)?;
    Ok(changes)
}

fn deletes(line: &MapLine) -> bool
    ensures { result ≡ deletes line.now }
{
    matches!(line, MapLine::DeleteCommunities(_))
}

fn is_of_sort(deleting: bool, line: &MapLine) -> bool
    ensures { result ≡ deletes_as deleting line.now }
{
    deletes(line) == deleting
}

// Adds the changes of the first of the lines that are left, where it is of the sort that is looked for.
fn push_line<'a>(
    alloc: Global,
    lists: &Lists<'a>,
    deleting: bool,
    line: &'a MapLine,
    found: &mut Vec<Change>,
) -> Result<(), Memory>
    requires { AreLists lists.now }
    ensures { IfOk result (λ _. (lines rest : List Line) → AreBefore lists.now.items.now deleting lines (line.now ∷ rest) found.old.items → AreBefore lists.now.items.now deleting lines rest found.new.items) }
{
    if is_of_sort(deleting, line) {
        let mut changes = line_changes(alloc, lists, line)?;
        found.append(&mut changes)?;
        return Ok(());
    }
    Ok(())
}

// The changes of those of the lines that delete, or of those that don't.
fn changes_of_sort<'a>(
    alloc: Global,
    lists: &Lists<'a>,
    deleting: bool,
    lines: &[&'a MapLine],
) -> Result<Vec<Change>, Memory>
    requires { AreLists lists.now }
    ensures { IfOk result (λ cs. AreBefore lists.now.items.now deleting (map (λ l. l.now) lines.now) [] cs.items) }
{
    let mut found = Vec::new(alloc);
    let mut rest = lines;
    while let [line, behind @ ..] = rest {
        push_line(alloc, lists, deleting, line, &mut found)?;
        rest = behind;
    }
    Ok(found)
}

/// The changes of an entry of these lines, in the order in which they run: the deletions of communities come first. The
/// lists are those of the tree that the lines stand in. The one error is want of memory.
pub fn entry_changes<'a>(
    alloc: Global,
    lists: &Lists<'a>,
    lines: &[&'a MapLine],
) -> Result<Vec<Change>, Memory>
    requires { AreLists lists.now }
    ensures { IfOk result (λ cs. AreOfEntry lists.now.items.now (map (λ l. l.now) lines.now) cs.items) }
{
    let mut found = changes_of_sort(alloc, lists, true, lines)?;
    let mut others = changes_of_sort(alloc, lists, false, lines)?;
    found.append(&mut others)?;
    Ok(found)
}
