//! What the community lists take away by which entries delete, made once for each list.

ghost use Rattle.std.specs.Prelude.{ℕ, List, IfOk};
ghost use Rattle.ios_lower.specs.Deletions.{AreTaken};
ghost use Rattle.ios_lower.specs.Named.{IfUnder, entries_under};

use crate::deletion::taken_away;
use crate::named::{Listed, Named};
use ios_meaning::MapEntry;
use ios_reader::{CommunityListEntry, MapLine};
use route_types::{Memory, Rect, Row};
use std::alloc::Global;
use std::collections::BTreeMap;

// What the entries under a name take away.
fn taken_under<'a>(
    alloc: Global,
    lists: &Named<'a, CommunityListEntry>,
    name: &'a [u8],
) -> Result<Vec<Rect>, Memory>
    ensures { IfOk result (λ rects. AreTaken (entries_under lists.now name.now) rects.items) }
{
    match lists.get(&name) {
        Some(entries) => taken_away(alloc, entries.as_slice()),
        None => taken_away(alloc, &[]),
    }
}

// Puts there what the list of this name takes away, if it isn't there yet.
fn put_taken<'a>(
    alloc: Global,
    lists: &Named<'a, CommunityListEntry>,
    taken: &mut Listed<'a, Rect>,
    name: &'a [u8],
) -> Result<(), Memory>
    requires { (q : List ℕ) → IfUnder (AreTaken (entries_under lists.now q)) taken.old q }
    ensures { IfOk result (λ _. (q : List ℕ) → IfUnder (AreTaken (entries_under lists.now q)) taken.new q) }
{
    if taken.contains_key(&name) {
        return Ok(());
    }
    let rects = taken_under(alloc, lists, name)?;
    taken.insert(name, rects)?;
    Ok(())
}

// Puts there what those lists take away by which lines delete.
fn put_by_lines<'a>(
    alloc: Global,
    lists: &Named<'a, CommunityListEntry>,
    taken: &mut Listed<'a, Rect>,
    lines: &[&'a MapLine],
) -> Result<(), Memory>
    requires { (q : List ℕ) → IfUnder (AreTaken (entries_under lists.now q)) taken.old q }
    ensures { IfOk result (λ _. (q : List ℕ) → IfUnder (AreTaken (entries_under lists.now q)) taken.new q) }
{
    let mut rest = lines;
    while let [line, behind @ ..] = rest {
        if let MapLine::DeleteCommunities(name) = line {
            put_taken(alloc, lists, taken, name.as_slice())?;
        }
        rest = behind;
    }
    Ok(())
}

/// What those lists take away by which entries delete, under their names. The one error is want of memory.
pub(crate) fn taken_by_entries<'a>(
    alloc: Global,
    lists: &Named<'a, CommunityListEntry>,
    entries: &[MapEntry<'a>],
) -> Result<Listed<'a, Rect>, Memory>
    ensures { IfOk result (λ taken. (q : List ℕ) → IfUnder (AreTaken (entries_under lists.now q)) taken q) }
{
    let mut taken: Listed<'a, Rect> = BTreeMap::new(alloc);
    let mut rest = entries;
    while let [entry, behind @ ..] = rest {
        put_by_lines(alloc, lists, &mut taken, entry.lines.as_slice())?;
        rest = behind;
    }
    Ok(taken)
}

/// What the list of this name takes away: as it is there, and else made anew. The one error is want of memory.
pub(crate) fn taken_by<'a>(
    alloc: Global,
    lists: &Named<'a, CommunityListEntry>,
    taken: &Listed<'a, Rect>,
    name: &'a [u8],
) -> Result<Row<Rect>, Memory>
    requires { (q : List ℕ) → IfUnder (AreTaken (entries_under lists.now q)) taken.now q }
    ensures { IfOk result (AreTaken (entries_under lists.now name.now)) }
{
    if let Some(rects) = taken.get(&name) {
        let copied = Row::from_slice(alloc, rects.as_slice())?;
        return Ok(copied);
    }
    let rects = taken_under(alloc, lists, name)?;
    Ok(Row::from_vec(rects))
}
