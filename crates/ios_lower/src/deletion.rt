//! The communities that `set comm-list` takes away, as rectangles.

ghost use Rattle.std.specs.Prelude.{◌≡◌, ◌≤◌, ◌==◌, ◌&&◌, ◌||◌, ◌++◌, [], ℕ, not, IfOk, map};
ghost use Rattle.std.specs.List.{list_all};
ghost use Rattle.route_types.specs.Community.{fits};
ghost use Rattle.route_types.specs.Sets.{fits_some};
ghost use Rattle.route_types.specs.declared.community.Community.{Community};
ghost use Rattle.ios_meaning.specs.Lists.{single};
ghost use Rattle.ios_lower.specs.Deletions.{every, alone_in, alone, AreTaken};
ghost use Rattle.ios_lower.specs.DeletionSteps.{TakesOne};

use community_sets::rest;
use ios_reader::{CommunityListEntry, CommunityShape};
use route_types::{Community, Memory, Rect};
use std::alloc::Global;

/// All communities.
pub(crate) fn every() -> Rect
    ensures { result ≡ every }
{
    Rect::new(0, 65535, 0, 65535)
}

/// The rectangle of one community.
pub(crate) fn single(community: &Community) -> Rect
    ensures { result ≡ single community.now }
{
    let high = community.high();
    let low = community.low();
    Rect::new(high, high, low, low)
}

fn are_all(first: &Community, others: &[Community]) -> bool
    ensures { result ≡ list_all (λ d. d.0 == first.now.0) others.now }
{
    others.iter().all(|other| other.0 == first.0)
}

fn alone_in(alloc: Global, members: &[Community]) -> Result<Vec<Rect>, Memory>
    ensures { IfOk result (λ rects. rects.items ≡ alone_in members.now) }
{
    let [first, others @ ..] = members else {
        let all = Vec::from_slice(alloc, &[every()])?;
        return Ok(all);
    };
    if !are_all(first, others) {
        return Ok(Vec::new(alloc));
    }
    let one = Vec::from_slice(alloc, &[single(first)])?;
    Ok(one)
}

// The communities for which alone an entry of this shape holds.
fn alone(alloc: Global, shape: &CommunityShape) -> Result<Vec<Rect>, Memory>
    ensures { IfOk result (λ rects. rects.items ≡ alone shape.now) }
{
    match shape {
        CommunityShape::Standard(members) => alone_in(alloc, members.as_slice()),
        CommunityShape::Expanded(rect) => {
            let one = Vec::from_slice(alloc, &[*rect])?;
            Ok(one)
        }
    }
}

// Adds what is left of rectangles without those that are kept.
fn push_left(
    alloc: Global,
    removed: &mut Vec<Rect>,
    rects: &[Rect],
    kept: &[Rect],
) -> Result<(), Memory>
    ensures { IfOk result (λ _. (c : Community) → fits_some fits removed.new.items c ≡ (fits_some fits removed.old.items c || (fits_some fits rects.now c && not (fits_some fits kept.now c)))) }
{
    let mut ahead = rects;
    while let [first, tail @ ..] = ahead {
        let left = rest(alloc, first, kept)?;
        removed.extend_from_slice(left.as_slice())?;
        ahead = tail;
    }
    Ok(())
}

// Takes one more entry into account: one that permits removes what no entry before it kept.
fn take_entry(
    alloc: Global,
    removed: &mut Vec<Rect>,
    kept: &mut Vec<Rect>,
    entry: &CommunityListEntry,
) -> Result<(), Memory>
    ensures { IfOk result (λ _. TakesOne entry.now removed.old.items kept.old.items removed.new.items kept.new.items) }
{
    let rects = alone(alloc, &entry.shape)?;
    if !entry.permit {
        kept.extend_from_slice(rects.as_slice())?;
        return Ok(());
    }
    if kept.is_empty() {
        removed.extend_from_slice(rects.as_slice())?;
        return Ok(());
    }
    push_left(alloc, removed, rects.as_slice(), kept.as_slice())?;
    Ok(())
}

/// What the entries of a community list take away. The one error is want of memory.
pub(crate) fn taken_away(
    alloc: Global,
    entries: &[&CommunityListEntry],
) -> Result<Vec<Rect>, Memory>
    ensures { IfOk result (λ rects. AreTaken (map (λ e. e.now) entries.now) rects.items) }
{
    let mut removed = Vec::new(alloc);
    let mut kept = Vec::new(alloc);
    let mut ahead = entries;
    while let [entry, behind @ ..] = ahead {
        take_entry(alloc, &mut removed, &mut kept, entry)?;
        ahead = behind;
    }
    Ok(removed)
}
