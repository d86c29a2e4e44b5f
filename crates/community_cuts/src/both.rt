// Two changes of communities as one, in one form.
ghost use Rattle.std.specs.Prelude.{◌≡◌, ◌||◌, Bool, true, IfOk, List};
ghost use Rattle.std.specs.List.{list_all};
ghost use Rattle.route_types.specs.Community.{RectParts, fits, set_of};
ghost use Rattle.route_types.specs.Sets.{fits_some};
ghost use Rattle.route_types.specs.declared.community.Community.{Community};
ghost use Rattle.community_cuts.specs.Earlier.{behind};

use community_sets::{Cut, cuts, then};
use route_types::{CommChange, Community, Memory, Rect, Row};
use std::alloc::Global;

/// The change that acts as the first and then the second. What the second removes anyway is not removed twice by one
/// rectangle within another, and what is added stands in rising order and without repeats, so that changes that come to
/// the same are mostly equal. The one error is want of memory.
pub fn joined(alloc: Global, first: &CommChange, second: &CommChange) -> Result<CommChange, Memory>
    // For every set it acts as the first and then the second.
    ensures acts { IfOk result (λ change. (set : List Community) → behind change set ≡ behind second.now (behind first.now set)) }
    // Its removed rectangles are some of those of the two.
    ensures said { IfOk result (λ change. (on_rect : RectParts → Bool) → list_all on_rect first.now.removed ≡ true → list_all on_rect second.now.removed ≡ true → list_all on_rect change.removed ≡ true) }
{
    let both = then(alloc, first, second)?;
    let removed = all_removed(alloc, first.removed.as_slice(), second)?;
    let added = set_of(both.added.into_vec());
    Ok(CommChange {
        removed: Row::from_vec(removed),
        added: Row::from_vec(added),
    })
}

// The removed rectangles of the first change that no one of the second has all of, and those of the second.
fn all_removed(alloc: Global, rects: &[Rect], second: &CommChange) -> Result<Vec<Rect>, Memory>
    ensures fits { IfOk result (λ v. (c : Community) → fits_some fits v.items c ≡ (fits_some fits rects.now c || fits_some fits second.now.removed c)) }
    ensures said { IfOk result (λ v. (on_rect : RectParts → Bool) → list_all on_rect rects.now ≡ true → list_all on_rect second.now.removed ≡ true → list_all on_rect v.items ≡ true) }
{
    let mut kept = uncovered(alloc, rects, second)?;
    kept.extend_from_slice(second.removed.as_slice())?;
    Ok(kept)
}

// The rectangles that no one of the removed ones has all of.
#[tactic(auto, using(crate::proofs::JoinedLaws::uncovered_at_first, crate::proofs::JoinedLaws::uncovered_next))]
fn uncovered(alloc: Global, rects: &[Rect], second: &CommChange) -> Result<Vec<Rect>, Memory>
    ensures fits { IfOk result (λ v. (c : Community) → (fits_some fits v.items c || fits_some fits second.now.removed c) ≡ (fits_some fits rects.now c || fits_some fits second.now.removed c)) }
    ensures said { IfOk result (λ v. (on_rect : RectParts → Bool) → list_all on_rect rects.now ≡ true → list_all on_rect v.items ≡ true) }
{
    let mut kept = Vec::new(alloc);
    let mut rest = rects;
    while let [first, tail @ ..] = rest {
        push_uncovered(&mut kept, first, second)?;
        rest = tail;
    }
    Ok(kept)
}

#[tactic(auto, using(crate::proofs::JoinedLaws::removed_anyway))]
fn push_uncovered(kept: &mut Vec<Rect>, rect: &Rect, second: &CommChange) -> Result<(), Memory>
    ensures fits { IfOk result (λ _. (c : Community) → (fits_some fits kept.new.items c || fits_some fits second.now.removed c) ≡ (fits_some fits kept.old.items c || (fits rect.now c || fits_some fits second.now.removed c))) }
    ensures said { IfOk result (λ _. (on_rect : RectParts → Bool) → list_all on_rect kept.old.items ≡ true → on_rect rect.now ≡ true → list_all on_rect kept.new.items ≡ true) }
{
    if is_covered(rect, second) {
        return Ok(());
    }
    kept.push(*rect)?;
    Ok(())
}

// Whether one removed rectangle has all communities of the rectangle: it removes them, then.
fn is_covered(rect: &Rect, change: &CommChange) -> bool
    ensures { result ≡ true → (c : Community) → fits rect.now c ≡ true → fits_some fits change.now.removed c ≡ true }
{
    match cuts(rect, change) {
        Cut::Whole => true,
        Cut::Never => false,
        Cut::Part => false,
    }
}

// The communities of a list in rising order and without repeats.
fn set_of(list: Vec<Community>) -> Vec<Community>
    ensures { result.items ≡ set_of list.items }
{
    let mut set = list;
    set.sort_unstable();
    set.dedup();
    set
}
