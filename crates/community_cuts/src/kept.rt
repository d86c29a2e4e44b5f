// Tests, entries and lists that one list can still say before a change.
ghost use Rattle.std.specs.Prelude.{◌≡◌, Bool, true, false, List, Some, None, IfOk, IfSome};
ghost use Rattle.route_types.specs.Community.{RectParts};
ghost use Rattle.community_sets.specs.declared.list.CommTest.TheVariants.{AllOf};
ghost use Rattle.community_cuts.specs.Kept.{TestUncut, EntriesUncut, ListsUncut, asks_for, still_asks, TestComesTo, RectTaken, EntryTaken, EntriesBefore, ListsBefore};

use crate::member::{Member, member_before};
use community_sets::{CommEntry, CommList, CommTest};
use route_types::{CommChange, Memory, Rect, Row};
use std::alloc::Global;

/// What the test of an entry behind a change comes to before it.
#[derive(Debug, PartialEq, Eq, Drop)]
pub enum TestBefore {
    /// It does not hold.
    Never,
    /// Each of these rectangles is asked for, and nothing else.
    Asked(Row<Rect>),
    /// The change cuts one of its rectangles in part, or it asks for the whole set.
    Split,
}

// What becomes of a test by one of its rectangles.
pub(crate) enum Turn {
    GoesOn,
    Fails,
    Parts,
}

/// Lists of which one permits a set before the change exactly where one of these does behind it; `None` where a list
/// cannot say that. The one error is want of memory.
#[tactic(auto, using(crate::proofs::KeptLaws::lists_first, crate::proofs::KeptLaws::lists_next, crate::proofs::KeptLaws::lists_part, crate::proofs::KeptLaws::lists_end))]
pub fn lists_before(
    alloc: Global,
    lists: &[CommList],
    change: &CommChange,
) -> Result<Option<Row<CommList>>, Memory>
    ensures asks { IfOk result (λ o. IfSome o (λ found. ListsBefore found lists.now change.now)) }
    // They are there where no rectangle is cut in part and no entry asks for the whole set.
    ensures uncut { IfOk result (λ o. ListsUncut change.now lists.now → o ≡ None → ⊥) }
{
    let mut kept = Row::new(alloc);
    let mut rest = lists;
    while let [first, tail @ ..] = rest {
        match list_before(alloc, first, change)? {
            None => return Ok(None),
            Some(list) => kept.push(list)?,
        }
        rest = tail;
    }
    Ok(Some(kept))
}

/// A list that permits a set before the change exactly where this one does behind it; `None` where one list cannot say
/// that. The one error is want of memory.
#[tactic(auto, using(crate::proofs::KeptLaws::entries_first, crate::proofs::KeptLaws::entries_next, crate::proofs::KeptLaws::entries_part, crate::proofs::KeptLaws::entries_end))]
pub fn list_before(
    alloc: Global,
    list: &CommList,
    change: &CommChange,
) -> Result<Option<CommList>, Memory>
    ensures asks { IfOk result (λ o. IfSome o (λ found. EntriesBefore found.entries list.now.entries change.now)) }
    // It is there where no rectangle is cut in part and no entry asks for the whole set.
    ensures uncut { IfOk result (λ o. EntriesUncut change.now list.now.entries → o ≡ None → ⊥) }
{
    let mut kept = Row::new(alloc);
    let mut rest = list.entries.as_slice();
    while let [first, tail @ ..] = rest {
        if !take_entry(alloc, &mut kept, first, change)? {
            return Ok(None);
        }
        rest = tail;
    }
    Ok(Some(CommList { entries: kept }))
}

// Adds what the entry comes to, if one list can say it.
#[tactic(auto, using(crate::proofs::KeptLaws::takes_never, crate::proofs::KeptLaws::takes_asked, crate::proofs::KeptLaws::split_from))]
fn take_entry(
    alloc: Global,
    kept: &mut Row<CommEntry>,
    entry: &CommEntry,
    change: &CommChange,
) -> Result<bool, Memory>
    ensures { IfOk result (λ goes_on. EntryTaken goes_on kept.old kept.new entry.now change.now) }
{
    match test_before(alloc, &entry.test, change)? {
        TestBefore::Never => Ok(true),
        TestBefore::Asked(rects) => {
            kept.push(CommEntry {
                permit: entry.permit,
                test: CommTest::AllOf(rects),
            })?;
            Ok(true)
        }
        TestBefore::Split => Ok(false),
    }
}

/// What the test of an entry behind a change comes to before it. The one error is want of memory.
pub fn test_before(
    alloc: Global,
    test: &CommTest,
    change: &CommChange,
) -> Result<TestBefore, Memory>
    ensures tells { IfOk result (λ before. TestComesTo before test.now change.now) }
    ensures said { IfOk result (λ before. (on_rect : RectParts → Bool) → asks_for on_rect test.now ≡ true → still_asks on_rect before ≡ true) }
{
    match test {
        CommTest::AllOf(rects) => {
            let before = rects_before(alloc, rects.as_slice(), change)?;
            Ok(before)
        }
        CommTest::Exactly(_) => Ok(TestBefore::Split),
    }
}

#[tactic(auto, using(crate::proofs::KeptLaws::rects_first, crate::proofs::KeptLaws::rects_next, crate::proofs::KeptLaws::rects_fail, crate::proofs::KeptLaws::rects_part, crate::proofs::KeptLaws::rects_end, crate::proofs::KeptLaws::rects_said))]
fn rects_before(alloc: Global, rects: &[Rect], change: &CommChange) -> Result<TestBefore, Memory>
    ensures tells { IfOk result (λ before. TestComesTo before (AllOf rects.now) change.now) }
    ensures said { IfOk result (λ before. (on_rect : RectParts → Bool) → asks_for on_rect (AllOf rects.now) ≡ true → still_asks on_rect before ≡ true) }
{
    let mut kept = Row::new(alloc);
    let mut rest = rects;
    while let [first, tail @ ..] = rest {
        match take_rect(&mut kept, first, change)? {
            Turn::GoesOn => {}
            Turn::Fails => return Ok(TestBefore::Never),
            Turn::Parts => return Ok(TestBefore::Split),
        }
        rest = tail;
    }
    Ok(TestBefore::Asked(kept))
}

// Adds the rectangle, if it is still to be asked for.
#[tactic(auto, using(crate::proofs::KeptLaws::takes_held, crate::proofs::KeptLaws::takes_kept, crate::proofs::KeptLaws::gone_from, crate::proofs::KeptLaws::parted_from))]
fn take_rect(kept: &mut Row<Rect>, rect: &Rect, change: &CommChange) -> Result<Turn, Memory>
    ensures { IfOk result (λ turn. RectTaken turn kept.old kept.new rect.now change.now) }
{
    match member_before(rect, change) {
        Member::Held => Ok(Turn::GoesOn),
        Member::Kept => {
            kept.push(*rect)?;
            Ok(Turn::GoesOn)
        }
        Member::Gone => Ok(Turn::Fails),
        Member::Parted => Ok(Turn::Parts),
    }
}
