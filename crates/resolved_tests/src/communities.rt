// Tests of communities behind a change of them.
ghost use Rattle.std.specs.Prelude.{◌≡◌, [], ◌∷◌, IfOk};
ghost use Rattle.core_nodes.specs.declared.atom.Atom.TheVariants.{Community as Communities, NoCommunity};
ghost use Rattle.resolved_tests.specs.Answers.{Resolves, SaysAs, LeavesLists, empty_alone};

use crate::answer::{Answer, ListsBehind};
use crate::decided::{decided_by_lists, has_no_community};
use community_cuts::lists_before;
use community_sets::{CommEntry, CommList, CommTest};
use core_nodes::Atom;
use pending_changes::Pending;
use route_types::{CommChange, Duplicate, Memory, Row};
use std::alloc::Global;

/// The answer to a test by community lists. The one error is want of memory.
#[tactic(auto, using(crate::proofs::AnswerLaws::lists_unchanged, crate::proofs::AnswerLaws::lists_changed))]
pub(crate) fn lists_answer(
    alloc: Global,
    pending: &Pending,
    lists: &Row<CommList>,
) -> Result<Answer, Memory>
    ensures { IfOk result (Resolves pending.now (Communities lists.now)) }
{
    match &pending.communities {
        None => {
            let copied = lists.duplicate(alloc)?;
            Ok(Answer::Asked(Atom::Community(copied)))
        }
        Some(change) => {
            let answer = lists_behind_change(alloc, lists, change)?;
            Ok(answer)
        }
    }
}

/// The answer to the test that there is no community. The one error is want of memory.
#[tactic(auto, using(crate::proofs::AnswerLaws::none_unchanged, crate::proofs::AnswerLaws::none_changed))]
pub(crate) fn none_answer(alloc: Global, pending: &Pending) -> Result<Answer, Memory>
    ensures { IfOk result (Resolves pending.now NoCommunity) }
{
    match &pending.communities {
        None => Ok(Answer::Asked(Atom::NoCommunity)),
        Some(change) => {
            let answer = none_behind_change(alloc, change)?;
            Ok(answer)
        }
    }
}

// By lists that ask the same before the change, where there are any.
#[tactic(auto, using(crate::proofs::AnswerLaws::lists_asked))]
fn lists_behind_change(
    alloc: Global,
    lists: &Row<CommList>,
    change: &CommChange,
) -> Result<Answer, Memory>
    ensures { IfOk result (λ answer. LeavesLists answer lists.now change.now) }
{
    match lists_before(alloc, lists.as_slice(), change)? {
        Some(found) => Ok(decided_or_asked(found)),
        None => {
            let parted = parted(alloc, lists, change)?;
            Ok(parted)
        }
    }
}

// What lists answer on every set, else themselves.
#[tactic(auto, using(crate::proofs::AnswerLaws::lists_decided, crate::proofs::AnswerLaws::lists_themselves))]
fn decided_or_asked(lists: Row<CommList>) -> Answer
    ensures { SaysAs result lists }
{
    match decided_by_lists(lists.as_slice()) {
        Some(holds) => Answer::Decided(holds),
        None => Answer::Asked(Atom::Community(lists)),
    }
}

#[tactic(auto, using(crate::proofs::AnswerLaws::lists_parted))]
fn parted(alloc: Global, lists: &Row<CommList>, change: &CommChange) -> Result<Answer, Memory>
    ensures { IfOk result (λ answer. LeavesLists answer lists.now change.now) }
{
    let lists = lists.duplicate(alloc)?;
    let change = change.duplicate(alloc)?;
    Ok(Answer::Parted(ListsBehind { lists, change }))
}

// No community is there behind a change that adds one; else none is where the empty set alone is permitted.
#[tactic(auto, using(crate::proofs::AnswerLaws::none_left))]
fn none_behind_change(alloc: Global, change: &CommChange) -> Result<Answer, Memory>
    ensures { IfOk result (λ answer. LeavesLists answer (empty_alone ∷ []) change.now) }
{
    if !has_no_community(change.added.as_slice()) {
        return Ok(Answer::Decided(false));
    }
    let alone = empty_alone(alloc)?;
    let answer = parted(alloc, &alone, change)?;
    Ok(answer)
}

fn empty_alone(alloc: Global) -> Result<Row<CommList>, Memory>
    ensures { IfOk result (λ lists. lists ≡ empty_alone ∷ []) }
{
    let mut entries = Row::new(alloc);
    entries.push(CommEntry {
        permit: true,
        test: CommTest::Exactly(Row::new(alloc)),
    })?;
    let mut lists = Row::new(alloc);
    lists.push(CommList { entries })?;
    Ok(lists)
}
