// Tests of entries behind a change: by each rectangle, or by the whole set.
ghost use Rattle.std.specs.Prelude.{◌≡◌, ◌<◌, ◌++◌, length, map, IfOk};
ghost use Rattle.std.specs.List.{list_all};
ghost use Rattle.community_sets.specs.Tests.{is_member};
ghost use Rattle.community_branches.specs.Branches.{IsBranch, fitted_behind, all_fitted_behind, test_behind};
ghost use Rattle.community_branches.specs.Asked.{point, every};
ghost use Rattle.community_branches.specs.Tests.{others_behind, exactly_behind};

use crate::asked::{ask_all, ask_some};
use community_cuts::{Member, TestBefore, member_before, test_before};
use community_sets::{CommTest, rest};
use policy_core::{Core, Node};
use route_types::{CommChange, Community, Memory, Rect, Row};
use std::alloc::Global;

/// The node that goes to `yes` where the communities behind the change pass the test, else to `no`. The one error is want
/// of memory.
#[tactic(auto, using(crate::proofs::TestLaws::test_never, crate::proofs::TestLaws::test_asked))]
pub(crate) fn branch_by_test(
    alloc: Global,
    core: &mut Core,
    test: &CommTest,
    change: &CommChange,
    yes: Node,
    no: Node,
) -> Result<Node, Memory>
    requires of_yes { yes < length core.old }
    requires of_no { no < length core.old }
    ensures { IfOk result (IsBranch core.old core.new (test_behind change.now test.now) yes no) }
{
    match test_before(alloc, test, change)? {
        TestBefore::Never => Ok(no),
        TestBefore::Asked(rects) => {
            let node = ask_all(alloc, core, rects, yes, no)?;
            Ok(node)
        }
        TestBefore::Split => {
            let node = branch_by_parts(alloc, core, test, change, yes, no)?;
            Ok(node)
        }
    }
}

fn branch_by_parts(
    alloc: Global,
    core: &mut Core,
    test: &CommTest,
    change: &CommChange,
    yes: Node,
    no: Node,
) -> Result<Node, Memory>
    requires of_yes { yes < length core.old }
    requires of_no { no < length core.old }
    ensures { IfOk result (IsBranch core.old core.new (test_behind change.now test.now) yes no) }
{
    match test {
        CommTest::AllOf(rects) => {
            let node = branch_by_all(alloc, core, rects.as_slice(), change, yes, no)?;
            Ok(node)
        }
        CommTest::Exactly(members) => {
            let node = branch_by_set(alloc, core, members.as_slice(), change, yes, no)?;
            Ok(node)
        }
    }
}

// ---- rectangles

// Where each rectangle is fitted behind the change: a branch for each one.
#[tactic(auto, using(crate::proofs::Steps::all_start, crate::proofs::Steps::all_done, crate::proofs::Steps::none_left))]
fn branch_by_all(
    alloc: Global,
    core: &mut Core,
    rects: &[Rect],
    change: &CommChange,
    yes: Node,
    no: Node,
) -> Result<Node, Memory>
    requires of_yes { yes < length core.old }
    requires of_no { no < length core.old }
    ensures { IfOk result (IsBranch core.old core.new (all_fitted_behind change.now rects.now) yes no) }
{
    let mut node = yes;
    let mut rest = rects;
    while let [front @ .., last] = rest {
        node = branch_by_member(alloc, core, last, change, node, no)?;
        rest = front;
    }
    Ok(node)
}

// Where the rectangle is fitted behind the change: what an added community fits is decided, what a removal meets is asked
// for what is left of it.
#[tactic(auto, using(crate::proofs::TestLaws::member_held, crate::proofs::TestLaws::member_gone, crate::proofs::TestLaws::member_kept))]
fn branch_by_member(
    alloc: Global,
    core: &mut Core,
    rect: &Rect,
    change: &CommChange,
    yes: Node,
    no: Node,
) -> Result<Node, Memory>
    requires of_yes { yes < length core.old }
    requires of_no { no < length core.old }
    ensures { IfOk result (IsBranch core.old core.new (fitted_behind change.now rect.now) yes no) }
{
    match member_before(rect, change) {
        Member::Held => Ok(yes),
        Member::Kept => {
            let one = Row::from_slice(alloc, &[*rect])?;
            let node = ask_all(alloc, core, one, yes, no)?;
            Ok(node)
        }
        Member::Gone => Ok(no),
        Member::Parted => {
            let left = rest(alloc, rect, change.removed.as_slice())?;
            let node = ask_some(alloc, core, left.as_slice(), yes, no)?;
            Ok(node)
        }
    }
}

// ---- whole sets

// Where the communities behind the change are these and no others: each is there, and no other one is.
fn branch_by_set(
    alloc: Global,
    core: &mut Core,
    members: &[Community],
    change: &CommChange,
    yes: Node,
    no: Node,
) -> Result<Node, Memory>
    requires of_yes { yes < length core.old }
    requires of_no { no < length core.old }
    ensures { IfOk result (IsBranch core.old core.new (exactly_behind change.now members.now) yes no) }
{
    if !all_members(change.added.as_slice(), members) {
        return Ok(no);
    }
    let points = points(alloc, members)?;
    let alone = branch_by_others(alloc, core, points.as_slice(), change, yes, no)?;
    let node = branch_by_all(alloc, core, points.as_slice(), change, alone, no)?;
    Ok(node)
}

// Where no community but those of these rectangles is there that the change leaves.
fn branch_by_others(
    alloc: Global,
    core: &mut Core,
    points: &[Rect],
    change: &CommChange,
    yes: Node,
    no: Node,
) -> Result<Node, Memory>
    requires of_yes { yes < length core.old }
    requires of_no { no < length core.old }
    ensures { IfOk result (IsBranch core.old core.new (others_behind change.now points.now) yes no) }
{
    let mut away = Vec::from_slice(alloc, points)?;
    away.extend_from_slice(change.removed.as_slice())?;
    let others = rest(alloc, &every(), away.as_slice())?;
    let node = ask_some(alloc, core, others.as_slice(), no, yes)?;
    Ok(node)
}

fn every() -> Rect
    ensures { result ≡ every }
{
    Rect::new(0, 65535, 0, 65535)
}

fn point(community: &Community) -> Rect
    ensures { result ≡ point community.now }
{
    let high = community.high();
    let low = community.low();
    Rect::new(high, high, low, low)
}

fn points(alloc: Global, members: &[Community]) -> Result<Vec<Rect>, Memory>
    ensures { IfOk result (λ rects. rects.items ≡ map point members.now) }
{
    let mut points = Vec::new(alloc);
    let mut rest = members;
    while let [first, tail @ ..] = rest {
        points.push(point(first))?;
        rest = tail;
    }
    Ok(points)
}

fn is_member(member: &Community, communities: &[Community]) -> bool
    ensures { result ≡ is_member member.now communities.now }
{
    communities.iter().any(|community| member.0 == community.0)
}

fn all_members(members: &[Community], communities: &[Community]) -> bool
    ensures { result ≡ list_all (λ c. is_member c communities.now) members.now }
{
    members.iter().all(|member| is_member(member, communities))
}
