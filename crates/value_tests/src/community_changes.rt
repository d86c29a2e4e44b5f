// Changes of communities: one after the other, how they cut a rectangle, and what they leave of it.
use community_sets::{CommEntry, CommList, CommTest, Cut, cuts, list_holds, rest, then};
use route_types::{
    Change, CommChange, Community, Memory, NextHop, Origin, Rect, Route, Row, apply_change,
    new_route, read_prefix,
};
use std::alloc::Global;
use std::test::Fail;

/// 65001:0, 65001:1, 65001:2, 65001:5 and 65002:1.
const A0: Community = Community(65001 * 65536);

const A1: Community = Community(65001 * 65536 + 1);

const A2: Community = Community(65001 * 65536 + 2);

const A5: Community = Community(65001 * 65536 + 5);

const B1: Community = Community(65002 * 65536 + 1);

/// These rectangles go, and these communities come.
fn change(alloc: Global, removed: &[Rect], added: &[Community]) -> Result<CommChange, Memory> {
    Ok(CommChange {
        removed: Row::from_slice(alloc, removed)?,
        added: Row::from_slice(alloc, added)?,
    })
}

/// A route with these communities, changed.
fn changed(alloc: Global, communities: &[Community], change: &Change) -> Result<Route, Fail> {
    let prefix = read_prefix(b"10.0.0.0/8").ok_or("no prefix")?;
    let hop = NextHop::Own;
    let origin = Origin::Igp;
    let route = new_route(alloc, prefix, hop, &[], origin, 0, 0, 0, communities)?;
    Ok(apply_change(alloc, &route, change)?)
}

#[test]
fn one_after_the_other(rt: HostRuntime) -> Result<(), Fail> {
    let alloc = rt.alloc();
    let first = change(alloc, &[Rect::new(65001, 65001, 0, 65535)], &[A1])?;
    let second = change(alloc, &[Rect::new(65001, 65001, 1, 1)], &[])?;
    let both = Change::Communities(then(alloc, &first, &second)?);
    for communities in [[A1, A5, B1].as_slice(), &[B1]] {
        let route = changed(alloc, communities, &both)?;
        assert_eq!(rt; route.communities(), [B1].as_slice());
    }
    Ok(())
}

#[test]
fn rectangles_cut(rt: HostRuntime) -> Result<(), Fail> {
    let alloc = rt.alloc();
    let all = Rect::new(65001, 65001, 0, 65535);
    let one = Rect::new(65001, 65001, 1, 1);
    let other = Rect::new(65002, 65002, 1, 1);
    for (rect, removed, want) in [
        (all, one, Cut::Part),
        (one, all, Cut::Whole),
        (other, all, Cut::Never),
    ] {
        assert_eq!(rt; cuts(&rect, &change(alloc, &[removed], &[])?), want);
    }
    Ok(())
}

/// A list that permits what fits one of the rectangles.
fn one_of(alloc: Global, rects: &[Rect]) -> Result<CommList, Memory> {
    let mut entries = Row::new(alloc);
    for rect in rects {
        let test = CommTest::AllOf(Row::from_slice(alloc, &[*rect])?);
        entries.push(CommEntry { permit: true, test })?;
    }
    Ok(CommList { entries })
}

#[test]
fn rest_of_a_rectangle(rt: HostRuntime) -> Result<(), Fail> {
    let alloc = rt.alloc();
    let all = Rect::new(65001, 65001, 0, 65535);
    let left = rest(alloc, &all, &[Rect::new(65001, 65001, 1, 1)])?;
    let list = one_of(alloc, left.as_slice())?;
    for (community, fits) in [(A0, true), (A1, false), (A2, true), (B1, false)] {
        assert_eq!(rt; list_holds(&list, &[community]), fits);
    }
    Ok(())
}
