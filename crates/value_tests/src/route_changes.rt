// Routes made, changed, printed and read, with ample memory.
use route_types::{
    Change, CommChange, Community, Memory, NextHop, Origin, Rect, Route, Row, apply_change,
    new_route, print_route, read_address, read_prefix, read_route,
};
use std::alloc::{AllocGlobal, Global};
use std::process::Abort;
use std::test::Fail;

/// 65001:1, 65001:5 and 65002:1.
const LISTED: [Community; 3] = [
    Community(65001 * 65536 + 1),
    Community(65001 * 65536 + 5),
    Community(65002 * 65536 + 1),
];

/// A route of 10.0.0.0/8 with the path 1 2 and those communities, given twice.
fn route(alloc: Global) -> Result<Route, Fail> {
    let [one, five, other] = LISTED;
    Ok(new_route(
        alloc,
        read_prefix(b"10.0.0.0/8").ok_or("no prefix")?,
        NextHop::Own,
        &[1, 2],
        Origin::Egp,
        1,
        2,
        3,
        &[other, five, one, five],
    )?)
}

/// All of 65001 goes, and 65001:1 comes.
fn replaced(alloc: Global) -> Result<Change, Memory> {
    let mut removed = Row::new(alloc);
    removed.push(Rect::new(65001, 65001, 0, 65535))?;
    let mut added = Row::new(alloc);
    added.push(LISTED[0])?;
    Ok(Change::Communities(CommChange { removed, added }))
}

/// The route is printed so.
fn prints(rt: &(impl Abort + AllocGlobal), route: &Route, want: &str) -> Result<(), Fail> {
    let text = print_route(rt.alloc(), route)?;
    assert_eq!(rt; text.as_slice(), want.as_bytes());
    Ok(())
}

#[test]
fn changes(rt: HostRuntime) -> Result<(), Fail> {
    let alloc = rt.alloc();
    let hop = NextHop::At(read_address(b"10.0.0.1").ok_or("no address")?);
    let start = "\
route 10.0.0.0/8
next-hop self
as-path 1 2
origin egp
local-preference 1
med 2
weight 3
communities 65001:1 65001:5 65002:1
";
    let made = route(alloc)?;
    prints(&rt, &made, start)?;
    let again = read_route(alloc, start.as_bytes())?;
    prints(&rt, &again, start)?;
    let mut changed = again;
    for change in [
        Change::NextHop(hop),
        Change::Prepend(7),
        Change::Origin(Origin::Igp),
        Change::LocalPreference(200),
        Change::Med(50),
        Change::Weight(9),
        replaced(alloc)?,
    ] {
        changed = apply_change(alloc, &changed, &change)?;
    }
    let end = "\
route 10.0.0.0/8
next-hop 10.0.0.1
as-path 7 1 2
origin igp
local-preference 200
med 50
weight 9
communities 65001:1 65002:1
";
    prints(&rt, &changed, end)
}
