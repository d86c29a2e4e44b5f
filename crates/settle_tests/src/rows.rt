//! Tests of each kind, changes of each kind, and routes.
use aspath_text::read_junos_pattern;
use community_sets::{CommEntry, CommList, CommTest};
use policy_core::{Atom, PathEntry, PathList};
use prefix_sets::{PrefixEntry, PrefixList, PrefixRange};
use route_types::{
    Address, Change, CommChange, Community, Family, Memory, NextHop, Origin, Rect, Route, Row,
    new_route, read_prefix,
};
use std::alloc::Global;
use std::test::Fail;

/// 65001:1, 65001:2 and 65002:1.
const A1: Community = Community(65001 * 65536 + 1);

const A2: Community = Community(65001 * 65536 + 2);

const B1: Community = Community(65002 * 65536 + 1);

fn hop(last: u8) -> NextHop {
    NextHop::At(Address {
        family: Family::V4,
        bits: 10 * 16777216 + u128::from(last),
    })
}

// ---- changes

fn of_communities(alloc: Global, removed: &[Rect], added: &[Community]) -> Result<Change, Memory> {
    Ok(Change::Communities(CommChange {
        removed: Row::from_slice(alloc, removed)?,
        added: Row::from_slice(alloc, added)?,
    }))
}

/// A change of each kind: of communities that add, remove one of an upper half, and put others in place of all.
pub(crate) fn changes(alloc: Global) -> Result<Vec<Change>, Memory> {
    let mut changes = Vec::new(alloc);
    changes.push(Change::Med(20))?;
    changes.push(Change::LocalPreference(200))?;
    changes.push(Change::Weight(7))?;
    changes.push(Change::Origin(Origin::Egp))?;
    changes.push(Change::NextHop(hop(9)))?;
    changes.push(Change::Prepend(65001))?;
    changes.push(of_communities(alloc, &[], &[A1])?)?;
    changes.push(of_communities(alloc, &[Rect::new(65001, 65001, 1, 1)], &[])?)?;
    changes.push(of_communities(alloc, &[Rect::new(0, 65535, 0, 65535)], &[A2, B1])?)?;
    Ok(changes)
}

/// Changes that come behind one of those.
pub(crate) fn later_changes(alloc: Global) -> Result<Vec<Change>, Memory> {
    let mut changes = Vec::new(alloc);
    changes.push(Change::Med(10))?;
    changes.push(Change::Prepend(65001))?;
    changes.push(of_communities(alloc, &[Rect::new(65001, 65001, 2, 5)], &[B1])?)?;
    Ok(changes)
}

// ---- tests

fn of_list(alloc: Global, entries: Vec<CommEntry>) -> Result<Atom, Memory> {
    let mut lists = Row::new(alloc);
    lists.push(CommList {
        entries: Row::from_vec(entries),
    })?;
    Ok(Atom::Community(lists))
}

// A list that denies where all rectangles are fitted, and permits what has exactly these communities, or any at all.
fn first_match(alloc: Global, rects: &[Rect], members: &[Community]) -> Result<Atom, Memory> {
    let mut entries = Vec::new(alloc);
    entries.push(CommEntry {
        permit: false,
        test: CommTest::AllOf(Row::from_slice(alloc, rects)?),
    })?;
    entries.push(CommEntry {
        permit: true,
        test: CommTest::Exactly(Row::from_slice(alloc, members)?),
    })?;
    of_list(alloc, entries)
}

fn all_of(alloc: Global, rects: &[Rect]) -> Result<Atom, Memory> {
    let mut entries = Vec::new(alloc);
    entries.push(CommEntry {
        permit: true,
        test: CommTest::AllOf(Row::from_slice(alloc, rects)?),
    })?;
    of_list(alloc, entries)
}

fn exactly(alloc: Global, members: &[Community]) -> Result<Atom, Memory> {
    let mut entries = Vec::new(alloc);
    entries.push(CommEntry {
        permit: true,
        test: CommTest::Exactly(Row::from_slice(alloc, members)?),
    })?;
    of_list(alloc, entries)
}

fn path(alloc: Global, text: &[u8]) -> Result<Atom, Fail> {
    let Ok(pattern) = read_junos_pattern(alloc, text) else {
        return Err("no pattern".into());
    };
    let mut entries = Row::new(alloc);
    entries.push(PathEntry {
        permit: true,
        pattern,
    })?;
    let mut lists = Row::new(alloc);
    lists.push(PathList { entries })?;
    Ok(Atom::Path(lists))
}

fn prefixes(alloc: Global, text: &[u8]) -> Result<Row<PrefixList>, Fail> {
    let prefix = read_prefix(text).ok_or("no prefix")?;
    let mut entries = Row::new(alloc);
    if prefix.length() <= 32 {
        entries.push(PrefixEntry {
            permit: true,
            range: PrefixRange::new(prefix, 32, 32),
        })?;
    }
    let mut lists = Row::new(alloc);
    lists.push(PrefixList {
        family: Family::V4,
        entries,
    })?;
    Ok(lists)
}

/// A test of each kind, of communities more than one.
pub(crate) fn atoms(alloc: Global) -> Result<Vec<Atom>, Fail> {
    let all_a = Rect::new(65001, 65001, 0, 65535);
    let one_b = Rect::new(65002, 65002, 1, 1);
    let mut atoms = Vec::new(alloc);
    atoms.push(Atom::MedOneOf(Row::from_slice(alloc, &[10, 20])?))?;
    atoms.push(Atom::MedAtLeast(15))?;
    atoms.push(Atom::MedAtMost(15))?;
    atoms.push(Atom::LocalPreference(200))?;
    atoms.push(Atom::Origin(Origin::Egp))?;
    atoms.push(Atom::NoCommunity)?;
    atoms.push(Atom::NextHop(prefixes(alloc, b"10.0.0.9/32")?))?;
    atoms.push(Atom::Prefix(prefixes(alloc, b"10.1.0.0/16")?))?;
    atoms.push(path(alloc, b"65001 .*")?)?;
    atoms.push(path(alloc, b"65001{2} 65002?")?)?;
    atoms.push(all_of(alloc, &[all_a])?)?;
    atoms.push(all_of(alloc, &[all_a, one_b])?)?;
    atoms.push(exactly(alloc, &[A2, B1])?)?;
    atoms.push(exactly(alloc, &[])?)?;
    atoms.push(first_match(alloc, &[all_a, one_b], &[A2])?)?;
    Ok(atoms)
}

// ---- routes

/// Routes with each of some paths and each of some sets of communities.
pub(crate) fn routes(alloc: Global) -> Result<Vec<Route>, Fail> {
    let prefix = read_prefix(b"10.1.2.3/32").ok_or("no prefix")?;
    let origin = Origin::Igp;
    let mut routes = Vec::new(alloc);
    for numbers in [[].as_slice(), &[65002], &[65001], &[65001, 65002]] {
        for communities in [[].as_slice(), &[A1], &[A2], &[A1, A2], &[A2, B1], &[B1]] {
            let route = new_route(
                alloc,
                prefix,
                hop(1),
                numbers,
                origin,
                100,
                10,
                0,
                communities,
            )?;
            routes.push(route)?;
        }
    }
    Ok(routes)
}
