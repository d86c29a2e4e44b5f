//! Which policies lead to each other, by one walk along the calls (R. Tarjan, 'Depth-first search and linear graph
//! algorithms', 1972). Nothing is proved of the numbers that the walk gives: `ranks` shows by the calls themselves whether
//! they are right, and what is decided by a search where they are not.

use crate::call::Call;
use route_types::Memory;
use std::alloc::Global;
use std::collections::BTreeMap;

/// The number of the group that each policy is of, and one policy of each group.
#[derive(Drop)]
pub(crate) struct Groups<'a> {
    pub(crate) ranks: BTreeMap<&'a [u8], u64>,
    pub(crate) roots: Vec<&'a [u8]>,
}

// A policy in the walk: the places of those that it calls, how many of these have been followed, when the walk came to it,
// the earliest policy that it comes back to, and the number of its group.
#[derive(Drop)]
struct Stop {
    callees: Vec<usize>,
    followed: usize,
    come: Option<u64>,
    earliest: u64,
    group: Option<u64>,
}

// The policies, those whose group isn't closed, those that the walk is in, how many it has come to, and the first policy of
// each group.
#[derive(Drop)]
struct Walk {
    stops: Vec<Stop>,
    waiting: Vec<usize>,
    inside: Vec<usize>,
    count: u64,
    firsts: Vec<usize>,
}

fn enter(walk: &mut Walk, place: usize) -> Result<(), Memory> {
    if let Some(stop) = walk.stops.get_mut(place) {
        stop.come = Some(walk.count);
        stop.earliest = walk.count;
    }
    walk.count = walk.count.saturating_add(1);
    walk.waiting.push(place)?;
    walk.inside.push(place)?;
    Ok(())
}

// The next call of a policy that is followed.
fn next_callee(walk: &mut Walk, place: usize) -> Option<usize> {
    let stop = walk.stops.get_mut(place)?;
    let callee = *stop.callees.get(stop.followed)?;
    stop.followed = stop.followed.saturating_add(1);
    Some(callee)
}

// When the walk came to a policy whose group isn't closed.
fn come_open(walk: &Walk, place: usize) -> Option<u64> {
    let stop = walk.stops.get(place)?;
    match stop.group {
        None => stop.come,
        Some(_) => None,
    }
}

fn is_new(walk: &Walk, place: usize) -> bool {
    match walk.stops.get(place) {
        Some(stop) => stop.come.is_none(),
        None => false,
    }
}

fn come_back(walk: &mut Walk, place: usize, earliest: u64) {
    if let Some(stop) = walk.stops.get_mut(place) {
        stop.earliest = stop.earliest.min(earliest);
    }
}

// Closes the group whose first policy is at this place.
fn close(walk: &mut Walk, place: usize) -> Result<(), Memory> {
    let number = walk.firsts.len() as u64;
    walk.firsts.push(place)?;
    while let Some(other) = walk.waiting.pop() {
        if let Some(stop) = walk.stops.get_mut(other) {
            stop.group = Some(number);
        }
        if other == place {
            return Ok(());
        }
    }
    Ok(())
}

// Leaves a policy whose calls have been followed.
fn leave(walk: &mut Walk, place: usize) -> Result<(), Memory> {
    walk.inside.pop();
    let Some(stop) = walk.stops.get(place) else {
        return Ok(());
    };
    let earliest = stop.earliest;
    if stop.come == Some(earliest) {
        return close(walk, place);
    }
    if let Some(caller) = walk.inside.last().copied() {
        come_back(walk, caller, earliest);
    }
    Ok(())
}

// One step of the walk; whether it goes on.
fn step(walk: &mut Walk) -> Result<bool, Memory> {
    let Some(place) = walk.inside.last().copied() else {
        return Ok(false);
    };
    let Some(callee) = next_callee(walk, place) else {
        leave(walk, place)?;
        return Ok(true);
    };
    if is_new(walk, callee) {
        enter(walk, callee)?;
        return Ok(true);
    }
    if let Some(earliest) = come_open(walk, callee) {
        come_back(walk, place, earliest);
    }
    Ok(true)
}

// The place of a policy, which it gets where it has none.
fn place_of<'a>(
    alloc: Global,
    places: &mut BTreeMap<&'a [u8], usize>,
    names: &mut Vec<&'a [u8]>,
    stops: &mut Vec<Stop>,
    name: &'a [u8],
) -> Result<usize, Memory> {
    if let Some(place) = places.get(&name) {
        return Ok(*place);
    }
    let place = names.len();
    places.insert(name, place)?;
    names.push(name)?;
    stops.push(Stop {
        callees: Vec::new(alloc),
        followed: 0,
        come: None,
        earliest: 0,
        group: None,
    })?;
    Ok(place)
}

// The names of the policies, and the policies before the walk.
fn stops_of<'a>(alloc: Global, calls: &[Call<'a>]) -> Result<(Vec<&'a [u8]>, Vec<Stop>), Memory> {
    let mut places = BTreeMap::new(alloc);
    let mut names = Vec::new(alloc);
    let mut stops = Vec::new(alloc);
    for call in calls {
        let caller = place_of(alloc, &mut places, &mut names, &mut stops, call.caller)?;
        let callee = place_of(alloc, &mut places, &mut names, &mut stops, call.callee)?;
        if let Some(stop) = stops.get_mut(caller) {
            stop.callees.push(callee)?;
        }
    }
    Ok((names, stops))
}

// Walks from a policy until the walk has come out of it: each call is followed once, and each policy left once.
fn walk_from(walk: &mut Walk, start: usize, most: usize) -> Result<(), Memory> {
    if !is_new(walk, start) {
        return Ok(());
    }
    enter(walk, start)?;
    for _ in 0..most {
        if !step(walk)? {
            return Ok(());
        }
    }
    Ok(())
}

// The numbers of the groups under the names.
fn ranks_of<'a>(
    alloc: Global,
    names: &[&'a [u8]],
    stops: &[Stop],
) -> Result<BTreeMap<&'a [u8], u64>, Memory> {
    let mut ranks = BTreeMap::new(alloc);
    for (name, stop) in names.iter().zip(stops) {
        if let Some(group) = stop.group {
            ranks.insert(*name, group)?;
        }
    }
    Ok(ranks)
}

/// The groups of policies that lead to each other along the calls.
pub(crate) fn groups_of<'a>(alloc: Global, calls: &[Call<'a>]) -> Result<Groups<'a>, Memory> {
    let (names, stops) = stops_of(alloc, calls)?;
    let most = calls.len().saturating_add(names.len());
    let mut walk = Walk {
        stops,
        waiting: Vec::new(alloc),
        inside: Vec::new(alloc),
        count: 0,
        firsts: Vec::new(alloc),
    };
    for start in 0..names.len() {
        walk_from(&mut walk, start, most)?;
    }
    let mut roots = Vec::new(alloc);
    for place in &walk.firsts {
        if let Some(name) = names.get(*place) {
            roots.push(*name)?;
        }
    }
    let ranks = ranks_of(alloc, names.as_slice(), walk.stops.as_slice())?;
    Ok(Groups { ranks, roots })
}
