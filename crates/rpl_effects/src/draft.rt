//! The draft of a route that changes leave, but for its communities.
ghost use Rattle.std.specs.Prelude.{◌≡◌, ◌∷◌, [], ℕ, List, reverse, take, IfOk, OnOk};
ghost use Rattle.route_types.specs.Route.{RouteParts};
ghost use Rattle.route_drafts.specs.Drafts.{route_of};
ghost use Rattle.rpl_effects.specs.Pieces.{leaves, leaves_at, prepends_of};
ghost use Rattle.rpl_effects.specs.Changes.{Acts, all_done, before, repeated_before, route_behind};

use crate::effect::{Changes, Effect, Piece, Times};
use crate::table::effect_at;
use route_drafts::Draft;
use route_types::{Memory, Route, Row};
use std::alloc::Global;

// Puts a number at the far end of a path that stands backwards, so many times.
#[tactic(auto, unfolding(crate::specs::Changes::repeated_before))]
fn push_times(path: &mut Vec<u32>, number: u32, count: u8) -> Result<(), Memory>
    ensures { OnOk result (reverse path.new.items ≡ repeated_before number count (reverse path.old.items)) }
{
    let mut left = count;
    while left > 0 {
        path.push(number)?;
        left -= 1;
    }
    Ok(())
}

// What an effect puts before the path.
fn prepends_of<S>(effect: &Effect<S>) -> &[Piece<Times>]
    ensures { result.now ≡ prepends_of effect.now }
{
    match effect {
        Effect::GoesOn(run) => run.changes.prepends.as_slice(),
        Effect::Accepted(changes) => changes.prepends.as_slice(),
        Effect::Rejected => &[],
    }
}

// Puts what pieces come to before a path that stands backwards.
#[cycle(paths)]
fn push_all<S: Copy>(
    older: &[Effect<S>],
    pieces: &[Piece<Times>],
    path: &mut Vec<u32>,
) -> Result<(), Memory>
    ensures { OnOk result (reverse path.new.items ≡ all_done before (leaves (leaves_at prepends_of older.now) pieces.now) (reverse path.old.items)) }
{
    let mut rest = pieces;
    while let [first, tail @ ..] = rest {
        match first {
            Piece::One(times) => push_times(path, times.number, times.count)?,
            Piece::OfEffect(place) => push_effect(older, *place, path)?,
        }
        rest = tail;
    }
    Ok(())
}

// Puts what the effect at a place has before a path that stands backwards.
#[cycle(paths)]
fn push_effect<S: Copy>(
    older: &[Effect<S>],
    place: usize,
    path: &mut Vec<u32>,
) -> Result<(), Memory>
    ensures { OnOk result (reverse path.new.items ≡ all_done before (leaves_at prepends_of older.now place) (reverse path.old.items)) }
{
    match effect_at(older, place) {
        Some(effect) => push_all(&older[..place], prepends_of(effect), path),
        None => Ok(()),
    }
}

// The path that changes leave, backwards: their pieces stand for effects of the table before the place.
fn path_behind<S: Copy>(
    alloc: Global,
    older: &[Effect<S>],
    changes: &Changes<S>,
    route: &Route,
) -> Result<Row<u32>, Memory>
    ensures { IfOk result (λ path. reverse path ≡ all_done before (leaves (leaves_at prepends_of older.now) changes.now.prepends) route.now.path) }
{
    let mut path = Vec::from_slice(alloc, route.path())?;
    path.reverse();
    push_all(older, changes.prepends.as_slice(), &mut path)?;
    Ok(Row::from_vec(path))
}

/// The draft of the route that changes leave, but with the communities of the route as it arrived; their pieces stand
/// for effects of this table. The one error is want of memory.
pub fn drafted<S: Copy>(
    alloc: Global,
    older: &[Effect<S>],
    changes: &Changes<S>,
    route: &Route,
) -> Result<Draft, Memory>
    ensures { IfOk result (λ d. (acts : Acts S) → route_of route.now.prefix d ≡ record (route_behind acts older.now changes.now route.now) { communities = route.now.communities }) }
{
    let path = path_behind(alloc, older, changes, route)?;
    let draft = Draft::of_route(alloc, route)?;
    Ok(Draft {
        next_hop: changes.next_hop.unwrap_or(draft.next_hop),
        path,
        origin: changes.origin.unwrap_or(draft.origin),
        local_preference: changes.local_preference.unwrap_or(draft.local_preference),
        med: changes.med.unwrap_or(draft.med),
        weight: changes.weight.unwrap_or(draft.weight),
        communities: draft.communities,
    })
}
