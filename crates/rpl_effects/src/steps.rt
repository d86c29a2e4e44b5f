//! The steps on the communities that changes make, each at the place where it is done last.
ghost use Rattle.std.specs.Prelude.{◌≡◌, ◌<◌, ◌⊎◌, ℕ, Bool, true, List, [], ◌∷◌, Option, Some, length, reverse, slice_get, IfOk, OnOk};
ghost use Rattle.rpl_effects.specs.Pieces.{leaves, leaves_at, steps_of};
ghost use Rattle.rpl_effects.specs.Answers.{last_answer, first_answer, Tells, IsVisited, Agrees};

use crate::effect::{Changes, Effect, Piece};
use crate::table::lent;
use route_types::Memory;
use std::alloc::Global;

// What an effect does with the communities.
fn steps_of<S>(effect: &Effect<S>) -> &[Piece<S>]
    ensures { result.now ≡ steps_of effect.now }
{
    match effect {
        Effect::GoesOn(run) => run.changes.steps.as_slice(),
        Effect::Accepted(changes) => changes.steps.as_slice(),
        Effect::Rejected => &[],
    }
}

// Whether the effect at a place was visited.
fn is_seen(seen: &[bool], place: usize) -> bool
    ensures { result ≡ true → slice_get seen.now place ≡ Some true }
{
    match seen.get(place) {
        Some(seen) => *seen,
        None => false,
    }
}

// Notes that the effect at a place was visited.
fn note(seen: &mut [bool], place: usize)
    ensures { (k : ℕ) → slice_get seen.new k ≡ Some true → (slice_get seen.old k ≡ Some true) ⊎ (k ≡ place) }
{
    if place < seen.len() {
        seen[place] = true;
    }
}

// Puts the steps of pieces behind those that were found, from the last one on, but for those of effects that were seen.
#[cycle(visits)]
fn visit_all<S: Copy>(
    older: &[Effect<S>],
    pieces: &[Piece<S>],
    seen: &mut [bool],
    found: &mut Vec<S>,
) -> Result<(), Memory>
    ensures { OnOk result ((answer : S → Option Bool) (at : ℕ → List S) → Agrees at older.now → Tells answer at seen.old found.old.items → IsVisited answer at (leaves (leaves_at steps_of older.now) pieces.now) found.old.items found.new.items seen.new) }
{
    let mut rest = pieces;
    while let [front @ .., last] = rest {
        match last {
            Piece::One(step) => found.push(*step)?,
            Piece::OfEffect(place) => visit(older, *place, seen, found)?,
        }
        rest = front;
    }
    Ok(())
}

// Puts the steps of the effect at a place behind those that were found, unless it was seen.
#[cycle(visits)]
fn visit<S: Copy>(
    older: &[Effect<S>],
    place: usize,
    seen: &mut [bool],
    found: &mut Vec<S>,
) -> Result<(), Memory>
    ensures { OnOk result ((answer : S → Option Bool) (at : ℕ → List S) → Agrees at older.now → Tells answer at seen.old found.old.items → IsVisited answer at (leaves_at steps_of older.now place) found.old.items found.new.items seen.new) }
{
    if older.len() <= place {
        return Ok(());
    }
    if is_seen(seen, place) {
        return Ok(());
    }
    let effect = lent(older, place);
    visit_all(&older[..place], steps_of(effect), seen, found)?;
    note(seen, place);
    Ok(())
}

// So many flags, none of them set.
fn none_seen(alloc: Global, count: usize) -> Result<Vec<bool>, Memory>
    ensures { IfOk result (λ v. (k : ℕ) → slice_get v.items k ≡ Some true → ⊥) }
{
    let mut seen = Vec::new(alloc);
    let mut left = count;
    while left > 0 {
        seen.push(false)?;
        left -= 1;
    }
    Ok(seen)
}

/// The steps that changes make, whose pieces stand for effects of this table, in order, but those of each effect only
/// where it stands last. Where each step either decides a matter or leaves it as it was, these decide it as all of them
/// do. The one error is want of memory.
pub fn last_steps<S: Copy>(
    alloc: Global,
    older: &[Effect<S>],
    changes: &Changes<S>,
) -> Result<Vec<S>, Memory>
    ensures { IfOk result (λ v. (answer : S → Option Bool) → last_answer answer v.items ≡ last_answer answer (leaves (leaves_at steps_of older.now) changes.now.steps)) }
{
    let mut seen = none_seen(alloc, older.len())?;
    let mut found = Vec::new(alloc);
    visit_all(older, changes.steps.as_slice(), &mut seen, &mut found)?;
    found.reverse();
    Ok(found)
}
