//! Changes that grow by one more, or by those of an effect.
ghost use Rattle.std.specs.Prelude.{◌≡◌, ◌++◌, ◌∷◌, [], ℕ, List, Some, IfOk, take, slice_get};
ghost use Rattle.std.specs.Option.{option_or};
ghost use Rattle.route_types.specs.Route.{RouteParts};
ghost use Rattle.rpl_effects.specs.Pieces.{steps_of, prepends_of};
ghost use Rattle.rpl_effects.specs.Changes.{Acts, repeated_before, route_behind, with_those, both, Has};
ghost use Rattle.rpl_effects.specs.declared.effect.Effect.{Effect as SpecEffect};

use crate::effect::{Changes, Piece, Times};
use route_types::{Memory, Row};
use std::alloc::Global;

// Pieces, and one more for all that the effect at a place has, if it has any.
fn with_those<T: Copy>(
    pieces: Row<Piece<T>>,
    those: &Row<Piece<T>>,
    place: usize,
) -> Result<Row<Piece<T>>, Memory>
    ensures { IfOk result (λ ps. ps ≡ with_those pieces those.now place) }
{
    let mut pieces = pieces;
    match those.as_slice() {
        [] => Ok(pieces),
        _ => {
            pieces.push(Piece::OfEffect(place))?;
            Ok(pieces)
        }
    }
}

// Changes, and then those of the effect at a place.
fn joined<S: Copy>(
    first: Changes<S>,
    later: &Changes<S>,
    place: usize,
) -> Result<Changes<S>, Memory>
    ensures { IfOk result (λ c. c ≡ both first later.now place) }
{
    Ok(Changes {
        next_hop: later.next_hop.or(first.next_hop),
        origin: later.origin.or(first.origin),
        local_preference: later.local_preference.or(first.local_preference),
        med: later.med.or(first.med),
        weight: later.weight.or(first.weight),
        prepends: with_those(first.prepends, &later.prepends, place)?,
        steps: with_those(first.steps, &later.steps, place)?,
    })
}

impl<S: Copy> Changes<S> {
    /// No change. It takes no memory.
    pub fn none(alloc: Global) -> Changes<S>
        ensures { (acts : Acts S) (table : List (SpecEffect S)) (r : RouteParts) → route_behind acts table result r ≡ r }
    {
        Changes {
            next_hop: None,
            origin: None,
            local_preference: None,
            med: None,
            weight: None,
            prepends: Row::new(alloc),
            steps: Row::new(alloc),
        }
    }

    /// These changes, and then a number before the path, so many times. The one error is want of memory, here and
    /// below.
    pub fn with_prepended(self, number: u32, count: u8) -> Result<Changes<S>, Memory>
        ensures { IfOk result (λ c. (acts : Acts S) (table : List (SpecEffect S)) (r : RouteParts) → route_behind acts table c r ≡ record (route_behind acts table self r) { path = repeated_before number count (route_behind acts table self r).path }) }
    {
        if count == 0 {
            return Ok(self);
        }
        let mut prepends = self.prepends;
        prepends.push(Piece::One(Times { number, count }))?;
        Ok(Changes { prepends, ..self })
    }

    /// These changes, and then a step on the communities.
    pub fn with_step(self, step: S) -> Result<Changes<S>, Memory>
        ensures { IfOk result (λ c. (acts : Acts S) (table : List (SpecEffect S)) (r : RouteParts) → route_behind acts table c r ≡ record (route_behind acts table self r) { communities = acts step (route_behind acts table self r).communities }) }
    {
        let mut steps = self.steps;
        steps.push(Piece::One(step))?;
        Ok(Changes { steps, ..self })
    }

    /// These changes, and then those of the effect at a place of a table. They take no more room than one more piece of
    /// each sort.
    pub fn and_then(self, later: &Changes<S>, place: usize) -> Result<Changes<S>, Memory>
        ensures exact { IfOk result (λ c. c ≡ both self later.now place) }
        ensures leaves { IfOk result (λ c. (acts : Acts S) (table : List (SpecEffect S)) → Has table place later.now → (r : RouteParts) → route_behind acts table c r ≡ route_behind acts (take place table) later.now (route_behind acts table self r)) }
    {
        let changes = joined(self, later, place)?;
        Ok(changes)
    }
}
