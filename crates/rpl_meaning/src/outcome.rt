//! The outcome of a run, by the effect of its policy.
ghost use Rattle.std.specs.Prelude.{◌≡◌, ◌<◌, IfOk, length};
ghost use Rattle.rpl_effects.specs.Changes.{route_behind};
ghost use Rattle.rpl_meaning.specs.Communities.{stepped};
ghost use Rattle.rpl_meaning.specs.Meaning.{arriving, at_end};
ghost use Rattle.rpl_meaning.specs.Runs.{fate_at};

use crate::actions::RplChanges;
use crate::communities::all_done;
use crate::walk::RplEffect;
use route_types::{Memory, Outcome, Route};
use rpl_effects::{Effect, drafted, last_steps, lent};
use std::alloc::Global;

// The route that changes leave, whose pieces stand for effects of this table.
fn route_behind<'a>(
    alloc: Global,
    older: &[RplEffect<'a>],
    changes: &RplChanges<'a>,
    route: &Route,
) -> Result<Route, Memory>
    ensures { IfOk result (λ r. r ≡ route_behind stepped older.now changes.now route.now) }
{
    let draft = drafted(alloc, older, changes, route)?;
    let steps = last_steps(alloc, older, changes)?;
    let draft = all_done(alloc, steps.as_slice(), draft)?;
    draft.finished(alloc, route.prefix())
}

// That route, accepted.
fn accepted<'a>(
    alloc: Global,
    older: &[RplEffect<'a>],
    changes: &RplChanges<'a>,
    route: &Route,
) -> Result<Outcome, Memory>
    ensures { IfOk result (λ o. o ≡ Outcome.Accept (route_behind stepped older.now changes.now route.now)) }
{
    let changed = route_behind(alloc, older, changes, route)?;
    Ok(Outcome::Accept(changed))
}

/// The outcome of a route, by the effect of the policy at a place of a table. The route is made only where it is accepted.
pub(crate) fn outcome_of<'a>(
    alloc: Global,
    table: &[RplEffect<'a>],
    place: usize,
    route: &Route,
) -> Result<Outcome, Memory>
    requires { place < length table.now }
    ensures { IfOk result (λ o. o ≡ at_end (fate_at table.now place (arriving route.now))) }
{
    match lent(table, place) {
        Effect::GoesOn(run) => {
            if run.ticket {
                return accepted(alloc, &table[..place], &run.changes, route);
            }
            Ok(Outcome::Reject)
        }
        Effect::Accepted(changes) => accepted(alloc, &table[..place], changes, route),
        Effect::Rejected => Ok(Outcome::Reject),
    }
}
