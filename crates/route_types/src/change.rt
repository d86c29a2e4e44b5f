ghost use Rattle.std.specs.Prelude.{◌≡◌, ◌∷◌, IfOk};
ghost use Rattle.route_types.specs.Community.{set_after};
ghost use Rattle.route_types.specs.Change.{changed};

use crate::community::{CommChange, set_after};
use crate::duplicate::Duplicate;
use crate::route::{NextHop, Origin, Route};
use std::alloc::Global;
use text_words::{Memory, Row};

/// A change of one attribute of a route.
#[derive(Debug, PartialEq, Eq, Hash, Drop)]
pub enum Change {
    NextHop(NextHop),
    /// Puts one AS number before the path.
    Prepend(u32),
    Origin(Origin),
    LocalPreference(u32),
    Med(u32),
    Weight(u16),
    Communities(CommChange),
}

/// The route with the change made: one attribute replaced, one AS number put before the path, or
/// the set of communities changed. The one error is want of memory.
pub fn apply_change(alloc: Global, route: &Route, change: &Change) -> Result<Route, Memory>
    ensures { IfOk result (λ r. r ≡ changed change.now route.now) }
{
    route.duplicate(alloc)?.changed(alloc, change)
}

impl Route {
    /// The route with the change made, without a copy of it; `apply_change` keeps the route. The one
    /// error is want of memory.
    pub fn changed(self, alloc: Global, change: &Change) -> Result<Route, Memory>
        ensures { IfOk result (λ r. r ≡ changed change.now self) }
    {
        match change {
            Change::NextHop(next_hop) => Ok(self.with_next_hop(*next_hop)),
            Change::Prepend(number) => self.with_number_in_front(*number),
            Change::Origin(origin) => Ok(self.with_origin(*origin)),
            Change::LocalPreference(number) => Ok(self.with_local_preference(*number)),
            Change::Med(number) => Ok(self.with_med(*number)),
            Change::Weight(number) => Ok(self.with_weight(*number)),
            Change::Communities(change) => with_change(alloc, self, change),
        }
    }
}

#[tactic(auto, using(crate::proofs::Sets::set_after_ascending))]
fn with_change(alloc: Global, route: Route, change: &CommChange) -> Result<Route, Memory>
    ensures { IfOk result (λ r. r ≡ record route { communities = set_after change.now.removed change.now.added route.communities }) }
{
    let set = set_after(alloc, change, route.communities())?;
    Ok(route.with_communities(set))
}
