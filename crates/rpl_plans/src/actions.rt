// What a step changes, an attribute at a time.
ghost use Rattle.std.specs.Prelude.{◌≡◌, true, List, IfOk};
ghost use Rattle.std.specs.List.{list_all};
ghost use Rattle.policy_core.specs.Sayable.{rpl_change};
ghost use Rattle.route_types.specs.Change.{changed, changed_by};
ghost use Rattle.route_types.specs.Community.{set_after};
ghost use Rattle.route_types.specs.Route.{RouteParts};
ghost use Rattle.route_types.specs.declared.community.Community.{Community};
ghost use Rattle.rpl_plans.specs.Actions.{acted_by, communities_after};
ghost use Rattle.rpl_plans.specs.Fits.{FitsActions};

use crate::ranges::change_fits;
use community_sets::then;
use route_types::{Change, CommChange, Duplicate, Memory, NextHop, Origin, Row};
use std::alloc::Global;

/// What a step changes: of each attribute the value that it has at the end, where it gets one.
#[derive(Debug, Drop)]
pub struct PlannedActions {
    pub local_preference: Option<u32>,
    pub med: Option<u32>,
    pub weight: Option<u16>,
    pub origin: Option<Origin>,
    pub next_hop: Option<NextHop>,
    /// The numbers that are put before the path, one after the other.
    pub prepended: Row<u32>,
    /// What is done to the communities, if anything is.
    pub communities: Option<CommChange>,
}

/// What changes, made one after the other, change at the end, an attribute at a time. The one error is want of memory.
pub fn planned_actions(alloc: Global, changes: &[Change]) -> Result<PlannedActions, Memory>
    ensures acts { IfOk result (λ planned. (r : RouteParts) → acted_by planned r ≡ changed_by changes.now r) }
    // Where a text of RPL can say the changes, it can say their values.
    ensures fits { IfOk result (λ planned. list_all rpl_change changes.now ≡ true → FitsActions planned) }
{
    let mut planned = PlannedActions {
        local_preference: None,
        med: None,
        weight: None,
        origin: None,
        next_hop: None,
        prepended: Row::new(alloc),
        communities: None,
    };
    let mut rest = changes;
    while let [first, tail @ ..] = rest {
        add(alloc, &mut planned, first)?;
        rest = tail;
    }
    Ok(planned)
}

// Makes one more change behind those that are planned.
#[tactic(auto, using(crate::proofs::FitLaws::all_with))]
fn add(alloc: Global, planned: &mut PlannedActions, change: &Change) -> Result<(), Memory>
    ensures acts { IfOk result (λ _. (r : RouteParts) → acted_by planned.new r ≡ changed change.now (acted_by planned.old r)) }
    ensures fits { IfOk result (λ _. rpl_change change.now ≡ true → FitsActions planned.old → FitsActions planned.new) }
{
    match change {
        Change::NextHop(next_hop) => planned.next_hop = Some(*next_hop),
        Change::Prepend(number) => planned.prepended.push(*number)?,
        Change::Origin(origin) => planned.origin = Some(*origin),
        Change::LocalPreference(number) => planned.local_preference = Some(*number),
        Change::Med(number) => planned.med = Some(*number),
        Change::Weight(number) => planned.weight = Some(*number),
        Change::Communities(change) => {
            let joined = joined_change(alloc, &planned.communities, change)?;
            change_fits(&joined);
            planned.communities = Some(joined);
        }
    }
    Ok(())
}

// One change of the communities in place of two, of which the first may not be there.
fn joined_change(
    alloc: Global,
    first: &Option<CommChange>,
    second: &CommChange,
) -> Result<CommChange, Memory>
    ensures { IfOk result (λ joined. (set : List Community) → set_after joined.removed joined.added set ≡ set_after second.now.removed second.now.added (communities_after first.now set)) }
{
    match first {
        None => {
            let copied = second.duplicate(alloc)?;
            Ok(copied)
        }
        Some(first) => {
            let joined = then(alloc, first, second)?;
            Ok(joined)
        }
    }
}
