// What a step changes, an attribute at a time.
ghost use Rattle.std.specs.Prelude.{◌≡◌, true, List, IfOk};
ghost use Rattle.std.specs.List.{list_all};
ghost use Rattle.policy_core.specs.Sayable.{is_plain, junos_change};
ghost use Rattle.route_types.specs.Change.{changed, changed_by};
ghost use Rattle.route_types.specs.Community.{set_after};
ghost use Rattle.route_types.specs.Route.{RouteParts};
ghost use Rattle.route_types.specs.declared.community.Community.{Community};
ghost use Rattle.junos_plans.specs.Changes.{changed_as, communities_after};
ghost use Rattle.junos_plans.specs.Fits.{FitsChange, FitsChanges, FitsValue};

use crate::ranges::{change_fits, communities_fit};
use community_sets::then;
use route_types::{Change, CommChange, Duplicate, Memory, NextHop, Origin, Row};
use std::alloc::Global;

/// What a step changes: of each attribute the value that it has at the end, where it gets one.
#[derive(Debug, Drop)]
pub struct PlannedChanges {
    pub local_preference: Option<u32>,
    pub med: Option<u32>,
    pub origin: Option<Origin>,
    pub next_hop: Option<NextHop>,
    /// The numbers that are put before the path, one after the other.
    pub prepended: Row<u32>,
    /// What is done to the communities, if anything is.
    pub communities: Option<CommChange>,
}

/// What changes that a text of Junos can say, made one after the other, change at the end, an attribute at a time. The one
/// error is want of memory.
pub fn planned_changes(alloc: Global, changes: &[Change]) -> Result<PlannedChanges, Memory>
    requires { list_all junos_change changes.now ≡ true }
    ensures acts { IfOk result (λ planned. (r : RouteParts) → changed_as planned r ≡ changed_by changes.now r) }
    // A text of Junos can say their values.
    ensures fits { IfOk result (λ planned. FitsChanges planned) }
{
    let mut planned = PlannedChanges {
        local_preference: None,
        med: None,
        origin: None,
        next_hop: None,
        prepended: Row::new(alloc),
        communities: None,
    };
    let mut rest = changes;
    while let [first, tail @ ..] = rest {
        add(alloc, &mut planned, first)?;
        rest = tail;
    }
    Ok(planned)
}

// Makes one more change behind those that are planned.
#[tactic(auto, using(crate::proofs::FitLaws::all_with))]
fn add(alloc: Global, planned: &mut PlannedChanges, change: &Change) -> Result<(), Memory>
    requires { junos_change change.now ≡ true }
    ensures acts { IfOk result (λ _. (r : RouteParts) → changed_as planned.new r ≡ changed change.now (changed_as planned.old r)) }
    ensures fits { IfOk result (λ _. FitsChanges planned.old → FitsChanges planned.new) }
{
    match change {
        Change::NextHop(next_hop) => planned.next_hop = Some(*next_hop),
        Change::Prepend(number) => planned.prepended.push(*number)?,
        Change::Origin(origin) => planned.origin = Some(*origin),
        Change::LocalPreference(number) => planned.local_preference = Some(*number),
        Change::Med(number) => planned.med = Some(*number),
        Change::Weight(_) => unreachable!(),
        Change::Communities(change) => {
            let joined = joined_change(alloc, &planned.communities, change)?;
            planned.communities = Some(joined);
        }
    }
    Ok(())
}

// One change of the communities in place of two, of which the first may not be there.
fn joined_change(
    alloc: Global,
    first: &Option<CommChange>,
    second: &CommChange,
) -> Result<CommChange, Memory>
    requires { list_all is_plain second.now.removed ≡ true }
    ensures acts { IfOk result (λ joined. (set : List Community) → set_after joined.removed joined.added set ≡ set_after second.now.removed second.now.added (communities_after first.now set)) }
    ensures fits { IfOk result (λ joined. FitsValue FitsChange first.now → FitsChange joined) }
{
    change_fits(second);
    match first {
        None => {
            let copied = second.duplicate(alloc)?;
            Ok(copied)
        }
        Some(first) => {
            let joined = then(alloc, first, second)?;
            communities_fit(joined.added.as_slice());
            Ok(joined)
        }
    }
}
