// What is pending as a list of changes.
ghost use Rattle.std.specs.Prelude.{◌≡◌, ◌++◌, Bool, true, map, IfOk};
ghost use Rattle.std.specs.List.{list_all};
ghost use Rattle.route_types.specs.Route.{RouteParts};
ghost use Rattle.route_types.specs.Change.{changed_by};
ghost use Rattle.route_types.specs.Community.{RectParts};
ghost use Rattle.route_types.specs.declared.change.Change.{Change};
ghost use Rattle.route_types.specs.declared.change.Change.TheVariants.{NextHop as SetNextHop, Prepend, Origin as SetOrigin, LocalPreference, Med, Weight, Communities};
ghost use Rattle.pending_changes.specs.Pending.{route_behind, change_to, listed, prepends, changes_of, change_says, PendingSays};

use crate::pending::Pending;
use route_types::{Change, CommChange, Duplicate, Memory, NextHop, Origin, Row};
use std::alloc::Global;

impl Pending {
    /// What is pending as changes one after the other, each attribute at most once but for the prepends, which come one
    /// by one. The one error is want of memory.
    #[tactic(auto, using(crate::proofs::ListedLaws::listed_leaves, crate::proofs::ListedLaws::listed_says))]
    pub fn changes(&self, alloc: Global) -> Result<Row<Change>, Memory>
        ensures exact { IfOk result (λ changes. changes ≡ changes_of self.now) }
        ensures leaves { IfOk result (λ changes. (r : RouteParts) → changed_by changes r ≡ route_behind self.now r) }
        ensures said { IfOk result (λ changes. (on_value : Change → Bool) (on_rect : RectParts → Bool) → PendingSays on_value on_rect self.now → list_all (change_says on_value on_rect) changes ≡ true) }
    {
        let changes = list_changes(alloc, self)?;
        Ok(changes)
    }
}

// Local preference, MED, weight, origin, next hop, prepends, communities.
fn list_changes(alloc: Global, pending: &Pending) -> Result<Row<Change>, Memory>
    ensures { IfOk result (λ changes. changes ≡ changes_of pending.now) }
{
    let mut changes = Row::new(alloc);
    push_some(&mut changes, to_local_preference(pending.local_preference))?;
    push_some(&mut changes, to_med(pending.med))?;
    push_some(&mut changes, to_weight(pending.weight))?;
    push_some(&mut changes, to_origin(pending.origin))?;
    push_some(&mut changes, to_next_hop(pending.next_hop))?;
    push_prepends(alloc, &mut changes, pending.prepended.as_slice())?;
    let communities = to_communities(alloc, &pending.communities)?;
    push_some(&mut changes, communities)?;
    Ok(changes)
}

fn push_some(changes: &mut Row<Change>, change: Option<Change>) -> Result<(), Memory>
    ensures { IfOk result (λ _. changes.new ≡ changes.old ++ listed change) }
{
    match change {
        None => Ok(()),
        Some(change) => {
            changes.push(change)?;
            Ok(())
        }
    }
}

fn push_prepends(alloc: Global, changes: &mut Row<Change>, numbers: &[u32]) -> Result<(), Memory>
    ensures { IfOk result (λ _. changes.new ≡ changes.old ++ prepends numbers.now) }
{
    let mut turned = Vec::from_slice(alloc, numbers)?;
    turned.reverse();
    push_in_turn(changes, turned.as_slice())?;
    Ok(())
}

fn push_in_turn(changes: &mut Row<Change>, numbers: &[u32]) -> Result<(), Memory>
    ensures { IfOk result (λ _. changes.new ≡ changes.old ++ map Prepend numbers.now) }
{
    let mut rest = numbers;
    while let [first, tail @ ..] = rest {
        changes.push(Change::Prepend(*first))?;
        rest = tail;
    }
    Ok(())
}

fn to_local_preference(value: Option<u32>) -> Option<Change>
    ensures { result ≡ change_to LocalPreference value }
{
    match value {
        None => None,
        Some(number) => Some(Change::LocalPreference(number)),
    }
}

fn to_med(value: Option<u32>) -> Option<Change>
    ensures { result ≡ change_to Med value }
{
    match value {
        None => None,
        Some(number) => Some(Change::Med(number)),
    }
}

fn to_weight(value: Option<u16>) -> Option<Change>
    ensures { result ≡ change_to Weight value }
{
    match value {
        None => None,
        Some(number) => Some(Change::Weight(number)),
    }
}

fn to_origin(value: Option<Origin>) -> Option<Change>
    ensures { result ≡ change_to SetOrigin value }
{
    match value {
        None => None,
        Some(origin) => Some(Change::Origin(origin)),
    }
}

fn to_next_hop(value: Option<NextHop>) -> Option<Change>
    ensures { result ≡ change_to SetNextHop value }
{
    match value {
        None => None,
        Some(next_hop) => Some(Change::NextHop(next_hop)),
    }
}

fn to_communities(alloc: Global, value: &Option<CommChange>) -> Result<Option<Change>, Memory>
    ensures { IfOk result (λ o. o ≡ change_to Communities value.now) }
{
    match value {
        None => Ok(None),
        Some(change) => {
            let copied = change.duplicate(alloc)?;
            Ok(Some(Change::Communities(copied)))
        }
    }
}
