// What is pending, and one more change.
ghost use Rattle.std.specs.Prelude.{◌≡◌, ◌∷◌, Bool, true, Some, List, IfOk};
ghost use Rattle.route_types.specs.Route.{RouteParts};
ghost use Rattle.route_types.specs.Change.{changed, changed_by};
ghost use Rattle.route_types.specs.Community.{RectParts};
ghost use Rattle.route_types.specs.declared.change.Change.{Change};
ghost use Rattle.route_types.specs.declared.change.Change.TheVariants.{Communities};
ghost use Rattle.route_types.specs.declared.community.Community.{Community};
ghost use Rattle.std.specs.List.{list_all};
ghost use Rattle.community_cuts.specs.Earlier.{behind};
ghost use Rattle.pending_changes.specs.Pending.{communities_behind, route_behind, change_says, if_there, PendingSays, LeavesApart, LeavesAll};

use community_cuts::joined;
use route_types::{Change, CommChange, Duplicate, Memory, NextHop, Origin, Row};
use std::alloc::Global;

/// Changes that wait to be made on a route. Where two are equal, they leave the same routes.
#[derive(Debug, PartialEq, Eq, Hash, Drop)]
pub struct Pending {
    pub local_preference: Option<u32>,
    pub med: Option<u32>,
    pub weight: Option<u16>,
    pub origin: Option<Origin>,
    pub next_hop: Option<NextHop>,
    /// The numbers that come before the path, the first one first.
    pub prepended: Row<u32>,
    pub communities: Option<CommChange>,
}

impl Pending {
    /// Nothing is pending. It takes no memory.
    #[tactic(auto, using(crate::proofs::PendingLaws::none_leaves, crate::proofs::PendingLaws::none_says, crate::proofs::PendingLaws::none_apart))]
    pub fn none(alloc: Global) -> Pending
        ensures leaves { (r : RouteParts) → route_behind result r ≡ r }
        ensures said { (on_value : Change → Bool) (on_rect : RectParts → Bool) → PendingSays on_value on_rect result }
        ensures apart { LeavesAll result }
    {
        Pending {
            local_preference: None,
            med: None,
            weight: None,
            origin: None,
            next_hop: None,
            prepended: Row::new(alloc),
            communities: None,
        }
    }

    /// What is pending, and one more change behind it. The one error is want of memory.
    #[tactic(auto, using(crate::proofs::PendingLaws::next_hop_leaves, crate::proofs::PendingLaws::number_leaves, crate::proofs::PendingLaws::origin_leaves, crate::proofs::PendingLaws::preference_leaves, crate::proofs::PendingLaws::med_leaves, crate::proofs::PendingLaws::weight_leaves, crate::proofs::PendingLaws::next_hop_says, crate::proofs::PendingLaws::number_says, crate::proofs::PendingLaws::origin_says, crate::proofs::PendingLaws::preference_says, crate::proofs::PendingLaws::med_says, crate::proofs::PendingLaws::weight_says))]
    pub fn and_then(self, alloc: Global, change: &Change) -> Result<Pending, Memory>
        // It leaves a route as the change leaves the one that what was pending leaves.
        ensures leaves { IfOk result (λ p. (r : RouteParts) → route_behind p r ≡ changed change.now (route_behind self r)) }
        // It says no more than the two.
        ensures said { IfOk result (λ p. (on_value : Change → Bool) (on_rect : RectParts → Bool) → PendingSays on_value on_rect self → change_says on_value on_rect change.now ≡ true → PendingSays on_value on_rect p) }
        // What waits for the path or the communities stays, where the change is of another attribute.
        ensures apart { IfOk result (LeavesApart change.now self) }
    {
        match change {
            Change::NextHop(next_hop) => Ok(with_next_hop(self, *next_hop)),
            Change::Prepend(number) => {
                let pending = with_number_in_front(self, *number)?;
                Ok(pending)
            }
            Change::Origin(origin) => Ok(with_origin(self, *origin)),
            Change::LocalPreference(number) => Ok(with_local_preference(self, *number)),
            Change::Med(number) => Ok(with_med(self, *number)),
            Change::Weight(number) => Ok(with_weight(self, *number)),
            Change::Communities(change) => {
                let pending = with_change(alloc, self, change)?;
                Ok(pending)
            }
        }
    }
}

/// What a list of changes, made from the first to the last, leaves pending. The one error is want of memory.
pub fn pending_of(alloc: Global, changes: &[Change]) -> Result<Pending, Memory>
    ensures leaves { IfOk result (λ p. (r : RouteParts) → route_behind p r ≡ changed_by changes.now r) }
{
    let mut pending = Pending::none(alloc);
    let mut rest = changes;
    while let [first, tail @ ..] = rest {
        pending = pending.and_then(alloc, first)?;
        rest = tail;
    }
    Ok(pending)
}

fn with_next_hop(pending: Pending, next_hop: NextHop) -> Pending
    ensures { result ≡ record pending { next_hop = Some next_hop } }
{
    Pending {
        next_hop: Some(next_hop),
        ..pending
    }
}

fn with_number_in_front(pending: Pending, number: u32) -> Result<Pending, Memory>
    ensures { IfOk result (λ p. p ≡ record pending { prepended = number ∷ pending.prepended }) }
{
    let mut pending = pending;
    pending.prepended.push_front(number)?;
    Ok(pending)
}

fn with_origin(pending: Pending, origin: Origin) -> Pending
    ensures { result ≡ record pending { origin = Some origin } }
{
    Pending {
        origin: Some(origin),
        ..pending
    }
}

fn with_local_preference(pending: Pending, number: u32) -> Pending
    ensures { result ≡ record pending { local_preference = Some number } }
{
    Pending {
        local_preference: Some(number),
        ..pending
    }
}

fn with_med(pending: Pending, number: u32) -> Pending
    ensures { result ≡ record pending { med = Some number } }
{
    Pending {
        med: Some(number),
        ..pending
    }
}

fn with_weight(pending: Pending, number: u16) -> Pending
    ensures { result ≡ record pending { weight = Some number } }
{
    Pending {
        weight: Some(number),
        ..pending
    }
}

#[tactic(auto, using(crate::proofs::PendingLaws::change_leaves, crate::proofs::PendingLaws::change_says_too, crate::proofs::PendingLaws::change_apart))]
fn with_change(alloc: Global, pending: Pending, change: &CommChange) -> Result<Pending, Memory>
    ensures leaves { IfOk result (λ p. (r : RouteParts) → route_behind p r ≡ changed (Communities change.now) (route_behind pending r)) }
    ensures said { IfOk result (λ p. (on_value : Change → Bool) (on_rect : RectParts → Bool) → PendingSays on_value on_rect pending → list_all on_rect change.now.removed ≡ true → PendingSays on_value on_rect p) }
    ensures apart { IfOk result (LeavesApart (Communities change.now) pending) }
{
    let both = behind_both(alloc, &pending.communities, change)?;
    Ok(Pending {
        communities: Some(both),
        ..pending
    })
}

// The change of what is pending, if there is one, and then the other.
fn behind_both(
    alloc: Global,
    first: &Option<CommChange>,
    second: &CommChange,
) -> Result<CommChange, Memory>
    ensures leaves { IfOk result (λ c. (set : List Community) → behind c set ≡ behind second.now (communities_behind first.now set)) }
    ensures said { IfOk result (λ c. (on_rect : RectParts → Bool) → if_there (λ f. list_all on_rect f.removed) first.now ≡ true → list_all on_rect second.now.removed ≡ true → list_all on_rect c.removed ≡ true) }
{
    match first {
        None => {
            let copied = second.duplicate(alloc)?;
            Ok(copied)
        }
        Some(first) => {
            let both = joined(alloc, first, second)?;
            Ok(both)
        }
    }
}
