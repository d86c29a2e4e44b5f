// The actions of changes, in one order.
ghost use Rattle.std.specs.Prelude.{◌≡◌, ◌++◌, ◌∷◌, [], ℕ, List, map, reverse, IfOk, OnOk};
ghost use Rattle.junos_tree.specs.declared.item.Action.TheVariants.{Metric as SetsMetric, LocalPreference as SetsPreference, Origin as SetsOrigin, NextHop as SetsNextHop};
ghost use Rattle.junos_layout.specs.Actions.{set_to, prepend_of, done_with, replaced, change_actions, community_actions, actions_of, everything, member_alone};
ghost use Rattle.junos_policies.specs.Names.{writing};

use crate::changes::{all_members, members_alone, removes_all};
use crate::names::Names;
use junos_plans::PlannedChanges;
use junos_tree::{Action, CommunityAction, CommunityVerb};
use route_types::{CommChange, Memory, NextHop, Origin, Rect, Row};
use std::alloc::Global;

// ---- values

#[tactic(auto, using(crate::proofs::Rows::nothing_more))]
fn push_local_preference(out: &mut Row<Action>, value: Option<u32>) -> Result<(), Memory>
    ensures { OnOk result (out.new ≡ out.old ++ set_to SetsPreference value) }
{
    match value {
        None => Ok(()),
        Some(number) => out.push(Action::LocalPreference(number)),
    }
}

#[tactic(auto, using(crate::proofs::Rows::nothing_more))]
fn push_med(out: &mut Row<Action>, value: Option<u32>) -> Result<(), Memory>
    ensures { OnOk result (out.new ≡ out.old ++ set_to SetsMetric value) }
{
    match value {
        None => Ok(()),
        Some(number) => out.push(Action::Metric(number)),
    }
}

#[tactic(auto, using(crate::proofs::Rows::nothing_more))]
fn push_origin(out: &mut Row<Action>, value: Option<Origin>) -> Result<(), Memory>
    ensures { OnOk result (out.new ≡ out.old ++ set_to SetsOrigin value) }
{
    match value {
        None => Ok(()),
        Some(origin) => out.push(Action::Origin(origin)),
    }
}

#[tactic(auto, using(crate::proofs::Rows::nothing_more))]
fn push_next_hop(out: &mut Row<Action>, value: Option<NextHop>) -> Result<(), Memory>
    ensures { OnOk result (out.new ≡ out.old ++ set_to SetsNextHop value) }
{
    match value {
        None => Ok(()),
        Some(next_hop) => out.push(Action::NextHop(next_hop)),
    }
}

// ---- numbers before the path

// The numbers, the last one first.
fn turned(alloc: Global, numbers: &[u32]) -> Result<Row<u32>, Memory>
    ensures { IfOk result (λ row. row ≡ reverse numbers.now) }
{
    let mut items = Vec::from_slice(alloc, numbers)?;
    items.reverse();
    Ok(Row::from_vec(items))
}

#[tactic(auto, using(crate::proofs::Rows::nothing_more))]
fn push_prepend(alloc: Global, out: &mut Row<Action>, numbers: &[u32]) -> Result<(), Memory>
    ensures { OnOk result (out.new ≡ out.old ++ prepend_of numbers.now) }
{
    match numbers {
        [] => Ok(()),
        [_, ..] => {
            let row = turned(alloc, numbers)?;
            out.push(Action::Prepend(row))
        }
    }
}

// ---- communities

// What is done with members, if there are any.
#[tactic(auto, using(crate::proofs::Rows::nothing_more, crate::proofs::Literals::done_none, crate::proofs::Literals::done_some))]
fn push_done(
    alloc: Global,
    out: &mut Row<Action>,
    names: &Names,
    verb: CommunityVerb,
    members: &Row<Rect>,
) -> Result<(), Memory>
    ensures { OnOk result (out.new ≡ out.old ++ done_with (writing names.now) verb members.now) }
{
    if members.is_empty() {
        return Ok(());
    }
    let community = names.community(alloc, members)?;
    out.push(Action::Community(CommunityAction { verb, community }))
}

#[tactic(auto, using(crate::proofs::Literals::replaced_none, crate::proofs::Literals::replaced_some))]
fn push_replaced(
    alloc: Global,
    out: &mut Row<Action>,
    names: &Names,
    added: &Row<Rect>,
) -> Result<(), Memory>
    ensures { OnOk result (out.new ≡ out.old ++ replaced (writing names.now) added.now) }
{
    if added.is_empty() {
        let all = all_members(alloc)?;
        return push_done(alloc, out, names, CommunityVerb::Delete, &all);
    }
    push_done(alloc, out, names, CommunityVerb::Set, added)
}

fn push_change(
    alloc: Global,
    out: &mut Row<Action>,
    names: &Names,
    change: &CommChange,
) -> Result<(), Memory>
    ensures { OnOk result (out.new ≡ out.old ++ change_actions (writing names.now) change.now) }
{
    let added = members_alone(alloc, change.added.as_slice())?;
    if removes_all(change.removed.as_slice()) {
        return push_replaced(alloc, out, names, &added);
    }
    push_done(alloc, out, names, CommunityVerb::Delete, &change.removed)?;
    push_done(alloc, out, names, CommunityVerb::Add, &added)
}

#[tactic(auto, using(crate::proofs::Rows::nothing_more))]
fn push_communities(
    alloc: Global,
    out: &mut Row<Action>,
    names: &Names,
    change: &Option<CommChange>,
) -> Result<(), Memory>
    ensures { OnOk result (out.new ≡ out.old ++ community_actions (writing names.now) change.now) }
{
    match change {
        None => Ok(()),
        Some(change) => push_change(alloc, out, names, change),
    }
}

// ---- all of them

/// Puts the actions of changes at the end, in their order. Its one error is want of memory.
pub(crate) fn push_actions(
    alloc: Global,
    out: &mut Row<Action>,
    names: &Names,
    changes: &PlannedChanges,
) -> Result<(), Memory>
    ensures { OnOk result (out.new ≡ out.old ++ actions_of (writing names.now) changes.now) }
{
    push_local_preference(out, changes.local_preference)?;
    push_med(out, changes.med)?;
    push_origin(out, changes.origin)?;
    push_next_hop(out, changes.next_hop)?;
    push_prepend(alloc, out, changes.prepended.as_slice())?;
    push_communities(alloc, out, names, &changes.communities)?;
    Ok(())
}
