// The communities that changes name.
ghost use Rattle.std.specs.Prelude.{◌≡◌, ◌++◌, ◌∷◌, [], IfOk, OnOk, map};
ghost use Rattle.std.specs.List.{list_any};
ghost use Rattle.junos_layout.specs.Actions.{everything, is_all, member_alone};
ghost use Rattle.junos_layout.specs.Uses.{some_members, replacing, change_sets, changed_sets};
ghost use Rattle.junos_policies.specs.Noting.{noted_all};
ghost use Rattle.junos_policies.specs.Same.{same_members};

use crate::sets::note_one;
use indexmap::IndexSet;
use route_types::{CommChange, Community, Memory, Rect, Row};
use std::alloc::Global;

// ---- members

/// The member that stands for every community.
pub(crate) fn everything() -> Rect
    ensures { result ≡ everything }
{
    Rect::new(0, 65535, 0, 65535)
}

fn is_all(rect: &Rect) -> bool
    ensures { result ≡ is_all rect.now }
{
    let high = rect.high_least() == 0 && rect.high_most() == 65535;
    high && rect.low_least() == 0 && rect.low_most() == 65535
}

/// Whether the members of a removal stand for every community.
pub(crate) fn removes_all(removed: &[Rect]) -> bool
    ensures { result ≡ list_any is_all removed.now }
{
    removed.iter().any(|rect| is_all(rect))
}

fn member_alone(community: &Community) -> Rect
    ensures { result ≡ member_alone community.now }
{
    let high = community.high();
    let low = community.low();
    Rect::new(high, high, low, low)
}

/// The members of communities that are added. Its one error is want of memory.
pub(crate) fn members_alone(alloc: Global, communities: &[Community]) -> Result<Row<Rect>, Memory>
    ensures { IfOk result (λ rects. rects ≡ map member_alone communities.now) }
{
    let mut rects = Row::new(alloc);
    let mut rest = communities;
    while let [community, tail @ ..] = rest {
        rects.push(member_alone(community))?;
        rest = tail;
    }
    Ok(rects)
}

/// The row of the one member that stands for every community. Its one error is want of memory.
pub(crate) fn all_members(alloc: Global) -> Result<Row<Rect>, Memory>
    ensures { IfOk result (λ rects. rects ≡ everything ∷ []) }
{
    let mut rects = Row::new(alloc);
    rects.push(everything())?;
    Ok(rects)
}

// ---- noting

#[tactic(auto, unfolding(crate::specs::Noting::noted_all))]
fn note_some(
    alloc: Global,
    set: &mut IndexSet<Row<Rect>>,
    members: &Row<Rect>,
) -> Result<(), Memory>
    ensures { OnOk result (set.new.keys ≡ noted_all same_members set.old.keys (some_members members.now)) }
{
    if members.is_empty() {
        return Ok(());
    }
    note_one(alloc, set, members)
}

fn note_replacing(
    alloc: Global,
    set: &mut IndexSet<Row<Rect>>,
    members: &Row<Rect>,
) -> Result<(), Memory>
    ensures { OnOk result (set.new.keys ≡ noted_all same_members set.old.keys (replacing members.now)) }
{
    if members.is_empty() {
        let all = all_members(alloc)?;
        return note_one(alloc, set, &all);
    }
    note_one(alloc, set, members)
}

#[tactic(auto, using(crate::proofs::Noted::noted_append))]
fn note_parts(
    alloc: Global,
    set: &mut IndexSet<Row<Rect>>,
    removed: &Row<Rect>,
    added: &Row<Rect>,
) -> Result<(), Memory>
    ensures { OnOk result (set.new.keys ≡ noted_all same_members set.old.keys (some_members removed.now ++ some_members added.now)) }
{
    note_some(alloc, set, removed)?;
    note_some(alloc, set, added)
}

fn note_made(
    alloc: Global,
    set: &mut IndexSet<Row<Rect>>,
    change: &CommChange,
) -> Result<(), Memory>
    ensures { OnOk result (set.new.keys ≡ noted_all same_members set.old.keys (change_sets change.now)) }
{
    let added = members_alone(alloc, change.added.as_slice())?;
    if removes_all(change.removed.as_slice()) {
        return note_replacing(alloc, set, &added);
    }
    note_parts(alloc, set, &change.removed, &added)
}

/// Notes the communities that a change names, if there is one. Its one error is want of memory.
#[tactic(auto, unfolding(crate::specs::Noting::noted_all))]
pub(crate) fn note_change(
    alloc: Global,
    set: &mut IndexSet<Row<Rect>>,
    change: &Option<CommChange>,
) -> Result<(), Memory>
    ensures { OnOk result (set.new.keys ≡ noted_all same_members set.old.keys (changed_sets change.now)) }
{
    match change {
        None => Ok(()),
        Some(change) => note_made(alloc, set, change),
    }
}
