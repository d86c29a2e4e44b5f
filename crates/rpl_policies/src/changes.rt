// Changes of the communities as statements.
ghost use Rattle.std.specs.Prelude.{◌≡◌, ◌++◌, true, IfOk, OnOk, map};
ghost use Rattle.std.specs.List.{list_any};
ghost use Rattle.rpl_layout.specs.Statements.{is_all, everything, rect_alone, deletion, setting, replacement, change_actions, community_actions};
ghost use Rattle.rpl_policies.specs.Acts.{acts};

use crate::actions::push_act;
use route_types::{CommChange, Community, Memory, Rect, Row};
use rpl_forms::{Action, CommunitySetting, RplForm};
use rpl_words::RplSet;
use std::alloc::Global;

// ---- rectangles

fn is_all(rect: &Rect) -> bool
    ensures { result ≡ is_all rect.now }
{
    let high = rect.high_least() == 0 && rect.high_most() == 65535;
    high && rect.low_least() == 0 && rect.low_most() == 65535
}

fn removes_all(removed: &[Rect]) -> bool
    ensures { result ≡ list_any is_all removed.now }
{
    removed.iter().any(|rect| is_all(rect))
}

fn rect_alone(community: &Community) -> Rect
    ensures { result ≡ rect_alone community.now }
{
    let high = community.high();
    let low = community.low();
    Rect::new(high, high, low, low)
}

fn rects_alone(alloc: Global, communities: &[Community]) -> Result<Row<Rect>, Memory>
    ensures { IfOk result (λ rects. rects ≡ map rect_alone communities.now) }
{
    let mut rects = Row::new(alloc);
    let mut rest = communities;
    while let [community, tail @ ..] = rest {
        rects.push(rect_alone(community))?;
        rest = tail;
    }
    Ok(rects)
}

// ---- statements

#[tactic(auto, using(crate::proofs::Acts::no_acts))]
fn push_deletion(alloc: Global, out: &mut Row<RplForm>, rects: &[Rect]) -> Result<(), Memory>
    ensures { OnOk result (out.new ≡ out.old ++ acts (deletion rects.now)) }
{
    match rects {
        [] => Ok(()),
        [_, ..] => {
            let set = Row::from_slice(alloc, rects)?;
            push_act(out, Action::DeleteCommunity(RplSet::Listed(set)))
        }
    }
}

#[tactic(auto, using(crate::proofs::Acts::no_acts))]
fn push_setting(out: &mut Row<RplForm>, additive: bool, rects: Row<Rect>) -> Result<(), Memory>
    ensures { OnOk result (out.new ≡ out.old ++ acts (setting additive rects)) }
{
    if rects.is_empty() {
        return Ok(());
    }
    push_act(
        out,
        Action::SetCommunity(CommunitySetting {
            set: RplSet::Listed(rects),
            additive,
        }),
    )
}

// The removal of everything, and what comes in its place.
fn push_replacement(alloc: Global, out: &mut Row<RplForm>, rects: Row<Rect>) -> Result<(), Memory>
    ensures { OnOk result (out.new ≡ out.old ++ acts (replacement everything rects)) }
{
    if rects.is_empty() {
        return push_deletion(alloc, out, &[Rect::new(0, 65535, 0, 65535)]);
    }
    push_setting(out, false, rects)
}

// The removal of some communities, and what is added.
#[tactic(auto, using(crate::proofs::Acts::acts_then))]
fn push_parts(
    alloc: Global,
    out: &mut Row<RplForm>,
    removed: &[Rect],
    added: Row<Rect>,
) -> Result<(), Memory>
    ensures { OnOk result (out.new ≡ out.old ++ acts (deletion removed.now ++ setting true added)) }
{
    push_deletion(alloc, out, removed)?;
    push_setting(out, true, added)?;
    Ok(())
}

fn push_change(alloc: Global, out: &mut Row<RplForm>, change: &CommChange) -> Result<(), Memory>
    ensures { OnOk result (out.new ≡ out.old ++ acts (change_actions change.now)) }
{
    let added = rects_alone(alloc, change.added.as_slice())?;
    if removes_all(change.removed.as_slice()) {
        return push_replacement(alloc, out, added);
    }
    push_parts(alloc, out, change.removed.as_slice(), added)
}

/// Puts the actions of a change at the end. Its one error is want of memory.
#[tactic(auto, using(crate::proofs::Acts::no_acts))]
pub(crate) fn push_communities(
    alloc: Global,
    out: &mut Row<RplForm>,
    change: &Option<CommChange>,
) -> Result<(), Memory>
    ensures { OnOk result (out.new ≡ out.old ++ acts (community_actions change.now)) }
{
    match change {
        None => Ok(()),
        Some(change) => push_change(alloc, out, change),
    }
}
