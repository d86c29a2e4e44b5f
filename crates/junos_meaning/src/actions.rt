//! What the actions of a term make of the route, and where the run goes behind it.
ghost use Rattle.std.specs.Prelude.{◌≡◌, ◌+◌, ◌*◌, ◌^◌, ◌++◌, List, ℕ, [], ◌∷◌, IfOk, map};
ghost use Rattle.std.specs.List.{list_any};
ghost use Rattle.route_drafts.specs.Drafts.{route_of};
ghost use Rattle.junos_reader.specs.Facts.{forms_of};
ghost use Rattle.junos_reader.specs.Forms.{changes};
ghost use Rattle.junos_meaning.specs.Maps.{IsWorld};
ghost use Rattle.junos_meaning.specs.Meaning.{community_of, acted, acted_by, flow_of};
ghost use Rattle.junos_meaning.specs.Regions.{content_of};
ghost use Rattle.junos_tree.specs.declared.item.Action.{Action as SpecAction};

use crate::regions::{Region, actions_of};
use crate::world::{World, members_of};
use junos_reader::{Action, CommunityAction, CommunityVerb, Flow};
use route_drafts::Draft;
use route_types::{Community, Memory, Rect};
use std::alloc::Global;

// The least community of a rectangle.
fn community_of(rect: &Rect) -> Community
    ensures { result ≡ community_of rect.now }
{
    Community(u32::from(rect.high_least()) * 65536 + u32::from(rect.low_least()))
}

fn communities_of(alloc: Global, rects: &[Rect]) -> Result<Vec<Community>, Memory>
    ensures { IfOk result (λ v. v.items ≡ map community_of rects.now) }
{
    let mut found = Vec::new(alloc);
    let mut rest = rects;
    while let [first, tail @ ..] = rest {
        found.push(community_of(first))?;
        rest = tail;
    }
    Ok(found)
}

fn with_members<'a>(
    alloc: Global,
    world: &World<'a>,
    action: &'a CommunityAction,
    draft: Draft,
) -> Result<Draft, Memory>
    requires { IsWorld world.now }
    ensures { IfOk result (λ d. route_of world.now.prefix.now d ≡ acted (forms_of world.now.items.now) (SpecAction.Community action.now) (route_of world.now.prefix.now draft)) }
{
    let members = members_of(world, action.community.as_slice());
    match action.verb {
        CommunityVerb::Set => {
            let added = communities_of(alloc, members)?;
            draft.with_communities(alloc, false, added.as_slice())
        }
        CommunityVerb::Add => {
            let added = communities_of(alloc, members)?;
            draft.with_communities(alloc, true, added.as_slice())
        }
        CommunityVerb::Delete => draft.without_fitting(alloc, members),
    }
}

// The route behind an action.
fn acted<'a>(
    alloc: Global,
    world: &World<'a>,
    action: &'a Action,
    draft: Draft,
) -> Result<Draft, Memory>
    requires { IsWorld world.now }
    ensures { IfOk result (λ d. route_of world.now.prefix.now d ≡ acted (forms_of world.now.items.now) action.now (route_of world.now.prefix.now draft)) }
{
    match action {
        Action::Flow(_) => Ok(draft),
        Action::Metric(number) => Ok(Draft {
            med: *number,
            ..draft
        }),
        Action::LocalPreference(number) => Ok(Draft {
            local_preference: *number,
            ..draft
        }),
        Action::Origin(origin) => Ok(Draft {
            origin: *origin,
            ..draft
        }),
        Action::NextHop(next_hop) => Ok(Draft {
            next_hop: *next_hop,
            ..draft
        }),
        Action::Community(action) => with_members(alloc, world, action, draft),
        Action::Prepend(numbers) => draft.with_prepended(alloc, numbers.as_slice()),
    }
}

/// The route behind the actions of a term, in the order in which they are written.
#[tactic(auto, unfolding(crate::specs::Meaning::acted_by))]
pub(crate) fn acted_by<'a>(
    alloc: Global,
    world: &World<'a>,
    actions: &[&'a Action],
    start: Draft,
) -> Result<Draft, Memory>
    requires { IsWorld world.now }
    ensures { IfOk result (λ d. route_of world.now.prefix.now d ≡ acted_by (forms_of world.now.items.now) (map (λ a. a.now) actions.now) (route_of world.now.prefix.now start)) }
{
    let mut draft = start;
    let mut rest = actions;
    while let [first, tail @ ..] = rest {
        draft = acted(alloc, world, first, draft)?;
        rest = tail;
    }
    Ok(draft)
}

// Where the run goes behind a term with these actions: to the next term, where none says it.
#[tactic(auto, unfolding(crate::specs::Meaning::flow_of))]
fn flow_of(actions: &[&Action]) -> Flow
    ensures { result ≡ flow_of (map (λ a. a.now) actions.now) }
{
    let mut rest = actions;
    while let [first, tail @ ..] = rest {
        if let Action::Flow(flow) = first {
            return *flow;
        }
        rest = tail;
    }
    Flow::NextTerm
}

/// Where the run goes behind a term that holds.
pub(crate) fn flow_behind<'a>(alloc: Global, region: &Region<'a>) -> Result<Flow, Memory>
    ensures { IfOk result (λ f. f ≡ flow_of (content_of region.now).actions) }
{
    let actions = actions_of(alloc, region)?;
    let flow = flow_of(actions.as_slice());
    Ok(flow)
}

fn changes(action: &Action) -> bool
    ensures { result ≡ changes action.now }
{
    !matches!(action, Action::Flow(_))
}

/// Whether some action changes the route.
pub(crate) fn some_change(actions: &[&Action]) -> bool
    ensures { result ≡ list_any changes (map (λ a. a.now) actions.now) }
{
    let mut rest = actions;
    while let [first, tail @ ..] = rest {
        if changes(first) {
            return true;
        }
        rest = tail;
    }
    false
}
