//! What statements do with the communities of a route.
ghost use Rattle.std.specs.Prelude.{◌≡◌, ◌+◌, ◌*◌, ◌-◌, ◌^◌, ◌++◌, List, [], ◌∷◌, IfOk, map};
ghost use Rattle.route_types.specs.Address.{PrefixParts};
ghost use Rattle.route_drafts.specs.Drafts.{route_of};
ghost use Rattle.rpl_effects.specs.Changes.{all_done};
ghost use Rattle.rpl_meaning.specs.Blocks.{IsWorld, word_in};
ghost use Rattle.rpl_meaning.specs.Communities.{rects_in, set_again, unfitted_by, stepped};
ghost use Rattle.rpl_meaning.specs.Meaning.{community_of};
ghost use Rattle.rpl_meaning.specs.Sets.{members, community_set_named, community_in};
ghost use Rattle.rpl_tree.specs.Tree.{forms};

use crate::blocks::CommunitySets;
use crate::elements::{below_first, elements_at, lent};
use crate::tests::World;
use crate::words::{Words, word_of};
use route_drafts::Draft;
use route_types::{Community, Memory, Rect};
use rpl_forms::{RplItem, RplSet};
use std::alloc::Global;

/// Where the elements of a community set stand, lent from the text.
#[derive(Clone, Copy)]
pub(crate) enum Elements<'a> {
    /// At the front of what stands below the first line of a set.
    Below(&'a [RplItem]),
    Listed(&'a [Rect]),
}

/// What one statement does with the communities.
#[derive(Clone, Copy)]
pub(crate) enum CommunityStep<'a> {
    Add(Elements<'a>),
    /// Puts these in the place of all others.
    Replace(Elements<'a>),
    Delete(Elements<'a>),
}

/// Where the elements of a set stand.
pub(crate) fn elements_in<'a>(
    world: &World<'a>,
    words: &Words<'a>,
    set: &'a RplSet<Rect>,
) -> Elements<'a>
    requires { IsWorld world.now }
    ensures { rects_in result ≡ members community_set_named community_in (forms world.now.items.now) (word_in words.now.entries) set.now }
{
    let sets = &world.community_sets;
    match set {
        RplSet::Named(name) => Elements::Below(below_first(sets, name.as_slice())),
        RplSet::Parameter(x) => Elements::Below(below_first(sets, word_of(words, x.as_slice()))),
        RplSet::Listed(elements) => Elements::Listed(elements.as_slice()),
    }
}

// The rectangles that elements are, lent.
fn rects<'a>(alloc: Global, elements: Elements<'a>) -> Result<Vec<&'a Rect>, Memory>
    ensures { IfOk result (λ v. map (λ r. r.now) v.items ≡ rects_in elements.entry) }
{
    match elements {
        Elements::Below(items) => elements_at::<Rect, CommunitySets>(alloc, items),
        Elements::Listed(rects) => lent(alloc, rects),
    }
}

// The community of a rectangle that is one.
fn community_of(rect: &Rect) -> Community
    ensures { result ≡ community_of rect.now }
{
    Community(u32::from(rect.high_least()) * 65536 + u32::from(rect.low_least()))
}

// The community of each rectangle.
fn communities_of(alloc: Global, rects: &[&Rect]) -> Result<Vec<Community>, Memory>
    ensures { IfOk result (λ v. v.items ≡ map community_of (map (λ r. r.now) rects.now)) }
{
    let mut found = Vec::new(alloc);
    let mut rest = rects;
    while let [first, tail @ ..] = rest {
        found.push(community_of(first))?;
        rest = tail;
    }
    Ok(found)
}

// The community of each element.
fn communities_in<'a>(alloc: Global, elements: Elements<'a>) -> Result<Vec<Community>, Memory>
    ensures { IfOk result (λ v. v.items ≡ map community_of (rects_in elements.entry)) }
{
    let lent = rects(alloc, elements)?;
    communities_of(alloc, lent.as_slice())
}

fn copied(alloc: Global, rects: &[&Rect]) -> Result<Vec<Rect>, Memory>
    ensures { IfOk result (λ v. v.items ≡ map (λ r. r.now) rects.now) }
{
    let mut found = Vec::new(alloc);
    let mut rest = rects;
    while let [first, tail @ ..] = rest {
        found.push(**first)?;
        rest = tail;
    }
    Ok(found)
}

// The rectangle of each element.
fn rects_of<'a>(alloc: Global, elements: Elements<'a>) -> Result<Vec<Rect>, Memory>
    ensures { IfOk result (λ v. v.items ≡ rects_in elements.entry) }
{
    let lent = rects(alloc, elements)?;
    copied(alloc, lent.as_slice())
}

// The draft with the communities of these elements, added to its own or in their place.
fn with_set<'a>(
    alloc: Global,
    additive: bool,
    elements: Elements<'a>,
    draft: Draft,
) -> Result<Draft, Memory>
    ensures { IfOk result (λ d. (p : PrefixParts) → route_of p d ≡ record (route_of p draft) { communities = set_again additive (rects_in elements.entry) (route_of p draft).communities }) }
{
    let communities = communities_in(alloc, elements)?;
    draft.with_communities(alloc, additive, communities.as_slice())
}

// The draft without the communities that fit one of these elements.
fn without<'a>(alloc: Global, elements: Elements<'a>, draft: Draft) -> Result<Draft, Memory>
    ensures { IfOk result (λ d. (p : PrefixParts) → route_of p d ≡ record (route_of p draft) { communities = unfitted_by (rects_in elements.entry) (route_of p draft).communities }) }
{
    let rects = rects_of(alloc, elements)?;
    draft.without_fitting(alloc, rects.as_slice())
}

// The draft behind a step.
fn done<'a>(alloc: Global, step: CommunityStep<'a>, draft: Draft) -> Result<Draft, Memory>
    ensures { IfOk result (λ d. (p : PrefixParts) → route_of p d ≡ record (route_of p draft) { communities = stepped step.entry (route_of p draft).communities }) }
{
    match step {
        CommunityStep::Add(elements) => with_set(alloc, true, elements, draft),
        CommunityStep::Replace(elements) => with_set(alloc, false, elements, draft),
        CommunityStep::Delete(elements) => without(alloc, elements, draft),
    }
}

/// The draft behind steps, from the first to the last.
#[tactic(auto, unfolding(rpl_effects::specs::Changes::all_done))]
pub(crate) fn all_done<'a>(
    alloc: Global,
    steps: &[CommunityStep<'a>],
    draft: Draft,
) -> Result<Draft, Memory>
    ensures { IfOk result (λ d. (p : PrefixParts) → route_of p d ≡ record (route_of p draft) { communities = all_done stepped steps.now (route_of p draft).communities }) }
{
    let mut draft = draft;
    let mut rest = steps;
    while let [first, tail @ ..] = rest {
        draft = done(alloc, *first, draft)?;
        rest = tail;
    }
    Ok(draft)
}
