//! The actions of terms.

ghost use Rattle.std.specs.Prelude.{◌≡◌, ◌∷◌, [], IfOk, codes};
ghost use Rattle.policy_text.specs.Phrases.{texts, behind, first_of, only, one_of, name_in};
ghost use Rattle.junos_tree.specs.Words.{verbs};
ghost use Rattle.junos_tree.specs.Forms.{of_keys, flow_in, setting_in, change_in, action_in};

use crate::item::{Action, CommunityAction, CommunityVerb, Flow};
use crate::words::{EndWord, NextHopWord, NextWord, PrependedWord, VerbWord};
use policy_text::{NameWord, Number32, OriginWord, Word, after, one_behind, one_word, value_at};
use route_types::{Memory, NextHop, Origin, Row};
use std::alloc::Global;

// `accept`, `reject`, `next term`, `next policy`
#[tactic(auto, unfolding(crate::specs::Forms::flow_in, policy_text::specs::Phrases::after))]
fn flow_in(alloc: Global, words: &[Word]) -> Result<Option<Flow>, Memory>
    ensures { IfOk result (λ o. o ≡ flow_in (texts words.now)) }
{
    if let Some(flow) = one_word::<Flow, EndWord>(alloc, words)? {
        return Ok(Some(flow));
    }
    one_behind::<Flow, NextWord>(alloc, words, &[b"next"])
}

// An action on one attribute of a route.
#[tactic(auto, unfolding(crate::specs::Forms::of_keys, crate::specs::Forms::setting_in, policy_text::specs::Phrases::after))]
fn setting_in(alloc: Global, words: &[Word]) -> Result<Option<Action>, Memory>
    ensures { IfOk result (λ o. o ≡ setting_in (texts words.now)) }
{
    if let Some(number) = one_behind::<u32, Number32>(alloc, words, &[b"metric"])? {
        return Ok(Some(Action::Metric(number)));
    }
    if let Some(number) = one_behind::<u32, Number32>(alloc, words, &[b"local-preference"])? {
        return Ok(Some(Action::LocalPreference(number)));
    }
    if let Some(origin) = one_behind::<Origin, OriginWord>(alloc, words, &[b"origin"])? {
        return Ok(Some(Action::Origin(origin)));
    }
    match one_behind::<NextHop, NextHopWord>(alloc, words, &[b"next-hop"])? {
        None => Ok(None),
        Some(hop) => Ok(Some(Action::NextHop(hop))),
    }
}

// `set|add|delete N`
#[tactic(auto, unfolding(policy_text::specs::Phrases::after))]
fn communities_behind(
    alloc: Global,
    words: &[Word],
) -> Result<Option<(CommunityVerb, Row<u8>)>, Memory>
    ensures { IfOk result (λ o. o ≡ behind (codes "community" ∷ []) (first_of (one_of verbs) (only name_in)) (texts words.now)) }
{
    let Some(rest) = after(words, &[b"community"]) else {
        return Ok(None);
    };
    let Some((verb, rest)) = value_at::<CommunityVerb, VerbWord>(alloc, rest)? else {
        return Ok(None);
    };
    match one_word::<Row<u8>, NameWord>(alloc, rest)? {
        None => Ok(None),
        Some(community) => Ok(Some((verb, community))),
    }
}

// An action on the communities or the path of a route.
#[tactic(auto, unfolding(crate::specs::Forms::of_keys, crate::specs::Forms::change_in, policy_text::specs::Phrases::after))]
fn change_in(alloc: Global, words: &[Word]) -> Result<Option<Action>, Memory>
    ensures { IfOk result (λ o. o ≡ change_in (texts words.now)) }
{
    if let Some((verb, community)) = communities_behind(alloc, words)? {
        return Ok(Some(Action::Community(CommunityAction { verb, community })));
    }
    match one_behind::<Row<u32>, PrependedWord>(alloc, words, &[b"as-path-prepend"])? {
        None => Ok(None),
        Some(path) => Ok(Some(Action::Prepend(path))),
    }
}

/// The action that words spell.
#[tactic(auto, unfolding(crate::specs::Forms::action_in))]
pub(crate) fn action_in(alloc: Global, words: &[Word]) -> Result<Option<Action>, Memory>
    ensures { IfOk result (λ o. o ≡ action_in (texts words.now)) }
{
    if let Some(flow) = flow_in(alloc, words)? {
        return Ok(Some(Action::Flow(flow)));
    }
    if let Some(action) = setting_in(alloc, words)? {
        return Ok(Some(action));
    }
    change_in(alloc, words)
}
