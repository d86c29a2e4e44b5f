//! The definitions of what policies name, and what stands in their blocks.

ghost use Rattle.std.specs.Prelude.{◌≡◌, ◌∷◌, [], IfOk, codes};
ghost use Rattle.policy_text.specs.Phrases.{texts, behind, first_of, only, name_in};
ghost use Rattle.junos_tree.specs.Words.{member_in, pattern_in};
ghost use Rattle.junos_tree.specs.Forms.{of_keys, values_in, list_in, policy_in, term_in, community_in, path_in, definition_in, condition_in, action_in, condition_form, action_form, clause_in, form_in};
ghost use Rattle.junos_tree.specs.declared.place.Place.TheVariants.{Members, InPolicy, InTerm, From, Then};

use crate::actions::action_in;
use crate::conditions::{condition_in, values_behind};
use crate::item::{
    Action, CommunityDefinition, Condition, JunosForm, PathDefinition, TermAction, TermCondition,
};
use crate::place::Place;
use crate::words::{ListMemberWord, MemberWord, PatternWord};
use aspath_text::TokenPattern;
use policy_text::{Ender, NameWord, Word, after, one_behind, one_word, value_at};
use route_types::{Memory, Prefix, Rect, Row};
use std::alloc::Global;

// ---- definitions

// `prefix-list N`
#[tactic(auto, unfolding(crate::specs::Forms::of_keys, crate::specs::Forms::list_in, policy_text::specs::Phrases::after))]
fn list_in(alloc: Global, words: &[Word]) -> Result<Option<JunosForm>, Memory>
    ensures { IfOk result (λ o. o ≡ list_in (texts words.now)) }
{
    match one_behind::<Row<u8>, NameWord>(alloc, words, &[b"prefix-list"])? {
        None => Ok(None),
        Some(name) => Ok(Some(JunosForm::PrefixList(name))),
    }
}

// `policy-statement N`
#[tactic(auto, unfolding(crate::specs::Forms::of_keys, crate::specs::Forms::policy_in, policy_text::specs::Phrases::after))]
fn policy_in(alloc: Global, words: &[Word]) -> Result<Option<JunosForm>, Memory>
    ensures { IfOk result (λ o. o ≡ policy_in (texts words.now)) }
{
    match one_behind::<Row<u8>, NameWord>(alloc, words, &[b"policy-statement"])? {
        None => Ok(None),
        Some(name) => Ok(Some(JunosForm::Policy(name))),
    }
}

// `term N`
#[tactic(auto, unfolding(crate::specs::Forms::of_keys, crate::specs::Forms::term_in, policy_text::specs::Phrases::after))]
fn term_in(alloc: Global, words: &[Word]) -> Result<Option<JunosForm>, Memory>
    ensures { IfOk result (λ o. o ≡ term_in (texts words.now)) }
{
    match one_behind::<Row<u8>, NameWord>(alloc, words, &[b"term"])? {
        None => Ok(None),
        Some(name) => Ok(Some(JunosForm::Term(name))),
    }
}

// `community N members M`, the name and the members.
#[tactic(auto, unfolding(policy_text::specs::Phrases::after))]
fn members_behind(alloc: Global, words: &[Word]) -> Result<Option<(Row<u8>, Row<Rect>)>, Memory>
    ensures { IfOk result (λ o. o ≡ behind (codes "community" ∷ []) (first_of name_in (behind (codes "members" ∷ []) (values_in member_in))) (texts words.now)) }
{
    let Some(rest) = after(words, &[b"community"]) else {
        return Ok(None);
    };
    let Some((name, rest)) = value_at::<Row<u8>, NameWord>(alloc, rest)? else {
        return Ok(None);
    };
    match values_behind::<Rect, MemberWord>(alloc, rest, &[b"members"])? {
        None => Ok(None),
        Some(members) => Ok(Some((name, members))),
    }
}

#[tactic(auto, unfolding(crate::specs::Forms::of_keys, crate::specs::Forms::community_in))]
fn community_in(alloc: Global, words: &[Word]) -> Result<Option<JunosForm>, Memory>
    ensures { IfOk result (λ o. o ≡ community_in (texts words.now)) }
{
    match members_behind(alloc, words)? {
        None => Ok(None),
        Some((name, members)) => Ok(Some(JunosForm::Community(CommunityDefinition {
            name,
            members,
        }))),
    }
}

// `as-path N X`
#[tactic(auto, unfolding(crate::specs::Forms::of_keys, crate::specs::Forms::path_in, policy_text::specs::Phrases::after))]
fn path_in(alloc: Global, words: &[Word]) -> Result<Option<JunosForm>, Memory>
    ensures { IfOk result (λ o. o ≡ path_in (texts words.now)) }
{
    let Some(rest) = after(words, &[b"as-path"]) else {
        return Ok(None);
    };
    let Some((name, rest)) = value_at::<Row<u8>, NameWord>(alloc, rest)? else {
        return Ok(None);
    };
    match one_word::<(TokenPattern, Row<u8>), PatternWord>(alloc, rest)? {
        None => Ok(None),
        Some((pattern, text)) => Ok(Some(JunosForm::AsPath(PathDefinition {
            name,
            pattern,
            text,
        }))),
    }
}

fn ended_definition_in(alloc: Global, words: &[Word]) -> Result<Option<JunosForm>, Memory>
    ensures { IfOk result (λ o. o ≡ definition_in Ender.Semi (texts words.now)) }
{
    if let Some(form) = list_in(alloc, words)? {
        return Ok(Some(form));
    }
    if let Some(form) = community_in(alloc, words)? {
        return Ok(Some(form));
    }
    path_in(alloc, words)
}

fn opening_definition_in(alloc: Global, words: &[Word]) -> Result<Option<JunosForm>, Memory>
    ensures { IfOk result (λ o. o ≡ definition_in Ender.Open (texts words.now)) }
{
    if let Some(form) = list_in(alloc, words)? {
        return Ok(Some(form));
    }
    policy_in(alloc, words)
}

// A definition, by what ends its statement.
fn definition_in(alloc: Global, ender: Ender, words: &[Word]) -> Result<Option<JunosForm>, Memory>
    ensures { IfOk result (λ o. o ≡ definition_in ender (texts words.now)) }
{
    match ender {
        Ender::Semi => ended_definition_in(alloc, words),
        Ender::Open => opening_definition_in(alloc, words),
        _ => Ok(None),
    }
}

// ---- what stands in a block

#[tactic(auto, unfolding(crate::specs::Forms::form_in))]
fn member_in(alloc: Global, ender: Ender, words: &[Word]) -> Result<Option<JunosForm>, Memory>
    ensures { IfOk result (λ o. o ≡ form_in Members ender (texts words.now)) }
{
    if ender != Ender::Semi {
        return Ok(None);
    }
    match one_word::<Prefix, ListMemberWord>(alloc, words)? {
        None => Ok(None),
        Some(prefix) => Ok(Some(JunosForm::Member(prefix))),
    }
}

fn condition_form(unnamed: bool, condition: Condition) -> JunosForm
    ensures { result ≡ condition_form unnamed condition }
{
    JunosForm::Condition(TermCondition { unnamed, condition })
}

fn action_form(unnamed: bool, action: Action) -> JunosForm
    ensures { result ≡ action_form unnamed action }
{
    JunosForm::Action(TermAction { unnamed, action })
}

#[tactic(auto, unfolding(policy_text::specs::Phrases::after))]
fn condition_behind(alloc: Global, words: &[Word]) -> Result<Option<Condition>, Memory>
    ensures { IfOk result (λ o. o ≡ behind (codes "from" ∷ []) condition_in (texts words.now)) }
{
    match after(words, &[b"from"]) {
        None => Ok(None),
        Some(rest) => condition_in(alloc, rest),
    }
}

#[tactic(auto, unfolding(policy_text::specs::Phrases::after))]
fn action_behind(alloc: Global, words: &[Word]) -> Result<Option<Action>, Memory>
    ensures { IfOk result (λ o. o ≡ behind (codes "then" ∷ []) action_in (texts words.now)) }
{
    match after(words, &[b"then"]) {
        None => Ok(None),
        Some(rest) => action_in(alloc, rest),
    }
}

// `from C`, `then T`
#[tactic(auto, unfolding(crate::specs::Forms::of_keys, crate::specs::Forms::clause_in))]
fn clause_in(alloc: Global, unnamed: bool, words: &[Word]) -> Result<Option<JunosForm>, Memory>
    ensures { IfOk result (λ o. o ≡ clause_in unnamed (texts words.now)) }
{
    if let Some(condition) = condition_behind(alloc, words)? {
        return Ok(Some(condition_form(unnamed, condition)));
    }
    match action_behind(alloc, words)? {
        None => Ok(None),
        Some(action) => Ok(Some(action_form(unnamed, action))),
    }
}

// Directly in a policy.
#[tactic(auto, unfolding(crate::specs::Forms::form_in))]
fn policy_part_in(alloc: Global, ender: Ender, words: &[Word]) -> Result<Option<JunosForm>, Memory>
    ensures { IfOk result (λ o. o ≡ form_in InPolicy ender (texts words.now)) }
{
    match ender {
        Ender::Open => term_in(alloc, words),
        Ender::Semi => clause_in(alloc, true, words),
        _ => Ok(None),
    }
}

// Directly in a term.
#[tactic(auto, unfolding(crate::specs::Forms::form_in))]
fn term_part_in(alloc: Global, ender: Ender, words: &[Word]) -> Result<Option<JunosForm>, Memory>
    ensures { IfOk result (λ o. o ≡ form_in InTerm ender (texts words.now)) }
{
    match ender {
        Ender::Semi => clause_in(alloc, false, words),
        _ => Ok(None),
    }
}

// In `from {`.
#[tactic(auto, unfolding(crate::specs::Forms::form_in))]
fn from_part_in(
    alloc: Global,
    unnamed: bool,
    ender: Ender,
    words: &[Word],
) -> Result<Option<JunosForm>, Memory>
    ensures { IfOk result (λ o. o ≡ form_in (From unnamed) ender (texts words.now)) }
{
    if ender != Ender::Semi {
        return Ok(None);
    }
    match condition_in(alloc, words)? {
        None => Ok(None),
        Some(condition) => Ok(Some(condition_form(unnamed, condition))),
    }
}

// In `then {`.
#[tactic(auto, unfolding(crate::specs::Forms::form_in))]
fn then_part_in(
    alloc: Global,
    unnamed: bool,
    ender: Ender,
    words: &[Word],
) -> Result<Option<JunosForm>, Memory>
    ensures { IfOk result (λ o. o ≡ form_in (Then unnamed) ender (texts words.now)) }
{
    if ender != Ender::Semi {
        return Ok(None);
    }
    match action_in(alloc, words)? {
        None => Ok(None),
        Some(action) => Ok(Some(action_form(unnamed, action))),
    }
}

/// The form of a statement at a place, by the texts of its words.
#[tactic(auto, unfolding(crate::specs::Forms::form_in))]
pub(crate) fn form_in(
    alloc: Global,
    place: Place,
    ender: Ender,
    words: &[Word],
) -> Result<Option<JunosForm>, Memory>
    ensures { IfOk result (λ o. o ≡ form_in place ender (texts words.now)) }
{
    match place {
        Place::Outside => definition_in(alloc, ender, words),
        Place::Options => definition_in(alloc, ender, words),
        Place::Members => member_in(alloc, ender, words),
        Place::InPolicy => policy_part_in(alloc, ender, words),
        Place::InTerm => term_part_in(alloc, ender, words),
        Place::From(unnamed) => from_part_in(alloc, unnamed, ender, words),
        Place::Then(unnamed) => then_part_in(alloc, unnamed, ender, words),
        Place::Passed => Ok(None),
    }
}
