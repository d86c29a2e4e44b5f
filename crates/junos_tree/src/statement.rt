//! What a statement says at its place: its words with their quotes, the name that it stands under, and its
//! form.

ghost use Rattle.std.specs.Prelude.{◌≡◌, ◌&&◌, IfOk, option_map, not, Some, None};
ghost use Rattle.policy_text.specs.Names.{is_name};
ghost use Rattle.policy_text.specs.Phrases.{one_of};
ghost use Rattle.junos_tree.specs.Tree.{are_plain, are_plain_but_last, action_takes_quoted, takes_quoted, quotes_fit, known_form, keywords, head_in, other_at, is_opener, clause_opened, opened_at, or_other, said_at};

use crate::definitions::form_in;
use crate::item::{Action, JunosForm, OtherItem, StatementSort};
use crate::place::{Place, Said};
use policy_text::{Ender, Word, copied, is, is_name};
use route_types::{Memory, Row};
use std::alloc::Global;

// ---- quoted words

fn are_plain(words: &[Word]) -> bool
    ensures { result ≡ are_plain words.now }
{
    words.iter().all(|word| !word.quoted)
}

#[tactic(auto, using(crate::proofs::Quotes::plain_before_last))]
fn are_plain_but_last(words: &[Word]) -> bool
    ensures { result ≡ are_plain_but_last words.now }
{
    let [.., _] = words else {
        return true;
    };
    are_plain(&words[..words.len() - 1])
}

fn action_takes_quoted(action: &Action) -> bool
    ensures { result ≡ action_takes_quoted action.now }
{
    matches!(action, Action::Prepend(_))
}

// Whether the last word of the form may be quoted.
fn takes_quoted(form: &JunosForm) -> bool
    ensures { result ≡ takes_quoted form.now }
{
    match form {
        JunosForm::AsPath(_) => true,
        JunosForm::Action(action) => action_takes_quoted(&action.action),
        _ => false,
    }
}

fn quotes_fit(form: &JunosForm, words: &[Word]) -> bool
    ensures { result ≡ quotes_fit form.now words.now }
{
    if takes_quoted(form) {
        are_plain_but_last(words)
    } else {
        are_plain(words)
    }
}

#[tactic(auto, unfolding(crate::specs::Tree::known_form))]
fn known_form(
    alloc: Global,
    place: Place,
    ender: Ender,
    words: &[Word],
) -> Result<Option<JunosForm>, Memory>
    ensures { IfOk result (λ o. o ≡ known_form place ender words.now) }
{
    let Some(form) = form_in(alloc, place, ender, words)? else {
        return Ok(None);
    };
    if !quotes_fit(&form, words) {
        return Ok(None);
    }
    Ok(Some(form))
}

// ---- the name that it stands under

fn keyword_in(word: &Word) -> Option<StatementSort>
    ensures { result ≡ one_of keywords word.now.text }
{
    if is(word, b"prefix-list") {
        return Some(StatementSort::PrefixList);
    }
    if is(word, b"community") {
        return Some(StatementSort::Community);
    }
    if is(word, b"as-path") {
        return Some(StatementSort::AsPath);
    }
    if is(word, b"policy-statement") {
        return Some(StatementSort::Policy);
    }
    None
}

fn is_plain_name(word: &Word) -> bool
    ensures { result ≡ (not word.now.quoted && is_name word.now.text) }
{
    !word.quoted && is_name(word.text.as_slice())
}

fn head_in(alloc: Global, words: &[Word]) -> Result<Option<OtherItem>, Memory>
    ensures { IfOk result (λ o. o ≡ head_in words.now) }
{
    let [keyword, name, ..] = words else {
        return Ok(None);
    };
    let Some(sort) = keyword_in(keyword) else {
        return Ok(None);
    };
    if keyword.quoted || !is_plain_name(name) {
        return Ok(None);
    }
    let name = Some(copied(alloc, name.text.as_slice())?);
    Ok(Some(OtherItem { sort, name }))
}

fn inner_other() -> OtherItem
    ensures { result ≡ record { sort = StatementSort.Inner; name = None } }
{
    OtherItem {
        sort: StatementSort::Inner,
        name: None,
    }
}

// What the statement stands under; none where it is foreign.
fn other_at(alloc: Global, place: Place, words: &[Word]) -> Result<Option<OtherItem>, Memory>
    ensures { IfOk result (λ o. o ≡ other_at place words.now) }
{
    match place {
        Place::Outside => head_in(alloc, words),
        Place::Options => head_in(alloc, words),
        Place::Passed => Ok(None),
        _ => Ok(Some(inner_other())),
    }
}

// ---- what it says

fn is_opener(key: &[u8], ender: Ender, words: &[Word]) -> bool
    ensures { result ≡ is_opener key.now ender words.now }
{
    match (ender, words) {
        (Ender::Open, [word]) => !word.quoted && is(word, key),
        _ => false,
    }
}

// `from {` or `then {`
fn clause_opened(unnamed: bool, ender: Ender, words: &[Word]) -> Option<Place>
    ensures { result ≡ clause_opened unnamed ender words.now }
{
    if is_opener(b"from", ender, words) {
        return Some(Place::From(unnamed));
    }
    if is_opener(b"then", ender, words) {
        return Some(Place::Then(unnamed));
    }
    None
}

#[tactic(auto, unfolding(crate::specs::Tree::opened_at))]
fn options_opened(ender: Ender, words: &[Word]) -> Option<Place>
    ensures { result ≡ opened_at Place.Outside ender words.now }
{
    if is_opener(b"policy-options", ender, words) {
        return Some(Place::Options);
    }
    None
}

// The place in a block that is opened by its keyword alone.
#[tactic(auto, unfolding(crate::specs::Tree::opened_at))]
fn opened_at(place: Place, ender: Ender, words: &[Word]) -> Option<Place>
    ensures { result ≡ opened_at place ender words.now }
{
    match place {
        Place::Outside => options_opened(ender, words),
        Place::InPolicy => clause_opened(true, ender, words),
        Place::InTerm => clause_opened(false, ender, words),
        _ => None,
    }
}

fn or_other(other: OtherItem, known: Option<JunosForm>) -> Said
    ensures { result ≡ or_other (Some other) known }
{
    match known {
        Some(form) => Said::Says(form),
        None => Said::Says(JunosForm::Other(other)),
    }
}

/// What a statement at a place says.
#[tactic(auto, unfolding(crate::specs::Tree::said_at))]
pub(crate) fn said_at(
    alloc: Global,
    place: Place,
    ender: Ender,
    words: &[Word],
) -> Result<Said, Memory>
    ensures { IfOk result (λ said. said ≡ said_at place ender words.now) }
{
    if let Some(inner) = opened_at(place, ender, words) {
        return Ok(Said::Opens(inner));
    }
    let Some(other) = other_at(alloc, place, words)? else {
        return Ok(Said::Foreign);
    };
    let known = known_form(alloc, place, ender, words)?;
    Ok(or_other(other, known))
}
