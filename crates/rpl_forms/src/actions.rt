//! The statements that change a route.

ghost use Rattle.std.specs.Prelude.{◌≡◌, ◌∷◌, ◌-◌, ◌^◌, [], IfOk, codes, option_map, true};
ghost use Rattle.route_types.specs.RouteLines.{origin_in};
ghost use Rattle.rpl_words.specs.Tokens.{token, tokens, plain_in, only, behind};
ghost use Rattle.rpl_words.specs.Values.{number_or_given};
ghost use Rattle.rpl_words.specs.Elements.{rect_element_in, set_in};
ghost use Rattle.rpl_forms.specs.Statements.{is_some, number_in_policy, next_hop_in, count_in, count_or_once, prepend_in, before_last, added_in, setting_in, set_number_in, set_value_in, set_action_in, action_in};
ghost use Rattle.rpl_forms.specs.declared.item.Action.TheVariants.{SetMed, SetLocalPreference, SetWeight, SetCommunity, DeleteCommunity, Prepend as PrependPath};

use crate::item::{Action, CommunitySetting, Prepend};
use policy_text::{Number16, Number32, OriginWord, Reads, Word, read_address};
use route_types::{Memory, NextHop, Origin, Rect};
use rpl_words::{
    Count63, RectElement, RplNumber, RplSet, after, is_key, one_plain, plain_number, set_in,
};
use std::alloc::Global;

// ---- values

// The number behind a keyword, which may be a parameter.
fn number_behind<N: Drop, R: Reads<N>>(
    alloc: Global,
    words: &[Word],
    key: &[u8],
) -> Result<Option<RplNumber<N>>, Memory>
    ensures { IfOk result (λ o. o ≡ behind (key.now ∷ []) (only (plain_in (number_or_given R.find true))) (tokens words.now)) }
{
    match after(words, &[key]) {
        Some([word]) => plain_number::<N, R>(alloc, true, word),
        _ => Ok(None),
    }
}

/// A next hop: an address, or `self`.
pub(crate) struct NextHopWord;

#[tactic(auto, unfolding(crate::specs::Statements::next_hop_in))]
fn next_hop_in(word: &[u8]) -> Option<NextHop>
    ensures { result ≡ next_hop_in word.now }
{
    if let Some(address) = read_address(word) {
        return Some(NextHop::At(address));
    }
    if word == b"self".as_slice() {
        return Some(NextHop::Own);
    }
    None
}

impl Reads<NextHop> for NextHopWord {
    ghost find = { next_hop_in };

    fn read(_alloc: Global, word: &[u8]) -> Result<Option<NextHop>, Memory> {
        Ok(next_hop_in(word))
    }
}

// ---- `set`

#[tactic(auto, unfolding(crate::specs::Statements::number_in_policy))]
fn med(alloc: Global, words: &[Word]) -> Result<Option<Action>, Memory>
    ensures { IfOk result (λ o. o ≡ option_map (λ n. SetMed n) (behind (codes "med" ∷ []) (only (number_in_policy (2 ^ 32 - 1))) (tokens words.now))) }
{
    match number_behind::<u32, Number32>(alloc, words, b"med")? {
        None => Ok(None),
        Some(number) => Ok(Some(Action::SetMed(number))),
    }
}

#[tactic(auto, unfolding(crate::specs::Statements::number_in_policy))]
fn local_preference(alloc: Global, words: &[Word]) -> Result<Option<Action>, Memory>
    ensures { IfOk result (λ o. o ≡ option_map (λ n. SetLocalPreference n) (behind (codes "local-preference" ∷ []) (only (number_in_policy (2 ^ 32 - 1))) (tokens words.now))) }
{
    match number_behind::<u32, Number32>(alloc, words, b"local-preference")? {
        None => Ok(None),
        Some(number) => Ok(Some(Action::SetLocalPreference(number))),
    }
}

#[tactic(auto, unfolding(crate::specs::Statements::number_in_policy))]
fn weight(alloc: Global, words: &[Word]) -> Result<Option<Action>, Memory>
    ensures { IfOk result (λ o. o ≡ option_map (λ n. SetWeight n) (behind (codes "weight" ∷ []) (only (number_in_policy 65535)) (tokens words.now))) }
{
    match number_behind::<u16, Number16>(alloc, words, b"weight")? {
        None => Ok(None),
        Some(number) => Ok(Some(Action::SetWeight(number))),
    }
}

// A statement that sets a number.
#[tactic(auto, unfolding(crate::specs::Statements::set_number_in))]
fn set_number(alloc: Global, words: &[Word]) -> Result<Option<Action>, Memory>
    ensures { IfOk result (λ o. o ≡ set_number_in (tokens words.now)) }
{
    if let Some(action) = med(alloc, words)? {
        return Ok(Some(action));
    }
    if let Some(action) = local_preference(alloc, words)? {
        return Ok(Some(action));
    }
    weight(alloc, words)
}

fn origin_behind(alloc: Global, words: &[Word]) -> Result<Option<Origin>, Memory>
    ensures { IfOk result (λ o. o ≡ behind (codes "origin" ∷ []) (only (plain_in origin_in)) (tokens words.now)) }
{
    match after(words, &[b"origin"]) {
        None => Ok(None),
        Some(rest) => one_plain::<Origin, OriginWord>(alloc, rest),
    }
}

fn next_hop_behind(alloc: Global, words: &[Word]) -> Result<Option<NextHop>, Memory>
    ensures { IfOk result (λ o. o ≡ behind (codes "next-hop" ∷ []) (only (plain_in next_hop_in)) (tokens words.now)) }
{
    match after(words, &[b"next-hop"]) {
        None => Ok(None),
        Some(rest) => one_plain::<NextHop, NextHopWord>(alloc, rest),
    }
}

// The words before the last one, where that is a keyword.
fn before_last<'a>(words: &'a [Word], key: &[u8]) -> Option<&'a [Word]>
    ensures { option_map (λ r. tokens r.now) result ≡ before_last key.now (tokens words.now) }
{
    let [.., last] = words else {
        return None;
    };
    if !is_key(key, last) {
        return None;
    }
    Some(&words[..words.len() - 1])
}

// A set with `additive` behind it.
#[tactic(auto, unfolding(crate::specs::Statements::added_in))]
fn additive_set(alloc: Global, words: &[Word]) -> Result<Option<RplSet<Rect>>, Memory>
    ensures { IfOk result (λ o. o ≡ added_in (tokens words.now)) }
{
    match before_last(words, b"additive") {
        None => Ok(None),
        Some(front) => set_in::<Rect, RectElement>(alloc, front),
    }
}

// A set, and whether `additive` stands behind it.
#[tactic(auto, unfolding(crate::specs::Statements::setting_in))]
fn setting(alloc: Global, words: &[Word]) -> Result<Option<(RplSet<Rect>, bool)>, Memory>
    ensures { IfOk result (λ o. o ≡ setting_in (tokens words.now)) }
{
    if let Some(set) = set_in::<Rect, RectElement>(alloc, words)? {
        return Ok(Some((set, false)));
    }
    match additive_set(alloc, words)? {
        None => Ok(None),
        Some(set) => Ok(Some((set, true))),
    }
}

fn setting_behind(alloc: Global, words: &[Word]) -> Result<Option<Action>, Memory>
    ensures { IfOk result (λ o. o ≡ option_map (λ s. SetCommunity (record { set = s.0; additive = s.1 })) (behind (codes "community" ∷ []) setting_in (tokens words.now))) }
{
    match after(words, &[b"community"]) {
        None => Ok(None),
        Some(rest) => match setting(alloc, rest)? {
            None => Ok(None),
            Some((set, additive)) => {
                Ok(Some(Action::SetCommunity(CommunitySetting { set, additive })))
            }
        },
    }
}

// A statement that sets another attribute.
#[tactic(auto, unfolding(crate::specs::Statements::set_value_in))]
fn set_value(alloc: Global, words: &[Word]) -> Result<Option<Action>, Memory>
    ensures { IfOk result (λ o. o ≡ set_value_in (tokens words.now)) }
{
    if let Some(origin) = origin_behind(alloc, words)? {
        return Ok(Some(Action::SetOrigin(origin)));
    }
    if let Some(hop) = next_hop_behind(alloc, words)? {
        return Ok(Some(Action::SetNextHop(hop)));
    }
    setting_behind(alloc, words)
}

#[tactic(auto, unfolding(crate::specs::Statements::set_action_in))]
fn set_action(alloc: Global, words: &[Word]) -> Result<Option<Action>, Memory>
    ensures { IfOk result (λ o. o ≡ set_action_in (tokens words.now)) }
{
    if let Some(action) = set_number(alloc, words)? {
        return Ok(Some(action));
    }
    set_value(alloc, words)
}

fn set_behind(alloc: Global, words: &[Word]) -> Result<Option<Action>, Memory>
    ensures { IfOk result (λ o. o ≡ behind (codes "set" ∷ []) set_action_in (tokens words.now)) }
{
    match after(words, &[b"set"]) {
        None => Ok(None),
        Some(rest) => set_action(alloc, rest),
    }
}

// ---- `delete` and `prepend`

#[tactic(auto, unfolding(rpl_words::specs::Tokens::after))]
fn deletion(alloc: Global, words: &[Word]) -> Result<Option<Action>, Memory>
    ensures { IfOk result (λ o. o ≡ option_map (λ s. DeleteCommunity s) (behind (codes "delete" ∷ codes "community" ∷ codes "in" ∷ []) (set_in rect_element_in) (tokens words.now))) }
{
    match after(words, &[b"delete", b"community", b"in"]) {
        None => Ok(None),
        Some(rest) => match set_in::<Rect, RectElement>(alloc, rest)? {
            None => Ok(None),
            Some(set) => Ok(Some(Action::DeleteCommunity(set))),
        },
    }
}

fn is_some_number(number: &RplNumber<u8>) -> bool
    ensures { result ≡ is_some number.now }
{
    match number {
        RplNumber::Fixed(number) => 1 <= *number,
        RplNumber::Parameter(_) => true,
    }
}

// How often a number is put before the path.
#[tactic(auto, unfolding(crate::specs::Statements::count_in, crate::specs::Statements::number_in_policy))]
fn count_in(alloc: Global, word: &Word) -> Result<Option<RplNumber<u8>>, Memory>
    ensures { IfOk result (λ o. o ≡ count_in (token word.now)) }
{
    match plain_number::<u8, Count63>(alloc, true, word)? {
        None => Ok(None),
        Some(number) => {
            if is_some_number(&number) {
                Ok(Some(number))
            } else {
                Ok(None)
            }
        }
    }
}

fn count_or_once(alloc: Global, words: &[Word]) -> Result<Option<RplNumber<u8>>, Memory>
    ensures { IfOk result (λ o. o ≡ count_or_once (tokens words.now)) }
{
    match words {
        [] => Ok(Some(RplNumber::Fixed(1))),
        [word] => count_in(alloc, word),
        _ => Ok(None),
    }
}

// A number, and how often it is put before the path.
#[tactic(auto, unfolding(crate::specs::Statements::prepend_in, crate::specs::Statements::number_in_policy))]
fn prepend(alloc: Global, words: &[Word]) -> Result<Option<(RplNumber<u32>, RplNumber<u8>)>, Memory>
    ensures { IfOk result (λ o. o ≡ prepend_in (tokens words.now)) }
{
    let [first, rest @ ..] = words else {
        return Ok(None);
    };
    match plain_number::<u32, Number32>(alloc, true, first)? {
        None => Ok(None),
        Some(number) => match count_or_once(alloc, rest)? {
            None => Ok(None),
            Some(count) => Ok(Some((number, count))),
        },
    }
}

#[tactic(auto, unfolding(rpl_words::specs::Tokens::after))]
fn prepending(alloc: Global, words: &[Word]) -> Result<Option<Action>, Memory>
    ensures { IfOk result (λ o. o ≡ option_map (λ p. PrependPath (record { number = p.0; count = p.1 })) (behind (codes "prepend" ∷ codes "as-path" ∷ []) prepend_in (tokens words.now))) }
{
    match after(words, &[b"prepend", b"as-path"]) {
        None => Ok(None),
        Some(rest) => match prepend(alloc, rest)? {
            None => Ok(None),
            Some((number, count)) => Ok(Some(Action::Prepend(Prepend { number, count }))),
        },
    }
}

// A statement that changes the route.
#[tactic(auto, unfolding(crate::specs::Statements::action_in))]
pub(crate) fn action_in(alloc: Global, words: &[Word]) -> Result<Option<Action>, Memory>
    ensures { IfOk result (λ o. o ≡ action_in (tokens words.now)) }
{
    if let Some(action) = set_behind(alloc, words)? {
        return Ok(Some(action));
    }
    if let Some(action) = deletion(alloc, words)? {
        return Ok(Some(action));
    }
    prepending(alloc, words)
}
