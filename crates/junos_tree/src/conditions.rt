//! The conditions of terms.

ghost use Rattle.std.specs.Prelude.{◌≡◌, ◌≤◌, ◌-◌, ◌+◌, ◌∷◌, [], IfOk, IfSome, codes, map, option_map};
ghost use Rattle.policy_text.specs.Phrases.{texts, behind, only, one_of, first_of, name_in};
ghost use Rattle.junos_tree.specs.Words.{types, up_to_in, lengths_in, filter_types};
ghost use Rattle.junos_tree.specs.Forms.{of_keys, before_bracket, bracketed_in, values_in, type_in, range_in, named_in, filter_in, attribute_in, condition_in};

use crate::item::{Condition, ListFilter};
use crate::words::{FilterWord, lengths_in, type_in as word_type_in, up_to_in};
use policy_text::{
    AddressWord, NameWord, Number32, OriginWord, Reads, Word, after, is, one_behind, one_word,
    read_prefix, some_words, value_at,
};
use prefix_sets::PrefixRange;
use route_types::{Address, Memory, Origin, Row};
use std::alloc::Global;

// ---- one value, or several in brackets

// The words before a last `]`.
fn before_bracket(words: &[Word]) -> Option<&[Word]>
    ensures { option_map (λ ws. texts ws.now) result ≡ before_bracket (texts words.now) }
{
    let [.., last] = words else {
        return None;
    };
    if is(last, b"]") {
        return Some(&words[..words.len() - 1]);
    }
    None
}

fn bracketed_in<T: Drop, R: Reads<T>>(
    alloc: Global,
    words: &[Word],
) -> Result<Option<Row<T>>, Memory>
    ensures { IfOk result (λ o. o ≡ bracketed_in R.find (texts words.now)) }
{
    match before_bracket(words) {
        None => Ok(None),
        Some(inner) => some_words::<T, R>(alloc, inner),
    }
}

#[tactic(auto, unfolding(policy_text::specs::Phrases::after))]
fn values_behind_bracket<T: Drop, R: Reads<T>>(
    alloc: Global,
    words: &[Word],
) -> Result<Option<Row<T>>, Memory>
    ensures { IfOk result (λ o. o ≡ behind (codes "[" ∷ []) (bracketed_in R.find) (texts words.now)) }
{
    match after(words, &[b"["]) {
        None => Ok(None),
        Some(rest) => bracketed_in::<T, R>(alloc, rest),
    }
}

// The row of one value.
fn one_value<T: Drop>(alloc: Global, value: T) -> Result<Row<T>, Memory>
    ensures { IfOk result (λ r. r ≡ value ∷ []) }
{
    let mut values = Row::new(alloc);
    values.push(value)?;
    Ok(values)
}

/// The values of `V` or `[ V V ]`, one or more.
#[tactic(auto, unfolding(crate::specs::Forms::values_in))]
pub(crate) fn values_in<T: Drop, R: Reads<T>>(
    alloc: Global,
    words: &[Word],
) -> Result<Option<Row<T>>, Memory>
    ensures { IfOk result (λ o. o ≡ values_in R.find (texts words.now)) }
{
    if let Some(value) = one_word::<T, R>(alloc, words)? {
        let values = one_value(alloc, value)?;
        return Ok(Some(values));
    }
    values_behind_bracket::<T, R>(alloc, words)
}

/// The values behind the first words, where these are `keys`.
pub(crate) fn values_behind<T: Drop, R: Reads<T>>(
    alloc: Global,
    words: &[Word],
    keys: &[&[u8]],
) -> Result<Option<Row<T>>, Memory>
    ensures { IfOk result (λ o. o ≡ behind (map (λ k. k.now) keys.now) (values_in R.find) (texts words.now)) }
{
    match after(words, keys) {
        None => Ok(None),
        Some(rest) => values_in::<T, R>(alloc, rest),
    }
}

// ---- the lengths of a route filter

fn one_word_type(length: u8, words: &[Word]) -> Option<(u8, u8)>
    requires { length ≤ 32 }
    ensures { result ≡ only (one_of (types length)) (texts words.now) }
{
    match words {
        [word] => word_type_in(length, word.text.as_slice()),
        _ => None,
    }
}

#[tactic(auto, unfolding(policy_text::specs::Phrases::after))]
fn up_to_behind(length: u8, words: &[Word]) -> Option<(u8, u8)>
    ensures { result ≡ behind (codes "upto" ∷ []) (only (up_to_in length)) (texts words.now) }
{
    match after(words, &[b"upto"])? {
        [word] => up_to_in(length, word.text.as_slice()),
        _ => None,
    }
}

#[tactic(auto, unfolding(policy_text::specs::Phrases::after))]
fn lengths_behind(length: u8, words: &[Word]) -> Option<(u8, u8)>
    ensures { result ≡ behind (codes "prefix-length-range" ∷ []) (only (lengths_in length)) (texts words.now) }
{
    match after(words, &[b"prefix-length-range"])? {
        [word] => lengths_in(length, word.text.as_slice()),
        _ => None,
    }
}

#[tactic(auto, unfolding(crate::specs::Forms::type_in))]
fn lengths_of_type(length: u8, words: &[Word]) -> Option<(u8, u8)>
    requires { length ≤ 32 }
    ensures { result ≡ type_in length (texts words.now) }
{
    if let Some(lengths) = one_word_type(length, words) {
        return Some(lengths);
    }
    if let Some(lengths) = up_to_behind(length, words) {
        return Some(lengths);
    }
    lengths_behind(length, words)
}

// The least length is at least the prefix's own.
fn type_in(length: u8, words: &[Word]) -> Option<(u8, u8)>
    requires { length ≤ 32 }
    ensures value { result ≡ type_in length (texts words.now) }
    ensures within { IfSome result (λ l. length ≤ l.0) }
{
    lengths_of_type(length, words)
}

#[tactic(auto, unfolding(crate::specs::Forms::range_in))]
fn range_in(words: &[Word]) -> Option<PrefixRange>
    ensures { result ≡ range_in (texts words.now) }
{
    let [prefix, rest @ ..] = words else {
        return None;
    };
    let prefix = read_prefix(prefix.text.as_slice())?;
    let (least, most) = type_in(prefix.length(), rest)?;
    Some(PrefixRange::new(prefix, least, most))
}

#[tactic(auto, unfolding(policy_text::specs::Phrases::after))]
fn range_behind(words: &[Word]) -> Option<PrefixRange>
    ensures { result ≡ behind (codes "route-filter" ∷ []) range_in (texts words.now) }
{
    let rest = after(words, &[b"route-filter"])?;
    range_in(rest)
}

// ---- conditions

fn names_behind(
    alloc: Global,
    words: &[Word],
    keys: &[&[u8]],
) -> Result<Option<Row<Row<u8>>>, Memory>
    ensures { IfOk result (λ o. o ≡ behind (map (λ k. k.now) keys.now) (values_in name_in) (texts words.now)) }
{
    values_behind::<Row<u8>, NameWord>(alloc, words, keys)
}

// A condition that names what is defined elsewhere.
#[tactic(auto, unfolding(crate::specs::Forms::of_keys, crate::specs::Forms::named_in, policy_text::specs::Phrases::after))]
fn named_in(alloc: Global, words: &[Word]) -> Result<Option<Condition>, Memory>
    ensures { IfOk result (λ o. o ≡ named_in (texts words.now)) }
{
    if let Some(names) = names_behind(alloc, words, &[b"protocol"])? {
        return Ok(Some(Condition::Protocol(names)));
    }
    if let Some(names) = names_behind(alloc, words, &[b"community"])? {
        return Ok(Some(Condition::Community(names)));
    }
    if let Some(names) = names_behind(alloc, words, &[b"as-path"])? {
        return Ok(Some(Condition::AsPath(names)));
    }
    if let Some(names) = names_behind(alloc, words, &[b"policy"])? {
        return Ok(Some(Condition::Policy(names)));
    }
    match names_behind(alloc, words, &[b"prefix-list"])? {
        None => Ok(None),
        Some(names) => Ok(Some(Condition::PrefixList(names))),
    }
}

// `N exact|orlonger`
#[tactic(auto, unfolding(policy_text::specs::Phrases::after))]
fn list_filter_behind(alloc: Global, words: &[Word]) -> Result<Option<(Row<u8>, bool)>, Memory>
    ensures { IfOk result (λ o. o ≡ behind (codes "prefix-list-filter" ∷ []) (first_of name_in (only (one_of filter_types))) (texts words.now)) }
{
    let Some(rest) = after(words, &[b"prefix-list-filter"]) else {
        return Ok(None);
    };
    let Some((list, rest)) = value_at::<Row<u8>, NameWord>(alloc, rest)? else {
        return Ok(None);
    };
    match one_word::<bool, FilterWord>(alloc, rest)? {
        None => Ok(None),
        Some(or_longer) => Ok(Some((list, or_longer))),
    }
}

// A condition on the prefix of a route that is written in place, or on a list in its own way.
#[tactic(auto, unfolding(crate::specs::Forms::of_keys, crate::specs::Forms::filter_in))]
fn filter_in(alloc: Global, words: &[Word]) -> Result<Option<Condition>, Memory>
    ensures { IfOk result (λ o. o ≡ filter_in (texts words.now)) }
{
    if let Some(range) = range_behind(words) {
        return Ok(Some(Condition::RouteFilter(range)));
    }
    match list_filter_behind(alloc, words)? {
        None => Ok(None),
        Some((list, or_longer)) => Ok(Some(Condition::ListFilter(ListFilter { list, or_longer }))),
    }
}

// A condition on one attribute of a route.
#[tactic(auto, unfolding(crate::specs::Forms::of_keys, crate::specs::Forms::attribute_in, policy_text::specs::Phrases::after))]
fn attribute_in(alloc: Global, words: &[Word]) -> Result<Option<Condition>, Memory>
    ensures { IfOk result (λ o. o ≡ attribute_in (texts words.now)) }
{
    if let Some(hops) = values_behind::<Address, AddressWord>(alloc, words, &[b"next-hop"])? {
        return Ok(Some(Condition::NextHop(hops)));
    }
    if let Some(number) = one_behind::<u32, Number32>(alloc, words, &[b"metric"])? {
        return Ok(Some(Condition::Metric(number)));
    }
    if let Some(number) = one_behind::<u32, Number32>(alloc, words, &[b"local-preference"])? {
        return Ok(Some(Condition::LocalPreference(number)));
    }
    match one_behind::<Origin, OriginWord>(alloc, words, &[b"origin"])? {
        None => Ok(None),
        Some(origin) => Ok(Some(Condition::Origin(origin))),
    }
}

/// The condition that words spell.
#[tactic(auto, unfolding(crate::specs::Forms::condition_in))]
pub(crate) fn condition_in(alloc: Global, words: &[Word]) -> Result<Option<Condition>, Memory>
    ensures { IfOk result (λ o. o ≡ condition_in (texts words.now)) }
{
    if let Some(condition) = named_in(alloc, words)? {
        return Ok(Some(condition));
    }
    if let Some(condition) = filter_in(alloc, words)? {
        return Ok(Some(condition));
    }
    attribute_in(alloc, words)
}
