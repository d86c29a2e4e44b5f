//! The tests of conditions, and where one ends.

ghost use Rattle.std.specs.Prelude.{◌≡◌, ◌∷◌, ◌-◌, ◌^◌, ◌<◌, [], IfOk, codes, map, option_map, drop, true};
ghost use Rattle.rpl_words.specs.Tokens.{tokens, behind};
ghost use Rattle.rpl_words.specs.Elements.{rect_element_in, prefix_element_in, path_element_in, set_in, compared_in};
ghost use Rattle.rpl_words.specs.Conditions.{as_path_in, community_test_in, address_test_in, value_test_in, test_in, set_words, begin_with, asks_for_prefixes, asks_for_communities, asks_for_set, value_words, words_behind};
ghost use Rattle.rpl_words.specs.declared.condition.RplTest.TheVariants.{Med};

use crate::condition::{MedTest, RplTest};
use crate::element::{PathElement, PrefixElement};
use crate::number::RplSet;
use crate::paths::{InnerPath, compared, path_test};
use crate::phrase::{ReadsWords, after, one_plain, place_of};
use crate::sets::{InnerPrefix, RectElement, set_in};
use policy_text::{Number32, OriginWord, Word};
use route_types::{Memory, Origin, Rect};
use std::alloc::Global;

// The set behind some keywords.
fn set_behind<E: Drop, R: ReadsWords<E>>(
    alloc: Global,
    words: &[Word],
    keys: &[&[u8]],
) -> Result<Option<RplSet<E>>, Memory>
    ensures { IfOk result (λ o. o ≡ behind (map (λ k. k.now) keys.now) (set_in R.find) (tokens words.now)) }
{
    match after(words, keys) {
        None => Ok(None),
        Some(rest) => set_in::<E, R>(alloc, rest),
    }
}

// A test of the prefix or of the next hop.
#[tactic(auto, unfolding(crate::specs::Conditions::address_test_in, crate::specs::Tokens::after))]
fn address_test(alloc: Global, words: &[Word]) -> Result<Option<RplTest>, Memory>
    ensures { IfOk result (λ o. o ≡ address_test_in (tokens words.now)) }
{
    if let Some(set) = set_behind::<PrefixElement, InnerPrefix>(
        alloc,
        words,
        &[b"destination", b"in"],
    )? {
        return Ok(Some(RplTest::Destination(set)));
    }
    let Some(set) = set_behind::<PrefixElement, InnerPrefix>(alloc, words, &[b"next-hop", b"in"])?
    else {
        return Ok(None);
    };
    Ok(Some(RplTest::NextHop(set)))
}

// What stands behind `as-path`.
#[tactic(auto, unfolding(crate::specs::Conditions::as_path_in))]
fn as_path(alloc: Global, words: &[Word]) -> Result<Option<RplTest>, Memory>
    ensures { IfOk result (λ o. o ≡ as_path_in (tokens words.now)) }
{
    if let Some(set) = set_behind::<PathElement, InnerPath>(alloc, words, &[b"in"])? {
        return Ok(Some(RplTest::PathIn(set)));
    }
    let Some(test) = path_test(alloc, true, words)? else {
        return Ok(None);
    };
    Ok(Some(RplTest::Path(test)))
}

// What stands behind `community`.
#[tactic(auto, unfolding(crate::specs::Conditions::community_test_in, crate::specs::Tokens::after))]
fn community_test(alloc: Global, words: &[Word]) -> Result<Option<RplTest>, Memory>
    ensures { IfOk result (λ o. o ≡ community_test_in (tokens words.now)) }
{
    if let Some(set) = set_behind::<Rect, RectElement>(alloc, words, &[b"matches-any"])? {
        return Ok(Some(RplTest::MatchesAny(set)));
    }
    if let Some(set) = set_behind::<Rect, RectElement>(alloc, words, &[b"matches-every"])? {
        return Ok(Some(RplTest::MatchesEvery(set)));
    }
    match after(words, &[b"is-empty"]) {
        Some([]) => Ok(Some(RplTest::IsEmpty)),
        _ => Ok(None),
    }
}

#[tactic(auto, unfolding(crate::specs::Elements::compared_in))]
fn med_test(alloc: Global, words: &[Word]) -> Result<Option<RplTest>, Memory>
    ensures { IfOk result (λ o. o ≡ option_map (λ c. Med (record { comparison = c.0; med = c.1 })) (behind (codes "med" ∷ []) (compared_in true (2 ^ 32 - 1)) (tokens words.now))) }
{
    match after(words, &[b"med"]) {
        None => Ok(None),
        Some(rest) => match compared::<u32, Number32>(alloc, true, rest)? {
            None => Ok(None),
            Some((comparison, med)) => Ok(Some(RplTest::Med(MedTest { comparison, med }))),
        },
    }
}

// A test of a single value.
#[tactic(auto, unfolding(crate::specs::Conditions::value_test_in, crate::specs::Tokens::after))]
fn value_test(alloc: Global, words: &[Word]) -> Result<Option<RplTest>, Memory>
    ensures { IfOk result (λ o. o ≡ value_test_in (tokens words.now)) }
{
    if let Some(test) = med_test(alloc, words)? {
        return Ok(Some(test));
    }
    match after(words, &[b"origin", b"is"]) {
        None => Ok(None),
        Some(rest) => match one_plain::<Origin, OriginWord>(alloc, rest)? {
            None => Ok(None),
            Some(origin) => Ok(Some(RplTest::Origin(origin))),
        },
    }
}

fn as_path_test(alloc: Global, words: &[Word]) -> Result<Option<RplTest>, Memory>
    ensures { IfOk result (λ o. o ≡ behind (codes "as-path" ∷ []) as_path_in (tokens words.now)) }
{
    match after(words, &[b"as-path"]) {
        None => Ok(None),
        Some(rest) => as_path(alloc, rest),
    }
}

fn any_community_test(alloc: Global, words: &[Word]) -> Result<Option<RplTest>, Memory>
    ensures { IfOk result (λ o. o ≡ behind (codes "community" ∷ []) community_test_in (tokens words.now)) }
{
    match after(words, &[b"community"]) {
        None => Ok(None),
        Some(rest) => community_test(alloc, rest),
    }
}

/// The test that the words spell.
#[tactic(auto, unfolding(crate::specs::Conditions::test_in))]
pub fn test_in(alloc: Global, words: &[Word]) -> Result<Option<RplTest>, Memory>
    ensures { IfOk result (λ o. o ≡ test_in (tokens words.now)) }
{
    if let Some(test) = address_test(alloc, words)? {
        return Ok(Some(test));
    }
    if let Some(test) = as_path_test(alloc, words)? {
        return Ok(Some(test));
    }
    if let Some(test) = any_community_test(alloc, words)? {
        return Ok(Some(test));
    }
    value_test(alloc, words)
}

// ---- where a test ends

// How many words a set takes that begins here.
fn set_words(words: &[Word]) -> usize
    ensures value { result ≡ set_words (tokens words.now) }
    ensures small { result < 2 ^ 63 }
{
    match after(words, &[b"("]) {
        None => 1,
        Some(inner) => match place_of(inner, b")") {
            None => inner.len() + 1,
            Some(place) => place + 2,
        },
    }
}

fn behind_two(words: &[Word]) -> &[Word]
    ensures { tokens result.now ≡ drop 2 (tokens words.now) }
{
    match words {
        [_, _, rest @ ..] => rest,
        _ => &[],
    }
}

#[tactic(auto, unfolding(crate::specs::Conditions::begin_with))]
fn begin_with(words: &[Word], keys: &[&[u8]]) -> bool
    ensures { result ≡ begin_with (map (λ k. k.now) keys.now) (tokens words.now) }
{
    after(words, keys).is_some()
}

fn asks_for_destination(words: &[Word]) -> bool
    ensures { result ≡ begin_with (codes "destination" ∷ codes "in" ∷ []) (tokens words.now) }
{
    begin_with(words, &[b"destination", b"in"])
}

fn asks_for_next_hop(words: &[Word]) -> bool
    ensures { result ≡ begin_with (codes "next-hop" ∷ codes "in" ∷ []) (tokens words.now) }
{
    begin_with(words, &[b"next-hop", b"in"])
}

#[tactic(auto, unfolding(crate::specs::Conditions::asks_for_prefixes))]
fn asks_for_prefixes(words: &[Word]) -> bool
    ensures { result ≡ asks_for_prefixes (tokens words.now) }
{
    asks_for_destination(words) || asks_for_next_hop(words)
}

#[tactic(auto, unfolding(crate::specs::Conditions::asks_for_communities))]
fn asks_for_communities(words: &[Word]) -> bool
    ensures { result ≡ asks_for_communities (tokens words.now) }
{
    begin_with(words, &[b"community", b"matches-any"])
        || begin_with(words, &[b"community", b"matches-every"])
}

#[tactic(auto, unfolding(crate::specs::Conditions::asks_for_set))]
fn asks_for_set(words: &[Word]) -> bool
    ensures { result ≡ asks_for_set (tokens words.now) }
{
    asks_for_prefixes(words)
        || asks_for_communities(words)
        || begin_with(words, &[b"as-path", b"in"])
}

// How many words a test without a set that begins here takes behind its first word.
#[tactic(auto, unfolding(crate::specs::Conditions::value_words))]
fn value_words(words: &[Word]) -> usize
    ensures { result ≡ value_words (tokens words.now) }
{
    if begin_with(words, &[b"as-path", b"length"]) {
        return 3;
    }
    if begin_with(words, &[b"community", b"is-empty"]) {
        return 1;
    }
    2
}

/// How many words a test that begins here takes behind its first word.
#[tactic(auto, unfolding(crate::specs::Conditions::words_behind))]
pub fn words_behind(words: &[Word]) -> usize
    ensures { result ≡ words_behind (tokens words.now) }
{
    if asks_for_set(words) {
        return set_words(behind_two(words)) + 1;
    }
    value_words(words)
}
