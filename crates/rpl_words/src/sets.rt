//! The elements of prefix sets and community sets, and sets as a policy writes them.

ghost use Rattle.std.specs.Prelude.{◌≡◌, ◌∷◌, [], true, false, IfOk, option_map};
ghost use Rattle.route_types.specs.Address.{prefix_of};
ghost use Rattle.route_types.specs.Words.{prefix_in, address_in};
ghost use Rattle.rpl_words.specs.Tokens.{token, tokens, plain_in, only, behind};
ghost use Rattle.rpl_words.specs.Elements.{rises, bound_in, two_bounds_in, one_bound_in, rpl_bounds_in, bounded_in, prefix_element_in, rect_element_in, set_word_in, set_in};
ghost use Rattle.rpl_words.specs.declared.number.RplNumber.TheVariants.{Fixed};

use crate::element::PrefixElement;
use crate::number::{RplNumber, RplSet};
use crate::phrase::{ReadsWords, after, listed, one_plain, plain};
use crate::values::{Bits32, InnerName, ParameterName, RectWord, plain_number};
use policy_text::{Word, copied, read_address, read_prefix};
use route_types::{Memory, Prefix, Rect, Row};
use std::alloc::Global;

// ---- bounds behind a prefix

// Whether the one bound is at most the other, where both are written.
fn rises(least: &RplNumber<u8>, most: &RplNumber<u8>) -> bool
    ensures { result ≡ rises least.now most.now }
{
    match (least, most) {
        (RplNumber::Fixed(least), RplNumber::Fixed(most)) => *least <= *most,
        _ => true,
    }
}

// Whether a bound is at least the length of its prefix, where it is written.
fn reaches(length: u8, bound: &RplNumber<u8>) -> bool
    ensures { result ≡ rises (Fixed length) bound.now }
{
    match bound {
        RplNumber::Fixed(bound) => length <= *bound,
        RplNumber::Parameter(_) => true,
    }
}

#[tactic(auto, unfolding(crate::specs::Elements::bound_in))]
fn bound_in(
    alloc: Global,
    within: bool,
    length: u8,
    word: &Word,
) -> Result<Option<RplNumber<u8>>, Memory>
    ensures { IfOk result (λ o. o ≡ bound_in within length (token word.now)) }
{
    let Some(bound) = plain_number::<u8, Bits32>(alloc, within, word)? else {
        return Ok(None);
    };
    if !reaches(length, &bound) {
        return Ok(None);
    }
    Ok(Some(bound))
}

// The bound behind a keyword.
fn bound_behind(
    alloc: Global,
    within: bool,
    length: u8,
    words: &[Word],
    key: &[u8],
) -> Result<Option<RplNumber<u8>>, Memory>
    ensures { IfOk result (λ o. o ≡ behind (key.now ∷ []) (only (bound_in within length)) (tokens words.now)) }
{
    let Some([word]) = after(words, &[key]) else {
        return Ok(None);
    };
    bound_in(alloc, within, length, word)
}

// `ge G le E`
#[tactic(auto, unfolding(crate::specs::Elements::two_bounds_in))]
fn two_bounds(
    alloc: Global,
    within: bool,
    length: u8,
    words: &[Word],
) -> Result<Option<(RplNumber<u8>, RplNumber<u8>)>, Memory>
    ensures { IfOk result (λ o. o ≡ two_bounds_in within length (tokens words.now)) }
{
    let Some([first, rest @ ..]) = after(words, &[b"ge"]) else {
        return Ok(None);
    };
    let Some(least) = bound_in(alloc, within, length, first)? else {
        return Ok(None);
    };
    let Some(most) = bound_behind(alloc, within, length, rest, b"le")? else {
        return Ok(None);
    };
    if !rises(&least, &most) {
        return Ok(None);
    }
    Ok(Some((least, most)))
}

fn again(alloc: Global, bound: &RplNumber<u8>) -> Result<RplNumber<u8>, Memory>
    ensures { IfOk result (λ b. b ≡ bound.now) }
{
    match bound {
        RplNumber::Fixed(number) => Ok(RplNumber::Fixed(*number)),
        RplNumber::Parameter(name) => Ok(RplNumber::Parameter(copied(alloc, name.as_slice())?)),
    }
}

// `ge G`, `le E` or `eq E`
#[tactic(auto, unfolding(crate::specs::Elements::one_bound_in))]
fn one_bound(
    alloc: Global,
    within: bool,
    length: u8,
    words: &[Word],
) -> Result<Option<(RplNumber<u8>, RplNumber<u8>)>, Memory>
    ensures { IfOk result (λ o. o ≡ one_bound_in within length (tokens words.now)) }
{
    if let Some(bound) = bound_behind(alloc, within, length, words, b"ge")? {
        return Ok(Some((bound, RplNumber::Fixed(32))));
    }
    if let Some(bound) = bound_behind(alloc, within, length, words, b"le")? {
        return Ok(Some((RplNumber::Fixed(length), bound)));
    }
    let Some(bound) = bound_behind(alloc, within, length, words, b"eq")? else {
        return Ok(None);
    };
    Ok(Some((again(alloc, &bound)?, bound)))
}

// What stands behind a prefix of this length.
#[tactic(auto, unfolding(crate::specs::Elements::rpl_bounds_in))]
fn bounds(
    alloc: Global,
    within: bool,
    length: u8,
    words: &[Word],
) -> Result<Option<(RplNumber<u8>, RplNumber<u8>)>, Memory>
    ensures { IfOk result (λ o. o ≡ rpl_bounds_in within length (tokens words.now)) }
{
    if words.is_empty() {
        return Ok(Some((RplNumber::Fixed(length), RplNumber::Fixed(length))));
    }
    if let Some(bounds) = one_bound(alloc, within, length, words)? {
        return Ok(Some(bounds));
    }
    two_bounds(alloc, within, length, words)
}

// ---- elements of prefix sets

fn prefix_at(word: &Word) -> Option<Prefix>
    ensures { result ≡ plain_in prefix_in (token word.now) }
{
    if word.quoted {
        return None;
    }
    read_prefix(word.text.as_slice())
}

// A prefix and its bounds.
#[tactic(auto, unfolding(crate::specs::Elements::bounded_in))]
fn bounded(alloc: Global, within: bool, words: &[Word]) -> Result<Option<PrefixElement>, Memory>
    ensures { IfOk result (λ o. o ≡ bounded_in within (tokens words.now)) }
{
    let [first, rest @ ..] = words else {
        return Ok(None);
    };
    let Some(prefix) = prefix_at(first) else {
        return Ok(None);
    };
    let length = prefix.length();
    let Some((least, most)) = bounds(alloc, within, length, rest)? else {
        return Ok(None);
    };
    Ok(Some(PrefixElement {
        prefix,
        least,
        most,
    }))
}

// An address alone is a prefix of full length.
fn full_prefix(words: &[Word]) -> Option<Prefix>
    ensures { result ≡ option_map (λ a. prefix_of a 32) (only (plain_in address_in) (tokens words.now)) }
{
    let [word] = words else {
        return None;
    };
    if word.quoted {
        return None;
    }
    let address = read_address(word.text.as_slice())?;
    Some(Prefix::new(address, 32))
}

#[tactic(auto, unfolding(crate::specs::Elements::prefix_element_in))]
fn prefix_element(
    alloc: Global,
    within: bool,
    words: &[Word],
) -> Result<Option<PrefixElement>, Memory>
    ensures { IfOk result (λ o. o ≡ prefix_element_in within (tokens words.now)) }
{
    if let Some(element) = bounded(alloc, within, words)? {
        return Ok(Some(element));
    }
    let Some(prefix) = full_prefix(words) else {
        return Ok(None);
    };
    Ok(Some(PrefixElement {
        prefix,
        least: RplNumber::Fixed(32),
        most: RplNumber::Fixed(32),
    }))
}

//// An element of a prefix set that stands by itself.
pub struct OwnPrefix;

impl ReadsWords<PrefixElement> for OwnPrefix {
    ghost find = { prefix_element_in false };

    fn read(alloc: Global, words: &[Word]) -> Result<Option<PrefixElement>, Memory> {
        prefix_element(alloc, false, words)
    }
}

/// An element of a prefix set that a policy writes.
pub(crate) struct InnerPrefix;

impl ReadsWords<PrefixElement> for InnerPrefix {
    ghost find = { prefix_element_in true };

    fn read(alloc: Global, words: &[Word]) -> Result<Option<PrefixElement>, Memory> {
        prefix_element(alloc, true, words)
    }
}

// ---- elements of community sets

//// An element of a community set.
pub struct RectElement;

impl ReadsWords<Rect> for RectElement {
    ghost find = { rect_element_in };

    #[tactic(auto, unfolding(crate::specs::Elements::rect_element_in))]
    fn read(alloc: Global, words: &[Word]) -> Result<Option<Rect>, Memory> {
        one_plain::<Rect, RectWord>(alloc, words)
    }
}

// ---- sets within a policy

// The name of a set, or a parameter.
#[tactic(auto, unfolding(crate::specs::Elements::set_word_in))]
fn set_word<E: Drop>(alloc: Global, words: &[Word]) -> Result<Option<RplSet<E>>, Memory>
    ensures { IfOk result (λ o. o ≡ only (plain_in set_word_in) (tokens words.now)) }
{
    let [word] = words else {
        return Ok(None);
    };
    if let Some(name) = plain::<Row<u8>, InnerName>(alloc, word)? {
        return Ok(Some(RplSet::Named(name)));
    }
    let Some(name) = plain::<Row<u8>, ParameterName>(alloc, word)? else {
        return Ok(None);
    };
    Ok(Some(RplSet::Parameter(name)))
}

/// A set within a policy: a name, a parameter, or elements in parentheses.
#[tactic(auto, unfolding(crate::specs::Elements::set_in))]
pub fn set_in<E: Drop, R: ReadsWords<E>>(
    alloc: Global,
    words: &[Word],
) -> Result<Option<RplSet<E>>, Memory>
    ensures { IfOk result (λ o. o ≡ set_in R.find (tokens words.now)) }
{
    if let Some(set) = set_word::<E>(alloc, words)? {
        return Ok(Some(set));
    }
    let Some(elements) = listed::<E, R>(alloc, words)? else {
        return Ok(None);
    };
    Ok(Some(RplSet::Listed(elements)))
}
