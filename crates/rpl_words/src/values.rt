//! The kinds of words that RPL has: names, parameters, numbers, comparisons and communities.

ghost use Rattle.std.specs.Prelude.{◌≡◌, ◌≤◌, ◌-◌, ◌^◌, ◌∷◌, IfOk, IfSome, bytes_eq, codes};
ghost use Rattle.std.specs.List.{list_any};
ghost use Rattle.route_types.specs.Words.{number_in};
ghost use Rattle.policy_text.specs.Phrases.{one_of};
ghost use Rattle.text_words.specs.RplCut.{starts};
ghost use Rattle.rpl_words.specs.Tokens.{token, plain_in, quoted_in};
ghost use Rattle.rpl_words.specs.Values.{is_rpl_name, is_inner_name, header_name_in, inner_name_in, parameter_in, given_in, number_or_given, comparison_in, half_range_in, half_in, rect_in};

use crate::element::Comparison;
use crate::number::RplNumber;
use policy_text::{
    HalfWord, NumberOrAll, Reads, Word, copied, halves_in, is_name, known_rect, number_of_8_bits,
    number_of_16_bits, parts_at, read_number,
};
use route_types::{Memory, Rect, Row};
use std::alloc::Global;

// ---- names

fn is_header_name(word: &[u8]) -> bool
    ensures { result ≡ is_rpl_name word.now }
{
    is_name(word) && word.first() != Some(&b'$')
}

// The words that start or end a statement of a policy.
fn is_reserved(word: &[u8]) -> bool
    ensures { result ≡ list_any (λ key. bytes_eq key word.now) (codes "then" ∷ codes "end-policy" ∷ starts) }
{
    b"then".as_slice() == word
        || b"end-policy".as_slice() == word
        || b"if".as_slice() == word
        || b"elseif".as_slice() == word
        || b"else".as_slice() == word
        || b"endif".as_slice() == word
        || b"pass".as_slice() == word
        || b"done".as_slice() == word
        || b"drop".as_slice() == word
        || b"set".as_slice() == word
        || b"delete".as_slice() == word
        || b"prepend".as_slice() == word
        || b"apply".as_slice() == word
}

fn is_inner_name(word: &[u8]) -> bool
    ensures { result ≡ is_inner_name word.now }
{
    is_header_name(word) && !is_reserved(word)
}

//// A name in a header.
pub struct HeaderName;

impl Reads<Row<u8>> for HeaderName {
    ghost find = { header_name_in };

    #[tactic(auto, unfolding(crate::specs::Values::header_name_in))]
    fn read(alloc: Global, word: &[u8]) -> Result<Option<Row<u8>>, Memory> {
        if !is_header_name(word) {
            return Ok(None);
        }
        Ok(Some(copied(alloc, word)?))
    }
}

//// A name within a policy.
pub struct InnerName;

impl Reads<Row<u8>> for InnerName {
    ghost find = { inner_name_in };

    #[tactic(auto, unfolding(crate::specs::Values::inner_name_in))]
    fn read(alloc: Global, word: &[u8]) -> Result<Option<Row<u8>>, Memory> {
        if !is_inner_name(word) {
            return Ok(None);
        }
        Ok(Some(copied(alloc, word)?))
    }
}

//// A parameter: its name without the `$`.
pub struct ParameterName;

impl Reads<Row<u8>> for ParameterName {
    ghost find = { parameter_in };

    #[tactic(auto, unfolding(crate::specs::Values::parameter_in))]
    fn read(alloc: Global, word: &[u8]) -> Result<Option<Row<u8>>, Memory> {
        let [sign, name @ ..] = word else {
            return Ok(None);
        };
        if *sign != b'$' || name.is_empty() || !is_header_name(name) {
            return Ok(None);
        }
        Ok(Some(copied(alloc, name)?))
    }
}

// ---- numbers

/// A number, 0 to 32.
pub(crate) struct Bits32;

impl Reads<u8> for Bits32 {
    ghost find = { number_in 32 };

    fn read(_alloc: Global, word: &[u8]) -> Result<Option<u8>, Memory> {
        Ok(number_of_8_bits(word, 32))
    }
}

//// A number, 0 to 63.
pub struct Count63;

impl Reads<u8> for Count63 {
    ghost find = { number_in 63 };

    fn read(_alloc: Global, word: &[u8]) -> Result<Option<u8>, Memory> {
        Ok(number_of_8_bits(word, 63))
    }
}

/// A number, 0 to 2047.
pub(crate) struct Length2047;

#[tactic(auto, using(route_types::proofs::Numbers::number_in_within))]
fn path_length(word: &[u8]) -> Option<u16>
    ensures { result ≡ number_in 2047 word.now }
{
    let number = read_number(word, 2047)?;
    Some(number as u16)
}

impl Reads<u16> for Length2047 {
    ghost find = { number_in 2047 };

    fn read(_alloc: Global, word: &[u8]) -> Result<Option<u16>, Memory> {
        Ok(path_length(word))
    }
}

// A parameter, within a policy.
fn given(alloc: Global, within: bool, word: &[u8]) -> Result<Option<Row<u8>>, Memory>
    ensures { IfOk result (λ o. o ≡ given_in within word.now) }
{
    if !within {
        return Ok(None);
    }
    ParameterName::read(alloc, word)
}

// A number or, within a policy, a parameter.
#[tactic(auto, unfolding(crate::specs::Values::number_or_given))]
fn number_or_given<N: Drop, R: Reads<N>>(
    alloc: Global,
    within: bool,
    word: &[u8],
) -> Result<Option<RplNumber<N>>, Memory>
    ensures { IfOk result (λ o. o ≡ number_or_given R.find within word.now) }
{
    if let Some(number) = R::read(alloc, word)? {
        return Ok(Some(RplNumber::Fixed(number)));
    }
    match given(alloc, within, word)? {
        None => Ok(None),
        Some(name) => Ok(Some(RplNumber::Parameter(name))),
    }
}

/// A word that is a number or, within a policy, a parameter.
pub fn plain_number<N: Drop, R: Reads<N>>(
    alloc: Global,
    within: bool,
    word: &Word,
) -> Result<Option<RplNumber<N>>, Memory>
    ensures { IfOk result (λ o. o ≡ plain_in (number_or_given R.find within) (token word.now)) }
{
    if word.quoted {
        return Ok(None);
    }
    number_or_given::<N, R>(alloc, within, word.text.as_slice())
}

// A quoted word that is a number or, within a policy, a parameter.
pub(crate) fn quoted_number<N: Drop, R: Reads<N>>(
    alloc: Global,
    within: bool,
    word: &Word,
) -> Result<Option<RplNumber<N>>, Memory>
    ensures { IfOk result (λ o. o ≡ quoted_in (number_or_given R.find within) (token word.now)) }
{
    if !word.quoted {
        return Ok(None);
    }
    number_or_given::<N, R>(alloc, within, word.text.as_slice())
}

/// How two numbers compare.
pub(crate) struct ComparisonWord;

#[tactic(auto, unfolding(crate::specs::Values::comparison_in))]
fn comparison_in(word: &[u8]) -> Option<Comparison>
    ensures { result ≡ comparison_in word.now }
{
    if word == b"eq".as_slice() {
        return Some(Comparison::Equal);
    }
    if word == b"is".as_slice() {
        return Some(Comparison::Equal);
    }
    if word == b"ge".as_slice() {
        return Some(Comparison::AtLeast);
    }
    if word == b"le".as_slice() {
        return Some(Comparison::AtMost);
    }
    None
}

impl Reads<Comparison> for ComparisonWord {
    ghost find = { comparison_in };

    fn read(_alloc: Global, word: &[u8]) -> Result<Option<Comparison>, Memory> {
        Ok(comparison_in(word))
    }
}

// ---- communities

// `[x..y]`
#[tactic(auto, unfolding(crate::specs::Values::half_range_in))]
fn half_range_in(word: &[u8]) -> Option<(u16, u16)>
    ensures value { result ≡ half_range_in word.now }
    ensures within { IfSome result (λ h. h.0 ≤ h.1) }
{
    let (front, rest) = parts_at(word, b'[')?;
    let (inner, back) = parts_at(rest, b']')?;
    let (least, rest) = parts_at(inner, b'.')?;
    let (gap, most) = parts_at(rest, b'.')?;
    let least = number_of_16_bits(least)?;
    let most = number_of_16_bits(most)?;
    if !front.is_empty() || !back.is_empty() || !gap.is_empty() || least > most {
        return None;
    }
    Some((least, most))
}

/// Half of a community element: a number, `*` for all, or `[x..y]`.
pub(crate) struct ElementHalf;

#[tactic(auto, unfolding(crate::specs::Values::half_in))]
fn half_in(word: &[u8]) -> Option<(u16, u16)>
    ensures value { result ≡ half_in word.now }
    ensures within { IfSome result (λ h. h.0 ≤ h.1) }
{
    if let Some(numbers) = NumberOrAll::read(word) {
        return Some(numbers);
    }
    half_range_in(word)
}

impl HalfWord for ElementHalf {
    ghost find = { half_in };

    fn read(word: &[u8]) -> Option<(u16, u16)> {
        half_in(word)
    }
}

/// An element of a community set.
pub(crate) struct RectWord;

#[tactic(auto, unfolding(crate::specs::Values::rect_in))]
fn rect_in(word: &[u8]) -> Option<Rect>
    ensures { result ≡ rect_in word.now }
{
    if let Some(rect) = halves_in::<ElementHalf>(word) {
        return Some(rect);
    }
    known_rect(word, b"local-AS")
}

impl Reads<Rect> for RectWord {
    ghost find = { rect_in };

    fn read(_alloc: Global, word: &[u8]) -> Result<Option<Rect>, Memory> {
        Ok(rect_in(word))
    }
}
