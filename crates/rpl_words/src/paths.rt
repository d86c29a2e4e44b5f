//! The elements of path sets, and how a number compares with another one.

ghost use Rattle.std.specs.Prelude.{◌≡◌, ◌∷◌, [], true, false, IfOk, codes, option_map};
ghost use Rattle.aspath_text.specs.IosRead.{ios_pattern_in};
ghost use Rattle.rpl_words.specs.Tokens.{tokens, plain_in, quoted_in, only, behind, first_of};
ghost use Rattle.rpl_words.specs.Values.{number_or_given, comparison_in};
ghost use Rattle.rpl_words.specs.Elements.{compared_in, quoted_number_in, standing_test_in, path_test_in, path_element_in};
ghost use Rattle.rpl_words.specs.declared.element.PathTest.TheVariants.{Length};

use crate::element::{Comparison, LengthTest, PathElement, PathTest};
use crate::number::RplNumber;
use crate::phrase::{ReadsWords, after, one_quoted, plain};
use crate::values::{ComparisonWord, Length2047, plain_number, quoted_number};
use aspath_text::{IosPattern, IosPatternWord};
use policy_text::{Number32, Reads, Word};
use route_types::Memory;
use std::alloc::Global;

// How a number compares with another one.
#[tactic(auto, unfolding(crate::specs::Elements::compared_in))]
pub(crate) fn compared<N: Drop, R: Reads<N>>(
    alloc: Global,
    within: bool,
    words: &[Word],
) -> Result<Option<(Comparison, RplNumber<N>)>, Memory>
    ensures { IfOk result (λ o. o ≡ first_of (plain_in comparison_in) (only (plain_in (number_or_given R.find within))) (tokens words.now)) }
{
    let [first, second] = words else {
        return Ok(None);
    };
    let Some(comparison) = plain::<Comparison, ComparisonWord>(alloc, first)? else {
        return Ok(None);
    };
    let Some(number) = plain_number::<N, R>(alloc, within, second)? else {
        return Ok(None);
    };
    Ok(Some((comparison, number)))
}

// A number in quotes behind a keyword.
#[tactic(auto, unfolding(crate::specs::Elements::quoted_number_in))]
fn quoted_number_behind(
    alloc: Global,
    within: bool,
    words: &[Word],
    key: &[u8],
) -> Result<Option<RplNumber<u32>>, Memory>
    ensures { IfOk result (λ o. o ≡ quoted_number_in within key.now (tokens words.now)) }
{
    let Some([word]) = after(words, &[key]) else {
        return Ok(None);
    };
    quoted_number::<u32, Number32>(alloc, within, word)
}

#[tactic(auto, unfolding(crate::specs::Elements::compared_in))]
fn length_test(alloc: Global, within: bool, words: &[Word]) -> Result<Option<PathTest>, Memory>
    ensures { IfOk result (λ o. o ≡ option_map (λ c. Length (record { comparison = c.0; length = c.1 })) (behind (codes "length" ∷ []) (compared_in within 2047) (tokens words.now))) }
{
    match after(words, &[b"length"]) {
        None => Ok(None),
        Some(rest) => match compared::<u16, Length2047>(alloc, within, rest)? {
            None => Ok(None),
            Some((comparison, length)) => {
                Ok(Some(PathTest::Length(LengthTest { comparison, length })))
            }
        },
    }
}

// A test of a number that stands in the path.
#[tactic(auto, unfolding(crate::specs::Elements::standing_test_in, crate::specs::Elements::quoted_number_in, crate::specs::Tokens::after))]
fn standing_test(alloc: Global, within: bool, words: &[Word]) -> Result<Option<PathTest>, Memory>
    ensures { IfOk result (λ o. o ≡ standing_test_in within (tokens words.now)) }
{
    if let Some(number) = quoted_number_behind(alloc, within, words, b"passes-through")? {
        return Ok(Some(PathTest::PassesThrough(number)));
    }
    if let Some(number) = quoted_number_behind(alloc, within, words, b"originates-from")? {
        return Ok(Some(PathTest::OriginatesFrom(number)));
    }
    match quoted_number_behind(alloc, within, words, b"neighbor-is")? {
        None => Ok(None),
        Some(number) => Ok(Some(PathTest::NeighborIs(number))),
    }
}

#[tactic(auto, unfolding(crate::specs::Elements::path_test_in))]
pub(crate) fn path_test(
    alloc: Global,
    within: bool,
    words: &[Word],
) -> Result<Option<PathTest>, Memory>
    ensures { IfOk result (λ o. o ≡ path_test_in within (tokens words.now)) }
{
    if let Some(test) = length_test(alloc, within, words)? {
        return Ok(Some(test));
    }
    standing_test(alloc, within, words)
}

// `ios-regex 'X'`
fn pattern(alloc: Global, words: &[Word]) -> Result<Option<IosPattern>, Memory>
    ensures { IfOk result (λ o. o ≡ behind (codes "ios-regex" ∷ []) (only (quoted_in ios_pattern_in)) (tokens words.now)) }
{
    let Some(rest) = after(words, &[b"ios-regex"]) else {
        return Ok(None);
    };
    one_quoted::<IosPattern, IosPatternWord>(alloc, rest)
}

#[tactic(auto, unfolding(crate::specs::Elements::path_element_in))]
fn path_element(alloc: Global, within: bool, words: &[Word]) -> Result<Option<PathElement>, Memory>
    ensures { IfOk result (λ o. o ≡ path_element_in within (tokens words.now)) }
{
    if let Some(pattern) = pattern(alloc, words)? {
        return Ok(Some(PathElement::Pattern(pattern)));
    }
    let Some(test) = path_test(alloc, within, words)? else {
        return Ok(None);
    };
    Ok(Some(PathElement::Test(test)))
}

//// An element of a path set that stands by itself.
pub struct OwnPath;

impl ReadsWords<PathElement> for OwnPath {
    ghost find = { path_element_in false };

    fn read(alloc: Global, words: &[Word]) -> Result<Option<PathElement>, Memory> {
        path_element(alloc, false, words)
    }
}

/// An element of a path set that a policy writes.
pub(crate) struct InnerPath;

impl ReadsWords<PathElement> for InnerPath {
    ghost find = { path_element_in true };

    fn read(alloc: Global, words: &[Word]) -> Result<Option<PathElement>, Memory> {
        path_element(alloc, true, words)
    }
}
