//! The kinds of words that IOS has: names of lists, actions, origins, communities and shapes.

ghost use Rattle.std.specs.Prelude.{◌≡◌, ◌≤◌, ◌-◌, ◌^◌, IfOk, IfSome};
ghost use Rattle.std.specs.List.{list_all};
ghost use Rattle.policy_text.specs.Phrases.{texts};
ghost use Rattle.route_types.specs.Words.{is_digit};
ghost use Rattle.ios_tree.specs.Forms.{option_in};
ghost use Rattle.ios_tree.specs.Names.{without_zeros, list_name, list_in, numbered_list_in, permit_in, origin_in, whole_community, community_word_in, half_in, shape_in};

use policy_text::{
    Reads, Word, copied, is, is_name, known_community, number_of_16_bits, number_of_32_bits,
    parts_at, read_community, read_number,
};
use route_types::{Community, Memory, Origin, Rect, Row};
use std::alloc::Global;

// ---- names of lists

fn is_all_digits(word: &[u8]) -> bool
    ensures { result ≡ list_all is_digit word.now }
{
    word.iter().all(|c| c.is_ascii_digit())
}

fn without_zeros(word: &[u8]) -> &[u8]
    ensures { result.now ≡ without_zeros word.now }
{
    let mut rest = word;
    while rest.len() > 1 && rest[0] == b'0' {
        rest = &rest[1..];
    }
    rest
}

// The name that a word gives a list: a word of digits alone is read by its number.
pub(crate) fn list_name(word: &[u8]) -> &[u8]
    ensures { result.now ≡ list_name word.now }
{
    if is_all_digits(word) {
        without_zeros(word)
    } else {
        word
    }
}

/// The name of a list.
pub(crate) struct ListWord;

impl Reads<Row<u8>> for ListWord {
    ghost find = { list_in };

    #[tactic(auto, unfolding(crate::specs::Names::list_in))]
    fn read(alloc: Global, word: &[u8]) -> Result<Option<Row<u8>>, Memory> {
        if !is_name(word) {
            return Ok(None);
        }
        Ok(Some(copied(alloc, list_name(word))?))
    }
}

// A number from `least` to `most` names a list by its text.
#[tactic(auto, unfolding(crate::specs::Names::numbered_list_in))]
fn numbered_list(
    alloc: Global,
    word: &[u8],
    least: u64,
    most: u64,
) -> Result<Option<Row<u8>>, Memory>
    ensures { IfOk result (λ o. o ≡ numbered_list_in least most word.now) }
{
    let Some(number) = read_number(word, most) else {
        return Ok(None);
    };
    if number < least {
        return Ok(None);
    }
    Ok(Some(copied(alloc, word)?))
}

/// The number of a standard community list, 1 to 99.
pub(crate) struct StandardNumber;

impl Reads<Row<u8>> for StandardNumber {
    ghost find = { numbered_list_in 1 99 };

    fn read(alloc: Global, word: &[u8]) -> Result<Option<Row<u8>>, Memory> {
        numbered_list(alloc, word, 1, 99)
    }
}

/// The number of an expanded community list, 100 to 500.
pub(crate) struct ExpandedNumber;

impl Reads<Row<u8>> for ExpandedNumber {
    ghost find = { numbered_list_in 100 500 };

    fn read(alloc: Global, word: &[u8]) -> Result<Option<Row<u8>>, Memory> {
        numbered_list(alloc, word, 100, 500)
    }
}

/// The number of a path list, 1 to 2^64 - 1.
pub(crate) struct PathNumber;

impl Reads<Row<u8>> for PathNumber {
    ghost find = { numbered_list_in 1 (2 ^ 64 - 1) };

    fn read(alloc: Global, word: &[u8]) -> Result<Option<Row<u8>>, Memory> {
        numbered_list(alloc, word, 1, u64::MAX)
    }
}

// ---- words of a table

/// `permit` or `deny`: whether an entry permits.
pub(crate) struct ActionWord;

#[tactic(auto, unfolding(crate::specs::Names::permit_in))]
pub(crate) fn permit_in(word: &[u8]) -> Option<bool>
    ensures { result ≡ permit_in word.now }
{
    if word == b"permit".as_slice() {
        return Some(true);
    }
    if word == b"deny".as_slice() {
        return Some(false);
    }
    None
}

impl Reads<bool> for ActionWord {
    ghost find = { permit_in };

    fn read(_alloc: Global, word: &[u8]) -> Result<Option<bool>, Memory> {
        Ok(permit_in(word))
    }
}

/// An origin that can be set: `igp` or `incomplete`.
pub(crate) struct SetOriginWord;

impl Reads<Origin> for SetOriginWord {
    ghost find = { origin_in };

    #[tactic(auto, unfolding(crate::specs::Names::origin_in))]
    fn read(_alloc: Global, word: &[u8]) -> Result<Option<Origin>, Memory> {
        if word == b"igp".as_slice() {
            return Ok(Some(Origin::Igp));
        }
        if word == b"incomplete".as_slice() {
            return Ok(Some(Origin::Incomplete));
        }
        Ok(None)
    }
}

// ---- communities

fn whole_community(word: &[u8]) -> Option<Community>
    ensures { result ≡ whole_community word.now }
{
    Some(Community(number_of_32_bits(word)?))
}

#[tactic(auto, unfolding(crate::specs::Names::community_word_in))]
fn community_in(word: &[u8]) -> Option<Community>
    ensures { result ≡ community_word_in word.now }
{
    if let Some(community) = read_community(word) {
        return Some(community);
    }
    if let Some(community) = known_community(word, b"local-AS") {
        return Some(community);
    }
    whole_community(word)
}

/// A community: `a:b`, a word of its own, or one number.
pub(crate) struct CommunityWord;

impl Reads<Community> for CommunityWord {
    ghost find = { community_word_in };

    fn read(_alloc: Global, word: &[u8]) -> Result<Option<Community>, Memory> {
        Ok(community_in(word))
    }
}

// ---- shapes

// The numbers that half of an expanded entry asks for: one, or all of them.
fn half_in(word: &[u8]) -> Option<(u16, u16)>
    ensures value { result ≡ half_in word.now }
    ensures within { IfSome result (λ h. h.0 ≤ h.1) }
{
    if let Some(number) = number_of_16_bits(word) {
        return Some((number, number));
    }
    if word == b"[0-9]+".as_slice() {
        return Some((0, 65535));
    }
    None
}

#[tactic(auto, unfolding(crate::specs::Names::shape_in))]
fn shape_in(word: &[u8]) -> Option<Rect>
    ensures { result ≡ shape_in word.now }
{
    let (front, rest) = parts_at(word, b'_')?;
    let (middle, back) = parts_at(rest, b'_')?;
    let (high, low) = parts_at(middle, b':')?;
    let (high_least, high_most) = half_in(high)?;
    let (low_least, low_most) = half_in(low)?;
    if !front.is_empty() || !back.is_empty() {
        return None;
    }
    Some(Rect::new(high_least, high_most, low_least, low_most))
}

/// The pattern of an expanded community list: `_`, two halves joined by `:`, `_`.
pub(crate) struct ShapeWord;

impl Reads<Rect> for ShapeWord {
    ghost find = { shape_in };

    fn read(_alloc: Global, word: &[u8]) -> Result<Option<Rect>, Memory> {
        Ok(shape_in(word))
    }
}

// ---- an option at the end

// The words before an option that stands behind a word at the end, and whether it stands there.
pub(crate) fn option_in<'a>(words: &'a [Word], key: &[u8]) -> (&'a [Word], bool)
    ensures { (texts result.0.now, result.1) ≡ option_in key.now (texts words.now) }
{
    let [_, .., last] = words else {
        return (words, false);
    };
    if is(last, key) {
        return (&words[..words.len() - 1], true);
    }
    (words, false)
}
