//! The kinds of words that Junos has: flows, verbs, types, members, lengths, next hops, paths and
//! patterns.

ghost use Rattle.std.specs.Prelude.{◌≡◌, ◌≤◌, ◌<◌, ◌-◌, ◌^◌, ℕ, true, false, List, [], ◌∷◌, Some, None, IfOk, IfSome, MatchOption, length};
ghost use Rattle.route_types.specs.RouteLines.{next_hop_in};
ghost use Rattle.route_types.specs.Words.{number_in, parts_at};
ghost use Rattle.policy_text.specs.Phrases.{one_of, each_onto, some_each};
ghost use Rattle.junos_tree.specs.Words.{ends, nexts, verbs, filter_types, types, member_in, list_member_in, length_in, up_to_in, lengths_in, between_spaces, prepended_in, pattern_in};

use crate::item::{CommunityVerb, Flow};
use aspath_text::{PatternFault, TokenPattern, read_junos_pattern};
use policy_text::{
    NumberOrAll, Reads, copied, halves_in, known_rect, number_of_8_bits, number_of_32_bits,
    parts_at, read_address, read_prefix,
};
use route_types::{Memory, NextHop, Prefix, Rect, Row, read_next_hop};
use std::alloc::Global;

// ---- words of a table

/// `accept` or `reject`.
pub(crate) struct EndWord;

fn end_in(word: &[u8]) -> Option<Flow>
    ensures { result ≡ one_of ends word.now }
{
    if word == b"accept".as_slice() {
        return Some(Flow::Accept);
    }
    if word == b"reject".as_slice() {
        return Some(Flow::Reject);
    }
    None
}

impl Reads<Flow> for EndWord {
    ghost find = { one_of ends };

    fn read(_alloc: Global, word: &[u8]) -> Result<Option<Flow>, Memory> {
        Ok(end_in(word))
    }
}

/// `term` or `policy`, behind `next`.
pub(crate) struct NextWord;

fn next_in(word: &[u8]) -> Option<Flow>
    ensures { result ≡ one_of nexts word.now }
{
    if word == b"term".as_slice() {
        return Some(Flow::NextTerm);
    }
    if word == b"policy".as_slice() {
        return Some(Flow::NextPolicy);
    }
    None
}

impl Reads<Flow> for NextWord {
    ghost find = { one_of nexts };

    fn read(_alloc: Global, word: &[u8]) -> Result<Option<Flow>, Memory> {
        Ok(next_in(word))
    }
}

/// `set`, `add`, `delete`, or their signs.
pub(crate) struct VerbWord;

fn verb_in(word: &[u8]) -> Option<CommunityVerb>
    ensures { result ≡ one_of verbs word.now }
{
    if word == b"set".as_slice() || word == b"=".as_slice() {
        return Some(CommunityVerb::Set);
    }
    if word == b"add".as_slice() || word == b"+".as_slice() {
        return Some(CommunityVerb::Add);
    }
    if word == b"delete".as_slice() || word == b"-".as_slice() {
        return Some(CommunityVerb::Delete);
    }
    None
}

impl Reads<CommunityVerb> for VerbWord {
    ghost find = { one_of verbs };

    fn read(_alloc: Global, word: &[u8]) -> Result<Option<CommunityVerb>, Memory> {
        Ok(verb_in(word))
    }
}

/// `exact` or `orlonger` behind a prefix list: whether prefixes within a member hold too.
pub(crate) struct FilterWord;

fn filter_in(word: &[u8]) -> Option<bool>
    ensures { result ≡ one_of filter_types word.now }
{
    if word == b"exact".as_slice() {
        return Some(false);
    }
    if word == b"orlonger".as_slice() {
        return Some(true);
    }
    None
}

impl Reads<bool> for FilterWord {
    ghost find = { one_of filter_types };

    fn read(_alloc: Global, word: &[u8]) -> Result<Option<bool>, Memory> {
        Ok(filter_in(word))
    }
}

/// The lengths that a type of one word gives behind a prefix of this length.
pub(crate) fn type_in(length: u8, word: &[u8]) -> Option<(u8, u8)>
    requires { length ≤ 32 }
    ensures { result ≡ one_of (types length) word.now }
{
    if word == b"exact".as_slice() {
        return Some((length, length));
    }
    if word == b"longer".as_slice() {
        return Some((length + 1, 32));
    }
    if word == b"orlonger".as_slice() {
        return Some((length, 32));
    }
    None
}

// ---- members

#[tactic(auto, unfolding(crate::specs::Words::member_in))]
fn member_in(word: &[u8]) -> Option<Rect>
    ensures { result ≡ member_in word.now }
{
    if let Some(rect) = halves_in::<NumberOrAll>(word) {
        return Some(rect);
    }
    known_rect(word, b"no-export-subconfed")
}

/// A member of a community: two halves, each a number or `*`, or a word of its own.
pub(crate) struct MemberWord;

impl Reads<Rect> for MemberWord {
    ghost find = { member_in };

    fn read(_alloc: Global, word: &[u8]) -> Result<Option<Rect>, Memory> {
        Ok(member_in(word))
    }
}

#[tactic(auto, unfolding(crate::specs::Words::list_member_in))]
fn list_member_in(word: &[u8]) -> Option<Prefix>
    ensures { result ≡ list_member_in word.now }
{
    if let Some(prefix) = read_prefix(word) {
        return Some(prefix);
    }
    let address = read_address(word)?;
    Some(Prefix::new(address, 32))
}

/// A member of a prefix list: a prefix, or an address as the prefix of full length.
pub(crate) struct ListMemberWord;

impl Reads<Prefix> for ListMemberWord {
    ghost find = { list_member_in };

    fn read(_alloc: Global, word: &[u8]) -> Result<Option<Prefix>, Memory> {
        Ok(list_member_in(word))
    }
}

// ---- lengths

fn length_in(word: &[u8]) -> Option<u8>
    ensures { result ≡ length_in word.now }
{
    match word {
        [] => None,
        [first, rest @ ..] => {
            if *first == b'/' {
                return number_of_8_bits(rest, 32);
            }
            None
        }
    }
}

/// `/n` behind a prefix of this length: the lengths from its own to n.
#[tactic(auto, unfolding(crate::specs::Words::up_to_in))]
pub(crate) fn up_to_in(length: u8, word: &[u8]) -> Option<(u8, u8)>
    ensures { result ≡ up_to_in length word.now }
{
    let most = length_in(word)?;
    if length <= most {
        return Some((length, most));
    }
    None
}

/// `/a-/b` behind a prefix of this length: the lengths from a to b.
#[tactic(auto, unfolding(crate::specs::Words::lengths_in))]
pub(crate) fn lengths_in(length: u8, word: &[u8]) -> Option<(u8, u8)>
    ensures { result ≡ lengths_in length word.now }
{
    let (front, back) = parts_at(word, b'-')?;
    let least = length_in(front)?;
    let most = length_in(back)?;
    if length <= least && least <= most {
        return Some((least, most));
    }
    None
}

// ---- next hops, paths and patterns

/// `self`, or an address.
pub(crate) struct NextHopWord;

impl Reads<NextHop> for NextHopWord {
    ghost find = { next_hop_in };

    fn read(_alloc: Global, word: &[u8]) -> Result<Option<NextHop>, Memory> {
        Ok(read_next_hop(word))
    }
}

// What stands before the first space, and what stands behind it. `None` where there is no space.
#[tactic(auto, using(crate::proofs::Spaces::without_space))]
fn next_space(text: &[u8]) -> Option<(&[u8], &[u8])>
    ensures parted { MatchOption result (between_spaces text.now ≡ text.now ∷ []) (λ p. between_spaces text.now ≡ p.0.now ∷ between_spaces p.1.now) }
    ensures shorter { IfSome result (λ p. length p.1.now < length text.now) }
{
    let (front, behind) = parts_at(text, b' ')?;
    Some((front, behind))
}

// Puts the number that a word spells behind the others; false where it spells none.
#[tactic(auto, unfolding(policy_text::specs::Phrases::each_onto))]
fn push_number(numbers: &mut Row<u32>, word: &[u8]) -> Result<bool, Memory>
    ensures { IfOk result (λ b. (more : List (List ℕ)) → each_onto (number_in (2 ^ 32 - 1)) numbers.old (word.now ∷ more) ≡ elim b [ true ↦ each_onto (number_in (2 ^ 32 - 1)) numbers.new more | false ↦ None ]) }
{
    let Some(number) = number_of_32_bits(word) else {
        return Ok(false);
    };
    numbers.push(number)?;
    Ok(true)
}

// The numbers with the one that a last word spells.
#[tactic(auto, unfolding(policy_text::specs::Phrases::each_onto))]
fn with_last(mut numbers: Row<u32>, word: &[u8]) -> Result<Option<Row<u32>>, Memory>
    ensures { IfOk result (λ o. o ≡ each_onto (number_in (2 ^ 32 - 1)) numbers (word.now ∷ [])) }
{
    let Some(number) = number_of_32_bits(word) else {
        return Ok(None);
    };
    numbers.push(number)?;
    Ok(Some(numbers))
}

/// One or more numbers joined by one space each, as they will stand before a path.
pub(crate) struct PrependedWord;

fn prepended_in(alloc: Global, word: &[u8]) -> Result<Option<Row<u32>>, Memory>
    ensures { IfOk result (λ o. o ≡ each_onto (number_in (2 ^ 32 - 1)) [] (between_spaces word.now)) }
{
    let mut numbers = Row::new(alloc);
    let mut rest = word;
    while let Some((front, behind)) = next_space(rest) {
        if !push_number(&mut numbers, front)? {
            return Ok(None);
        }
        rest = behind;
    }
    let numbers = with_last(numbers, rest)?;
    Ok(numbers)
}

impl Reads<Row<u32>> for PrependedWord {
    ghost find = { prepended_in };

    #[tactic(auto, using(crate::proofs::Spaces::prepended_by_walk))]
    fn read(alloc: Global, word: &[u8]) -> Result<Option<Row<u32>>, Memory> {
        prepended_in(alloc, word)
    }
}

/// A pattern of an AS path, with its text.
pub(crate) struct PatternWord;

impl Reads<(TokenPattern, Row<u8>)> for PatternWord {
    ghost find = { pattern_in };

    #[tactic(auto, unfolding(crate::specs::Words::pattern_in))]
    fn read(alloc: Global, word: &[u8]) -> Result<Option<(TokenPattern, Row<u8>)>, Memory> {
        match read_junos_pattern(alloc, word) {
            Ok(pattern) => Ok(Some((pattern, copied(alloc, word)?))),
            Err(PatternFault::NotShaped) => Ok(None),
            Err(PatternFault::Memory) => Err(Memory),
        }
    }
}
