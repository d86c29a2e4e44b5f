// Words, and lists of words.
ghost use Rattle.std.specs.Prelude.{◌≡◌, ◌++◌, ◌∷◌, [], IfOk, decimal, map, true, false};
ghost use Rattle.route_types.specs.Print.{address_text, prefix_text};
ghost use Rattle.route_types.specs.RouteText.{origin_text};
ghost use Rattle.text_words.specs.Pieces.{text_behind};
ghost use Rattle.junos_text.specs.Words.{half_text, member_text, values_words, numbers_text, length_text, filter_text, verb_text, next_hop_text};

use junos_tree::CommunityVerb;
use route_types::{Address, NextHop, Origin, Prefix, Rect, push_address, push_number, push_prefix};
use std::alloc::Global;
use text_words::{Memory, Row};

pub(crate) fn push(out: &mut Vec<u8>, text: &[u8]) -> Result<(), Memory>
    ensures { IfOk result (λ _. out.new.items ≡ out.old.items ++ text.now) }
{
    out.extend_from_slice(text)?;
    Ok(())
}

/// A number's decimal text.
pub(crate) fn digits(alloc: Global, number: u64) -> Result<Row<u8>, Memory>
    ensures { IfOk result (λ r. r ≡ decimal number) }
{
    let mut out = Vec::new(alloc);
    push_number(&mut out, number)?;
    Ok(Row::from_vec(out))
}

/// A length behind a slash.
pub(crate) fn length_word(alloc: Global, length: u8) -> Result<Row<u8>, Memory>
    ensures { IfOk result (λ r. r ≡ length_text length) }
{
    let mut out = Vec::new(alloc);
    push(&mut out, b"/")?;
    push_number(&mut out, u64::from(length))?;
    Ok(Row::from_vec(out))
}

/// Two lengths joined by a minus.
pub(crate) fn lengths_word(alloc: Global, least: u8, most: u8) -> Result<Row<u8>, Memory>
    ensures { IfOk result (λ r. r ≡ length_text least ++ (45 ∷ length_text most)) }
{
    let mut out = Vec::new(alloc);
    push(&mut out, b"/")?;
    push_number(&mut out, u64::from(least))?;
    push(&mut out, b"-/")?;
    push_number(&mut out, u64::from(most))?;
    Ok(Row::from_vec(out))
}

pub(crate) fn origin_word(origin: Origin) -> &'static [u8]
    ensures { result.now ≡ origin_text origin }
{
    match origin {
        Origin::Igp => b"igp",
        Origin::Egp => b"egp",
        Origin::Incomplete => b"incomplete",
    }
}

pub(crate) fn filter_word(or_longer: bool) -> &'static [u8]
    ensures { result.now ≡ filter_text or_longer }
{
    if or_longer { b"orlonger" } else { b"exact" }
}

pub(crate) fn verb_word(verb: CommunityVerb) -> &'static [u8]
    ensures { result.now ≡ verb_text verb }
{
    match verb {
        CommunityVerb::Set => b"set",
        CommunityVerb::Add => b"add",
        CommunityVerb::Delete => b"delete",
    }
}

pub(crate) fn next_hop_word(alloc: Global, hop: &NextHop) -> Result<Row<u8>, Memory>
    ensures { IfOk result (λ r. r ≡ next_hop_text hop.now) }
{
    let mut out = Vec::new(alloc);
    match hop {
        NextHop::At(address) => push_address(&mut out, address)?,
        NextHop::Own => push(&mut out, b"self")?,
    }
    Ok(Row::from_vec(out))
}

/// The text of a prefix.
pub(crate) fn prefix_word(alloc: Global, prefix: &Prefix) -> Result<Row<u8>, Memory>
    ensures { IfOk result (λ r. r ≡ prefix_text prefix.now) }
{
    let mut out = Vec::new(alloc);
    push_prefix(&mut out, prefix)?;
    Ok(Row::from_vec(out))
}

fn address_word(alloc: Global, address: &Address) -> Result<Row<u8>, Memory>
    ensures { IfOk result (λ r. r ≡ address_text address.now) }
{
    let mut out = Vec::new(alloc);
    push_address(&mut out, address)?;
    Ok(Row::from_vec(out))
}

/// The texts of addresses.
pub(crate) fn address_words(alloc: Global, addresses: &[Address]) -> Result<Row<Row<u8>>, Memory>
    ensures { IfOk result (λ r. r ≡ map address_text addresses.now) }
{
    let mut found = Row::new(alloc);
    let mut rest = addresses;
    while let [first, tail @ ..] = rest {
        found.push(address_word(alloc, first)?)?;
        rest = tail;
    }
    Ok(found)
}

fn push_half(out: &mut Vec<u8>, least: u16, most: u16) -> Result<(), Memory>
    ensures { IfOk result (λ _. out.new.items ≡ out.old.items ++ half_text least most) }
{
    if least == most {
        return push_number(out, u64::from(least));
    }
    push(out, b"*")
}

fn member_word(alloc: Global, rect: &Rect) -> Result<Row<u8>, Memory>
    ensures { IfOk result (λ r. r ≡ member_text rect.now) }
{
    let mut out = Vec::new(alloc);
    push_half(&mut out, rect.high_least(), rect.high_most())?;
    push(&mut out, b":")?;
    push_half(&mut out, rect.low_least(), rect.low_most())?;
    Ok(Row::from_vec(out))
}

/// The texts of members.
pub(crate) fn member_words(alloc: Global, members: &[Rect]) -> Result<Row<Row<u8>>, Memory>
    ensures { IfOk result (λ r. r ≡ map member_text members.now) }
{
    let mut found = Row::new(alloc);
    let mut rest = members;
    while let [first, tail @ ..] = rest {
        found.push(member_word(alloc, first)?)?;
        rest = tail;
    }
    Ok(found)
}

// Words, each behind one space.
fn push_behind(out: &mut Vec<u8>, words: &[Row<u8>]) -> Result<(), Memory>
    ensures { IfOk result (λ _. out.new.items ≡ out.old.items ++ text_behind words.now) }
{
    let mut rest = words;
    while let [first, tail @ ..] = rest {
        push(out, b" ")?;
        push(out, first.as_slice())?;
        rest = tail;
    }
    Ok(())
}

// Words in brackets, each behind one space.
fn push_bracketed(out: &mut Vec<u8>, words: &[Row<u8>]) -> Result<(), Memory>
    ensures { IfOk result (λ _. out.new.items ≡ out.old.items ++ (32 ∷ 91 ∷ (text_behind words.now ++ (32 ∷ 93 ∷ [])))) }
{
    push(out, b" [")?;
    push_behind(out, words)?;
    push(out, b" ]")
}

/// A word alone, or several in brackets, each behind one space.
#[tactic(auto, using(crate::proofs::Written::alone_behind, crate::proofs::Written::brackets_behind))]
pub(crate) fn push_values(out: &mut Vec<u8>, words: &[Row<u8>]) -> Result<(), Memory>
    ensures { IfOk result (λ _. out.new.items ≡ out.old.items ++ text_behind (values_words words.now)) }
{
    if words.len() == 1 {
        return push_behind(out, words);
    }
    push_bracketed(out, words)
}

// Numbers with one space between each two.
#[tactic(auto, unfolding(aspath_text::specs::IosGrammar::joined_by))]
fn push_numbers(out: &mut Vec<u8>, numbers: &[u32]) -> Result<(), Memory>
    ensures { IfOk result (λ _. out.new.items ≡ out.old.items ++ numbers_text numbers.now) }
{
    let mut rest = numbers;
    while let [first, tail @ ..] = rest {
        push_number(out, u64::from(*first))?;
        push_space(out, !tail.is_empty())?;
        rest = tail;
    }
    Ok(())
}

/// The text of numbers that are put before a path.
pub(crate) fn numbers_word(alloc: Global, numbers: &[u32]) -> Result<Row<u8>, Memory>
    ensures { IfOk result (λ r. r ≡ numbers_text numbers.now) }
{
    let mut out = Vec::new(alloc);
    push_numbers(&mut out, numbers)?;
    Ok(Row::from_vec(out))
}

fn push_space(out: &mut Vec<u8>, wanted: bool) -> Result<(), Memory>
    ensures { IfOk result (λ _. out.new.items ≡ out.old.items ++ elim wanted [ true ↦ 32 ∷ [] | false ↦ [] ]) }
{
    if wanted {
        return push(out, b" ");
    }
    Ok(())
}
