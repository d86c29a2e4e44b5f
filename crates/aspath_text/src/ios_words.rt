ghost use Rattle.std.specs.Prelude.{◌≡◌, ◌∷◌, ◌^◌, ◌≤◌, ◌<◌, ◌==◌, Some, None, IfSome, option_map, length};
ghost use Rattle.aspath_text.specs.IosWalk.{part_length, parts_behind, NextPart};
ghost use Rattle.aspath_text.specs.IosRead.{depth_behind, parts_by, cut_at, run_in, run_at, runs_after, class_in, set_at, sets_in, digits_in, word_in};
ghost use Rattle.aspath_text.specs.Printing.{Reads};

use crate::fault::PatternFault;
use path_patterns::{DigitSet, DigitWord};
use policy_text::parts_at;
use route_types::Row;
use std::alloc::Global;

// ---- cuts outside parentheses

fn depth_behind(depth: usize, byte: u8) -> usize
    requires { depth < 2 ^ 63 }
    ensures { result ≡ depth_behind depth byte }
{
    match byte {
        b'(' => depth + 1,
        b')' => depth.saturating_sub(1),
        _ => depth,
    }
}

// The length of what stands before the first such byte outside parentheses; all of the text where
// there is none.
#[tactic(auto, unfolding(crate::specs::IosWalk::part_length))]
pub(crate) fn part_length(text: &[u8], byte: u8, depth: usize) -> usize
    requires { depth ≤ 1 }
    ensures value { result ≡ part_length byte depth text.now }
    ensures within { result ≤ length text.now }
{
    let mut count = 0;
    let mut unclosed = depth;
    let mut rest = text;
    while let [first, tail @ ..] = rest {
        if *first == byte && unclosed == 0 {
            return count;
        }
        unclosed = depth_behind(unclosed, *first);
        count += 1;
        rest = tail;
    }
    count
}

// What stands before the first such byte outside parentheses, and the text from that byte on.
pub(crate) fn first_part(text: &[u8], byte: u8) -> (&[u8], &[u8])
    ensures { parts_by byte 0 text.now ≡ result.0.now ∷ parts_behind byte result.1.now }
{
    let length = part_length(text, byte, 0);
    (&text[..length], &text[length..])
}

// The first part behind the byte that starts the text, and the text from the next such byte on.
pub(crate) fn next_part(text: &[u8], byte: u8) -> Option<(&[u8], &[u8])>
    ensures { NextPart byte text.now (option_map (λ p. (p.0.now, p.1.now)) result) }
{
    let [_, behind @ ..] = text else {
        return None;
    };
    let length = part_length(behind, byte, depth_behind(0, byte));
    Some((&behind[..length], &behind[length..]))
}

// What stands before the first such byte outside parentheses, and what stands behind it.
pub(crate) fn cut(text: &[u8], byte: u8) -> Option<(&[u8], &[u8])>
    ensures { option_map (λ p. (p.0.now, p.1.now)) result ≡ cut_at byte 0 text.now }
{
    let place = part_length(text, byte, 0);
    if place == text.len() {
        return None;
    }
    Some((&text[..place], &text[place + 1..]))
}

// ---- digits and classes

// The bits of the digits from one to another, by their bytes.
fn run_of(least: u8, most: u8) -> Option<u16>
    ensures value { result ≡ run_in least most }
    ensures within { IfSome result (λ r. r < 1024) }
{
    if !least.is_ascii_digit() || !most.is_ascii_digit() || most < least {
        return None;
    }
    Some((1u16 << (most - b'0' + 1)) - (1u16 << (least - b'0')))
}

// The bits of the first run, and what stands behind it.
fn run_at(text: &[u8]) -> Option<(u16, &[u8])>
    ensures { option_map (λ p. (p.0, p.1.now)) result ≡ run_at text.now }
{
    match text {
        [] => None,
        [least, b'-', most, behind @ ..] => {
            let bits = run_of(*least, *most)?;
            Some((bits, behind))
        }
        [digit, behind @ ..] => {
            let bits = run_of(*digit, *digit)?;
            Some((bits, behind))
        }
    }
}

#[tactic(auto, unfolding(crate::specs::IosRead::runs_after))]
fn runs(text: &[u8]) -> Option<u16>
    ensures { result ≡ runs_after 0 text.now }
{
    let mut found = 0;
    let mut rest = text;
    while let [_, ..] = rest {
        let (bits, behind) = run_at(rest)?;
        found |= bits;
        rest = behind;
    }
    Some(found)
}

fn class(text: &[u8]) -> Option<DigitSet>
    ensures { result ≡ class_in text.now }
{
    if text.is_empty() {
        return None;
    }
    let bits = runs(text)?;
    Some(DigitSet(bits))
}

// The first digit or class, and what stands behind it.
#[tactic(auto, unfolding(crate::specs::IosRead::set_at))]
fn set_at(text: &[u8]) -> Option<(DigitSet, &[u8])>
    ensures { option_map (λ p. (p.0, p.1.now)) result ≡ set_at text.now }
{
    let [first, behind @ ..] = text else {
        return None;
    };
    if *first == b'[' {
        let (inside, behind) = parts_at(behind, b']')?;
        let set = class(inside)?;
        return Some((set, behind));
    }
    if first.is_ascii_digit() {
        return Some((DigitSet(1u16 << (*first - b'0')), behind));
    }
    None
}

fn sets(alloc: Global, text: &[u8]) -> Result<Row<DigitSet>, PatternFault>
    ensures { Reads (sets_in 10 text.now) result }
{
    let mut found = Row::new(alloc);
    let mut rest = text;
    for _ in 0..10usize {
        if rest.is_empty() {
            return Ok(found);
        }
        match set_at(rest) {
            Some((set, behind)) => {
                found.push(set)?;
                rest = behind;
            }
            None => return Err(PatternFault::NotShaped),
        }
    }
    if rest.is_empty() {
        Ok(found)
    } else {
        Err(PatternFault::NotShaped)
    }
}

// ---- words and sets

fn digits(alloc: Global, text: &[u8]) -> Result<DigitWord, PatternFault>
    ensures { Reads (digits_in text.now) result }
{
    if text.is_empty() {
        return Err(PatternFault::NotShaped);
    }
    let sets = sets(alloc, text)?;
    Ok(DigitWord::Digits(sets))
}

#[tactic(auto, unfolding(crate::specs::IosRead::word_in))]
pub(crate) fn word(alloc: Global, text: &[u8]) -> Result<DigitWord, PatternFault>
    ensures { Reads (word_in text.now) result }
{
    if text == b"[0-9]+".as_slice() {
        return Ok(DigitWord::Any);
    }
    digits(alloc, text)
}
