ghost use Rattle.std.specs.Prelude.{◌≡◌, ◌≤◌, IfOk, Err, List, length};
ghost use Rattle.policy_text.specs.Phrases.{each, each_onto};
ghost use Rattle.aspath_text.specs.IosGrammar.{SpellsPattern};
ghost use Rattle.aspath_text.specs.IosRead.{parts_by, grouped, lone, word_in, set_in, repeat_in, repeated, tail_in, tailed_in, piece_in, left_in, right_in, mark_fits, pieces_fit, pieces_end, pieces_start, between, pieces_in, branch_in, ios_pattern_in};
ghost use Rattle.aspath_text.specs.IosWalk.{parts_behind, set_length};
ghost use Rattle.aspath_text.specs.Printing.{Reads};
ghost use Rattle.aspath_text.specs.declared.fault.PatternFault.TheVariants.{NotShaped};
ghost use Rattle.path_patterns.specs.declared.pattern.IosBranch.{IosBranch};

use crate::fault::PatternFault;
use crate::ios_words::{cut, first_part, next_part, part_length, word};
use path_patterns::{
    DigitWord, IosBranch, IosPattern, Mark, PathPieces, Piece, PieceSet, Repeat, Tail,
};
use route_types::Row;
use std::alloc::Global;

// ---- sets and tails

#[tactic(auto, unfolding(policy_text::specs::Phrases::each_onto))]
fn later_words(
    alloc: Global,
    before: Row<DigitWord>,
    text: &[u8],
) -> Result<Row<DigitWord>, PatternFault>
    ensures { Reads (each_onto word_in before (parts_behind 124 text.now)) result }
{
    let mut found = before;
    let mut rest = text;
    while let Some((part, behind)) = next_part(rest, b'|') {
        match word(alloc, part) {
            Ok(word) => found.push(word)?,
            Err(fault) => return Err(fault),
        }
        rest = behind;
    }
    Ok(found)
}

fn words(alloc: Global, text: &[u8]) -> Result<Row<DigitWord>, PatternFault>
    ensures { Reads (each word_in (parts_by 124 0 text.now)) result }
{
    let (part, behind) = first_part(text, b'|');
    let mut found = Row::new(alloc);
    match word(alloc, part) {
        Ok(word) => found.push(word)?,
        Err(fault) => return Err(fault),
    }
    later_words(alloc, found, behind)
}

fn group(alloc: Global, inside: &[u8], behind: &[u8]) -> Result<Row<DigitWord>, PatternFault>
    ensures { Reads (grouped inside.now behind.now) result }
{
    if !behind.is_empty() {
        return Err(PatternFault::NotShaped);
    }
    words(alloc, inside)
}

fn one_word(alloc: Global, text: &[u8]) -> Result<Row<DigitWord>, PatternFault>
    ensures { Reads (lone text.now) result }
{
    let mut found = Row::new(alloc);
    found.push(word(alloc, text)?)?;
    Ok(found)
}

#[tactic(auto, unfolding(crate::specs::IosRead::set_in))]
fn set(alloc: Global, text: &[u8]) -> Result<Row<DigitWord>, PatternFault>
    ensures { Reads (set_in text.now) result }
{
    let [first, tail @ ..] = text else {
        return Err(PatternFault::NotShaped);
    };
    if *first != b'(' {
        return one_word(alloc, text);
    }
    match cut(tail, b')') {
        Some((inside, behind)) => group(alloc, inside, behind),
        None => Err(PatternFault::NotShaped),
    }
}

fn repeat(text: &[u8]) -> Option<Repeat>
    ensures { result ≡ repeat_in text.now }
{
    match text {
        [b'*'] => Some(Repeat::Star),
        [b'+'] => Some(Repeat::Plus),
        [b'?'] => Some(Repeat::Maybe),
        _ => None,
    }
}

fn repeated(alloc: Global, words: &[u8], sign: &[u8]) -> Result<Tail, PatternFault>
    ensures { Reads (repeated words.now sign.now) result }
{
    let words = set(alloc, words)?;
    match repeat(sign) {
        Some(repeat) => Ok(Tail { words, repeat }),
        None => Err(PatternFault::NotShaped),
    }
}

// The tail whose parenthesis stands before the text.
#[tactic(auto, unfolding(crate::specs::IosRead::tail_in))]
fn tail(alloc: Global, text: &[u8]) -> Result<Tail, PatternFault>
    ensures { Reads (tail_in text.now) result }
{
    let [b'_', behind @ ..] = text else {
        return Err(PatternFault::NotShaped);
    };
    match cut(behind, b')') {
        Some((words, sign)) => repeated(alloc, words, sign),
        None => Err(PatternFault::NotShaped),
    }
}

#[tactic(auto, unfolding(policy_text::specs::Phrases::each_onto))]
fn later_tails(alloc: Global, before: Row<Tail>, text: &[u8]) -> Result<Row<Tail>, PatternFault>
    ensures { Reads (each_onto tail_in before (parts_behind 40 text.now)) result }
{
    let mut found = before;
    let mut rest = text;
    while let Some((part, behind)) = next_part(rest, b'(') {
        match tail(alloc, part) {
            Ok(tail) => found.push(tail)?,
            Err(fault) => return Err(fault),
        }
        rest = behind;
    }
    Ok(found)
}

#[tactic(auto, using(policy_text::proofs::Phrases::each_by_walk))]
fn tails(alloc: Global, text: &[u8]) -> Result<Row<Tail>, PatternFault>
    ensures { Reads (each tail_in (parts_behind 40 text.now)) result }
{
    later_tails(alloc, Row::new(alloc), text)
}

// ---- pieces and branches

// The length of a set in front of its tails.
fn set_length(text: &[u8]) -> usize
    ensures value { result ≡ set_length text.now }
    ensures within { result ≤ length text.now }
{
    match text {
        [] => 0,
        [b'(', behind @ ..] => 1 + part_length(behind, b'(', 1),
        [_, behind @ ..] => 1 + part_length(behind, b'(', 0),
    }
}

fn tailed(alloc: Global, text: &[u8]) -> Result<Piece, PatternFault>
    ensures { Reads (tailed_in text.now) result }
{
    let length = set_length(text);
    let words = match set(alloc, &text[..length]) {
        Ok(words) => words,
        Err(fault) => return Err(fault),
    };
    match tails(alloc, &text[length..]) {
        Ok(tails) => Ok(Piece::Set(PieceSet { words, tails })),
        Err(fault) => Err(fault),
    }
}

#[tactic(auto, unfolding(crate::specs::IosRead::piece_in))]
fn piece(alloc: Global, text: &[u8]) -> Result<Piece, PatternFault>
    ensures { Reads (piece_in text.now) result }
{
    if text == b".*".as_slice() {
        return Ok(Piece::Anything);
    }
    tailed(alloc, text)
}

#[tactic(auto, unfolding(policy_text::specs::Phrases::each_onto))]
fn later_pieces(alloc: Global, before: Row<Piece>, text: &[u8]) -> Result<Row<Piece>, PatternFault>
    ensures { Reads (each_onto piece_in before (parts_behind 95 text.now)) result }
{
    let mut found = before;
    let mut rest = text;
    while let Some((part, behind)) = next_part(rest, b'_') {
        match piece(alloc, part) {
            Ok(piece) => found.push(piece)?,
            Err(fault) => return Err(fault),
        }
        rest = behind;
    }
    Ok(found)
}

fn pieces(alloc: Global, text: &[u8]) -> Result<Row<Piece>, PatternFault>
    ensures { Reads (each piece_in (parts_by 95 0 text.now)) result }
{
    let (part, behind) = first_part(text, b'_');
    let mut found = Row::new(alloc);
    match piece(alloc, part) {
        Ok(piece) => found.push(piece)?,
        Err(fault) => return Err(fault),
    }
    later_pieces(alloc, found, behind)
}

fn left(text: &[u8]) -> (Mark, &[u8])
    ensures { (result.0, result.1.now) ≡ left_in text.now }
{
    match text {
        [b'^', behind @ ..] => (Mark::Anchor, behind),
        [b'_', behind @ ..] => (Mark::Under, behind),
        _ => (Mark::Nothing, text),
    }
}

fn right(text: &[u8]) -> (Mark, &[u8])
    ensures { (result.0, result.1.now) ≡ right_in text.now }
{
    match text {
        [front @ .., b'$'] => (Mark::Anchor, front),
        [front @ .., b'_'] => (Mark::Under, front),
        _ => (Mark::Nothing, text),
    }
}

fn mark_fits(mark: Mark, piece: &Piece) -> bool
    ensures { result ≡ mark_fits mark piece.now }
{
    match (mark, piece) {
        (Mark::Anchor, _) => true,
        (Mark::Under, Piece::Set(_)) => true,
        (Mark::Nothing, Piece::Anything) => true,
        _ => false,
    }
}

fn fit(first: &Piece, second: &Piece) -> bool
    ensures { result ≡ pieces_fit first.now second.now }
{
    !matches!((first, second), (Piece::Anything, Piece::Anything))
}

fn starts(left: Mark, pieces: &[Piece]) -> bool
    ensures { result ≡ pieces_start left pieces.now }
{
    match pieces {
        [] => false,
        [first, ..] => mark_fits(left, first),
    }
}

#[tactic(auto, unfolding(crate::specs::IosRead::pieces_end))]
fn ends(pieces: &[Piece], right: Mark) -> bool
    ensures { result ≡ pieces_end pieces.now right }
{
    let mut rest = pieces;
    while let [first, behind @ ..] = rest {
        let [second, ..] = behind else {
            return mark_fits(right, first);
        };
        if !fit(first, second) {
            return false;
        }
        rest = behind;
    }
    false
}

#[tactic(auto, unfolding(crate::specs::IosRead::between))]
fn between(alloc: Global, left: Mark, text: &[u8], right: Mark) -> Result<IosBranch, PatternFault>
    ensures { Reads (between left text.now right) result }
{
    let pieces = pieces(alloc, text)?;
    if !starts(left, pieces.as_slice()) || !ends(pieces.as_slice(), right) {
        return Err(PatternFault::NotShaped);
    }
    Ok(IosBranch::Pieces(PathPieces {
        left,
        pieces,
        right,
    }))
}

fn marked(alloc: Global, text: &[u8]) -> Result<IosBranch, PatternFault>
    ensures { Reads (pieces_in text.now) result }
{
    let (left, behind) = left(text);
    let (right, inner) = right(behind);
    between(alloc, left, inner, right)
}

#[tactic(auto, unfolding(crate::specs::IosRead::branch_in))]
fn branch(alloc: Global, text: &[u8]) -> Result<IosBranch, PatternFault>
    ensures { Reads (branch_in text.now) result }
{
    if text == b"^$".as_slice() {
        return Ok(IosBranch::EmptyPath);
    }
    marked(alloc, text)
}

#[tactic(auto, unfolding(policy_text::specs::Phrases::each_onto))]
fn later_branches(
    alloc: Global,
    before: Row<IosBranch>,
    text: &[u8],
) -> Result<Row<IosBranch>, PatternFault>
    ensures { Reads (each_onto branch_in before (parts_behind 124 text.now)) result }
{
    let mut found = before;
    let mut rest = text;
    while let Some((part, behind)) = next_part(rest, b'|') {
        match branch(alloc, part) {
            Ok(branch) => found.push(branch)?,
            Err(fault) => return Err(fault),
        }
        rest = behind;
    }
    Ok(found)
}

#[tactic(auto, unfolding(crate::specs::IosRead::ios_pattern_in))]
fn branches(alloc: Global, text: &[u8]) -> Result<Row<IosBranch>, PatternFault>
    ensures { Reads (ios_pattern_in text.now) result }
{
    let (part, behind) = first_part(text, b'|');
    let mut found = Row::new(alloc);
    match branch(alloc, part) {
        Ok(branch) => found.push(branch)?,
        Err(fault) => return Err(fault),
    }
    later_branches(alloc, found, behind)
}

/// The IOS AS-path pattern that a text spells. `NotShaped` comes exactly where it spells none; the other
/// error is want of memory.
pub fn read_ios_pattern(alloc: Global, text: &[u8]) -> Result<IosPattern, PatternFault>
    ensures exact { Reads (ios_pattern_in text.now) result }
    ensures found { IfOk result (λ p. SpellsPattern text.now p) }
    ensures refused { result ≡ Err NotShaped → (bs : List IosBranch) → SpellsPattern text.now bs → ⊥ }
{
    match branches(alloc, text) {
        Ok(branches) => Ok(IosPattern::new(branches)),
        Err(fault) => Err(fault),
    }
}
