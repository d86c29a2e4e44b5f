// The bytes of an RPL text become words, a byte at a time.
ghost use Rattle.std.specs.Prelude.{◌≡◌, ℕ, ◌+◌, ◌<◌, ◌^◌, ◌||◌, ◌&&◌, ◌==◌, ◌++◌, ◌∷◌, [], List, IfOk};
ghost use Rattle.text_words.specs.Text.{is_blank, starts_with_byte};
ghost use Rattle.text_words.specs.declared.rpl_words.Standing.TheVariants.{Quoted};
ghost use Rattle.text_words.specs.RplWords.{Lexeme, EndsLine, IsWord, is_single, is_remark, has_quote, sort_at, word_to, single_at, ended, past_blank, with_byte, past_remark, past, given, lexemes};
ghost use Rattle.text_words.specs.RplReach.{reach};

use crate::line_cut::is_blank;
use crate::memory::Memory;
use crate::row::Row;
use crate::rpl_blocks::Cutting;
use crate::statement::{Span, Word};
use std::alloc::Global;

/// A word that has begun: where, and its bytes so far.
#[derive(Drop)]
pub(crate) struct Begun {
    start: u64,
    text: Row<u8>,
}

/// Where a byte of an RPL text stands: before the words of its line, in a line that is dropped, behind a
/// word of its line, in a word, or between quotes.
#[derive(Drop)]
pub(crate) enum Standing {
    Margin,
    Remark,
    Behind,
    Within(Begun),
    Quoted(Begun),
}

/// What a byte is before those behind it.
#[derive(Clone, Copy)]
pub(crate) enum ByteSort {
    LineEnd,
    Blank,
    Single,
    Quote,
    Ordinary,
}

#[tactic(auto, unfolding(crate::specs::RplWords::has_quote))]
fn has_quote(line: &[u8]) -> bool
    ensures { result ≡ has_quote line.now }
{
    let mut rest = line;
    while let [byte, behind @ ..] = rest {
        if *byte == b'\'' {
            return true;
        }
        if *byte == b'\n' {
            return false;
        }
        rest = behind;
    }
    false
}

/// No byte of a word: a blank, or a CR right before an LF.
fn is_between(byte: u8, behind: &[u8]) -> bool
    ensures { result ≡ (is_blank byte || ((byte == 13) && starts_with_byte 10 behind.now)) }
{
    if is_blank(byte) {
        return true;
    }
    if byte != b'\r' {
        return false;
    }
    match behind {
        [next, ..] => *next == b'\n',
        [] => false,
    }
}

fn is_single(byte: u8) -> bool
    ensures { result ≡ is_single byte }
{
    byte == b'(' || byte == b')' || byte == b','
}

fn is_remark(byte: u8) -> bool
    ensures { result ≡ is_remark byte }
{
    byte == b'!' || byte == b'#'
}

#[tactic(auto, unfolding(crate::specs::RplWords::sort_at))]
fn sort_at(byte: u8, behind: &[u8]) -> ByteSort
    ensures { result ≡ sort_at byte behind.now }
{
    if byte == b'\n' {
        return ByteSort::LineEnd;
    }
    if is_between(byte, behind) {
        return ByteSort::Blank;
    }
    if is_single(byte) {
        return ByteSort::Single;
    }
    if byte != b'\'' {
        return ByteSort::Ordinary;
    }
    if has_quote(behind) {
        return ByteSort::Quote;
    }
    ByteSort::Ordinary
}

fn past_blank(standing: &Standing) -> Standing
    ensures { result ≡ past_blank standing.now }
{
    match standing {
        Standing::Margin => Standing::Margin,
        _ => Standing::Behind,
    }
}

fn past_remark(byte: u8) -> Standing
    ensures { result ≡ past_remark byte }
{
    if byte == b'\n' {
        return Standing::Margin;
    }
    Standing::Remark
}

/// A word of one byte.
fn single_at(alloc: Global, place: u64, byte: u8) -> Result<Word, Memory>
    requires { place + 1 < 2 ^ 64 }
    ensures { IfOk result (λ w. w ≡ single_at place byte) }
{
    let begun = begun_with(alloc, place, byte)?;
    Ok(word_to(false, begun, place + 1))
}

fn word_to(quoted: bool, begun: Begun, end: u64) -> Word
    ensures { result ≡ word_to quoted begun end }
{
    Word {
        text: begun.text,
        quoted,
        span: Span {
            start: begun.start,
            end,
        },
    }
}

fn begun_with(alloc: Global, place: u64, byte: u8) -> Result<Begun, Memory>
    ensures { IfOk result (λ b. b ≡ record { start = place; text = byte ∷ [] }) }
{
    let mut text = Row::new(alloc);
    text.push(byte)?;
    Ok(Begun { start: place, text })
}

/// The word with one more byte.
fn longer(begun: Begun, byte: u8) -> Result<Begun, Memory>
    ensures { IfOk result (λ b. b ≡ record { start = begun.start; text = begun.text ++ byte ∷ [] }) }
{
    let mut longer = begun;
    longer.text.push(byte)?;
    Ok(longer)
}

fn with_byte(alloc: Global, standing: Standing, place: u64, byte: u8) -> Result<Standing, Memory>
    ensures { IfOk result (λ s. s ≡ with_byte standing place byte) }
{
    match standing {
        Standing::Within(begun) => Ok(Standing::Within(longer(begun, byte)?)),
        _ => Ok(Standing::Within(begun_with(alloc, place, byte)?)),
    }
}

/// Takes a word, whatever follows.
#[tactic(auto, using(crate::proofs::RplReach::reach_word))]
fn take(alloc: Global, cut: &mut Cutting, word: Word) -> Result<(), Memory>
    ensures { IfOk result (λ _. (ls : List Lexeme) → reach cut.new ls ≡ reach cut.old (IsWord word ∷ ls)) }
{
    cut.take(alloc, word)
}

/// Takes the end of a line, whatever follows.
#[tactic(auto, using(crate::proofs::RplReach::reach_line))]
fn end_line(alloc: Global, cut: &mut Cutting) -> Result<(), Memory>
    ensures { IfOk result (λ _. (ls : List Lexeme) → reach cut.new ls ≡ reach cut.old (EndsLine ∷ ls)) }
{
    cut.end_line(alloc)
}

/// Ends the word that has begun, if one has.
fn end_word(alloc: Global, cut: &mut Cutting, standing: Standing, place: u64) -> Result<(), Memory>
    ensures { IfOk result (λ _. (ls : List Lexeme) → reach cut.new ls ≡ reach cut.old (ended standing place ls)) }
{
    match standing {
        Standing::Within(begun) => take(alloc, cut, word_to(false, begun, place)),
        _ => Ok(()),
    }
}

/// Reads a byte of a quoted word.
#[tactic(auto, unfolding(crate::specs::RplWords::lexemes))]
fn read_quoted(
    alloc: Global,
    cut: &mut Cutting,
    begun: Begun,
    place: u64,
    byte: u8,
) -> Result<Standing, Memory>
    requires { place + 1 < 2 ^ 64 }
    ensures { IfOk result (λ s. (rest : List ℕ) → reach cut.new (lexemes s (place + 1) rest) ≡ reach cut.old (lexemes (Quoted begun) place (byte ∷ rest))) }
{
    if byte == b'\'' {
        take(alloc, cut, word_to(true, begun, place + 1))?;
        return Ok(Standing::Behind);
    }
    Ok(Standing::Quoted(longer(begun, byte)?))
}

/// Reads a byte of this sort, outside quotes and dropped lines.
fn read_plain(
    alloc: Global,
    cut: &mut Cutting,
    standing: Standing,
    place: u64,
    byte: u8,
    sort: ByteSort,
) -> Result<Standing, Memory>
    requires { place + 1 < 2 ^ 64 }
    ensures next { IfOk result (λ s. s ≡ past standing place byte sort) }
    ensures reached { IfOk result (λ _. (ls : List Lexeme) → reach cut.new ls ≡ reach cut.old (given standing place byte sort ls)) }
{
    match sort {
        ByteSort::LineEnd => {
            end_word(alloc, cut, standing, place)?;
            end_line(alloc, cut)?;
            Ok(Standing::Margin)
        }
        ByteSort::Blank => {
            let next = past_blank(&standing);
            end_word(alloc, cut, standing, place)?;
            Ok(next)
        }
        ByteSort::Single => {
            end_word(alloc, cut, standing, place)?;
            let word = single_at(alloc, place, byte)?;
            take(alloc, cut, word)?;
            Ok(Standing::Behind)
        }
        ByteSort::Quote => {
            end_word(alloc, cut, standing, place)?;
            Ok(Standing::Quoted(Begun {
                start: place,
                text: Row::new(alloc),
            }))
        }
        ByteSort::Ordinary => with_byte(alloc, standing, place, byte),
    }
}

/// Reads a byte that stands so, before the bytes behind it.
#[tactic(auto, unfolding(crate::specs::RplWords::lexemes))]
pub(crate) fn read_byte(
    alloc: Global,
    cut: &mut Cutting,
    standing: Standing,
    place: u64,
    byte: u8,
    behind: &[u8],
) -> Result<Standing, Memory>
    requires { place + 1 < 2 ^ 64 }
    ensures { IfOk result (λ s. reach cut.new (lexemes s (place + 1) behind.now) ≡ reach cut.old (lexemes standing place (byte ∷ behind.now))) }
{
    match standing {
        Standing::Remark => Ok(past_remark(byte)),
        Standing::Quoted(begun) => read_quoted(alloc, cut, begun, place, byte),
        Standing::Margin => {
            if is_remark(byte) {
                return Ok(Standing::Remark);
            }
            read_plain(
                alloc,
                cut,
                Standing::Margin,
                place,
                byte,
                sort_at(byte, behind),
            )
        }
        Standing::Behind => {
            read_plain(
                alloc,
                cut,
                Standing::Behind,
                place,
                byte,
                sort_at(byte, behind),
            )
        }
        Standing::Within(begun) => {
            read_plain(
                alloc,
                cut,
                Standing::Within(begun),
                place,
                byte,
                sort_at(byte, behind),
            )
        }
    }
}

/// Ends the text at this place.
#[tactic(auto, unfolding(crate::specs::RplWords::lexemes))]
pub(crate) fn end_text(
    alloc: Global,
    cut: &mut Cutting,
    standing: Standing,
    place: u64,
) -> Result<(), Memory>
    ensures { IfOk result (λ _. reach cut.new [] ≡ reach cut.old (lexemes standing place [])) }
{
    end_word(alloc, cut, standing, place)?;
    end_line(alloc, cut)?;
    Ok(())
}
