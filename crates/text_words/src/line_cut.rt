ghost use Rattle.std.specs.Prelude.{◌≡◌, ◌+◌, ◌<◌, ◌≤◌, ◌^◌, ◌++◌, ◌∷◌, [], false, length, IfOk};
ghost use Rattle.text_words.specs.Text.{is_blank, starts_with_byte};
ghost use Rattle.text_words.specs.Pieces.{word_at};
ghost use Rattle.text_words.specs.LineCut.{sort_at, words_of, line_from, behind_blank, behind_letter, end_of, span_of, line_statement, last_line, lines_from, line_cut};

use crate::memory::Memory;
use crate::row::Row;
use crate::statement::{Ender, Span, Statement, Word};
use std::alloc::Global;

// What a byte is in front of those behind it: LF, a CR right before one, a space or a tab, or a
// byte of a word.
pub(crate) enum ByteSort {
    LineEnd,
    Dropped,
    Blank,
    Letter,
}

// A line as far as it has been read: where it starts, its words, and the word that has begun, with
// the place of its first byte.
#[derive(Drop)]
pub(crate) struct LineBegun {
    start: u64,
    words: Row<Word>,
    word_start: u64,
    word: Row<u8>,
}

/// Cuts a text into its lines, each a statement: its words are the runs of bytes that are no blanks
/// (space or tab). A CR right before an LF is no byte of the line, and the last LF begins no line. A
/// line without words has an empty span at its start. Depth is 0 where the line starts with a word,
/// else 1. Spans count bytes from 0. The error is want of memory.
#[tactic(auto, unfolding(crate::specs::LineCut::line_cut, crate::specs::LineCut::lines_from))]
pub fn line_statements(alloc: Global, text: &[u8]) -> Result<Row<Statement>, Memory>
    ensures { IfOk result (λ s. s ≡ line_cut text.now) }
{
    let mut lines = Row::new(alloc);
    let mut line = line_from(alloc, 0);
    let mut place: u64 = 0;
    let mut rest = text;
    while let [byte, tail @ ..] = rest {
        line = step(alloc, &mut lines, line, place, *byte, tail)?;
        place += 1;
        rest = tail;
    }
    push_last(&mut lines, line, place)?;
    Ok(lines)
}

#[tactic(auto, using(crate::proofs::LineCut::at_end, crate::proofs::LineCut::at_blank, crate::proofs::LineCut::at_dropped, crate::proofs::LineCut::at_letter))]
fn step(
    alloc: Global,
    lines: &mut Row<Statement>,
    line: LineBegun,
    place: u64,
    byte: u8,
    rest: &[u8],
) -> Result<LineBegun, Memory>
    requires room { place + 1 < 2 ^ 64 }
    requires within { line.word_start + length line.word ≤ place }
    ensures cut { IfOk result (λ l. lines.new ++ lines_from l (place + 1) rest.now ≡ lines.old ++ lines_from line place (byte ∷ rest.now)) }
    ensures within { IfOk result (λ l. l.word_start + length l.word ≤ place + 1) }
{
    match sort_at(byte, rest) {
        ByteSort::LineEnd => {
            push_line(lines, line)?;
            Ok(line_from(alloc, place + 1))
        }
        ByteSort::Blank => {
            let behind = behind_blank(alloc, line, place + 1)?;
            Ok(behind)
        }
        ByteSort::Dropped => Ok(line),
        ByteSort::Letter => {
            let behind = behind_letter(line, byte)?;
            Ok(behind)
        }
    }
}

fn sort_at(byte: u8, behind: &[u8]) -> ByteSort
    ensures { result ≡ sort_at byte behind.now }
{
    if byte == b'\n' {
        return ByteSort::LineEnd;
    }
    if is_blank(byte) {
        return ByteSort::Blank;
    }
    if byte == b'\r' && starts_with_byte(b'\n', behind) {
        return ByteSort::Dropped;
    }
    ByteSort::Letter
}

pub(crate) fn is_blank(byte: u8) -> bool
    ensures { result ≡ is_blank byte }
{
    byte == b' ' || byte == b'\t'
}

pub(crate) fn starts_with_byte(byte: u8, text: &[u8]) -> bool
    ensures { result ≡ starts_with_byte byte text.now }
{
    match text {
        [first, ..] => *first == byte,
        [] => false,
    }
}

fn line_from(alloc: Global, start: u64) -> LineBegun
    ensures { result ≡ line_from start }
{
    LineBegun {
        start,
        words: Row::new(alloc),
        word_start: start,
        word: Row::new(alloc),
    }
}

fn behind_letter(line: LineBegun, byte: u8) -> Result<LineBegun, Memory>
    ensures { IfOk result (λ l. l ≡ behind_letter line byte) }
{
    let LineBegun {
        start,
        words,
        word_start,
        mut word,
    } = line;
    word.push(byte)?;
    Ok(LineBegun {
        start,
        words,
        word_start,
        word,
    })
}

fn behind_blank(alloc: Global, line: LineBegun, place: u64) -> Result<LineBegun, Memory>
    requires { line.word_start + length line.word < 2 ^ 64 }
    ensures { IfOk result (λ l. l ≡ behind_blank line place) }
{
    let start = line.start;
    let words = words_of(line)?;
    Ok(LineBegun {
        start,
        words,
        word_start: place,
        word: Row::new(alloc),
    })
}

fn words_of(line: LineBegun) -> Result<Row<Word>, Memory>
    requires { line.word_start + length line.word < 2 ^ 64 }
    ensures { IfOk result (λ ws. ws ≡ words_of line) }
{
    let LineBegun {
        start: _,
        mut words,
        word_start,
        word,
    } = line;
    if word.is_empty() {
        return Ok(words);
    }
    words.push(word_from(word_start, word))?;
    Ok(words)
}

fn word_from(start: u64, text: Row<u8>) -> Word
    requires { start + length text < 2 ^ 64 }
    ensures { result ≡ word_at start text false }
{
    let end = start + text.len() as u64;
    Word {
        text,
        quoted: false,
        span: Span { start, end },
    }
}

fn push_line(lines: &mut Row<Statement>, line: LineBegun) -> Result<(), Memory>
    requires { line.word_start + length line.word < 2 ^ 64 }
    ensures { IfOk result (λ _. lines.new ≡ lines.old ++ line_statement line.start (words_of line) ∷ []) }
{
    let start = line.start;
    let words = words_of(line)?;
    lines.push(line_statement(start, words))?;
    Ok(())
}

fn line_statement(start: u64, words: Row<Word>) -> Statement
    ensures { result ≡ line_statement start words }
{
    let span = span_of(start, words.as_slice());
    let depth = if start == span.start { 0 } else { 1 };
    Statement {
        words,
        ender: Ender::Line,
        depth,
        span,
    }
}

fn span_of(start: u64, words: &[Word]) -> Span
    ensures { result ≡ span_of start words.now }
{
    match words {
        [] => Span { start, end: start },
        [first, others @ ..] => Span {
            start: first.span.start,
            end: end_of_words(first.span.end, others),
        },
    }
}

/// The place behind the last of the words, or `end` where there is none. It takes no memory.
pub fn end_of_words(end: u64, words: &[Word]) -> u64
    ensures { result ≡ end_of end words.now }
{
    let mut last = end;
    let mut rest = words;
    while let [first, tail @ ..] = rest {
        last = first.span.end;
        rest = tail;
    }
    last
}

fn push_last(lines: &mut Row<Statement>, line: LineBegun, place: u64) -> Result<(), Memory>
    requires { line.word_start + length line.word < 2 ^ 64 }
    ensures { IfOk result (λ _. lines.new ≡ lines.old ++ last_line line place) }
{
    if place == line.start {
        return Ok(());
    }
    push_line(lines, line)?;
    Ok(())
}
