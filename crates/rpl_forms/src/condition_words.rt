//! The words of a condition become its terms.

ghost use Rattle.std.specs.Prelude.{◌≡◌, ◌<◌, ◌≤◌, ◌∷◌, ◌++◌, ◌+◌, ◌-◌, ◌^◌, suc, List, Some, false, IfOk, IfSome, length, option_map, drop, take};
ghost use Rattle.rpl_words.specs.Tokens.{Token, token, tokens, before};
ghost use Rattle.rpl_words.specs.Conditions.{words_behind};
ghost use Rattle.rpl_forms.specs.Terms.{sign_in, is_sign, marked_at, nots_of, read_words, read_left, condition_in, spans_behind};
ghost use Rattle.rpl_forms.specs.Statements.{tests_in};

use crate::marks::Mark;
use crate::reading::Reading;
use policy_text::{Span, Word};
use route_types::{Memory, Row};
use rpl_words::{Term, is_key, place_of, test_in, words_behind};
use std::alloc::Global;
use text_words::end_of_words;

// The mark that a word is by itself.
#[tactic(auto, unfolding(crate::specs::Terms::sign_in))]
fn sign_in(word: &Word) -> Option<Mark>
    ensures { result ≡ sign_in (token word.now) }
{
    if word.quoted {
        return None;
    }
    let text = word.text.as_slice();
    if text == b"(".as_slice() {
        return Some(Mark::Opens);
    }
    if text == b")".as_slice() {
        return Some(Mark::Closes);
    }
    if text == b"not".as_slice() {
        return Some(Mark::Negates);
    }
    if text == b"and".as_slice() {
        return Some(Mark::Joins);
    }
    if text == b"or".as_slice() {
        return Some(Mark::Divides);
    }
    None
}

// The first words, so many and one, or all of them.
#[tactic(auto, using(crate::proofs::MarkSteps::part_taken, crate::proofs::MarkSteps::part_whole))]
fn first_words(words: &[Word], count: usize) -> &[Word]
    ensures { tokens result.now ≡ take (suc count) (tokens words.now) }
{
    if count < words.len() {
        return &words[..count + 1];
    }
    words
}

// The words behind so many, or none.
#[tactic(auto, using(crate::proofs::MarkSteps::rest_taken, crate::proofs::MarkSteps::rest_whole, crate::proofs::MarkSteps::rest_whole_told, std::proofs::lemmas::List::take_all))]
fn words_from(words: &[Word], count: usize) -> &[Word]
    ensures value { result.now ≡ drop count words.now }
    ensures told { tokens result.now ≡ drop count (tokens words.now) }
    ensures shorter { length result.now ≤ length words.now }
{
    if count < words.len() {
        return &words[count..];
    }
    &[]
}

// The mark that begins here, and the words behind it.
#[tactic(auto, unfolding(crate::specs::Terms::marked_at, crate::specs::Terms::mark_at))]
fn mark_at<'a>(alloc: Global, words: &'a [Word]) -> Result<Option<(Mark, &'a [Word])>, Memory>
    ensures value { IfOk result (λ o. option_map (λ p. (p.0, tokens p.1.now)) o ≡ marked_at (tokens words.now)) }
    ensures shorter { IfOk result (λ o. IfSome o (λ p. length p.1.now < length words.now)) }
{
    let [first, rest @ ..] = words else {
        return Ok(None);
    };
    if let Some(mark) = sign_in(first) {
        return Ok(Some((mark, rest)));
    }
    let count = words_behind(words);
    match test_in(alloc, first_words(words, count))? {
        None => Ok(None),
        Some(test) => Ok(Some((Mark::Asks(test), words_from(rest, count)))),
    }
}

// Takes a mark, which stands before these words: `None` where it may not stand there.
fn take_at<'a>(
    reading: &mut Reading,
    mark: Mark,
    behind: &'a [Word],
) -> Result<Option<&'a [Word]>, Memory>
    requires small { nots_of reading.old.standing < 2 ^ 64 - 1 }
    ensures kept { IfOk result (λ o. (ts : List Token) → Some (mark, tokens behind.now) ≡ marked_at ts → read_left reading.new.terms reading.new.standing reading.new.around (option_map (λ r. tokens r.now) o) ≡ read_words reading.old.terms reading.old.standing reading.old.around ts) }
    ensures behind { IfOk result (λ o. IfSome o (λ r. length r.now ≡ length behind.now)) }
    ensures nots { IfOk result (λ o. nots_of reading.new.standing ≤ nots_of reading.old.standing + 1) }
{
    let may_stand = reading.take(mark)?;
    if !may_stand {
        return Ok(None);
    }
    Ok(Some(behind))
}

// Takes the mark that begins here, and gives the words behind it: `None` where none does that may.
fn step<'a>(
    alloc: Global,
    reading: &mut Reading,
    words: &'a [Word],
) -> Result<Option<&'a [Word]>, Memory>
    requires small { nots_of reading.old.standing < 2 ^ 64 - 1 }
    requires some { 1 ≤ length words.now }
    ensures kept { IfOk result (λ o. read_left reading.new.terms reading.new.standing reading.new.around (option_map (λ r. tokens r.now) o) ≡ read_words reading.old.terms reading.old.standing reading.old.around (tokens words.now)) }
    ensures shorter { IfOk result (λ o. IfSome o (λ r. length r.now < length words.now)) }
    ensures nots { IfOk result (λ o. nots_of reading.new.standing ≤ nots_of reading.old.standing + 1) }
{
    match mark_at(alloc, words)? {
        None => Ok(None),
        Some((mark, behind)) => take_at(reading, mark, behind),
    }
}

// The terms of a condition.
#[tactic(auto, unfolding(crate::specs::Terms::condition_in, crate::specs::Terms::marks_behind))]
pub(crate) fn condition_in(alloc: Global, words: &[Word]) -> Result<Option<Row<Term>>, Memory>
    ensures { IfOk result (λ o. o ≡ condition_in (tokens words.now)) }
{
    let mut reading = Reading::new(alloc);
    let mut rest = words;
    while let [_, ..] = rest {
        match step(alloc, &mut reading, rest)? {
            None => return Ok(None),
            Some(behind) => rest = behind,
        }
    }
    let terms = reading.finished()?;
    Ok(terms)
}

// ---- where the tests stand

// The first words, so many or all of them.
fn words_to(words: &[Word], count: usize) -> &[Word]
    ensures { result.now ≡ take count words.now }
{
    if count < words.len() {
        return &words[..count];
    }
    words
}

fn is_sign(word: &Word) -> bool
    ensures { result ≡ is_sign (token word.now) }
{
    sign_in(word).is_some()
}

// Puts the span of a test of a word and so many behind it, and gives the words behind the test.
fn push_span<'a>(
    found: &mut Row<Span>,
    first: &Word,
    tail: &'a [Word],
    count: usize,
) -> Result<&'a [Word], Memory>
    requires test { count ≡ words_behind (tokens (first.now ∷ tail.now)) }
    requires not_sign { is_sign (token first.now) ≡ false }
    ensures kept { IfOk result (λ r. found.new ++ spans_behind 0 r.now ≡ found.old ++ spans_behind 0 (first.now ∷ tail.now)) }
    ensures shorter { IfOk result (λ r. length r.now ≤ length tail.now) }
{
    let end = end_of_words(first.span.end, words_to(tail, count));
    let start = first.span.start;
    found.push(Span { start, end })?;
    Ok(words_from(tail, count))
}

// Puts the span of a test that begins here behind the others, and gives the words behind it; a word that
// is a mark by itself is passed over.
#[tactic(auto, unfolding(crate::specs::Terms::spans_behind))]
fn span_step<'a>(found: &mut Row<Span>, words: &'a [Word]) -> Result<&'a [Word], Memory>
    ensures kept { IfOk result (λ r. found.new ++ spans_behind 0 r.now ≡ found.old ++ spans_behind 0 words.now) }
    ensures shorter { IfOk result (λ r. 1 ≤ length words.now → length r.now < length words.now) }
{
    let [first, tail @ ..] = words else {
        return Ok(words);
    };
    if is_sign(first) {
        return Ok(tail);
    }
    push_span(found, first, tail, words_behind(words))
}

// Where the tests stand among the words of a condition.
#[tactic(auto, unfolding(crate::specs::Terms::spans_behind))]
fn spans(alloc: Global, words: &[Word]) -> Result<Row<Span>, Memory>
    ensures { IfOk result (λ s. s ≡ spans_behind 0 words.now) }
{
    let mut found = Row::new(alloc);
    let mut rest = words;
    while let [_, ..] = rest {
        rest = span_step(&mut found, rest)?;
    }
    Ok(found)
}

fn words_before<'a>(words: &'a [Word], key: &[u8]) -> &'a [Word]
    ensures { result.now ≡ before key.now words.now }
{
    match place_of(words, key) {
        None => words,
        Some(place) => words_to(words, place),
    }
}

/// Where the tests of a condition stand, in their order, each from its first word to the end of its last:
/// the words are those of a statement, and none stands there where its first word is neither `if` nor
/// `elseif`. The error is want of memory.
#[tactic(auto, unfolding(crate::specs::Statements::tests_in))]
pub fn tests_in(alloc: Global, words: &[Word]) -> Result<Row<Span>, Memory>
    ensures { IfOk result (λ s. s ≡ tests_in words.now) }
{
    let [first, rest @ ..] = words else {
        return Ok(Row::new(alloc));
    };
    if !is_key(b"if", first) && !is_key(b"elseif", first) {
        return Ok(Row::new(alloc));
    }
    spans(alloc, words_before(rest, b"then"))
}
