//! Words of which some stand in quotes, and the walks over them that serve every form.

ghost use Rattle.std.specs.Prelude.{◌≡◌, ◌<◌, ◌∷◌, ℕ, List, [], Option, IfOk, IfSome, codes, length, map, option_map};
ghost use Rattle.rpl_words.specs.Tokens.{Token, token, tokens, is_key, after, place_of, parted, ended_by, plain_in, quoted_in, only, between, each_of, commas, listed_in, arguments_in, called_in, behind};

use policy_text::{Reads, Word};
use route_types::{Memory, Row};
use std::alloc::Global;
use std::marker::PhantomData;

// ---- keywords

/// Whether a word is this keyword: a quoted word is none.
pub fn is_key(key: &[u8], word: &Word) -> bool
    ensures { result ≡ is_key key.now (token word.now) }
{
    !word.quoted && key == word.text.as_slice()
}

/// The words behind the first ones, where these are the keywords, one by one.
#[tactic(auto, unfolding(crate::specs::Tokens::after))]
pub fn after<'a>(words: &'a [Word], keys: &[&[u8]]) -> Option<&'a [Word]>
    ensures { option_map (λ r. tokens r.now) result ≡ after (map (λ k. k.now) keys.now) (tokens words.now) }
{
    let [key, more @ ..] = keys else {
        return Some(words);
    };
    let [word, tail @ ..] = words else {
        return None;
    };
    if is_key(key, word) {
        return after(tail, more);
    }
    None
}

/// The place where a keyword first stands.
#[tactic(auto, unfolding(crate::specs::Tokens::place_of))]
pub fn place_of(words: &[Word], key: &[u8]) -> Option<usize>
    ensures value { result ≡ place_of key.now (tokens words.now) }
    ensures within { IfSome result (λ n. n < length words.now) }
{
    let mut rest = words;
    let mut place: usize = 0;
    while let [first, tail @ ..] = rest {
        if is_key(key, first) {
            return Some(place);
        }
        place += 1;
        rest = tail;
    }
    None
}

// The words before a keyword where it first stands, and the words behind it.
#[tactic(auto, using(crate::proofs::Phrases::parted_none))]
pub(crate) fn parted<'a>(words: &'a [Word], key: &[u8]) -> Option<(&'a [Word], &'a [Word])>
    ensures value { option_map (λ p. (tokens p.0.now, tokens p.1.now)) result ≡ parted key.now (tokens words.now) }
    ensures shorter { IfSome result (λ p. length p.1.now < length words.now) }
{
    let place = place_of(words, key)?;
    Some((&words[..place], &words[place + 1..]))
}

/// The words before a keyword, where nothing stands behind it.
pub fn ended_by<'a>(words: &'a [Word], key: &[u8]) -> Option<&'a [Word]>
    ensures { option_map (λ r. tokens r.now) result ≡ ended_by key.now (tokens words.now) }
{
    let (front, behind) = parted(words, key)?;
    if !behind.is_empty() {
        return None;
    }
    Some(front)
}

// ---- the values of words

// The value of a word without quotes.
pub(crate) fn plain<T: Drop, R: Reads<T>>(alloc: Global, word: &Word) -> Result<Option<T>, Memory>
    ensures { IfOk result (λ o. o ≡ plain_in R.find (token word.now)) }
{
    if word.quoted {
        return Ok(None);
    }
    R::read(alloc, word.text.as_slice())
}

/// The value of the one word there is, which has no quotes.
pub fn one_plain<T: Drop, R: Reads<T>>(alloc: Global, words: &[Word]) -> Result<Option<T>, Memory>
    ensures { IfOk result (λ o. o ≡ only (plain_in R.find) (tokens words.now)) }
{
    match words {
        [word] => plain::<T, R>(alloc, word),
        _ => Ok(None),
    }
}

// The value of the one word there is, which is quoted.
pub(crate) fn one_quoted<T: Drop, R: Reads<T>>(
    alloc: Global,
    words: &[Word],
) -> Result<Option<T>, Memory>
    ensures { IfOk result (λ o. o ≡ only (quoted_in R.find) (tokens words.now)) }
{
    match words {
        [word] => {
            if !word.quoted {
                return Ok(None);
            }
            R::read(alloc, word.text.as_slice())
        }
        _ => Ok(None),
    }
}

// ---- lists in parentheses

//// What some words spell.
pub trait ReadsWords<T> {
    ghost find: { List Token → Option T };

    /// The value that the words spell, `None` where they spell none. The error is want of memory.
    fn read(alloc: Global, words: &[Word]) -> Result<Option<T>, Memory>
        ensures { IfOk result (λ o. o ≡ find (tokens words.now)) };
}

/// What one word spells.
pub(crate) struct OneWord<R> {
    of: PhantomData<R>,
}

impl<T: Drop, R: Reads<T>> ReadsWords<T> for OneWord<R> {
    ghost find = { only (plain_in R.find) };

    fn read(alloc: Global, words: &[Word]) -> Result<Option<T>, Memory> {
        one_plain::<T, R>(alloc, words)
    }
}

// The values of the word lists between commas.
pub(crate) fn commas<T: Drop, R: ReadsWords<T>>(
    alloc: Global,
    words: &[Word],
) -> Result<Option<Row<T>>, Memory>
    ensures { IfOk result (λ o. o ≡ commas R.find (tokens words.now)) }
{
    let mut found = Row::new(alloc);
    let mut rest = words;
    while let Some((front, tail)) = parted(rest, b",") {
        let Some(value) = R::read(alloc, front)? else {
            return Ok(None);
        };
        found.push(value)?;
        rest = tail;
    }
    let Some(value) = R::read(alloc, rest)? else {
        return Ok(None);
    };
    found.push(value)?;
    Ok(Some(found))
}

// The words between parentheses.
fn within_parentheses<'a>(words: &'a [Word]) -> Option<&'a [Word]>
    ensures { option_map (λ r. tokens r.now) result ≡ behind (codes "(" ∷ []) (ended_by (codes ")")) (tokens words.now) }
{
    ended_by(after(words, &[b"("])?, b")")
}

// The values in parentheses.
#[tactic(auto, unfolding(crate::specs::Tokens::listed_in))]
pub(crate) fn listed<T: Drop, R: ReadsWords<T>>(
    alloc: Global,
    words: &[Word],
) -> Result<Option<Row<T>>, Memory>
    ensures { IfOk result (λ o. o ≡ listed_in R.find (tokens words.now)) }
{
    let Some(inner) = within_parentheses(words) else {
        return Ok(None);
    };
    commas::<T, R>(alloc, inner)
}

// The values in parentheses, if there are words.
fn arguments<T: Drop, R: Reads<T>>(alloc: Global, words: &[Word]) -> Result<Option<Row<T>>, Memory>
    ensures { IfOk result (λ o. o ≡ arguments_in (plain_in R.find) (tokens words.now)) }
{
    match words {
        [] => Ok(Some(Row::new(alloc))),
        _ => listed::<T, OneWord<R>>(alloc, words),
    }
}

/// A name, and the values in parentheses behind it, if there are any.
#[tactic(auto, unfolding(crate::specs::Tokens::called_in))]
pub fn called<T: Drop, N: Reads<Row<u8>>, R: Reads<T>>(
    alloc: Global,
    words: &[Word],
) -> Result<Option<(Row<u8>, Row<T>)>, Memory>
    ensures { IfOk result (λ o. o ≡ called_in N.find (plain_in R.find) (tokens words.now)) }
{
    let [first, rest @ ..] = words else {
        return Ok(None);
    };
    let Some(name) = plain::<Row<u8>, N>(alloc, first)? else {
        return Ok(None);
    };
    let Some(values) = arguments::<T, R>(alloc, rest)? else {
        return Ok(None);
    };
    Ok(Some((name, values)))
}
