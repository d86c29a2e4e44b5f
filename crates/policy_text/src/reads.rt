//! Kinds of words, and the walks over words that serve every kind.

ghost use Rattle.std.specs.Prelude.{◌≡◌, ◌-◌, ◌^◌, ℕ, List, [], Option, IfOk, map, option_map};
ghost use Rattle.route_types.specs.RouteLines.{origin_in};
ghost use Rattle.route_types.specs.Words.{number_in, address_in};
ghost use Rattle.policy_text.specs.Phrases.{texts, only, value_at, behind, optional_at, each, each_onto, some_each, name_in};

use crate::common_words::{number_of_16_bits, number_of_32_bits};
use crate::phrase::{after, copied, is_name};
use route_types::{Address, Memory, Origin, Row, read_address, read_number, read_origin};
use std::alloc::Global;
use text_words::Word;

/// A kind of word: the value that a word of it spells.
pub trait Reads<T> {
    ghost find: { List ℕ → Option T };

    /// The value that the text of a word spells, `None` where it spells none. The error is want of
    /// memory.
    fn read(alloc: Global, word: &[u8]) -> Result<Option<T>, Memory>
        ensures { IfOk result (λ o. o ≡ find word.now) };
}

/// The value that the one word there is spells. `None` where there is no word or more than one, or
/// where the word spells no value. The error is want of memory.
pub fn one_word<T: Drop, R: Reads<T>>(alloc: Global, words: &[Word]) -> Result<Option<T>, Memory>
    ensures { IfOk result (λ o. o ≡ only R.find (texts words.now)) }
{
    match words {
        [word] => R::read(alloc, word.text.as_slice()),
        _ => Ok(None),
    }
}

/// The value that the first word spells, and the words behind it. `None` where there is no word, or
/// where it spells no value. The error is want of memory.
pub fn value_at<T: Drop, R: Reads<T>>(
    alloc: Global,
    words: &[Word],
) -> Result<Option<(T, &[Word])>, Memory>
    ensures { IfOk result (λ o. option_map (λ p. (p.0, texts p.1.now)) o ≡ value_at R.find (texts words.now)) }
{
    let [word, rest @ ..] = words else {
        return Ok(None);
    };
    match R::read(alloc, word.text.as_slice())? {
        None => Ok(None),
        Some(value) => Ok(Some((value, rest))),
    }
}

#[tactic(auto, unfolding(crate::specs::Phrases::each_onto))]
fn walk<T: Drop, R: Reads<T>>(alloc: Global, words: &[Word]) -> Result<Option<Row<T>>, Memory>
    ensures { IfOk result (λ o. o ≡ each_onto R.find [] (texts words.now)) }
{
    let mut found = Row::new(alloc);
    let mut rest = words;
    while let [first, tail @ ..] = rest {
        let Some(value) = R::read(alloc, first.text.as_slice())? else {
            return Ok(None);
        };
        found.push(value)?;
        rest = tail;
    }
    Ok(Some(found))
}

#[tactic(auto, using(crate::proofs::Phrases::each_by_walk))]
fn each_word<T: Drop, R: Reads<T>>(alloc: Global, words: &[Word]) -> Result<Option<Row<T>>, Memory>
    ensures { IfOk result (λ o. o ≡ each R.find (texts words.now)) }
{
    walk::<T, R>(alloc, words)
}

/// The values that the words spell, each one. `None` where there is no word, or where a word spells
/// no value. The error is want of memory.
pub fn some_words<T: Drop, R: Reads<T>>(
    alloc: Global,
    words: &[Word],
) -> Result<Option<Row<T>>, Memory>
    ensures { IfOk result (λ o. o ≡ some_each R.find (texts words.now)) }
{
    match words {
        [] => Ok(None),
        _ => each_word::<T, R>(alloc, words),
    }
}

/// The value of the one word behind the first words, where these are `keys`; else `None`. The error is
/// want of memory.
pub fn one_behind<T: Drop, R: Reads<T>>(
    alloc: Global,
    words: &[Word],
    keys: &[&[u8]],
) -> Result<Option<T>, Memory>
    ensures { IfOk result (λ o. o ≡ behind (map (λ k. k.now) keys.now) (only R.find) (texts words.now)) }
{
    match after(words, keys) {
        None => Ok(None),
        Some(rest) => one_word::<T, R>(alloc, rest),
    }
}

/// The values of all words behind the first words, where these are `keys`; else `None`. The error is
/// want of memory.
pub fn some_behind<T: Drop, R: Reads<T>>(
    alloc: Global,
    words: &[Word],
    keys: &[&[u8]],
) -> Result<Option<Row<T>>, Memory>
    ensures { IfOk result (λ o. o ≡ behind (map (λ k. k.now) keys.now) (some_each R.find) (texts words.now)) }
{
    match after(words, keys) {
        None => Ok(None),
        Some(rest) => some_words::<T, R>(alloc, rest),
    }
}

/// The value behind the first words, where these are `keys` and a word of a value follows, and the
/// words behind it; no value and all words where the first ones are others. `None` where the keys
/// stand there with no value behind them. The error is want of memory.
pub fn optional_at<'a, T: Drop, R: Reads<T>>(
    alloc: Global,
    words: &'a [Word],
    keys: &[&[u8]],
) -> Result<Option<(Option<T>, &'a [Word])>, Memory>
    ensures { IfOk result (λ o. option_map (λ p. (p.0, texts p.1.now)) o ≡ optional_at (map (λ k. k.now) keys.now) R.find (texts words.now)) }
{
    match after(words, keys) {
        None => Ok(Some((None, words))),
        Some(rest) => match value_at::<T, R>(alloc, rest)? {
            None => Ok(None),
            Some((value, rest)) => Ok(Some((Some(value), rest))),
        },
    }
}

// ---- kinds that all languages have

/// A name: no quote, bracket, brace, parenthesis, comma or semicolon stands in it.
pub struct NameWord;

impl Reads<Row<u8>> for NameWord {
    ghost find = { name_in };

    fn read(alloc: Global, word: &[u8]) -> Result<Option<Row<u8>>, Memory> {
        if !is_name(word) {
            return Ok(None);
        }
        Ok(Some(copied(alloc, word)?))
    }
}

/// A number, 0 to 2^64 - 1.
pub struct Number64;

impl Reads<u64> for Number64 {
    ghost find = { number_in (2 ^ 64 - 1) };

    fn read(_alloc: Global, word: &[u8]) -> Result<Option<u64>, Memory> {
        Ok(read_number(word, u64::MAX))
    }
}

/// A number, 0 to 2^32 - 1.
pub struct Number32;

impl Reads<u32> for Number32 {
    ghost find = { number_in (2 ^ 32 - 1) };

    fn read(_alloc: Global, word: &[u8]) -> Result<Option<u32>, Memory> {
        Ok(number_of_32_bits(word))
    }
}

/// A number, 0 to 65535.
pub struct Number16;

impl Reads<u16> for Number16 {
    ghost find = { number_in 65535 };

    fn read(_alloc: Global, word: &[u8]) -> Result<Option<u16>, Memory> {
        Ok(number_of_16_bits(word))
    }
}

/// An IPv4 address.
pub struct AddressWord;

impl Reads<Address> for AddressWord {
    ghost find = { address_in };

    fn read(_alloc: Global, word: &[u8]) -> Result<Option<Address>, Memory> {
        Ok(read_address(word))
    }
}

/// An origin: `igp`, `egp` or `incomplete`.
pub struct OriginWord;

impl Reads<Origin> for OriginWord {
    ghost find = { origin_in };

    fn read(_alloc: Global, word: &[u8]) -> Result<Option<Origin>, Memory> {
        Ok(read_origin(word))
    }
}
