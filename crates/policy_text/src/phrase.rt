ghost use Rattle.std.specs.Prelude.{◌≡◌, ◌≤◌, ◌==◌, [], ◌∷◌, IfOk, IfSome, bytes_eq, option_map, map, position};
ghost use Rattle.std.specs.List.{list_any};
ghost use Rattle.route_types.specs.Words.{number_in, parts_at};
ghost use Rattle.policy_text.specs.Bounds.{one_bound_in, bounds_in};
ghost use Rattle.policy_text.specs.Names.{is_mark, is_name};
ghost use Rattle.policy_text.specs.Phrases.{texts, after};

use crate::common_words::number_of_8_bits;
use route_types::{Memory, Row};
use std::alloc::Global;
use text_words::Word;

/// Whether a word has this text.
pub fn is(word: &Word, text: &[u8]) -> bool
    ensures { result ≡ bytes_eq word.now.text text.now }
{
    word.text.as_slice() == text
}

// A byte that no name holds: quotes, brackets, braces, parentheses, comma, semicolon.
fn is_mark(byte: u8) -> bool
    ensures { result ≡ is_mark byte }
{
    matches!(
        byte,
        b'"' | b'\'' | b'[' | b']' | b'{' | b'}' | b'(' | b')' | b',' | b';'
    )
}

fn has_mark(word: &[u8]) -> bool
    ensures { result ≡ list_any is_mark word.now }
{
    word.iter().any(|c| is_mark(*c))
}

/// Whether a text is a name: no quote, bracket, brace, parenthesis, comma or semicolon stands in
/// it.
pub fn is_name(word: &[u8]) -> bool
    ensures { result ≡ is_name word.now }
{
    !has_mark(word)
}

/// A copy of a text. Its one error is want of memory.
pub fn copied(alloc: Global, text: &[u8]) -> Result<Row<u8>, Memory>
    ensures { IfOk result (λ r. r ≡ text.now) }
{
    Ok(Row::from_vec(Vec::from_slice(alloc, text)?))
}

fn is_key(key: &[u8], word: &Word) -> bool
    ensures { result ≡ bytes_eq key.now word.now.text }
{
    key == word.text.as_slice()
}

/// The words behind the first ones, where these are `keys`, one by one; else `None`. It takes no
/// memory.
#[tactic(auto, unfolding(crate::specs::Phrases::after))]
pub fn after<'a>(words: &'a [Word], keys: &[&[u8]]) -> Option<&'a [Word]>
    ensures { option_map (λ r. texts r.now) result ≡ after (map (λ k. k.now) keys.now) (texts words.now) }
{
    let mut rest = words;
    let mut wanted = keys;
    while let [key, more @ ..] = wanted {
        let [word, tail @ ..] = rest else {
            return None;
        };
        if !is_key(key, word) {
            return None;
        }
        wanted = more;
        rest = tail;
    }
    Some(rest)
}

// ---- parts of a word

fn place_of(word: &[u8], byte: u8) -> Option<usize>
    ensures { result ≡ position (λ c. c == byte) word.now }
{
    word.iter().position(|c| *c == byte)
}

/// What stands before the first such byte of a word, and what stands behind it; `None` where there
/// is no such byte. It takes no memory.
#[tactic(auto, using(route_types::proofs::Parts::parts_at_position))]
pub fn parts_at(word: &[u8], byte: u8) -> Option<(&[u8], &[u8])>
    ensures { option_map (λ p. (p.0.now, p.1.now)) result ≡ parts_at byte word.now }
{
    let place = place_of(word, byte)?;
    Some((&word[..place], &word[place + 1..]))
}

// ---- `ge G` and `le E` behind a prefix

fn bound(word: &Word) -> Option<u8>
    ensures { result ≡ number_in 32 word.now.text }
{
    number_of_8_bits(word.text.as_slice(), 32)
}

fn one_bound(length: u8, key: &Word, word: &Word) -> Option<(u8, u8)>
    ensures { result ≡ one_bound_in length key.now.text word.now.text }
{
    let bound = bound(word)?;
    if is(key, b"ge") && length <= bound {
        return Some((bound, 32));
    }
    if is(key, b"le") && length <= bound {
        return Some((length, bound));
    }
    None
}

fn two_bounds(length: u8, ge: &Word, least: &Word, le: &Word, most: &Word) -> Option<(u8, u8)>
    ensures { result ≡ bounds_in length (ge.now.text ∷ least.now.text ∷ le.now.text ∷ most.now.text ∷ []) }
{
    let least = bound(least)?;
    let most = bound(most)?;
    if is(ge, b"ge") && is(le, b"le") && length <= least && least <= most {
        return Some((least, most));
    }
    None
}

fn lengths(length: u8, words: &[Word]) -> Option<(u8, u8)>
    ensures { result ≡ bounds_in length (texts words.now) }
{
    match words {
        [] => Some((length, length)),
        [key, word] => one_bound(length, key, word),
        [ge, least, le, most] => two_bounds(length, ge, least, le, most),
        _ => None,
    }
}

/// The least and the most length that `ge G`, `le E`, both or nothing give behind an IPv4 prefix of
/// this length: `length <= G <= E <= 32`. `None` where the words are of no such form. It takes no
/// memory.
#[tactic(auto, using(crate::proofs::Lengths::bounds_within))]
pub fn bounds(length: u8, words: &[Word]) -> Option<(u8, u8)>
    ensures value { result ≡ bounds_in length (texts words.now) }
    // The least length is at least the prefix's own.
    ensures within { IfSome result (λ l. length ≤ l.0) }
{
    lengths(length, words)
}
