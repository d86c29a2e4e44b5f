//! Words that the languages share: numbers of a few bits, and communities that have a word of their own.

ghost use Rattle.std.specs.Prelude.{◌≡◌, ◌≤◌, ◌-◌, ◌^◌, IfSome};
ghost use Rattle.policy_text.specs.CommonWords.{known_communities};
ghost use Rattle.policy_text.specs.Phrases.{one_of};
ghost use Rattle.route_types.specs.Words.{number_in};

use route_types::{Community, read_number};

/// The number that a word spells, 0 to `most`. `None` where it spells none. It takes no memory.
#[tactic(auto, using(route_types::proofs::Numbers::number_in_within))]
pub fn number_of_8_bits(word: &[u8], most: u8) -> Option<u8>
    ensures value { result ≡ number_in most word.now }
    ensures within { IfSome result (λ n. n ≤ most) }
{
    let number = read_number(word, u64::from(most))?;
    Some(number as u8)
}

/// The number that a word spells, 0 to 65535. `None` where it spells none. It takes no memory.
#[tactic(auto, using(route_types::proofs::Numbers::number_in_within))]
pub fn number_of_16_bits(word: &[u8]) -> Option<u16>
    ensures { result ≡ number_in 65535 word.now }
{
    let number = read_number(word, 65535)?;
    Some(number as u16)
}

/// The number that a word spells, 0 to 2^32 - 1. `None` where it spells none. It takes no memory.
#[tactic(auto, using(route_types::proofs::Numbers::number_in_within))]
pub fn number_of_32_bits(word: &[u8]) -> Option<u32>
    ensures { result ≡ number_in (2 ^ 32 - 1) word.now }
{
    let number = read_number(word, 4294967295)?;
    Some(number as u32)
}

/// The community that a word of its own stands for: `no-export`, `no-advertise`, or the word that the
/// language has for NO_EXPORT_SUBCONFED (RFC 1997). `None` for another word. It takes no memory.
pub fn known_community(word: &[u8], within_confederation: &[u8]) -> Option<Community>
    ensures { result ≡ one_of (known_communities within_confederation.now) word.now }
{
    if word == b"no-export".as_slice() {
        return Some(Community(4294967041));
    }
    if word == b"no-advertise".as_slice() {
        return Some(Community(4294967042));
    }
    if word == within_confederation {
        return Some(Community(4294967043));
    }
    None
}
