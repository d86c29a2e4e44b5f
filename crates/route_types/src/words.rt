ghost use Rattle.std.specs.Prelude.{◌≡◌, ◌≤◌, ◌==◌, IfSome, Some, None, option_map, position};
ghost use Rattle.route_types.specs.Words.{FindsExactly, IsNumber, number_in, IsAddress, address_in, address_of, parts_at, IsPrefix, prefix_in, IsCommunity, community_of, community_in};
ghost use Rattle.route_types.specs.Walk.{with_digit, number_after, starts_plainly};

use crate::address::{Address, Family, Prefix};
use crate::community::Community;

fn with_digit(most: u64, value: u64, byte: u8) -> Option<u64>
    ensures { result ≡ with_digit most value byte }
{
    if !byte.is_ascii_digit() {
        return None;
    }
    let digit = u64::from(byte - b'0');
    let longer = value.checked_mul(10)?.checked_add(digit)?;
    if longer > most {
        return None;
    }
    Some(longer)
}

#[tactic(auto, unfolding(crate::specs::Walk::number_after))]
fn number_of_digits(most: u64, digits: &[u8]) -> Option<u64>
    ensures { result ≡ number_after most 0 digits.now }
{
    let mut value = 0;
    let mut rest = digits;
    while let [first, tail @ ..] = rest {
        value = with_digit(most, value, *first)?;
        rest = tail;
    }
    Some(value)
}

fn starts_plainly(word: &[u8]) -> bool
    ensures { result ≡ starts_plainly word.now }
{
    match word {
        [] => false,
        [_] => true,
        [first, ..] => *first != b'0',
    }
}

#[tactic(auto, using(crate::proofs::Walk::number_in_walk))]
fn number_of(word: &[u8], most: u64) -> Option<u64>
    ensures { result ≡ number_in most word.now }
{
    if !starts_plainly(word) {
        return None;
    }
    number_of_digits(most, word)
}

/// The number that a word spells, 0 to `most`: `0`, or digits that do not start with `0`. `None`
/// where the word spells no number, or one above `most`. It takes no memory.
#[tactic(auto, using(crate::proofs::Numbers::number_in_exactly, crate::proofs::Numbers::number_in_within))]
pub fn read_number(word: &[u8], most: u64) -> Option<u64>
    ensures found { FindsExactly (IsNumber most word.now) result }
    ensures exact { result ≡ number_in most word.now }
    ensures within { IfSome result (λ n. n ≤ most) }
{
    number_of(word, most)
}

fn place_of(word: &[u8], byte: u8) -> Option<usize>
    ensures { result ≡ position (λ c. c == byte) word.now }
{
    word.iter().position(|c| *c == byte)
}

// What stands before the first such byte, and what stands behind it.
#[tactic(auto, using(crate::proofs::Parts::parts_at_position))]
pub(crate) fn parts(word: &[u8], byte: u8) -> Option<(&[u8], &[u8])>
    ensures { option_map (λ p. (p.0.now, p.1.now)) result ≡ parts_at byte word.now }
{
    let place = place_of(word, byte)?;
    Some((&word[..place], &word[place + 1..]))
}

#[tactic(auto, using(crate::proofs::Numbers::number_in_within))]
fn octet(word: &[u8]) -> Option<u8>
    ensures { result ≡ number_in 255 word.now }
{
    let number = read_number(word, 255)?;
    Some(number as u8)
}

#[tactic(auto, using(crate::proofs::Numbers::number_in_within))]
fn length_in(word: &[u8]) -> Option<u8>
    ensures value { result ≡ number_in 32 word.now }
    ensures within { IfSome result (λ n. n ≤ 32) }
{
    let number = read_number(word, 32)?;
    Some(number as u8)
}

fn address(first: u8, second: u8, third: u8, fourth: u8) -> Address
    ensures { result ≡ address_of (record { first = first; second = second; third = third; fourth = fourth }) }
{
    let front = (u128::from(first) * 256 + u128::from(second)) * 256;
    let bits = (front + u128::from(third)) * 256 + u128::from(fourth);
    Address {
        family: Family::V4,
        bits,
    }
}

#[tactic(auto, unfolding(crate::specs::Words::address_in))]
fn address_in(word: &[u8]) -> Option<Address>
    ensures { result ≡ address_in word.now }
{
    let (first, rest) = parts(word, b'.')?;
    let (second, rest) = parts(rest, b'.')?;
    let (third, fourth) = parts(rest, b'.')?;
    let first = octet(first)?;
    let second = octet(second)?;
    let third = octet(third)?;
    let fourth = octet(fourth)?;
    Some(address(first, second, third, fourth))
}

/// The IPv4 address that a word spells: four numbers up to 255 joined by dots. `None` where the
/// word spells no address. It takes no memory.
#[tactic(auto, using(crate::proofs::Spelled::address_in_exactly))]
pub fn read_address(word: &[u8]) -> Option<Address>
    ensures found { FindsExactly (IsAddress word.now) result }
    ensures exact { result ≡ address_in word.now }
{
    address_in(word)
}

#[tactic(auto, unfolding(crate::specs::Words::prefix_in))]
fn prefix_in(word: &[u8]) -> Option<Prefix>
    ensures { result ≡ prefix_in word.now }
{
    let (front, behind) = parts(word, b'/')?;
    let address = read_address(front)?;
    let length = length_in(behind)?;
    Some(Prefix::new(address, length))
}

/// The IPv4 prefix that a word spells: an address, a slash and a length up to 32. Host bits are
/// set to 0. `None` where the word spells no prefix. It takes no memory.
#[tactic(auto, using(crate::proofs::Spelled::prefix_in_exactly))]
pub fn read_prefix(word: &[u8]) -> Option<Prefix>
    ensures found { FindsExactly (IsPrefix word.now) result }
    ensures exact { result ≡ prefix_in word.now }
{
    prefix_in(word)
}

#[tactic(auto, using(crate::proofs::Numbers::number_in_within))]
fn half(word: &[u8]) -> Option<u16>
    ensures { result ≡ number_in 65535 word.now }
{
    let number = read_number(word, 65535)?;
    Some(number as u16)
}

fn community(high: u16, low: u16) -> Community
    ensures { result ≡ community_of high low }
{
    Community(u32::from(high) * 65536 + u32::from(low))
}

#[tactic(auto, unfolding(crate::specs::Words::community_in))]
fn community_in(word: &[u8]) -> Option<Community>
    ensures { result ≡ community_in word.now }
{
    let (high, low) = parts(word, b':')?;
    let high = half(high)?;
    let low = half(low)?;
    Some(community(high, low))
}

/// The community that a word spells: two numbers up to 65535 joined by a colon, the upper half
/// first. `None` where the word spells no community. It takes no memory.
#[tactic(auto, using(crate::proofs::Spelled::community_in_exactly))]
pub fn read_community(word: &[u8]) -> Option<Community>
    ensures found { FindsExactly (IsCommunity word.now) result }
    ensures exact { result ≡ community_in word.now }
{
    community_in(word)
}
