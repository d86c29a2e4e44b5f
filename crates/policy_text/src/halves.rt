//! The communities that a word stands for: two halves joined by a colon, or a word of its own.

ghost use Rattle.std.specs.Prelude.{◌≡◌, ◌≤◌, ℕ, List, Option, IfSome};
ghost use Rattle.policy_text.specs.Halves.{known_rects, number_or_all, halves_in};
ghost use Rattle.policy_text.specs.Phrases.{one_of};

use crate::common_words::number_of_16_bits;
use crate::phrase::parts_at;
use route_types::Rect;

/// A kind of half: the numbers that half of a community stands for, the least and the most, each 0 to 65535.
pub trait HalfWord {
    ghost find: { List ℕ → Option (ℕ × ℕ) };

    /// The numbers that the word stands for, `None` where it is no such half. It takes no memory.
    fn read(word: &[u8]) -> Option<(u16, u16)>
        ensures value { result ≡ find word.now }
        ensures within { IfSome result (λ h. h.0 ≤ h.1) };
}

/// A number, 0 to 65535, which stands for itself, or `*`, which stands for all.
pub struct NumberOrAll;

fn number_or_all(word: &[u8]) -> Option<(u16, u16)>
    ensures value { result ≡ number_or_all word.now }
    ensures within { IfSome result (λ h. h.0 ≤ h.1) }
{
    if let Some(number) = number_of_16_bits(word) {
        return Some((number, number));
    }
    if word == b"*".as_slice() {
        return Some((0, 65535));
    }
    None
}

impl HalfWord for NumberOrAll {
    ghost find = { number_or_all };

    fn read(word: &[u8]) -> Option<(u16, u16)> {
        number_or_all(word)
    }
}

/// The communities of two halves joined by `:`, `None` where the word is no such text. It takes no memory.
#[tactic(auto, unfolding(crate::specs::Halves::halves_in))]
pub fn halves_in<H: HalfWord>(word: &[u8]) -> Option<Rect>
    ensures { result ≡ halves_in H.find word.now }
{
    let (high, low) = parts_at(word, b':')?;
    let (high_least, high_most) = H::read(high)?;
    let (low_least, low_most) = H::read(low)?;
    Some(Rect::new(high_least, high_most, low_least, low_most))
}

/// The community that a word of its own stands for, as a rectangle: `no-export`, `no-advertise`, or the
/// word that the language has for NO_EXPORT_SUBCONFED (RFC 1997). `None` for another word. It takes no memory.
pub fn known_rect(word: &[u8], within_confederation: &[u8]) -> Option<Rect>
    ensures { result ≡ one_of (known_rects within_confederation.now) word.now }
{
    if word == b"no-export".as_slice() {
        return Some(Rect::new(65535, 65535, 65281, 65281));
    }
    if word == b"no-advertise".as_slice() {
        return Some(Rect::new(65535, 65535, 65282, 65282));
    }
    if word == within_confederation {
        return Some(Rect::new(65535, 65535, 65283, 65283));
    }
    None
}
