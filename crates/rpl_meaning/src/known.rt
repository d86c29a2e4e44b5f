//! What is known of policies that were run on the arriving route, and for how many levels of `apply` below them.
ghost use Rattle.std.specs.Prelude.{◌≡◌, ◌-◌, ◌<◌, ◌≤◌, ℕ, true, IfOk};
ghost use Rattle.rpl_effects.specs.Kept.{words_of};
ghost use Rattle.rpl_meaning.specs.Blocks.{word_in};
ghost use Rattle.rpl_meaning.specs.Handed.{key_words};
ghost use Rattle.rpl_meaning.specs.Runs.{Covers};

use crate::walk::RplEffect;
use crate::words::{Words, word_given};
use route_types::Memory;
use rpl_effects::{Kept, Levels};
use rpl_forms::Apply;
use std::alloc::Global;

/// The effects of policies on the arriving route, and where those of applied ones stand, by the words that are handed to
/// them.
#[derive(Drop)]
pub(crate) struct Known<'a> {
    pub(crate) kept: Kept<'a>,
    pub(crate) effects: Vec<RplEffect<'a>>,
}

/// The name of an applied policy, and the words that are handed to it.
pub(crate) fn key_of<'a>(
    alloc: Global,
    words: &Words<'a>,
    apply: &'a Apply,
) -> Result<Vec<&'a [u8]>, Memory>
    ensures { IfOk result (λ key. words_of key ≡ key_words (word_in words.now.entries) apply.now) }
{
    let mut key = Vec::new(alloc);
    key.push(apply.policy.as_slice())?;
    let mut rest = apply.arguments.as_slice();
    while let [first, tail @ ..] = rest {
        key.push(word_given(words, first))?;
        rest = tail;
    }
    Ok(key)
}

/// Whether the number of levels is one of these.
pub(crate) fn covers(levels: Levels, number: u8) -> bool
    ensures { result ≡ true → Covers levels number }
{
    levels.least <= number && number <= levels.most
}

/// All numbers of levels.
pub(crate) fn all_levels() -> Levels
    ensures { (n : ℕ) → n < 256 → Covers result n }
{
    Levels {
        least: 0,
        most: 255,
    }
}

/// No level at all.
pub(crate) fn no_levels() -> Levels
    ensures { result ≡ record { least = 0; most = 0 } }
{
    Levels { least: 0, most: 0 }
}

fn greater(one: u8, other: u8) -> u8
    ensures one { one ≤ result }
    ensures other { other ≤ result }
    ensures least { (n : ℕ) → one ≤ n → other ≤ n → result ≤ n }
{
    if one < other { other } else { one }
}

fn smaller(one: u8, other: u8) -> u8
    ensures one { result ≤ one }
    ensures other { result ≤ other }
    ensures most { (n : ℕ) → n ≤ one → n ≤ other → n ≤ result }
{
    if one < other { one } else { other }
}

/// The numbers of levels that are in both.
pub(crate) fn in_both(one: Levels, other: Levels) -> Levels
    ensures both { (n : ℕ) → Covers one n → Covers other n → Covers result n }
    ensures one { (n : ℕ) → Covers result n → Covers one n }
    ensures other { (n : ℕ) → Covers result n → Covers other n }
{
    Levels {
        least: greater(one.least, other.least),
        most: smaller(one.most, other.most),
    }
}

/// The numbers of levels of a policy by those of what stands in it, of which this number less one is one.
pub(crate) fn one_more(levels: Levels, number: u8) -> Levels
    requires some { 0 < number }
    requires covers { Covers levels (number - 1) }
    ensures covers { Covers result number }
    ensures less { (n : ℕ) → Covers result n → (0 < n) × Covers levels (n - 1) }
{
    Levels {
        least: levels.least + 1,
        most: levels.most.saturating_add(1),
    }
}
