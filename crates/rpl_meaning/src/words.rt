//! What the parameters of a policy stand for, and the numbers that statements ask for.
ghost use Rattle.std.specs.Prelude.{◌≡◌, ◌^◌, ◌-◌, List, ℕ, [], ◌∷◌, IfOk, drop};
ghost use Rattle.rpl_meaning.specs.Blocks.{word_in, word_or};
ghost use Rattle.rpl_meaning.specs.Handed.{first_word};
ghost use Rattle.rpl_meaning.specs.Sets.{word_given, handed, value};

use name_maps::NameMap;
use policy_text::{number_of_8_bits, number_of_16_bits, number_of_32_bits};
use route_types::{Memory, Row};
use rpl_forms::{Argument, RplNumber};
use std::alloc::Global;

/// The words that parameters stand for, all of them lent.
pub(crate) type Words<'a> = NameMap<'a, &'a [u8]>;

/// The word that a parameter stands for, empty where it stands for none.
pub(crate) fn word_of<'a>(words: &Words<'a>, parameter: &'a [u8]) -> &'a [u8]
    ensures { result.now ≡ word_in words.now.entries parameter.now }
{
    words.get(parameter).unwrap_or(&[])
}

// The word that an argument hands on.
pub(crate) fn word_given<'a>(words: &Words<'a>, argument: &'a Argument) -> &'a [u8]
    ensures { result.now ≡ word_given (word_in words.now.entries) argument.now }
{
    match argument {
        Argument::Written(word) => word.as_slice(),
        Argument::Parameter(parameter) => word_of(words, parameter.as_slice()),
    }
}

// The word of the first argument, empty where there is none.
fn first_word<'a>(words: &Words<'a>, arguments: &'a [Argument]) -> &'a [u8]
    ensures { result.now ≡ first_word (word_in words.now.entries) arguments.now }
{
    match arguments {
        [first, ..] => word_given(words, first),
        [] => &[],
    }
}

fn behind<'a>(arguments: &'a [Argument]) -> &'a [Argument]
    ensures { result.now ≡ drop 1 arguments.now }
{
    match arguments {
        [_, tail @ ..] => tail,
        [] => arguments,
    }
}

/// The words that the parameters of an applied policy stand for, by their places.
pub(crate) fn handed<'a>(
    alloc: Global,
    words: &Words<'a>,
    parameters: &'a [Row<u8>],
    arguments: &'a [Argument],
) -> Result<Words<'a>, Memory>
    ensures { IfOk result (λ m. (x : List ℕ) → word_in m.entries x ≡ handed (word_in words.now.entries) parameters.now arguments.now x) }
{
    let mut found = NameMap::new(alloc);
    let mut names = parameters;
    let mut rest = arguments;
    while let [first, more @ ..] = names {
        found.put_first(first.as_slice(), first_word(words, rest))?;
        rest = behind(rest);
        names = more;
    }
    Ok(found)
}

/// A number up to 255.
pub(crate) fn value_8<'a>(words: &Words<'a>, number: &'a RplNumber<u8>) -> u8
    ensures { result ≡ value 255 (word_in words.now.entries) number.now }
{
    match number {
        RplNumber::Fixed(number) => *number,
        RplNumber::Parameter(parameter) => {
            number_of_8_bits(word_of(words, parameter.as_slice()), 255).unwrap_or(0)
        }
    }
}

/// A number up to 65535.
pub(crate) fn value_16<'a>(words: &Words<'a>, number: &'a RplNumber<u16>) -> u16
    ensures { result ≡ value 65535 (word_in words.now.entries) number.now }
{
    match number {
        RplNumber::Fixed(number) => *number,
        RplNumber::Parameter(parameter) => {
            number_of_16_bits(word_of(words, parameter.as_slice())).unwrap_or(0)
        }
    }
}

/// A number up to 2^32 - 1.
pub(crate) fn value_32<'a>(words: &Words<'a>, number: &'a RplNumber<u32>) -> u32
    ensures { result ≡ value (2 ^ 32 - 1) (word_in words.now.entries) number.now }
{
    match number {
        RplNumber::Fixed(number) => *number,
        RplNumber::Parameter(parameter) => {
            number_of_32_bits(word_of(words, parameter.as_slice())).unwrap_or(0)
        }
    }
}
