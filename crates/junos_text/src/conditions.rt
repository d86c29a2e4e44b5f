// The words of conditions.
ghost use Rattle.std.specs.Prelude.{◌≡◌, ◌++◌, ◌∷◌, [], IfOk, decimal, codes, false, ◌<◌};
ghost use Rattle.route_types.specs.Print.{prefix_text};
ghost use Rattle.text_words.specs.Pieces.{text_behind, words_text};
ghost use Rattle.junos_text.specs.Words.{type_by, type_words, values_words, condition_words, filter_text};

use crate::words::{
    address_words, digits, filter_word, length_word, lengths_word, origin_word, prefix_word, push,
    push_values,
};
use junos_tree::Condition;
use prefix_sets::PrefixRange;
use route_types::Prefix;
use std::alloc::Global;
use text_words::{Memory, Row, push_words};

// A keyword and values behind it.
#[tactic(auto, unfolding(text_words::specs::Pieces::words_text))]
fn push_listed(out: &mut Vec<u8>, key: &[u8], words: &[Row<u8>]) -> Result<(), Memory>
    ensures { IfOk result (λ _. out.new.items ≡ out.old.items ++ words_text (key.now ∷ values_words words.now)) }
{
    push(out, key)?;
    push_values(out, words)
}

fn push_two(out: &mut Vec<u8>, first: &[u8], second: &[u8]) -> Result<(), Memory>
    ensures { IfOk result (λ _. out.new.items ≡ out.old.items ++ words_text (first.now ∷ second.now ∷ [])) }
{
    push_words(out, &[first, second])
}

fn push_three(out: &mut Vec<u8>, first: &[u8], second: &[u8], third: &[u8]) -> Result<(), Memory>
    ensures { IfOk result (λ _. out.new.items ≡ out.old.items ++ words_text (first.now ∷ second.now ∷ third.now ∷ [])) }
{
    push_words(out, &[first, second, third])
}

// A keyword and a number behind it.
fn push_number_behind(
    alloc: Global,
    out: &mut Vec<u8>,
    key: &[u8],
    number: u32,
) -> Result<(), Memory>
    ensures { IfOk result (λ _. out.new.items ≡ out.old.items ++ words_text (key.now ∷ decimal number ∷ [])) }
{
    let word = digits(alloc, u64::from(number))?;
    push_two(out, key, word.as_slice())
}

// One word behind a space.
fn push_word(out: &mut Vec<u8>, word: &[u8]) -> Result<(), Memory>
    ensures { IfOk result (λ _. out.new.items ≡ out.old.items ++ text_behind (word.now ∷ [])) }
{
    push(out, b" ")?;
    push(out, word)
}

fn push_pair(out: &mut Vec<u8>, first: &[u8], second: &[u8]) -> Result<(), Memory>
    ensures { IfOk result (λ _. out.new.items ≡ out.old.items ++ text_behind (first.now ∷ second.now ∷ [])) }
{
    push_word(out, first)?;
    push_word(out, second)
}

// Lengths up to one, or from one to another.
fn push_bounds(
    alloc: Global,
    out: &mut Vec<u8>,
    from_own: bool,
    least: u8,
    most: u8,
) -> Result<(), Memory>
    ensures { IfOk result (λ _. out.new.items ≡ out.old.items ++ text_behind (type_by false false false from_own least most)) }
{
    if from_own {
        let word = length_word(alloc, most)?;
        return push_pair(out, b"upto", word.as_slice());
    }
    let word = lengths_word(alloc, least, most)?;
    push_pair(out, b"prefix-length-range", word.as_slice())
}

// The type of a route filter.
fn push_type(
    alloc: Global,
    out: &mut Vec<u8>,
    length: u8,
    least: u8,
    most: u8,
) -> Result<(), Memory>
    requires { length < 255 }
    ensures { IfOk result (λ _. out.new.items ≡ out.old.items ++ text_behind (type_words length least most)) }
{
    if least == length && most == length {
        return push_word(out, b"exact");
    }
    if least == length + 1 && most == 32 {
        return push_word(out, b"longer");
    }
    if least == length && most == 32 {
        return push_word(out, b"orlonger");
    }
    push_bounds(alloc, out, least == length, least, most)
}

// A word, and a prefix behind it.
fn push_prefix_behind(
    alloc: Global,
    out: &mut Vec<u8>,
    key: &[u8],
    prefix: &Prefix,
) -> Result<(), Memory>
    ensures { IfOk result (λ _. out.new.items ≡ out.old.items ++ words_text (key.now ∷ prefix_text prefix.now ∷ [])) }
{
    let word = prefix_word(alloc, prefix)?;
    push_two(out, key, word.as_slice())
}

// A word, and a prefix with its lengths behind it.
fn push_range_behind(
    alloc: Global,
    out: &mut Vec<u8>,
    key: &[u8],
    range: &PrefixRange,
) -> Result<(), Memory>
    ensures { IfOk result (λ _. out.new.items ≡ out.old.items ++ words_text (key.now ∷ prefix_text range.now.prefix ∷ type_words range.now.prefix.length range.now.least range.now.most)) }
{
    let prefix = range.prefix();
    push_prefix_behind(alloc, out, key, &prefix)?;
    push_type(alloc, out, prefix.length(), range.least(), range.most())
}

fn push_range(alloc: Global, out: &mut Vec<u8>, range: &PrefixRange) -> Result<(), Memory>
    ensures { IfOk result (λ _. out.new.items ≡ out.old.items ++ words_text (codes "route-filter" ∷ prefix_text range.now.prefix ∷ type_words range.now.prefix.length range.now.least range.now.most)) }
{
    push_range_behind(alloc, out, b"route-filter", range)
}

fn push_prefix_lists(out: &mut Vec<u8>, names: &[Row<u8>]) -> Result<(), Memory>
    ensures { IfOk result (λ _. out.new.items ≡ out.old.items ++ words_text (codes "prefix-list" ∷ values_words names.now)) }
{
    push_listed(out, b"prefix-list", names)
}

fn push_list_filter(out: &mut Vec<u8>, name: &[u8], or_longer: bool) -> Result<(), Memory>
    ensures { IfOk result (λ _. out.new.items ≡ out.old.items ++ words_text (codes "prefix-list-filter" ∷ name.now ∷ filter_text or_longer ∷ [])) }
{
    push_three(out, b"prefix-list-filter", name, filter_word(or_longer))
}

fn push_preference(alloc: Global, out: &mut Vec<u8>, number: u32) -> Result<(), Memory>
    ensures { IfOk result (λ _. out.new.items ≡ out.old.items ++ words_text (codes "local-preference" ∷ decimal number ∷ [])) }
{
    push_number_behind(alloc, out, b"local-preference", number)
}

/// The words of a condition.
pub(crate) fn push_condition(
    alloc: Global,
    out: &mut Vec<u8>,
    condition: &Condition,
) -> Result<(), Memory>
    ensures { IfOk result (λ _. out.new.items ≡ out.old.items ++ words_text (condition_words condition.now)) }
{
    match condition {
        Condition::Protocol(names) => push_listed(out, b"protocol", names.as_slice()),
        Condition::Community(names) => push_listed(out, b"community", names.as_slice()),
        Condition::AsPath(names) => push_listed(out, b"as-path", names.as_slice()),
        Condition::NextHop(hops) => {
            let words = address_words(alloc, hops.as_slice())?;
            push_listed(out, b"next-hop", words.as_slice())
        }
        Condition::Policy(names) => push_listed(out, b"policy", names.as_slice()),
        Condition::PrefixList(names) => push_prefix_lists(out, names.as_slice()),
        Condition::RouteFilter(range) => push_range(alloc, out, range),
        Condition::ListFilter(filter) => {
            push_list_filter(out, filter.list.as_slice(), filter.or_longer)
        }
        Condition::Metric(number) => push_number_behind(alloc, out, b"metric", *number),
        Condition::LocalPreference(number) => push_preference(alloc, out, *number),
        Condition::Origin(origin) => push_two(out, b"origin", origin_word(*origin)),
    }
}
