//! The longest match of the route-filters of a term on one prefix.
ghost use Rattle.std.specs.Prelude.{◌≡◌, ◌<◌, nat_lt, ◌||◌, ◌&&◌, List, ℕ, IfOk, map};
ghost use Rattle.std.specs.List.{list_any};
ghost use Rattle.route_types.specs.Address.{contains};
ghost use Rattle.prefix_sets.specs.LongestMatch.{longest_match, has_length};
ghost use Rattle.junos_meaning.specs.Conditions.{filters_in, filters_hold};
ghost use Rattle.junos_meaning.specs.Longest.{longer_of, longest_from, decides_at};

use junos_reader::Condition;
use prefix_sets::PrefixRange;
use route_types::{Memory, Prefix};
use std::alloc::Global;

// The route-filters among conditions.
fn filters_in(alloc: Global, conditions: &[&Condition]) -> Result<Vec<PrefixRange>, Memory>
    ensures { IfOk result (λ v. v.items ≡ filters_in (map (λ c. c.now) conditions.now)) }
{
    let mut found = Vec::new(alloc);
    let mut rest = conditions;
    while let [first, tail @ ..] = rest {
        if let Condition::RouteFilter(filter) = first {
            found.push(*filter)?;
        }
        rest = tail;
    }
    Ok(found)
}

// The greatest length behind one more filter.
fn longer_of(filter: &PrefixRange, prefix: &Prefix, longest: u8) -> u8
    ensures { result ≡ longer_of prefix.now filter.now longest }
{
    let outer = filter.prefix();
    if outer.contains(prefix) && longest < outer.length() {
        return outer.length();
    }
    longest
}

// The greatest length of the filters that contain the prefix; 0 where none does.
#[tactic(auto, unfolding(crate::specs::Longest::longest_from))]
fn longest_length(filters: &[PrefixRange], prefix: &Prefix) -> u8
    ensures { result ≡ longest_from prefix.now 0 filters.now }
{
    let mut longest = 0;
    let mut rest = filters;
    while let [first, tail @ ..] = rest {
        longest = longer_of(first, prefix, longest);
        rest = tail;
    }
    longest
}

// Whether a filter of this length decides, and the prefix has one of its lengths.
fn decides_at(longest: u8, filter: &PrefixRange, prefix: &Prefix) -> bool
    ensures { result ≡ decides_at prefix.now longest filter.now }
{
    let outer = filter.prefix();
    outer.contains(prefix)
        && !(outer.length() < longest)
        && filter.least() <= prefix.length()
        && prefix.length() <= filter.most()
}

fn some_decides(longest: u8, filters: &[PrefixRange], prefix: &Prefix) -> bool
    ensures { result ≡ list_any (decides_at prefix.now longest) filters.now }
{
    filters
        .iter()
        .any(|filter| decides_at(longest, filter, prefix))
}

// Whether the longest match of filters holds.
#[tactic(auto, using(crate::proofs::LongestLaws::longest_decides))]
fn longest_match(filters: &[PrefixRange], prefix: &Prefix) -> bool
    ensures { result ≡ longest_match filters.now prefix.now }
{
    let longest = longest_length(filters, prefix);
    some_decides(longest, filters, prefix)
}

fn filters_hold(filters: &[PrefixRange], prefix: &Prefix) -> bool
    ensures { result ≡ filters_hold filters.now prefix.now }
{
    match filters {
        [] => true,
        _ => longest_match(filters, prefix),
    }
}

/// Whether the route-filters among conditions hold for a prefix, taken as one condition.
pub(crate) fn some_filter_holds(
    alloc: Global,
    conditions: &[&Condition],
    prefix: &Prefix,
) -> Result<bool, Memory>
    ensures { IfOk result (λ b. b ≡ filters_hold (filters_in (map (λ c. c.now) conditions.now)) prefix.now) }
{
    let filters = filters_in(alloc, conditions)?;
    let held = filters_hold(filters.as_slice(), prefix);
    Ok(held)
}
