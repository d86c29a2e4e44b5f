// The entries of lists as terms of subroutines.
ghost use Rattle.std.specs.Prelude.{◌≡◌, ◌++◌, ◌∷◌, List, true, IfOk};
ghost use Rattle.std.specs.List.{AllByRecursion, list_all};
ghost use Rattle.policy_core.specs.Ranges.{prefix_in_range};
ghost use Rattle.policy_core.specs.Sayable.{is_plain, is_plain_all_of};
ghost use Rattle.route_types.specs.Address.{IsMasked};
ghost use Rattle.prefix_sets.specs.declared.list.PrefixEntry.{PrefixEntry};
ghost use Rattle.junos_plans.specs.Entries.{has_length, cut_range, range_condition, prefix_entries, set_condition, comm_condition, comm_entries, med_entries};
ghost use Rattle.junos_plans.specs.Fits.{FitsRange, FitsCondition, FitsEntry};

use crate::condition::{PlannedCondition, PlannedEntry, RouteAddress};
use crate::ranges::members_fit;
use community_sets::{CommEntry, CommTest};
use prefix_sets::{PrefixEntry, PrefixRange};
use route_types::{Memory, Prefix, Rect, Row};
use std::alloc::Global;

// Whether a prefix of IPv4 can have a length of the range.
fn has_length(range: &PrefixRange) -> bool
    ensures { result ≡ has_length range.now }
{
    range.least().max(range.prefix().length()) <= range.most().min(32)
}

// The bits of a prefix of IPv4: those within its length and those behind it.
fn width(prefix: &Prefix) -> u8
    requires { prefix_in_range prefix.now ≡ true }
    ensures value { result ≡ 32 }
    ensures masked { IsMasked prefix.now.address prefix.now.length }
{
    prefix.length() + prefix.host_bits()
}

// The range from the length of its prefix on, without the lengths that no prefix of IPv4 has.
#[tactic(auto, using(crate::proofs::FitLaws::cut_fits))]
fn cut_range(range: &PrefixRange) -> PrefixRange
    requires v4 { prefix_in_range range.now.prefix ≡ true }
    requires some { has_length range.now ≡ true }
    ensures value { result ≡ cut_range range.now }
    ensures fits { FitsRange result }
{
    let prefix = range.prefix();
    let width = width(&prefix);
    let least = range.least().max(prefix.length());
    PrefixRange::new(prefix, least, range.most().min(width))
}

// What a range asks.
fn range_condition(
    alloc: Global,
    asked: RouteAddress,
    range: &PrefixRange,
) -> Result<PlannedCondition, Memory>
    requires v4 { prefix_in_range range.now.prefix ≡ true }
    requires some { has_length range.now ≡ true }
    ensures same { IfOk result (λ condition. condition ≡ range_condition asked range.now) }
    ensures fits { IfOk result (λ condition. FitsCondition condition) }
{
    match asked {
        RouteAddress::Destination => {
            let mut ranges = Row::new(alloc);
            ranges.push(cut_range(range))?;
            Ok(PlannedCondition::Destination(ranges))
        }
        RouteAddress::NextHop => {
            let mut hops = Row::new(alloc);
            hops.push(range.prefix().address())?;
            Ok(PlannedCondition::NextHop(hops))
        }
    }
}

// Adds the term of an entry of a prefix list, if its range has a length.
#[tactic(auto, unfolding(crate::specs::Entries::prefix_entries))]
fn push_range(
    alloc: Global,
    asked: RouteAddress,
    found: &mut Row<PlannedEntry>,
    entry: &PrefixEntry,
) -> Result<(), Memory>
    requires { prefix_in_range entry.now.range.prefix ≡ true }
    ensures same { IfOk result (λ _. (es : List PrefixEntry) → found.new ++ prefix_entries asked es ≡ found.old ++ prefix_entries asked (entry.now ∷ es)) }
    ensures fits { IfOk result (λ _. AllByRecursion FitsEntry found.old → AllByRecursion FitsEntry found.new) }
{
    if !has_length(&entry.range) {
        return Ok(());
    }
    let condition = range_condition(alloc, asked, &entry.range)?;
    found.push(PlannedEntry {
        permit: entry.permit,
        condition,
    })?;
    Ok(())
}

// The terms of a prefix list, without those of entries whose range is empty.
#[tactic(auto, unfolding(crate::specs::Entries::prefix_entries))]
pub(crate) fn prefix_entries(
    alloc: Global,
    asked: RouteAddress,
    entries: &[PrefixEntry],
) -> Result<Row<PlannedEntry>, Memory>
    requires { list_all (λ e. prefix_in_range e.range.prefix) entries.now ≡ true }
    ensures same { IfOk result (λ found. found ≡ prefix_entries asked entries.now) }
    ensures fits { IfOk result (λ found. AllByRecursion FitsEntry found) }
{
    let mut found = Row::new(alloc);
    let mut rest = entries;
    while let [first, tail @ ..] = rest {
        push_range(alloc, asked, &mut found, first)?;
        rest = tail;
    }
    Ok(found)
}

// One condition for all communities that are asked for.
fn set_condition(alloc: Global, rects: &[Rect]) -> Result<PlannedCondition, Memory>
    requires { list_all is_plain rects.now ≡ true }
    ensures same { IfOk result (λ condition. condition ≡ set_condition rects.now) }
    ensures fits { IfOk result (λ condition. FitsCondition condition) }
{
    members_fit(rects);
    if rects.is_empty() {
        return Ok(PlannedCondition::Anything);
    }
    let copied = Row::from_slice(alloc, rects)?;
    let mut sets = Row::new(alloc);
    sets.push(copied)?;
    Ok(PlannedCondition::Communities(sets))
}

fn comm_condition(alloc: Global, test: &CommTest) -> Result<PlannedCondition, Memory>
    requires { is_plain_all_of test.now ≡ true }
    ensures same { IfOk result (λ condition. condition ≡ comm_condition test.now) }
    ensures fits { IfOk result (λ condition. FitsCondition condition) }
{
    match test {
        CommTest::AllOf(rects) => {
            let condition = set_condition(alloc, rects.as_slice())?;
            Ok(condition)
        }
        CommTest::Exactly(_) => unreachable!(),
    }
}

// The terms of a community list.
#[tactic(auto, using(crate::proofs::FitLaws::all_with), unfolding(crate::specs::Entries::comm_entries))]
pub(crate) fn comm_entries(
    alloc: Global,
    entries: &[CommEntry],
) -> Result<Row<PlannedEntry>, Memory>
    requires { list_all (λ e. is_plain_all_of e.test) entries.now ≡ true }
    ensures same { IfOk result (λ found. found ≡ comm_entries entries.now) }
    ensures fits { IfOk result (λ found. AllByRecursion FitsEntry found) }
{
    let mut found = Row::new(alloc);
    let mut rest = entries;
    while let [first, tail @ ..] = rest {
        let condition = comm_condition(alloc, &first.test)?;
        found.push(PlannedEntry {
            permit: first.permit,
            condition,
        })?;
        rest = tail;
    }
    Ok(found)
}

// The terms of numbers of which the MED is one.
#[tactic(auto, using(crate::proofs::FitLaws::all_with), unfolding(crate::specs::Entries::med_entries))]
pub(crate) fn med_entries(alloc: Global, numbers: &[u32]) -> Result<Row<PlannedEntry>, Memory>
    ensures same { IfOk result (λ found. found ≡ med_entries numbers.now) }
    ensures fits { IfOk result (λ found. AllByRecursion FitsEntry found) }
{
    let mut found = Row::new(alloc);
    let mut rest = numbers;
    while let [first, tail @ ..] = rest {
        found.push(PlannedEntry {
            permit: true,
            condition: PlannedCondition::Med(*first),
        })?;
        rest = tail;
    }
    Ok(found)
}
