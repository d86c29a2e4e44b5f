// The entries of lists as what conditions ask.
ghost use Rattle.std.specs.Prelude.{◌≡◌, ◌++◌, ◌∷◌, List, true, IfOk};
ghost use Rattle.std.specs.List.{AllByRecursion, list_all};
ghost use Rattle.policy_core.specs.Ranges.{prefix_in_range};
ghost use Rattle.route_types.specs.Address.{IsMasked};
ghost use Rattle.prefix_sets.specs.declared.list.PrefixEntry.{PrefixEntry};
ghost use Rattle.rpl_plans.specs.Entries.{address_test, has_length, cut_range, prefix_choices, set_test, comm_test, comm_choices};
ghost use Rattle.rpl_plans.specs.Fits.{FitsRange, FitsTest, FitsChoice};

use crate::choice::Choice;
use crate::ranges::rects_fit;
use crate::test::{PlannedTest, RouteAddress};
use community_sets::{CommEntry, CommTest};
use prefix_sets::{PrefixEntry, PrefixRange};
use route_types::{Memory, Prefix, Rect, Row};
use std::alloc::Global;

// The test of a set of prefixes.
fn address_test(asked: RouteAddress, ranges: Row<PrefixRange>) -> PlannedTest
    ensures same { result ≡ address_test asked ranges }
    ensures fits { AllByRecursion FitsRange ranges → FitsTest result }
{
    match asked {
        RouteAddress::Destination => PlannedTest::Destination(ranges),
        RouteAddress::NextHop => PlannedTest::NextHop(ranges),
    }
}

// Whether a prefix of IPv4 can have a length of the range.
fn has_length(range: &PrefixRange) -> bool
    ensures { result ≡ has_length range.now }
{
    range.least().max(range.prefix().length()) <= range.most().min(32)
}

// The bits of a prefix of IPv4: those within its length and those behind it.
fn width(prefix: &Prefix) -> u8
    requires { prefix_in_range prefix.now ≡ true }
    ensures value { result ≡ 32 }
    ensures masked { IsMasked prefix.now.address prefix.now.length }
{
    prefix.length() + prefix.host_bits()
}

// The range from the length of its prefix on, without the lengths that no prefix of IPv4 has.
#[tactic(auto, using(crate::proofs::FitLaws::cut_fits))]
fn cut_range(range: &PrefixRange) -> PrefixRange
    requires v4 { prefix_in_range range.now.prefix ≡ true }
    requires some { has_length range.now ≡ true }
    ensures value { result ≡ cut_range range.now }
    ensures fits { FitsRange result }
{
    let prefix = range.prefix();
    let width = width(&prefix);
    let least = range.least().max(prefix.length());
    PrefixRange::new(prefix, least, range.most().min(width))
}

// Adds what an entry of a prefix list asks, if its range has a length.
#[tactic(auto, unfolding(crate::specs::Entries::prefix_choices))]
fn push_range(
    alloc: Global,
    asked: RouteAddress,
    found: &mut Row<Choice>,
    entry: &PrefixEntry,
) -> Result<(), Memory>
    requires { prefix_in_range entry.now.range.prefix ≡ true }
    ensures same { IfOk result (λ _. (es : List PrefixEntry) → found.new ++ prefix_choices asked es ≡ found.old ++ prefix_choices asked (entry.now ∷ es)) }
    ensures fits { IfOk result (λ _. AllByRecursion FitsChoice found.old → AllByRecursion FitsChoice found.new) }
{
    if !has_length(&entry.range) {
        return Ok(());
    }
    let mut ranges = Row::new(alloc);
    ranges.push(cut_range(&entry.range))?;
    found.push(Choice {
        permit: entry.permit,
        test: address_test(asked, ranges),
    })?;
    Ok(())
}

// What the entries of a prefix list ask, without those whose range is empty.
#[tactic(auto, unfolding(crate::specs::Entries::prefix_choices))]
pub(crate) fn prefix_choices(
    alloc: Global,
    asked: RouteAddress,
    entries: &[PrefixEntry],
) -> Result<Row<Choice>, Memory>
    requires { list_all (λ e. prefix_in_range e.range.prefix) entries.now ≡ true }
    ensures same { IfOk result (λ found. found ≡ prefix_choices asked entries.now) }
    ensures fits { IfOk result (λ found. AllByRecursion FitsChoice found) }
{
    let mut found = Row::new(alloc);
    let mut rest = entries;
    while let [first, tail @ ..] = rest {
        push_range(alloc, asked, &mut found, first)?;
        rest = tail;
    }
    Ok(found)
}

// The test of an entry that asks for communities: for one of them, or for several.
fn set_test(alloc: Global, rects: &[Rect]) -> Result<PlannedTest, Memory>
    ensures same { IfOk result (λ test. test ≡ set_test rects.now) }
    ensures fits { IfOk result (λ test. FitsTest test) }
{
    rects_fit(rects);
    let copied = Row::from_slice(alloc, rects)?;
    match rects {
        [_] => Ok(PlannedTest::MatchesAny(copied)),
        _ => Ok(PlannedTest::MatchesEvery(copied)),
    }
}

fn comm_test(alloc: Global, test: &CommTest) -> Result<PlannedTest, Memory>
    ensures same { IfOk result (λ planned. planned ≡ comm_test test.now) }
    ensures fits { IfOk result (λ planned. FitsTest planned) }
{
    match test {
        CommTest::AllOf(rects) => {
            let planned = set_test(alloc, rects.as_slice())?;
            Ok(planned)
        }
        CommTest::Exactly(_) => Ok(PlannedTest::MatchesAny(Row::new(alloc))),
    }
}

// What the entries of a community list ask.
#[tactic(auto, using(crate::proofs::FitLaws::all_with), unfolding(crate::specs::Entries::comm_choices))]
pub(crate) fn comm_choices(alloc: Global, entries: &[CommEntry]) -> Result<Row<Choice>, Memory>
    ensures same { IfOk result (λ found. found ≡ comm_choices entries.now) }
    ensures fits { IfOk result (λ found. AllByRecursion FitsChoice found) }
{
    let mut found = Row::new(alloc);
    let mut rest = entries;
    while let [first, tail @ ..] = rest {
        let test = comm_test(alloc, &first.test)?;
        found.push(Choice {
            permit: first.permit,
            test,
        })?;
        rest = tail;
    }
    Ok(found)
}
