// What tests ask, as a text of Junos can ask it.
ghost use Rattle.std.specs.Prelude.{◌≡◌, ◌==◌, ◌&&◌, true, IfOk};
ghost use Rattle.std.specs.List.{list_any, list_all, AllByRecursion};
ghost use Rattle.community_sets.specs.Tests.{list_answers};
ghost use Rattle.core_nodes.specs.Atoms.{path_answers, atom_holds};
ghost use Rattle.policy_core.specs.Ranges.{list_in_range};
ghost use Rattle.policy_core.specs.Sayable.{is_plain_all_of, lists_are, is_full_length, junos_atom};
ghost use Rattle.prefix_sets.specs.FirstMatch.{first_match, hop_match};
ghost use Rattle.route_types.specs.Route.{RouteParts, InRange};
ghost use Rattle.junos_plans.specs.Conditions.{condition_holds, test_holds};
ghost use Rattle.junos_plans.specs.Fits.{FitsTest};

use crate::condition::{PlannedCondition, PlannedList, PlannedTest, RouteAddress};
use crate::entries::med_entries;
use crate::gathered::simplified;
use crate::lists::{comm_lists, path_lists, prefix_lists};
use community_sets::CommList;
use core_nodes::{Atom, PathList};
use prefix_sets::PrefixList;
use route_types::{Memory, Row};
use std::alloc::Global;

// A list permits the destination.
fn destination(alloc: Global, lists: &[PrefixList]) -> Result<PlannedTest, Memory>
    requires { list_all list_in_range lists.now ≡ true }
    ensures fits { IfOk result (λ test. FitsTest test) }
    ensures holds { IfOk result (λ test. (r : RouteParts) → InRange r → test_holds (condition_holds r) test ≡ list_any (λ l. first_match l.entries r.prefix) lists.now) }
{
    let planned = prefix_lists(alloc, RouteAddress::Destination, lists)?;
    let test = simplified(alloc, planned)?;
    Ok(test)
}

// A list permits the next hop.
#[tactic(auto, using(crate::proofs::AtomLaws::full_in_range))]
fn next_hop(alloc: Global, lists: &[PrefixList]) -> Result<PlannedTest, Memory>
    requires { list_all (λ l. list_in_range l && is_full_length l) lists.now ≡ true }
    ensures fits { IfOk result (λ test. FitsTest test) }
    ensures holds { IfOk result (λ test. (r : RouteParts) → InRange r → test_holds (condition_holds r) test ≡ list_any (λ l. hop_match l.entries r.next_hop) lists.now) }
{
    let planned = prefix_lists(alloc, RouteAddress::NextHop, lists)?;
    let test = simplified(alloc, planned)?;
    Ok(test)
}

// A list permits the path.
fn path(alloc: Global, lists: &[PathList]) -> Result<PlannedTest, Memory>
    ensures fits { IfOk result (λ test. FitsTest test) }
    ensures holds { IfOk result (λ test. (r : RouteParts) → InRange r → test_holds (condition_holds r) test ≡ list_any (λ l. path_answers l.entries r.path) lists.now) }
{
    let planned = path_lists(alloc, lists)?;
    let test = simplified(alloc, planned)?;
    Ok(test)
}

// A list permits the communities.
fn communities(alloc: Global, lists: &[CommList]) -> Result<PlannedTest, Memory>
    requires { lists_are is_plain_all_of lists.now ≡ true }
    ensures fits { IfOk result (λ test. FitsTest test) }
    ensures holds { IfOk result (λ test. (r : RouteParts) → InRange r → test_holds (condition_holds r) test ≡ list_any (λ l. list_answers l.entries r.communities) lists.now) }
{
    let planned = comm_lists(alloc, lists)?;
    let test = simplified(alloc, planned)?;
    Ok(test)
}

// The MED is one of the numbers.
fn med(alloc: Global, numbers: &[u32]) -> Result<PlannedTest, Memory>
    ensures fits { IfOk result (λ test. FitsTest test) }
    ensures holds { IfOk result (λ test. (r : RouteParts) → InRange r → test_holds (condition_holds r) test ≡ list_any (λ n. r.med == n) numbers.now) }
{
    let entries = med_entries(alloc, numbers)?;
    let mut planned = Row::new(alloc);
    planned.push(PlannedList { entries })?;
    let test = simplified(alloc, planned)?;
    Ok(test)
}

/// What a test that a text of Junos can say asks: it holds exactly where the test does. The one error is want of memory.
pub(crate) fn planned_test(alloc: Global, atom: &Atom) -> Result<PlannedTest, Memory>
    requires { junos_atom atom.now ≡ true }
    ensures fits { IfOk result (λ test. FitsTest test) }
    ensures holds { IfOk result (λ test. (r : RouteParts) → InRange r → test_holds (condition_holds r) test ≡ atom_holds atom.now r) }
{
    match atom {
        Atom::Prefix(lists) => destination(alloc, lists.as_slice()),
        Atom::NextHop(lists) => next_hop(alloc, lists.as_slice()),
        Atom::Path(lists) => path(alloc, lists.as_slice()),
        Atom::Community(lists) => communities(alloc, lists.as_slice()),
        Atom::MedOneOf(numbers) => med(alloc, numbers.as_slice()),
        Atom::MedAtLeast(_) => unreachable!(),
        Atom::MedAtMost(_) => unreachable!(),
        Atom::LocalPreference(number) => {
            Ok(PlannedTest::Asked(PlannedCondition::LocalPreference(*number)))
        }
        Atom::Origin(origin) => Ok(PlannedTest::Asked(PlannedCondition::Origin(*origin))),
        Atom::NoCommunity => unreachable!(),
    }
}
