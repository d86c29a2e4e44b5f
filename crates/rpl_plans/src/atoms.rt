// The terms of a test: those of each of its lists, in order.
ghost use Rattle.std.specs.Prelude.{◌≡◌, ◌||◌, ◌==◌, true, IfOk};
ghost use Rattle.std.specs.List.{list_any, list_all, AllByRecursion};
ghost use Rattle.path_patterns.specs.Items.{IsPath};
ghost use Rattle.community_sets.specs.Tests.{list_answers};
ghost use Rattle.core_nodes.specs.Atoms.{path_answers, atom_holds};
ghost use Rattle.policy_core.specs.Ranges.{list_in_range};
ghost use Rattle.policy_core.specs.Sayable.{is_all_of, lists_are, rpl_atom};
ghost use Rattle.prefix_sets.specs.FirstMatch.{first_match, hop_match};
ghost use Rattle.route_types.specs.Route.{RouteParts, InRange};
ghost use Rattle.rpl_plans.specs.Choices.{term_holds, terms_hold, alone};
ghost use Rattle.rpl_plans.specs.Entries.{prefix_terms, comm_terms, med_terms};
ghost use Rattle.rpl_plans.specs.Fits.{FitsTest, FitsTerm, FitsTerms};
ghost use Rattle.rpl_plans.specs.Holds.{planned_holds};

use crate::choice::{PlannedTerm, PlannedTerms};
use crate::entries::{comm_choices, prefix_choices};
use crate::paths::path_choices;
use crate::terms::{or_never, push_terms};
use crate::test::{PlannedTest, RouteAddress};
use community_sets::CommList;
use core_nodes::{Atom, PathList};
use prefix_sets::PrefixList;
use route_types::{Memory, Row};
use std::alloc::Global;

// The terms of prefix lists.
#[tactic(auto, unfolding(crate::specs::Entries::prefix_terms))]
fn prefix_terms(
    alloc: Global,
    asked: RouteAddress,
    lists: &[PrefixList],
) -> Result<Row<PlannedTerm>, Memory>
    requires { list_all list_in_range lists.now ≡ true }
    ensures same { IfOk result (λ found. found ≡ prefix_terms asked lists.now) }
    ensures fits { IfOk result (λ found. AllByRecursion FitsTerm found) }
{
    let mut found = Row::new(alloc);
    let mut rest = lists;
    while let [first, tail @ ..] = rest {
        let choices = prefix_choices(alloc, asked, first.entries.as_slice())?;
        push_terms(alloc, &mut found, choices.as_slice())?;
        rest = tail;
    }
    Ok(found)
}

// The terms of community lists.
#[tactic(auto, unfolding(crate::specs::Entries::comm_terms))]
fn comm_terms(alloc: Global, lists: &[CommList]) -> Result<Row<PlannedTerm>, Memory>
    ensures same { IfOk result (λ found. found ≡ comm_terms lists.now) }
    ensures fits { IfOk result (λ found. AllByRecursion FitsTerm found) }
{
    let mut found = Row::new(alloc);
    let mut rest = lists;
    while let [first, tail @ ..] = rest {
        let choices = comm_choices(alloc, first.entries.as_slice())?;
        push_terms(alloc, &mut found, choices.as_slice())?;
        rest = tail;
    }
    Ok(found)
}

// Adds the terms of a path list.
fn push_path_list(
    alloc: Global,
    found: &mut Row<PlannedTerm>,
    list: &PathList,
) -> Result<(), Memory>
    ensures fits { IfOk result (λ _. AllByRecursion FitsTerm found.old → AllByRecursion FitsTerm found.new) }
    ensures holds { IfOk result (λ _. (r : RouteParts) → IsPath r.path → list_any (term_holds (planned_holds r)) found.new ≡ (list_any (term_holds (planned_holds r)) found.old || path_answers list.now.entries r.path)) }
{
    let choices = path_choices(alloc, list.entries.as_slice())?;
    push_terms(alloc, found, choices.as_slice())?;
    Ok(())
}

// The terms of path lists.
fn path_terms(alloc: Global, lists: &[PathList]) -> Result<Row<PlannedTerm>, Memory>
    ensures fits { IfOk result (λ found. AllByRecursion FitsTerm found) }
    ensures holds { IfOk result (λ found. (r : RouteParts) → IsPath r.path → list_any (term_holds (planned_holds r)) found ≡ list_any (λ l. path_answers l.entries r.path) lists.now) }
{
    let mut found = Row::new(alloc);
    let mut rest = lists;
    while let [first, tail @ ..] = rest {
        push_path_list(alloc, &mut found, first)?;
        rest = tail;
    }
    Ok(found)
}

// One test as terms.
fn alone(alloc: Global, test: PlannedTest) -> PlannedTerms
    ensures same { result ≡ alone test }
    ensures fits { FitsTest test → FitsTerms result }
{
    PlannedTerms {
        first: PlannedTerm {
            denied: Row::new(alloc),
            permitted: test,
        },
        others: Row::new(alloc),
    }
}

// The terms of numbers of which the MED is one.
#[tactic(auto, using(crate::proofs::FitLaws::all_with), unfolding(crate::specs::Entries::med_terms))]
fn med_terms(alloc: Global, numbers: &[u32]) -> Result<Row<PlannedTerm>, Memory>
    ensures same { IfOk result (λ found. found ≡ med_terms numbers.now) }
    ensures fits { IfOk result (λ found. AllByRecursion FitsTerm found) }
{
    let mut found = Row::new(alloc);
    let mut rest = numbers;
    while let [first, tail @ ..] = rest {
        found.push(PlannedTerm {
            denied: Row::new(alloc),
            permitted: PlannedTest::MedIs(*first),
        })?;
        rest = tail;
    }
    Ok(found)
}

// A list permits the destination.
fn destination(alloc: Global, lists: &[PrefixList]) -> Result<PlannedTerms, Memory>
    requires { list_all list_in_range lists.now ≡ true }
    ensures fits { IfOk result (λ ts. FitsTerms ts) }
    ensures holds { IfOk result (λ ts. (r : RouteParts) → InRange r → terms_hold (planned_holds r) ts ≡ list_any (λ l. first_match l.entries r.prefix) lists.now) }
{
    let terms = prefix_terms(alloc, RouteAddress::Destination, lists)?;
    let never = PlannedTest::Destination(Row::new(alloc));
    Ok(or_never(alloc, never, terms))
}

// A list permits the next hop.
fn next_hop(alloc: Global, lists: &[PrefixList]) -> Result<PlannedTerms, Memory>
    requires { list_all list_in_range lists.now ≡ true }
    ensures fits { IfOk result (λ ts. FitsTerms ts) }
    ensures holds { IfOk result (λ ts. (r : RouteParts) → InRange r → terms_hold (planned_holds r) ts ≡ list_any (λ l. hop_match l.entries r.next_hop) lists.now) }
{
    let terms = prefix_terms(alloc, RouteAddress::NextHop, lists)?;
    let never = PlannedTest::NextHop(Row::new(alloc));
    Ok(or_never(alloc, never, terms))
}

// A list permits the path.
fn path(alloc: Global, lists: &[PathList]) -> Result<PlannedTerms, Memory>
    ensures fits { IfOk result (λ ts. FitsTerms ts) }
    ensures holds { IfOk result (λ ts. (r : RouteParts) → InRange r → terms_hold (planned_holds r) ts ≡ list_any (λ l. path_answers l.entries r.path) lists.now) }
{
    let terms = path_terms(alloc, lists)?;
    let never = PlannedTest::PathIn(Row::new(alloc));
    Ok(or_never(alloc, never, terms))
}

// A list permits the communities.
fn communities(alloc: Global, lists: &[CommList]) -> Result<PlannedTerms, Memory>
    requires { lists_are is_all_of lists.now ≡ true }
    ensures fits { IfOk result (λ ts. FitsTerms ts) }
    ensures holds { IfOk result (λ ts. (r : RouteParts) → InRange r → terms_hold (planned_holds r) ts ≡ list_any (λ l. list_answers l.entries r.communities) lists.now) }
{
    let terms = comm_terms(alloc, lists)?;
    let never = PlannedTest::MatchesAny(Row::new(alloc));
    Ok(or_never(alloc, never, terms))
}

// The MED is one of the numbers.
fn med(alloc: Global, numbers: &[u32]) -> Result<PlannedTerms, Memory>
    ensures fits { IfOk result (λ ts. FitsTerms ts) }
    ensures holds { IfOk result (λ ts. (r : RouteParts) → InRange r → terms_hold (planned_holds r) ts ≡ list_any (λ n. r.med == n) numbers.now) }
{
    let terms = med_terms(alloc, numbers)?;
    let never = PlannedTest::Destination(Row::new(alloc));
    Ok(or_never(alloc, never, terms))
}

/// The terms of a test that a text of RPL can say, of which one holds exactly where the test does. The one error is want of
/// memory.
pub fn planned_terms(alloc: Global, atom: &Atom) -> Result<PlannedTerms, Memory>
    requires { rpl_atom atom.now ≡ true }
    ensures fits { IfOk result (λ ts. FitsTerms ts) }
    ensures holds { IfOk result (λ ts. (r : RouteParts) → InRange r → terms_hold (planned_holds r) ts ≡ atom_holds atom.now r) }
{
    match atom {
        Atom::Prefix(lists) => destination(alloc, lists.as_slice()),
        Atom::NextHop(lists) => next_hop(alloc, lists.as_slice()),
        Atom::Path(lists) => path(alloc, lists.as_slice()),
        Atom::Community(lists) => communities(alloc, lists.as_slice()),
        Atom::MedOneOf(numbers) => med(alloc, numbers.as_slice()),
        Atom::MedAtLeast(number) => Ok(alone(alloc, PlannedTest::MedAtLeast(*number))),
        Atom::MedAtMost(number) => Ok(alone(alloc, PlannedTest::MedAtMost(*number))),
        Atom::LocalPreference(_) => unreachable!(),
        Atom::Origin(origin) => Ok(alone(alloc, PlannedTest::Origin(*origin))),
        Atom::NoCommunity => Ok(alone(alloc, PlannedTest::NoCommunity)),
    }
}
