// Tests of single values: decided where the value is set.
ghost use Rattle.std.specs.Prelude.{◌≡◌, nat_le, ◌==◌, IfOk};
ghost use Rattle.std.specs.List.{list_any};
ghost use Rattle.prefix_sets.specs.FirstMatch.{hop_match};
ghost use Rattle.core_nodes.specs.Atoms.{same_origin};
ghost use Rattle.resolved_tests.specs.Answers.{of_set, decided_by, decided_or};

use crate::answer::Answer;
use core_nodes::Atom;
use pending_changes::Pending;
use prefix_sets::{PrefixList, holds_next_hop};
use route_types::{Duplicate, Memory, NextHop, Origin};
use std::alloc::Global;

/// What is decided of a test of a single value, else the test itself. The one error is want of memory.
pub(crate) fn value_answer(alloc: Global, pending: &Pending, atom: &Atom) -> Result<Answer, Memory>
    ensures { IfOk result (λ answer. answer ≡ decided_or (decided_by pending.now atom.now) atom.now) }
{
    let answer = decided_or(alloc, decided_by(pending, atom), atom)?;
    Ok(answer)
}

fn decided_or(alloc: Global, decided: Option<bool>, atom: &Atom) -> Result<Answer, Memory>
    ensures { IfOk result (λ answer. answer ≡ decided_or decided atom.now) }
{
    match decided {
        None => {
            let copied = atom.duplicate(alloc)?;
            Ok(Answer::Asked(copied))
        }
        Some(holds) => Ok(Answer::Decided(holds)),
    }
}

fn decided_by(pending: &Pending, atom: &Atom) -> Option<bool>
    ensures { result ≡ decided_by pending.now atom.now }
{
    match atom {
        Atom::Prefix(_) => None,
        Atom::NextHop(lists) => of_next_hop(pending.next_hop, lists.as_slice()),
        Atom::Path(_) => None,
        Atom::Community(_) => None,
        Atom::MedOneOf(numbers) => of_med(pending.med, numbers.as_slice()),
        Atom::MedAtLeast(number) => of_least(pending.med, *number),
        Atom::MedAtMost(number) => of_most(pending.med, *number),
        Atom::LocalPreference(number) => of_preference(pending.local_preference, *number),
        Atom::Origin(origin) => of_origin(pending.origin, *origin),
        Atom::NoCommunity => None,
    }
}

fn some_holds_hop(lists: &[PrefixList], next_hop: NextHop) -> bool
    ensures { result ≡ list_any (λ l. hop_match l.entries next_hop) lists.now }
{
    lists.iter().any(|list| holds_next_hop(list, &next_hop))
}

fn of_next_hop(set: Option<NextHop>, lists: &[PrefixList]) -> Option<bool>
    ensures { result ≡ of_set (λ h. list_any (λ l. hop_match l.entries h) lists.now) set }
{
    match set {
        None => None,
        Some(next_hop) => Some(some_holds_hop(lists, next_hop)),
    }
}

fn is_one_of(number: u32, numbers: &[u32]) -> bool
    ensures { result ≡ list_any (λ n. number == n) numbers.now }
{
    numbers.iter().any(|one| number == *one)
}

fn of_med(set: Option<u32>, numbers: &[u32]) -> Option<bool>
    ensures { result ≡ of_set (λ m. list_any (λ n. m == n) numbers.now) set }
{
    match set {
        None => None,
        Some(med) => Some(is_one_of(med, numbers)),
    }
}

fn of_least(set: Option<u32>, number: u32) -> Option<bool>
    ensures { result ≡ of_set (λ m. nat_le number m) set }
{
    match set {
        None => None,
        Some(med) => Some(number <= med),
    }
}

fn of_most(set: Option<u32>, number: u32) -> Option<bool>
    ensures { result ≡ of_set (λ m. nat_le m number) set }
{
    match set {
        None => None,
        Some(med) => Some(med <= number),
    }
}

fn of_preference(set: Option<u32>, number: u32) -> Option<bool>
    ensures { result ≡ of_set (λ m. m == number) set }
{
    match set {
        None => None,
        Some(preference) => Some(preference == number),
    }
}

fn of_origin(set: Option<Origin>, origin: Origin) -> Option<bool>
    ensures { result ≡ of_set (λ x. same_origin x origin) set }
{
    match set {
        None => None,
        Some(set) => Some(same_origin(set, origin)),
    }
}

fn same_origin(one: Origin, other: Origin) -> bool
    ensures { result ≡ same_origin one other }
{
    one == other
}
