ghost use Rattle.std.specs.Prelude.{◌≡◌, ◌==◌, IfOk};
ghost use Rattle.std.specs.List.{list_any};
ghost use Rattle.prefix_sets.specs.FirstMatch.{first_match, hop_match};
ghost use Rattle.community_sets.specs.Tests.{list_answers};
ghost use Rattle.core_nodes.specs.Atoms.{path_answers, same_origin, is_empty, atom_holds};

use crate::atom::{Atom, PathEntry, PathList};
use aspath_text::matches;
use community_sets::{CommList, list_holds};
use prefix_sets::{PrefixList, holds, holds_next_hop};
use route_types::{Community, Memory, NextHop, Origin, Prefix, Route};
use std::alloc::Global;

fn some_holds(lists: &[PrefixList], prefix: &Prefix) -> bool
    ensures { result ≡ list_any (λ l. first_match l.entries prefix.now) lists.now }
{
    lists.iter().any(|list| holds(list, prefix))
}

fn some_holds_hop(lists: &[PrefixList], next_hop: &NextHop) -> bool
    ensures { result ≡ list_any (λ l. hop_match l.entries next_hop.now) lists.now }
{
    lists.iter().any(|list| holds_next_hop(list, next_hop))
}

fn some_holds_set(lists: &[CommList], communities: &[Community]) -> bool
    ensures { result ≡ list_any (λ l. list_answers l.entries communities.now) lists.now }
{
    lists.iter().any(|list| list_holds(list, communities))
}

fn is_one_of(number: u32, numbers: &[u32]) -> bool
    ensures { result ≡ list_any (λ n. number == n) numbers.now }
{
    numbers.iter().any(|one| number == *one)
}

fn same_origin(one: Origin, other: Origin) -> bool
    ensures { result ≡ same_origin one other }
{
    one == other
}

// Whether there is no community.
fn is_empty(communities: &[Community]) -> bool
    ensures { result ≡ is_empty communities.now }
{
    communities.is_empty()
}

// Whether the first entry whose pattern matches the path permits it.
#[tactic(auto, unfolding(crate::specs::Atoms::path_answers))]
fn path_permitted(alloc: Global, entries: &[PathEntry], path: &[u32]) -> Result<bool, Memory>
    ensures { IfOk result (λ answer. answer ≡ path_answers entries.now path.now) }
{
    let mut rest = entries;
    while let [first, tail @ ..] = rest {
        if matches(alloc, &first.pattern, path)? {
            return Ok(first.permit);
        }
        rest = tail;
    }
    Ok(false)
}

// Whether one of the lists permits the path.
fn some_permits(alloc: Global, lists: &[PathList], path: &[u32]) -> Result<bool, Memory>
    ensures { IfOk result (λ answer. answer ≡ list_any (λ l. path_answers l.entries path.now) lists.now) }
{
    let mut rest = lists;
    while let [first, tail @ ..] = rest {
        if path_permitted(alloc, first.entries.as_slice(), path)? {
            return Ok(true);
        }
        rest = tail;
    }
    Ok(false)
}

/// Whether the test holds on the route. The one error is want of memory.
pub fn atom_holds(alloc: Global, atom: &Atom, route: &Route) -> Result<bool, Memory>
    ensures { IfOk result (λ answer. answer ≡ atom_holds atom.now route.now) }
{
    match atom {
        Atom::Prefix(lists) => Ok(some_holds(lists.as_slice(), route.prefix())),
        Atom::NextHop(lists) => Ok(some_holds_hop(lists.as_slice(), route.next_hop())),
        Atom::Path(lists) => some_permits(alloc, lists.as_slice(), route.path()),
        Atom::Community(lists) => Ok(some_holds_set(lists.as_slice(), route.communities())),
        Atom::MedOneOf(numbers) => Ok(is_one_of(route.med(), numbers.as_slice())),
        Atom::MedAtLeast(number) => Ok(*number <= route.med()),
        Atom::MedAtMost(number) => Ok(route.med() <= *number),
        Atom::LocalPreference(number) => Ok(route.local_preference() == *number),
        Atom::Origin(origin) => Ok(same_origin(*route.origin(), *origin)),
        Atom::NoCommunity => Ok(is_empty(route.communities())),
    }
}
