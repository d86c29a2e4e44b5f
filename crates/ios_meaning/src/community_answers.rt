// What the community lists of a tree answer on the communities of a route.
ghost use Rattle.std.specs.Prelude.{◌≡◌, ◌==◌, ℕ, List, None, IfOk};
ghost use Rattle.std.specs.List.{list_any, list_all};
ghost use Rattle.std.specs.List.Sorted.{IsSortedByKey};
ghost use Rattle.std.specs.Ordering.{nat_cmp};
ghost use Rattle.route_types.specs.Community.{IsAscending, fits};
ghost use Rattle.community_sets.specs.Tests.{test_holds, same_set};
ghost use Rattle.ios_meaning.specs.Lists.{test_of};
ghost use Rattle.ios_meaning.specs.Answers.{answered_from, held_at, answers_at};

use ios_reader::{CommunityShape, IosForm, IosItem};
use name_maps::NameMap;
use route_types::{Community, Memory, Rect, Row};
use std::alloc::Global;

// Whether one of these communities, which are in order, is this one.
fn is_member(ordered: &[Community], community: &Community) -> bool
    requires { IsSortedByKey (λ c. c.0) nat_cmp ordered.now }
    ensures { result ≡ list_any (λ c. c.0 == community.now.0) ordered.now }
{
    ordered.binary_search(community).is_ok()
}

// Whether all members are among these communities, which are in order.
fn are_members(ordered: &[Community], members: &[Community]) -> bool
    requires { IsSortedByKey (λ c. c.0) nat_cmp ordered.now }
    ensures { result ≡ list_all (λ m. list_any (λ c. c.0 == m.0) ordered.now) members.now }
{
    members.iter().all(|member| is_member(ordered, member))
}

// Whether members and communities, which are in order, are one set.
fn is_same_set(alloc: Global, members: &[Community], ordered: &[Community]) -> Result<bool, Memory>
    requires { IsSortedByKey (λ c. c.0) nat_cmp ordered.now }
    ensures { IfOk result (λ same. same ≡ same_set members.now ordered.now) }
{
    if !are_members(ordered, members) {
        return Ok(false);
    }
    let mut ordered_members = Vec::from_slice(alloc, members)?;
    ordered_members.sort_unstable();
    Ok(are_members(ordered_members.as_slice(), ordered))
}

// Whether some community lies in the rectangle.
fn some_fits(rect: &Rect, communities: &[Community]) -> bool
    ensures { result ≡ list_any (fits rect.now) communities.now }
{
    communities.iter().any(|community| rect.fits(community))
}

// Whether communities, which are in order, have what an entry asks for.
fn holds(
    alloc: Global,
    shape: &CommunityShape,
    exact: bool,
    ordered: &[Community],
) -> Result<bool, Memory>
    requires { IsSortedByKey (λ c. c.0) nat_cmp ordered.now }
    ensures { IfOk result (λ held. held ≡ test_holds (test_of exact shape.now) ordered.now) }
{
    match shape {
        CommunityShape::Standard(members) => {
            if exact {
                is_same_set(alloc, members.as_slice(), ordered)
            } else {
                Ok(are_members(ordered, members.as_slice()))
            }
        }
        CommunityShape::Expanded(rect) => Ok(some_fits(rect, ordered)),
    }
}

/// For each list its answer on communities, which are in order; no answer where no entry holds.
/// `exact` asks that a route has no other communities than an entry.
#[tactic(auto, unfolding(crate::specs::Answers::answered_from))]
pub fn answers<'a>(
    alloc: Global,
    items: &'a [IosItem],
    exact: bool,
    ordered: &[Community],
) -> Result<NameMap<'a, bool>, Memory>
    requires { IsSortedByKey (λ c. c.0) nat_cmp ordered.now }
    ensures { IfOk result (λ found. (q : List ℕ) → held_at found q ≡ answered_from exact ordered.now q None items.now) }
{
    let mut found = NameMap::new(alloc);
    let mut rest = items;
    while let [item, behind @ ..] = rest {
        if let IosForm::CommunityEntry(entry) = &item.form {
            if holds(alloc, &entry.shape, exact, ordered)? {
                found.put_first(entry.list.as_slice(), entry.permit)?;
            }
        }
        rest = behind;
    }
    Ok(found)
}

// The answer of the list of this name.
fn answer<'a>(found: &NameMap<'a, bool>, name: &'a [u8]) -> bool
    ensures { result ≡ answers_at found.now name.now }
{
    found.get(name).unwrap_or(false)
}

/// Whether some list of these names answers yes.
pub fn some_answers<'a>(found: &NameMap<'a, bool>, lists: &'a [Row<u8>]) -> bool
    ensures { result ≡ list_any (answers_at found.now) lists.now }
{
    let mut rest = lists;
    while let [list, behind @ ..] = rest {
        if answer(found, list.as_slice()) {
            return true;
        }
        rest = behind;
    }
    false
}
