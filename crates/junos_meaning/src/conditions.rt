//! What conditions answer on the route as changed so far.
ghost use Rattle.std.specs.Prelude.{◌≡◌, ◌==◌, ◌&&◌, not, ℕ, List, IfOk, map, reverse, codes, bytes_eq};
ghost use Rattle.std.specs.List.{list_any, list_all};
ghost use Rattle.route_types.specs.Community.{fits, set_of};
ghost use Rattle.route_drafts.specs.Drafts.{route_of};
ghost use Rattle.community_sets.specs.Tests.{all_fitted};
ghost use Rattle.junos_reader.specs.Facts.{forms_of};
ghost use Rattle.junos_meaning.specs.Conditions.{is_member, passes_list, pattern_holds, is_hop, same_origin, condition_holds, is_of, one_holds, kinds};
ghost use Rattle.junos_meaning.specs.Maps.{IsWorld};
ghost use Rattle.junos_meaning.specs.Sets.{list_members, community_members, path_pattern};
ghost use Rattle.junos_tree.specs.declared.item.Condition.{Condition as SpecCondition};

use crate::kinds::Kind;
use crate::lists::same_address;
use crate::world::{World, list_answers, members_of, pattern_of};
use aspath_text::matches;
use junos_reader::{Condition, ListFilter};
use route_drafts::Draft;
use route_types::{Address, Community, Memory, NextHop, Origin, Rect, Row};
use std::alloc::Global;

// ---- one condition

fn is_bgp(name: &[u8]) -> bool
    ensures { result ≡ bytes_eq (codes "bgp") name.now }
{
    b"bgp".as_slice() == name
}

fn some_bgp(names: &[Row<u8>]) -> bool
    ensures { result ≡ list_any (bytes_eq (codes "bgp")) names.now }
{
    names.iter().any(|name| is_bgp(name.as_slice()))
}

fn some_fits(member: &Rect, communities: &[Community]) -> bool
    ensures { result ≡ list_any (λ c. fits member.now c) communities.now }
{
    communities.iter().any(|community| member.fits(community))
}

// Whether some community of the set of these fits the member.
fn is_fitted(member: &Rect, communities: &[Community]) -> bool
    ensures { result ≡ list_any (λ c. fits member.now c) (set_of communities.now) }
{
    some_fits(member, communities)
}

fn all_fitted(members: &[Rect], communities: &[Community]) -> bool
    ensures { result ≡ all_fitted members.now (set_of communities.now) }
{
    members.iter().all(|member| is_fitted(member, communities))
}

fn some_community<'a>(world: &World<'a>, communities: &[Community], names: &'a [Row<u8>]) -> bool
    requires { IsWorld world.now }
    ensures { result ≡ list_any (λ name. all_fitted (community_members (forms_of world.now.items.now) name) (set_of communities.now)) names.now }
{
    let mut rest = names;
    while let [first, tail @ ..] = rest {
        if all_fitted(members_of(world, first.as_slice()), communities) {
            return true;
        }
        rest = tail;
    }
    false
}

fn path_holds<'a>(
    alloc: Global,
    world: &World<'a>,
    path: &[u32],
    name: &'a [u8],
) -> Result<bool, Memory>
    requires { IsWorld world.now }
    ensures { IfOk result (λ b. b ≡ pattern_holds (path_pattern (forms_of world.now.items.now) name.now) path.now) }
{
    match pattern_of(world, name) {
        Some(pattern) => {
            let found = matches(alloc, pattern, path)?;
            Ok(found)
        }
        None => Ok(false),
    }
}

fn some_path<'a>(
    alloc: Global,
    world: &World<'a>,
    path: &[u32],
    names: &'a [Row<u8>],
) -> Result<bool, Memory>
    requires { IsWorld world.now }
    ensures { IfOk result (λ b. b ≡ list_any (λ name. pattern_holds (path_pattern (forms_of world.now.items.now) name) path.now) names.now) }
{
    let mut rest = names;
    while let [first, tail @ ..] = rest {
        if path_holds(alloc, world, path, first.as_slice())? {
            return Ok(true);
        }
        rest = tail;
    }
    Ok(false)
}

// The numbers of a path that stands from its far end, the nearest one first.
fn forwards(alloc: Global, path: &[u32]) -> Result<Vec<u32>, Memory>
    ensures { IfOk result (λ v. v.items ≡ reverse path.now) }
{
    let mut numbers = Vec::from_slice(alloc, path)?;
    numbers.reverse();
    Ok(numbers)
}

fn path_is_among<'a>(
    alloc: Global,
    world: &World<'a>,
    draft: &Draft,
    names: &'a [Row<u8>],
) -> Result<bool, Memory>
    requires { IsWorld world.now }
    ensures { IfOk result (λ b. b ≡ condition_holds (forms_of world.now.items.now) (route_of world.now.prefix.now draft.now) (SpecCondition.AsPath names.now)) }
{
    let path = forwards(alloc, draft.path.as_slice())?;
    some_path(alloc, world, path.as_slice(), names)
}

fn is_hop(next_hop: &NextHop, address: &Address) -> bool
    ensures { result ≡ is_hop next_hop.now address.now }
{
    match next_hop {
        NextHop::At(found) => same_address(found, address),
        NextHop::Own => false,
    }
}

fn some_hop(next_hop: &NextHop, hops: &[Address]) -> bool
    ensures { result ≡ list_any (is_hop next_hop.now) hops.now }
{
    hops.iter().any(|hop| is_hop(next_hop, hop))
}

fn some_list<'a>(world: &World<'a>, names: &'a [Row<u8>]) -> bool
    requires { IsWorld world.now }
    ensures { result ≡ list_any (λ name. is_member (list_members (forms_of world.now.items.now) name) world.now.prefix.now) names.now }
{
    let mut rest = names;
    while let [first, tail @ ..] = rest {
        if list_answers(world, first.as_slice()).member {
            return true;
        }
        rest = tail;
    }
    false
}

fn passes_list<'a>(world: &World<'a>, filter: &'a ListFilter) -> bool
    requires { IsWorld world.now }
    ensures { result ≡ passes_list filter.now.or_longer (list_members (forms_of world.now.items.now) filter.now.list) world.now.prefix.now }
{
    let answers = list_answers(world, filter.list.as_slice());
    if filter.or_longer {
        return answers.within;
    }
    answers.member
}

fn same_origin(one: &Origin, other: &Origin) -> bool
    ensures { result ≡ same_origin one.now other.now }
{
    match (one, other) {
        (Origin::Igp, Origin::Igp) => true,
        (Origin::Egp, Origin::Egp) => true,
        (Origin::Incomplete, Origin::Incomplete) => true,
        _ => false,
    }
}

// Whether a condition holds, route-filters and `policy` conditions aside.
fn condition_holds<'a>(
    alloc: Global,
    world: &World<'a>,
    draft: &Draft,
    condition: &'a Condition,
) -> Result<bool, Memory>
    requires { IsWorld world.now }
    ensures { IfOk result (λ b. b ≡ condition_holds (forms_of world.now.items.now) (route_of world.now.prefix.now draft.now) condition.now) }
{
    match condition {
        Condition::Protocol(names) => Ok(some_bgp(names.as_slice())),
        Condition::Community(names) => Ok(some_community(
            world,
            draft.communities.as_slice(),
            names.as_slice(),
        )),
        Condition::AsPath(names) => path_is_among(alloc, world, draft, names.as_slice()),
        Condition::NextHop(hops) => Ok(some_hop(&draft.next_hop, hops.as_slice())),
        Condition::PrefixList(names) => Ok(some_list(world, names.as_slice())),
        Condition::ListFilter(filter) => Ok(passes_list(world, filter)),
        Condition::Metric(number) => Ok(draft.med == *number),
        Condition::LocalPreference(number) => Ok(draft.local_preference == *number),
        Condition::Origin(origin) => Ok(same_origin(&draft.origin, origin)),
        Condition::RouteFilter(_) | Condition::Policy(_) => Ok(true),
    }
}

// ---- conditions of one kind

fn is_of(kind: Kind, condition: &Condition) -> bool
    ensures { result ≡ is_of kind condition.now }
{
    match (kind, condition) {
        (Kind::OfProtocol, Condition::Protocol(_)) => true,
        (Kind::OfCommunity, Condition::Community(_)) => true,
        (Kind::OfPath, Condition::AsPath(_)) => true,
        (Kind::OfNextHop, Condition::NextHop(_)) => true,
        (Kind::OfPrefixList, Condition::PrefixList(_)) => true,
        (Kind::OfExactFilter, Condition::ListFilter(filter)) => !filter.or_longer,
        (Kind::OfLongerFilter, Condition::ListFilter(filter)) => filter.or_longer,
        (Kind::OfMetric, Condition::Metric(_)) => true,
        (Kind::OfLocalPreference, Condition::LocalPreference(_)) => true,
        (Kind::OfOrigin, Condition::Origin(_)) => true,
        _ => false,
    }
}

fn some_are(kind: Kind, conditions: &[&Condition]) -> bool
    ensures { result ≡ list_any (is_of kind) (map (λ c. c.now) conditions.now) }
{
    let mut rest = conditions;
    while let [first, tail @ ..] = rest {
        if is_of(kind, first) {
            return true;
        }
        rest = tail;
    }
    false
}

fn some_hold<'a>(
    alloc: Global,
    world: &World<'a>,
    draft: &Draft,
    kind: Kind,
    conditions: &[&'a Condition],
) -> Result<bool, Memory>
    requires { IsWorld world.now }
    ensures { IfOk result (λ b. b ≡ list_any (λ c. is_of kind c && condition_holds (forms_of world.now.items.now) (route_of world.now.prefix.now draft.now) c) (map (λ c. c.now) conditions.now)) }
{
    let mut rest = conditions;
    while let [first, tail @ ..] = rest {
        if is_of(kind, first) && condition_holds(alloc, world, draft, first)? {
            return Ok(true);
        }
        rest = tail;
    }
    Ok(false)
}

// Whether of the conditions of a kind one holds, or there is none.
fn one_holds<'a>(
    alloc: Global,
    world: &World<'a>,
    draft: &Draft,
    kind: Kind,
    conditions: &[&'a Condition],
) -> Result<bool, Memory>
    requires { IsWorld world.now }
    ensures { IfOk result (λ b. b ≡ one_holds (is_of kind) (condition_holds (forms_of world.now.items.now) (route_of world.now.prefix.now draft.now)) (map (λ c. c.now) conditions.now)) }
{
    if !some_are(kind, conditions) {
        return Ok(true);
    }
    some_hold(alloc, world, draft, kind, conditions)
}

// Whether of the conditions of each of these kinds one holds.
fn all_hold<'a>(
    alloc: Global,
    world: &World<'a>,
    draft: &Draft,
    kinds: &[Kind],
    conditions: &[&'a Condition],
) -> Result<bool, Memory>
    requires { IsWorld world.now }
    ensures { IfOk result (λ b. b ≡ list_all (λ kind. one_holds (is_of kind) (condition_holds (forms_of world.now.items.now) (route_of world.now.prefix.now draft.now)) (map (λ c. c.now) conditions.now)) kinds.now) }
{
    let mut rest = kinds;
    while let [first, tail @ ..] = rest {
        if !one_holds(alloc, world, draft, *first, conditions)? {
            return Ok(false);
        }
        rest = tail;
    }
    Ok(true)
}

/// Whether of the conditions of each kind one holds, route-filters and `policy` conditions aside.
pub(crate) fn plain_hold<'a>(
    alloc: Global,
    world: &World<'a>,
    draft: &Draft,
    conditions: &[&'a Condition],
) -> Result<bool, Memory>
    requires { IsWorld world.now }
    ensures { IfOk result (λ b. b ≡ list_all (λ kind. one_holds (is_of kind) (condition_holds (forms_of world.now.items.now) (route_of world.now.prefix.now draft.now)) (map (λ c. c.now) conditions.now)) kinds) }
{
    let kinds: &[Kind] = &[
        Kind::OfProtocol,
        Kind::OfCommunity,
        Kind::OfPath,
        Kind::OfNextHop,
        Kind::OfPrefixList,
        Kind::OfExactFilter,
        Kind::OfLongerFilter,
        Kind::OfMetric,
        Kind::OfLocalPreference,
        Kind::OfOrigin,
    ];
    all_hold(alloc, world, draft, kinds, conditions)
}
