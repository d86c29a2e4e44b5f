// What the lists of a tree answer on a route, and whether an entry holds for it.
ghost use Rattle.std.specs.Prelude.{◌≡◌, ◌==◌, ◌&&◌, IfOk, map};
ghost use Rattle.route_types.specs.Address.{same_family};
ghost use Rattle.std.specs.List.{list_any, list_all};
ghost use Rattle.ios_meaning.specs.Meaning.{next_hop_holds, line_holds};
ghost use Rattle.ios_meaning.specs.Answers.{permits_at, AreAnswers, ArePrefixAnswers, AreNextHopAnswers, AreCommunityAnswers, ArePathAnswers};

use crate::community_answers::{answers, some_answers};
use crate::path_answers::path_answers;
use crate::prefix_answers::{Deciding, deciding_entries, same_family, some_permits};
use ios_reader::{CommunityMatch, IosItem, MapLine, PathMatch, PrefixMatch};
use name_maps::NameMap;
use route_types::{Address, Family, Memory, NextHop, Prefix, Route};
use std::alloc::Global;

/// What the lists of a tree answer on a route, each found once.
#[derive(Drop)]
pub struct Answers<'a> {
    pub items: &'a [IosItem],
    pub route: &'a Route,
    pub prefix_lists: NameMap<'a, Deciding>,
    pub next_hop_lists: NameMap<'a, Deciding>,
    pub community_lists: NameMap<'a, bool>,
    pub exact_lists: NameMap<'a, bool>,
    pub path_lists: NameMap<'a, bool>,
}

// The answers of the prefix lists on the prefix of this address and length.
fn on_prefix<'a>(
    alloc: Global,
    items: &'a [IosItem],
    address: &Address,
    length: u8,
) -> Result<NameMap<'a, Deciding>, Memory>
    ensures { IfOk result (ArePrefixAnswers items.now (record { address = address.now; length = length })) }
{
    let found = deciding_entries(alloc, items, address, length)?;
    Ok(found)
}

// The answers of the prefix lists on a next hop.
fn on_next_hop<'a>(
    alloc: Global,
    items: &'a [IosItem],
    next_hop: &NextHop,
) -> Result<NameMap<'a, Deciding>, Memory>
    ensures { IfOk result (AreNextHopAnswers items.now next_hop.now) }
{
    match next_hop {
        NextHop::At(address) => on_prefix(alloc, items, address, address.family.width()),
        NextHop::Own => Ok(NameMap::new(alloc)),
    }
}

// The answers of the community lists on the communities of a route.
fn on_communities<'a>(
    alloc: Global,
    items: &'a [IosItem],
    exact: bool,
    route: &Route,
) -> Result<NameMap<'a, bool>, Memory>
    ensures { IfOk result (AreCommunityAnswers items.now exact route.now.communities) }
{
    let found = answers(alloc, items, exact, route.communities())?;
    Ok(found)
}

// The answers of the path lists on the path of a route.
fn on_path<'a>(
    alloc: Global,
    items: &'a [IosItem],
    route: &Route,
) -> Result<NameMap<'a, bool>, Memory>
    ensures { IfOk result (ArePathAnswers items.now route.now.path) }
{
    let found = path_answers(alloc, items, route.path())?;
    Ok(found)
}

/// The answers of the lists of a tree on a route.
pub fn answers_on<'a>(
    alloc: Global,
    items: &'a [IosItem],
    route: &'a Route,
) -> Result<Answers<'a>, Memory>
    ensures right { IfOk result AreAnswers }
    ensures items { IfOk result (λ a. a.items.now ≡ items.now) }
    ensures route { IfOk result (λ a. a.route.now ≡ route.now) }
{
    let prefix = route.prefix();
    let prefix_lists = on_prefix(alloc, items, &prefix.address(), prefix.length())?;
    let next_hop_lists = on_next_hop(alloc, items, route.next_hop())?;
    let community_lists = on_communities(alloc, items, false, route)?;
    let exact_lists = on_communities(alloc, items, true, route)?;
    let path_lists = on_path(alloc, items, route)?;
    Ok(Answers {
        items,
        route,
        prefix_lists,
        next_hop_lists,
        community_lists,
        exact_lists,
        path_lists,
    })
}

// Whether some list that the line names answers yes on an address of the family.
fn some_of_family<'a>(found: &NameMap<'a, Deciding>, line: &'a PrefixMatch, family: Family) -> bool
    ensures { result ≡ (same_family line.now.family family && list_any (permits_at found.now) line.now.lists) }
{
    same_family(line.family, family) && some_permits(found, line.lists.as_slice())
}

fn prefix_holds<'a>(answers: &Answers<'a>, line: &'a PrefixMatch) -> bool
    requires { AreAnswers answers.now }
    ensures { result ≡ line_holds answers.now.items.now answers.now.route.now (MapLine.MatchPrefix line.now) }
{
    let address = answers.route.prefix().address();
    some_of_family(&answers.prefix_lists, line, address.family)
}

fn next_hop_holds<'a>(answers: &Answers<'a>, line: &'a PrefixMatch) -> bool
    requires { AreAnswers answers.now }
    ensures { result ≡ line_holds answers.now.items.now answers.now.route.now (MapLine.MatchNextHop line.now) }
{
    match answers.route.next_hop() {
        NextHop::At(address) => some_of_family(&answers.next_hop_lists, line, address.family),
        NextHop::Own => false,
    }
}

fn communities_hold<'a>(answers: &Answers<'a>, line: &'a CommunityMatch) -> bool
    requires { AreAnswers answers.now }
    ensures { result ≡ line_holds answers.now.items.now answers.now.route.now (MapLine.MatchCommunity line.now) }
{
    if line.exact {
        some_answers(&answers.exact_lists, line.lists.as_slice())
    } else {
        some_answers(&answers.community_lists, line.lists.as_slice())
    }
}

// Whether some path list that the line names answers yes.
fn path_holds<'a>(answers: &Answers<'a>, line: &'a PathMatch) -> bool
    requires { AreAnswers answers.now }
    ensures { result ≡ line_holds answers.now.items.now answers.now.route.now (MapLine.MatchPath line.now) }
{
    some_answers(&answers.path_lists, line.lists.as_slice())
}

fn is_among(numbers: &[u32], number: u32) -> bool
    ensures { result ≡ list_any (λ n. n == number) numbers.now }
{
    numbers.iter().any(|n| *n == number)
}

// Whether a line holds for the route; one that tests nothing does.
fn line_holds<'a>(answers: &Answers<'a>, line: &'a MapLine) -> bool
    requires { AreAnswers answers.now }
    ensures { result ≡ line_holds answers.now.items.now answers.now.route.now line.now }
{
    match line {
        MapLine::MatchPrefix(named) => prefix_holds(answers, named),
        MapLine::MatchNextHop(named) => next_hop_holds(answers, named),
        MapLine::MatchCommunity(named) => communities_hold(answers, named),
        MapLine::MatchPath(named) => path_holds(answers, named),
        MapLine::MatchMetric(numbers) => is_among(numbers.as_slice(), answers.route.med()),
        MapLine::SetLocalPreference(_) | MapLine::SetMetric(_) | MapLine::SetWeight(_) => true,
        MapLine::SetPrepend(_) | MapLine::SetOrigin(_) | MapLine::SetNextHop(_) => true,
        MapLine::SetCommunity(_) | MapLine::DeleteCommunities(_) => true,
        MapLine::Continue(_) | MapLine::Description => true,
    }
}

/// Whether all lines of an entry hold for the route.
pub fn lines_hold<'a>(answers: &Answers<'a>, lines: &[&'a MapLine]) -> bool
    requires { AreAnswers answers.now }
    ensures { result ≡ list_all (line_holds answers.now.items.now answers.now.route.now) (map (λ l. l.now) lines.now) }
{
    let mut rest = lines;
    while let [line, behind @ ..] = rest {
        if !line_holds(answers, line) {
            return false;
        }
        rest = behind;
    }
    true
}
