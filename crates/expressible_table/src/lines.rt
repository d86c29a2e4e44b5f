//! The kinds of the lines of a route-map.

ghost use Rattle.std.specs.Prelude.{◌≡◌, true};
ghost use Rattle.std.specs.List.{list_any};
ghost use Rattle.expressible_table.specs.Kinds.{has_short, hop_kind, community_kind, origin_kind, deletion_kind, kind_of};
ghost use Rattle.expressible_table.specs.Noted.{TellLists, tests_hop, has_hop_line};

use crate::kind::Kind;
use crate::lists::Lists;
use ios_reader::{MapLine, PrefixMatch};
use policy_text::{any_marked, has_name};
use route_types::{Origin, Row};

// Whether one of the lists that a line names has an entry that isn't of full length.
fn any_short<'a>(lists: &Lists<'a>, line: &'a PrefixMatch) -> bool
    requires tell { TellLists lists.now }
    requires asked { has_hop_line lists.now.items.now ≡ true }
    ensures { result ≡ list_any (has_short lists.now.items.now line.now.family) line.now.lists }
{
    let width = u64::from(line.family.width());
    any_marked(&lists.short, width, line.lists.as_slice(), 0)
}

fn hop_kind<'a>(lists: &Lists<'a>, line: &'a PrefixMatch) -> Kind
    requires tell { TellLists lists.now }
    requires asked { has_hop_line lists.now.items.now ≡ true }
    ensures { result ≡ hop_kind lists.now.items.now line.now }
{
    if any_short(lists, line) {
        Kind::NextHopRangeTest
    } else {
        Kind::NextHopAddressTest
    }
}

fn community_kind(exact: bool) -> Kind
    ensures { result ≡ community_kind exact }
{
    if exact {
        Kind::ExactMatch
    } else {
        Kind::CommunityTest
    }
}

fn origin_kind(origin: Origin) -> Kind
    ensures { result ≡ origin_kind origin }
{
    match origin {
        Origin::Igp => Kind::SetOrigin,
        Origin::Egp => Kind::SetOriginEgp,
        Origin::Incomplete => Kind::SetOrigin,
    }
}

fn deletion_kind<'a>(lists: &Lists<'a>, list: &'a Row<u8>) -> Kind
    requires { TellLists lists.now }
    ensures { result ≡ deletion_kind lists.now.items.now list.now }
{
    if has_name(&lists.deny, list.as_slice(), 0, 0) {
        Kind::CommunityRange
    } else {
        Kind::CommunityDelete
    }
}

/// The kind of a line of the tree; a description is no construct. It takes no memory.
pub(crate) fn kind_of<'a>(lists: &Lists<'a>, line: &'a MapLine) -> Option<Kind>
    requires tell { TellLists lists.now }
    requires asked { tests_hop line.now ≡ true → has_hop_line lists.now.items.now ≡ true }
    ensures { result ≡ kind_of lists.now.items.now line.now }
{
    match line {
        MapLine::MatchPrefix(_) => Some(Kind::PrefixTest),
        MapLine::MatchNextHop(test) => Some(hop_kind(lists, test)),
        MapLine::MatchCommunity(test) => Some(community_kind(test.exact)),
        MapLine::MatchPath(_) => Some(Kind::PathTest),
        MapLine::MatchMetric(_) => Some(Kind::MedEqualTest),
        MapLine::SetLocalPreference(_) => Some(Kind::SetLocalPreference),
        MapLine::SetMetric(_) => Some(Kind::SetMed),
        MapLine::SetWeight(_) => Some(Kind::SetWeight),
        MapLine::SetPrepend(_) => Some(Kind::Prepend),
        MapLine::SetOrigin(origin) => Some(origin_kind(*origin)),
        MapLine::SetNextHop(_) => Some(Kind::SetNextHop),
        MapLine::SetCommunity(_) => Some(Kind::CommunitySet),
        MapLine::DeleteCommunities(list) => Some(deletion_kind(lists, list)),
        MapLine::Continue(_) => Some(Kind::Flow),
        MapLine::Description => None,
    }
}
