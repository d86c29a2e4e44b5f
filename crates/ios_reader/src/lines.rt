//! What a line names, tests and sets.
ghost use Rattle.std.specs.Prelude.{◌≡◌, ◌<◌};
ghost use Rattle.ios_reader.specs.Lines.{lists_named, kind_of, is_description_line, continues, target_of, sets, tested_by, has_effect};

use ios_tree::{ItemSort, MapLine};
use route_types::Row;

// What a line may set that a line of a later entry tests.
#[derive(Clone, Copy)]
pub(crate) enum Setting {
    Med,
    Path,
    NextHop,
    Communities,
}

// What a line may do: continue, or set something.
#[derive(Clone, Copy)]
pub(crate) enum Effect {
    Continues,
    Sets(Setting),
}

// The lists that a line names, and their sort.
pub(crate) fn lists_named(line: &MapLine) -> (ItemSort, &[Row<u8>])
    ensures { (result.0, result.1.now) ≡ lists_named line.now }
{
    match line {
        MapLine::MatchPrefix(test) => (ItemSort::PrefixList(test.family), test.lists.as_slice()),
        MapLine::MatchNextHop(test) => (ItemSort::PrefixList(test.family), test.lists.as_slice()),
        MapLine::MatchCommunity(test) => (ItemSort::CommunityList, test.lists.as_slice()),
        MapLine::MatchPath(test) => (ItemSort::PathList, test.lists.as_slice()),
        MapLine::DeleteCommunities(list) => (ItemSort::CommunityList, std::slice::from_ref(list)),
        _ => (ItemSort::Line, &[]),
    }
}

// The form of a line as a number.
pub(crate) fn kind_of(line: &MapLine) -> usize
    ensures value { result ≡ kind_of line.now }
    ensures within { result < 15 }
{
    match line {
        MapLine::MatchPrefix(_) => 0,
        MapLine::MatchNextHop(_) => 1,
        MapLine::MatchCommunity(_) => 2,
        MapLine::MatchPath(_) => 3,
        MapLine::MatchMetric(_) => 4,
        MapLine::SetLocalPreference(_) => 5,
        MapLine::SetMetric(_) => 6,
        MapLine::SetWeight(_) => 7,
        MapLine::SetPrepend(_) => 8,
        MapLine::SetOrigin(_) => 9,
        MapLine::SetNextHop(_) => 10,
        MapLine::SetCommunity(_) => 11,
        MapLine::DeleteCommunities(_) => 12,
        MapLine::Continue(_) => 13,
        MapLine::Description => 14,
    }
}

pub(crate) fn is_description_line(line: &MapLine) -> bool
    ensures { result ≡ is_description_line line.now }
{
    matches!(line, MapLine::Description)
}

pub(crate) fn continues(line: &MapLine) -> bool
    ensures { result ≡ continues line.now }
{
    matches!(line, MapLine::Continue(_))
}

pub(crate) fn target_of(line: &MapLine) -> Option<u64>
    ensures { result ≡ target_of line.now }
{
    match line {
        MapLine::Continue(target) => *target,
        _ => None,
    }
}

fn sets(setting: Setting, line: &MapLine) -> bool
    ensures { result ≡ sets setting line.now }
{
    match setting {
        Setting::Med => matches!(line, MapLine::SetMetric(_)),
        Setting::Path => matches!(line, MapLine::SetPrepend(_)),
        Setting::NextHop => matches!(line, MapLine::SetNextHop(_)),
        Setting::Communities => {
            matches!(
                line,
                MapLine::SetCommunity(_) | MapLine::DeleteCommunities(_)
            )
        }
    }
}

pub(crate) fn tested_by(line: &MapLine) -> Option<Setting>
    ensures { result ≡ tested_by line.now }
{
    match line {
        MapLine::MatchMetric(_) => Some(Setting::Med),
        MapLine::MatchPath(_) => Some(Setting::Path),
        MapLine::MatchNextHop(_) => Some(Setting::NextHop),
        MapLine::MatchCommunity(_) => Some(Setting::Communities),
        _ => None,
    }
}

pub(crate) fn has_effect(effect: Effect, line: &MapLine) -> bool
    ensures { result ≡ has_effect effect line.now }
{
    match effect {
        Effect::Continues => continues(line),
        Effect::Sets(setting) => sets(setting, line),
    }
}
