use prefix_sets::PrefixRange;
use route_types::{Duplicate, Memory, Origin, Rect, Row};
use std::alloc::Global;

/// What a condition asks of a route, with its sets written out.
#[derive(Debug, Drop)]
pub enum PlannedTest {
    /// The destination is in one of the ranges.
    Destination(Row<PrefixRange>),
    /// The next hop, its address taken as a prefix of full length, is in one of the ranges.
    NextHop(Row<PrefixRange>),
    /// One of the IOS patterns, each by its text, is found in the path.
    PathIn(Row<Row<u8>>),
    /// One of the rectangles is fitted by one of the communities.
    MatchesAny(Row<Rect>),
    /// Each of the rectangles is fitted by one of the communities.
    MatchesEvery(Row<Rect>),
    /// There is no community.
    NoCommunity,
    /// The MED is this number.
    MedIs(u32),
    /// The MED is this number or a greater one.
    MedAtLeast(u32),
    /// The MED is this number or a smaller one.
    MedAtMost(u32),
    /// The origin is this one.
    Origin(Origin),
}

/// What of a route is asked for in a set of prefixes.
#[derive(Clone, Copy, Debug, PartialEq, Eq)]
pub enum RouteAddress {
    Destination,
    NextHop,
}

impl Duplicate for PlannedTest {
    fn duplicate(&self, alloc: Global) -> Result<PlannedTest, Memory> {
        match self {
            PlannedTest::Destination(ranges) => {
                let copied = ranges.duplicate(alloc)?;
                Ok(PlannedTest::Destination(copied))
            }
            PlannedTest::NextHop(ranges) => {
                let copied = ranges.duplicate(alloc)?;
                Ok(PlannedTest::NextHop(copied))
            }
            PlannedTest::PathIn(texts) => {
                let copied = texts.duplicate(alloc)?;
                Ok(PlannedTest::PathIn(copied))
            }
            PlannedTest::MatchesAny(rects) => {
                let copied = rects.duplicate(alloc)?;
                Ok(PlannedTest::MatchesAny(copied))
            }
            PlannedTest::MatchesEvery(rects) => {
                let copied = rects.duplicate(alloc)?;
                Ok(PlannedTest::MatchesEvery(copied))
            }
            PlannedTest::NoCommunity => Ok(PlannedTest::NoCommunity),
            PlannedTest::MedIs(number) => Ok(PlannedTest::MedIs(*number)),
            PlannedTest::MedAtLeast(number) => Ok(PlannedTest::MedAtLeast(*number)),
            PlannedTest::MedAtMost(number) => Ok(PlannedTest::MedAtMost(*number)),
            PlannedTest::Origin(origin) => Ok(PlannedTest::Origin(*origin)),
        }
    }
}
