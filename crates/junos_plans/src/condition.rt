use prefix_sets::PrefixRange;
use route_types::{Address, Duplicate, Memory, Origin, Rect, Row};
use std::alloc::Global;

/// What one condition of a `from` asks of a route, with what it names written out.
#[derive(Debug, PartialEq, Eq, Hash, Drop)]
pub enum PlannedCondition {
    /// Nothing: it holds for every route, and nothing is written.
    Anything,
    /// The destination is in one of the ranges, one or more: route-filters.
    Destination(Row<PrefixRange>),
    /// The next hop is one of the addresses, one or more.
    NextHop(Row<Address>),
    /// One of the Junos patterns, one or more, each by its text, matches the path.
    Path(Row<Row<u8>>),
    /// Of one of the communities as Junos names them, one or more, each member is fitted by a community of the route.
    Communities(Row<Row<Rect>>),
    /// The MED is this number.
    Med(u32),
    /// The local preference is this number.
    LocalPreference(u32),
    /// The origin is this one.
    Origin(Origin),
}

/// A term of a list: it accepts or rejects where its condition holds.
#[derive(Debug, PartialEq, Eq, Hash, Drop)]
pub struct PlannedEntry {
    pub permit: bool,
    pub condition: PlannedCondition,
}

/// A list as a subroutine: the first term whose condition holds accepts or rejects, and the last one, which has no
/// condition, rejects.
#[derive(Debug, PartialEq, Eq, Hash, Drop)]
pub struct PlannedList {
    pub entries: Row<PlannedEntry>,
}

/// What a literal asks.
#[derive(Debug, PartialEq, Eq, Hash, Drop)]
pub enum PlannedTest {
    /// A condition that a `from` says directly.
    Asked(PlannedCondition),
    /// One of these lists, one or more, accepts the route.
    Listed(Row<PlannedList>),
}

/// What of a route is asked for by prefixes.
#[derive(Clone, Copy, Debug, PartialEq, Eq)]
pub enum RouteAddress {
    Destination,
    NextHop,
}

impl Duplicate for PlannedCondition {
    fn duplicate(&self, alloc: Global) -> Result<PlannedCondition, Memory> {
        match self {
            PlannedCondition::Anything => Ok(PlannedCondition::Anything),
            PlannedCondition::Destination(ranges) => {
                let copied = ranges.duplicate(alloc)?;
                Ok(PlannedCondition::Destination(copied))
            }
            PlannedCondition::NextHop(hops) => {
                let copied = hops.duplicate(alloc)?;
                Ok(PlannedCondition::NextHop(copied))
            }
            PlannedCondition::Path(texts) => {
                let copied = texts.duplicate(alloc)?;
                Ok(PlannedCondition::Path(copied))
            }
            PlannedCondition::Communities(sets) => {
                let copied = sets.duplicate(alloc)?;
                Ok(PlannedCondition::Communities(copied))
            }
            PlannedCondition::Med(number) => Ok(PlannedCondition::Med(*number)),
            PlannedCondition::LocalPreference(number) => {
                Ok(PlannedCondition::LocalPreference(*number))
            }
            PlannedCondition::Origin(origin) => Ok(PlannedCondition::Origin(*origin)),
        }
    }
}

impl Duplicate for PlannedEntry {
    fn duplicate(&self, alloc: Global) -> Result<PlannedEntry, Memory> {
        let condition = self.condition.duplicate(alloc)?;
        Ok(PlannedEntry {
            permit: self.permit,
            condition,
        })
    }
}

impl Duplicate for PlannedList {
    fn duplicate(&self, alloc: Global) -> Result<PlannedList, Memory> {
        let entries = self.entries.duplicate(alloc)?;
        Ok(PlannedList { entries })
    }
}

impl Duplicate for PlannedTest {
    fn duplicate(&self, alloc: Global) -> Result<PlannedTest, Memory> {
        match self {
            PlannedTest::Asked(condition) => {
                let copied = condition.duplicate(alloc)?;
                Ok(PlannedTest::Asked(copied))
            }
            PlannedTest::Listed(lists) => {
                let copied = lists.duplicate(alloc)?;
                Ok(PlannedTest::Listed(copied))
            }
        }
    }
}
