use crate::element::{Comparison, PathElement, PathTest, PrefixElement};
use crate::number::{RplNumber, RplSet};
use route_types::{Origin, Rect};

/// A term of a condition, which stands behind what it joins: `a or not (b and c)` is the row of `a`,
/// `b`, `c`, `And`, `Group`, `Not`, `Or`.
#[derive(Debug, Drop)]
pub enum Term {
    Test(RplTest),
    /// Parentheses round what stands before it.
    Group,
    Not,
    And,
    Or,
}

/// What a condition asks of a route.
#[derive(Debug, Drop)]
pub enum RplTest {
    /// `destination in S`
    Destination(RplSet<PrefixElement>),
    /// `next-hop in S`
    NextHop(RplSet<PrefixElement>),
    /// `as-path in S`
    PathIn(RplSet<PathElement>),
    /// `as-path length OP n`, `as-path passes-through 'n'`, and so on.
    Path(PathTest),
    /// `community matches-any S`
    MatchesAny(RplSet<Rect>),
    /// `community matches-every S`
    MatchesEvery(RplSet<Rect>),
    /// `community is-empty`
    IsEmpty,
    /// `med OP n`
    Med(MedTest),
    /// `origin is igp|egp|incomplete`
    Origin(Origin),
}

/// How the MED compares with a number from 0 to 2^32 - 1.
#[derive(Debug, Drop)]
pub struct MedTest {
    pub comparison: Comparison,
    pub med: RplNumber<u32>,
}
