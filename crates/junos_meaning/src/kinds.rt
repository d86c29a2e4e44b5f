//! The kinds of conditions.

/// A kind of conditions, beside route-filters and `policy` conditions: those of one kind in a `from` are alternatives.
#[derive(Clone, Copy, Debug, PartialEq, Eq)]
pub enum Kind {
    OfProtocol,
    OfCommunity,
    OfPath,
    OfNextHop,
    OfPrefixList,
    OfExactFilter,
    OfLongerFilter,
    OfMetric,
    OfLocalPreference,
    OfOrigin,
}
