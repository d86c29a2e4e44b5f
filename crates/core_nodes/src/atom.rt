use aspath_text::TokenPattern;
use community_sets::CommList;
use prefix_sets::PrefixList;
use route_types::{Origin, Row};

/// An entry of a path list: what it answers on the paths that its pattern matches.
#[derive(Debug, PartialEq, Eq, Hash, Drop)]
pub struct PathEntry {
    pub permit: bool,
    pub pattern: TokenPattern,
}

/// A path list: its entries in the order in which they are tried.
#[derive(Debug, PartialEq, Eq, Hash, Drop)]
pub struct PathList {
    pub entries: Row<PathEntry>,
}

/// One test of a route. It holds where one of its values does.
#[derive(Debug, PartialEq, Eq, Hash, Drop)]
pub enum Atom {
    /// A list permits the destination.
    Prefix(Row<PrefixList>),
    /// A list permits the next hop, its address taken as a prefix of full length; the router's own one is
    /// permitted by none.
    NextHop(Row<PrefixList>),
    /// A list permits the AS path.
    Path(Row<PathList>),
    /// A list permits the set of communities.
    Community(Row<CommList>),
    /// The MED is one of these numbers.
    MedOneOf(Row<u32>),
    /// The MED is this number or a greater one.
    MedAtLeast(u32),
    /// The MED is this number or a smaller one.
    MedAtMost(u32),
    /// The local preference is this number.
    LocalPreference(u32),
    /// The origin is this one.
    Origin(Origin),
    /// There is no community.
    NoCommunity,
}
