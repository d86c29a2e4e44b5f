use community_sets::CommList;
use core_nodes::Atom;
use route_types::{CommChange, Row};

/// A test of the communities behind a change of them: one of the lists is to permit them.
#[derive(Debug, PartialEq, Eq, Drop)]
pub struct ListsBehind {
    pub lists: Row<CommList>,
    pub change: CommChange,
}

/// What a test behind pending changes asks of the route as it arrives.
#[derive(Debug, PartialEq, Eq, Drop)]
pub enum Answer {
    /// Nothing: the changes decide it.
    Decided(bool),
    /// This test.
    Asked(Atom),
    /// What no one test of communities can say.
    Parted(ListsBehind),
}
