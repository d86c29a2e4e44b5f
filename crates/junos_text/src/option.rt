use junos_tree::{Action, CommunityDefinition, Condition, PathDefinition};
use text_words::Row;

/// What stands in `policy-options` (Junos OS Routing Policies, Firewall Filters, and Traffic Policers User Guide).
#[derive(Debug, Drop)]
pub enum PolicyOption {
    /// `as-path N X;`
    AsPath(PathDefinition),
    /// `community N members M;`, `community N members [ M M ];`
    Community(CommunityDefinition),
    /// `policy-statement N {`, with its terms.
    Policy(PolicyDefinition),
}

/// A policy, or a subroutine of one.
#[derive(Debug, Drop)]
pub struct PolicyDefinition {
    pub name: Row<u8>,
    pub terms: Row<PolicyTerm>,
}

/// A term of a policy: `term N {`, with its conditions in `from {`, where there are any, and its actions in `then {`.
#[derive(Debug, Drop)]
pub struct PolicyTerm {
    pub name: Row<u8>,
    pub conditions: Row<Condition>,
    pub actions: Row<Action>,
}
