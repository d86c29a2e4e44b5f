use aspath_text::TokenPattern;
use policy_text::Span;
use prefix_sets::PrefixRange;
use route_types::{Address, NextHop, Origin, Prefix, Rect, Row};

/// A statement of a policy or of what policies name, and where it stands.
#[derive(Debug, Drop)]
pub struct JunosItem {
    pub form: JunosForm,
    pub span: Span,
}

/// What a statement says (Junos OS Routing Policies, Firewall Filters, and Traffic Policers User Guide).
/// The items of a block stand behind the one that opens it.
#[derive(Debug, Drop)]
pub enum JunosForm {
    /// `prefix-list N {`, with its members behind it, or `prefix-list N;`
    PrefixList(Row<u8>),
    /// `P;` or `A;` in a prefix list: a bare address is the prefix of full length.
    Member(Prefix),
    /// `community N members M;`, `community N members [ M M ];`
    Community(CommunityDefinition),
    /// `as-path N X;`
    AsPath(PathDefinition),
    /// `policy-statement N {`, with its terms, conditions and actions behind it.
    Policy(Row<u8>),
    /// `term N {`, with its conditions and actions behind it.
    Term(Row<u8>),
    /// `from C;`, or `C;` in a block `from {`
    Condition(TermCondition),
    /// `then T;`, or `T;` in a block `then {`
    Action(TermAction),
    /// A statement of no known form.
    Other(OtherItem),
}

/// The definition of a community: what each of its members stands for.
#[derive(Debug, Drop)]
pub struct CommunityDefinition {
    pub name: Row<u8>,
    /// One or more; `a:b` is the rectangle of this one community.
    pub members: Row<Rect>,
}

/// The definition of an AS path.
#[derive(Debug, Drop)]
pub struct PathDefinition {
    pub name: Row<u8>,
    /// What a path has to match.
    pub pattern: TokenPattern,
    /// The word that spells the pattern, without quotes.
    pub text: Row<u8>,
}

/// A condition of a term.
#[derive(Debug, Drop)]
pub struct TermCondition {
    /// Whether it stands directly in the policy, so that it belongs to the unnamed term.
    pub unnamed: bool,
    pub condition: Condition,
}

/// An action of a term.
#[derive(Debug, Drop)]
pub struct TermAction {
    /// Whether it stands directly in the policy, so that it belongs to the unnamed term.
    pub unnamed: bool,
    pub action: Action,
}

/// What a route is asked for. Where several values stand, one or more, one of them has to hold.
#[derive(Debug, Drop)]
pub enum Condition {
    /// `protocol V`: names of protocols.
    Protocol(Row<Row<u8>>),
    /// `community V`: names of communities.
    Community(Row<Row<u8>>),
    /// `as-path V`: names of AS paths.
    AsPath(Row<Row<u8>>),
    /// `next-hop V`
    NextHop(Row<Address>),
    /// `policy V`: names of policies.
    Policy(Row<Row<u8>>),
    /// `prefix-list V`: names of prefix lists.
    PrefixList(Row<Row<u8>>),
    /// `route-filter P TYPE`: the prefix, and the lengths that the type gives; `longer` at a full-length
    /// prefix gives none.
    RouteFilter(PrefixRange),
    /// `prefix-list-filter N exact|orlonger`
    ListFilter(ListFilter),
    /// `metric n`, 0 to 2^32 - 1
    Metric(u32),
    /// `local-preference n`, 0 to 2^32 - 1
    LocalPreference(u32),
    /// `origin igp|egp|incomplete`
    Origin(Origin),
}

/// A test by the members of a prefix list.
#[derive(Debug, Drop)]
pub struct ListFilter {
    pub list: Row<u8>,
    /// `orlonger`: whether prefixes within a member hold too.
    pub or_longer: bool,
}

/// What a term does.
#[derive(Debug, Drop)]
pub enum Action {
    /// `accept`, `reject`, `next term`, `next policy`
    Flow(Flow),
    /// `metric n`, 0 to 2^32 - 1
    Metric(u32),
    /// `local-preference n`, 0 to 2^32 - 1
    LocalPreference(u32),
    /// `origin igp|egp|incomplete`
    Origin(Origin),
    /// `next-hop A`, `next-hop self`
    NextHop(NextHop),
    /// `community set|add|delete N`, `community =|+|- N`
    Community(CommunityAction),
    /// `as-path-prepend X`: one or more numbers, as they will stand before the path.
    Prepend(Row<u32>),
}

/// Where a run goes behind a term.
#[derive(Clone, Copy, Debug, PartialEq, Eq)]
pub enum Flow {
    Accept,
    Reject,
    NextTerm,
    NextPolicy,
}

/// A change of the communities of a route, by the members of a community.
#[derive(Debug, Drop)]
pub struct CommunityAction {
    pub verb: CommunityVerb,
    pub community: Row<u8>,
}

/// What is done with the members of a community.
#[derive(Clone, Copy, Debug, PartialEq, Eq)]
pub enum CommunityVerb {
    /// `set`, `=`: they take the place of the communities of the route.
    Set,
    /// `add`, `+`
    Add,
    /// `delete`, `-`
    Delete,
}

/// A statement of no known form: what it would be, and the name that it stands under. One in a block
/// stands under none of its own.
#[derive(Debug, Drop)]
pub struct OtherItem {
    pub sort: StatementSort,
    pub name: Option<Row<u8>>,
}

/// What a statement is, by its keyword and its place.
#[derive(Clone, Copy, Debug, PartialEq, Eq)]
pub enum StatementSort {
    /// It starts with `prefix-list` and a name.
    PrefixList,
    /// It starts with `community` and a name.
    Community,
    /// It starts with `as-path` and a name.
    AsPath,
    /// It starts with `policy-statement` and a name.
    Policy,
    /// It stands in the block of a prefix list or of a policy.
    Inner,
}
