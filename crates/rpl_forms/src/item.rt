use route_types::{NextHop, Origin, Rect, Row};
use rpl_words::{Element, RplNumber, RplSet, Term};
use text_words::{BlockKind, Span};

/// A statement of a set or of a policy, and where it stands.
#[derive(Debug, Drop)]
pub struct RplItem {
    pub form: RplForm,
    pub span: Span,
    /// Where the tests of its condition stand, in their order: none where it has no condition.
    pub tests: Row<Span>,
}

/// What a statement says (Cisco IOS XR Routing Configuration Guide, 'Implementing Routing Policy').
#[derive(Debug, Drop)]
pub enum RplForm {
    /// The first line of a block.
    Header(Header),
    /// An element of a set.
    Element(Element),
    /// A statement of a policy.
    Statement(PolicyStatement),
    /// `end-set` or `end-policy`
    End,
    /// A statement of no known form.
    Other(OtherItem),
}

/// The first line of a block.
#[derive(Debug, Drop)]
pub enum Header {
    /// `prefix-set N`
    PrefixSet(Row<u8>),
    /// `community-set N`
    CommunitySet(Row<u8>),
    /// `as-path-set N`
    PathSet(Row<u8>),
    /// `route-policy N`, `route-policy N($a, $b)`
    Policy(PolicyHeader),
}

/// The name of a policy, and the names of its parameters, each without its `$`.
#[derive(Debug, Drop)]
pub struct PolicyHeader {
    pub name: Row<u8>,
    pub parameters: Row<Row<u8>>,
}

/// A statement of a policy.
#[derive(Debug, Drop)]
pub enum PolicyStatement {
    /// `if C then`: the condition as a row of terms.
    If(Row<Term>),
    /// `elseif C then`
    ElseIf(Row<Term>),
    /// `else`
    Else,
    /// `endif`
    EndIf,
    /// `pass`
    Pass,
    /// `done`
    Done,
    /// `drop`
    Drop,
    /// A statement that changes the route.
    Act(Action),
    /// `apply N`, `apply N(a, b)`
    Apply(Apply),
}

/// What changes an attribute of the route.
#[derive(Debug, Drop)]
pub enum Action {
    /// `set med n`, 0 to 2^32 - 1
    SetMed(RplNumber<u32>),
    /// `set local-preference n`, 0 to 2^32 - 1
    SetLocalPreference(RplNumber<u32>),
    /// `set weight n`, 0 to 65535
    SetWeight(RplNumber<u16>),
    /// `set origin igp|egp|incomplete`
    SetOrigin(Origin),
    /// `set next-hop A`, `set next-hop self`
    SetNextHop(NextHop),
    /// `set community S`, `set community S additive`
    SetCommunity(CommunitySetting),
    /// `delete community in S`
    DeleteCommunity(RplSet<Rect>),
    /// `prepend as-path n`, `prepend as-path n k`
    Prepend(Prepend),
}

/// The communities that a statement sets.
#[derive(Debug, Drop)]
pub struct CommunitySetting {
    pub set: RplSet<Rect>,
    /// Whether they are added to those that the route has, and not put in their place.
    pub additive: bool,
}

/// The number that is put before the path, and how many times, 1 to 63: once where that isn't written.
#[derive(Debug, Drop)]
pub struct Prepend {
    pub number: RplNumber<u32>,
    pub count: RplNumber<u8>,
}

/// The policy that is applied, and what is handed to it.
#[derive(Debug, Drop)]
pub struct Apply {
    pub policy: Row<u8>,
    pub arguments: Row<Argument>,
}

/// What is handed to a policy.
#[derive(Debug, Drop)]
pub enum Argument {
    /// A number or the name of a set, by its text: which of the two it is says the place where it is used.
    Written(Row<u8>),
    /// `$x`: what was handed on as `x`.
    Parameter(Row<u8>),
}

/// A statement of no known form: the block that it opens and the name of that, if it is the first line
/// of one, and what it is in the structure of `if`, by its first word.
#[derive(Debug, Drop)]
pub struct OtherItem {
    pub opens: Option<BlockKind>,
    pub name: Option<Row<u8>>,
    pub keyword: Option<IfWord>,
}

/// The words that open and close an `if`.
#[derive(Clone, Copy, Debug, PartialEq, Eq)]
pub enum IfWord {
    If,
    ElseIf,
    Else,
    EndIf,
}
