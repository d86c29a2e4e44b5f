use crate::kind::Kind;
use policy_text::Span;

/// A construct of a policy: what it is, and where its statement stands.
#[derive(Clone, Copy, Debug, PartialEq, Eq)]
pub struct Construct {
    pub kind: Kind,
    pub span: Span,
}
