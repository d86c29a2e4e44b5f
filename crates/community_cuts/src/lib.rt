//! What tests of communities ask before a change of the communities, and two changes as one. It stands on `route_types`
//! and `community_sets`. Its definitions are in `specs/`: `Earlier` says what a rectangle comes to, `Kept` which tests
//! and lists one list can still say.
#![tactic(auto)]

mod both;
mod kept;
mod member;

pub use both::joined;
pub use kept::{TestBefore, list_before, lists_before, test_before};
pub use member::{Member, member_before};
