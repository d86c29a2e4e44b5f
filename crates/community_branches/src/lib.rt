//! Tests of communities behind a change of them, as branches of nodes that test the communities before it: where one list
//! cannot say what is asked, several nodes do. It stands on `policy_core` and `community_cuts`. Its definitions are in
//! `specs/`: `Branches` says what a branch is.
#![tactic(auto)]

mod asked;
mod lists;
mod tests;

pub use lists::branch_by_lists;
