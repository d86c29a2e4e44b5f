//! What tests ask of a route before changes that wait to be made on it: a test of a value that is set is decided, any
//! other one is asked of the route as it arrives. It stands on `core_nodes`, `pending_changes`, `community_cuts` and
//! `path_suffixes`. Its definition is in `specs/Answers`: what an answer says, and which one a test has.
#![tactic(auto)]

mod answer;
mod atoms;
mod communities;
mod decided;
mod paths;
mod values;

pub use answer::{Answer, ListsBehind};
pub use atoms::resolve;
