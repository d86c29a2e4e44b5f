//! Changes of a route that wait to be made, in one form: the last value of each attribute, the numbers before the path,
//! one change of the communities. It stands on `route_types` and `community_cuts`. Its definition is in
//! `specs/Pending`: which route a pending change leaves. `and_then` adds a change, `changes` gives all of them back.
#![tactic(auto)]

mod copies;
mod listed;
mod pending;

pub use pending::{Pending, pending_of};
