//! Sets of communities: tests of a route's communities, lists whose first entry that holds decides,
//! changes one after the other, and what a change takes away of a rectangle. It stands on `route_types`.
//! Its definitions are in `specs/`: `Tests` of the lists, `Cuts` of what is taken away.
#![tactic(auto)]

mod change;
mod left;
mod list;
mod side;

pub use change::{Cut, cuts, then};
pub use left::rest;
pub use list::{CommEntry, CommList, CommTest, list_holds};
