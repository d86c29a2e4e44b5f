//! Checked IOS policies as nodes of the shared graph, with `continue`: `lower_ios`. It stands on `ios_lower`, whose parts of
//! an entry it takes, and on `ios_readings`, whose run that changes the route at once is what a graph does. Its
//! definitions are in `specs/`: `Rows` says which nodes an entry has, `Runs` what comes behind an entry that held,
//! `Lowered` what the walk over the entries leaves.
#![tactic(auto)]

mod continues;
mod lower;
mod rows;

pub use lower::lower_ios;
