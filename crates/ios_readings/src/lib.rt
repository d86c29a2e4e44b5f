//! The two readings of `continue` in IOS policies, and the law that they give one outcome. It stands on `ios_meaning`,
//! where the reading by which all tests read the arriving route is the meaning. The other one, by which an entry's
//! tests read the route as changed by the entries that held before, is defined in `specs/Readings`; `specs/AtOnce` has it once
//! more as a graph runs it, which hands on the changed route alone.
#![tactic(auto)]

mod laws;

pub use laws::{both_readings_agree, changes_at_once};
