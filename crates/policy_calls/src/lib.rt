//! Which policies call which: what is reached by calls, what leads to what, which calls lead back to their caller, and
//! where a call stands too deep. It stands on `policy_text` and `route_types`. Its definitions are in `specs/`: `Calls`
//! and `Depth` say what is found, over a list of calls by name.
#![tactic(auto)]

mod call;
mod callees;
mod depth;
mod groups;
mod laws;
mod pairs;
mod ranks;
mod search;
mod turning;

pub use call::Call;
pub use depth::too_deep;
pub use laws::leading_is_walking;
pub use pairs::{PairSet, has_pair};
pub use search::{called, leading_to, reached};
pub use turning::turning_back;
