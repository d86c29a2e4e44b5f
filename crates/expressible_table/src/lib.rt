//! The constructs of a policy, each of a kind, and the table of the kinds that each language can say: what `translate`
//! asks before it writes. It stands on `ios_reader` and what lies below that. Its definitions are in `specs/`: `Grants`
//! is the table, `Kinds` the kind of a line, `Constructs` the constructs of a policy, `Missing` the first one that a
//! language can't say; `Noted` is what the walks of the code find on the way.
#![tactic(auto)]

mod construct;
mod kind;
mod laws;
mod lines;
mod listing;
mod lists;
mod missing;
mod policy;

pub use construct::Construct;
pub use kind::{Dialect, Kind, grants, kind_name};
pub use laws::{constructs_rise, one_first_missing};
pub use listing::constructs;
pub use missing::first_missing;
pub use policy::Policy;
