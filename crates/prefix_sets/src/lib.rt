//! Sets of prefixes: ranges of prefixes, and lists whose first entry that holds a prefix decides. It
//! stands on `route_types`. Its definitions are in `specs/`.
#![tactic(auto)]

mod hop;
mod list;
mod longest;
mod range;

pub use hop::{holds_address, holds_next_hop};
pub use list::{PrefixEntry, PrefixList, holds};
pub use longest::from_longest;
pub use range::PrefixRange;
