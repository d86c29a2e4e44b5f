//! Shared decision diagrams: sets of bit lists, each kept as an Id of a store, so that two sets are
//! equal exactly where their Ids are. The nodes of a store stand once each in an `indexmap` set; it
//! stands on `indexmap` and std. Its definitions are in `specs/`: `Store` says what a store is and
//! which facts its nodes keep, `Meaning` on which bits an Id holds.
#![tactic(auto)]

mod apply;
mod bit_list;
mod calls;
mod parts;
mod search;
mod store;
mod waiting;

pub use bit_list::Bits;
pub use parts::{Id, Memory, Node};
pub use store::Diagrams;
