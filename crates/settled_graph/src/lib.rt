//! Settled graphs: from a node whose tests may follow changes, a node with the same outcomes in which none does. It stands
//! on `policy_core`, `resolved_tests` and `community_branches`. Its definitions are in `specs/`: `Keys` says what is
//! settled, a node behind pending changes; `Plans` what such a node comes to; `Tasks` what is still to be done.
#![tactic(auto)]

mod ends;
mod graph;
mod key;
mod make;
mod memo;
mod plan;
mod tasks;

pub use graph::settle;
