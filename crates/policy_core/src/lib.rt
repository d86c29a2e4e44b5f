//! The shared graph of policies and its guarded steps: a node whose tests all stand before its changes is told by
//! steps, each with a guard, changes and an answer, of which the first whose guard holds decides. It stands on
//! `core_nodes`, which it gives on, and on what lies below that. Its definitions are in `specs/`: `Fold` is the one
//! recursion over nodes, `Settled` says where no test follows a change, `Steps` which steps a node has, `Guards` what
//! steps do, `Sayable` which tests and changes a text of each language can say.
#![tactic(auto)]

mod laws;
mod listing;
mod step;

pub use core_nodes::{Atom, Core, Node, NodeKind, PathEntry, PathList, atom_holds};
pub use laws::{all_nodes_say, new_nodes_are_settled};
pub use listing::steps;
pub use step::{Literal, Step};
