//! The shared graph of policies: what a policy tests, changes and answers, as nodes that stand once each in an
//! `indexmap` set, their children before them. It stands on the types of routes, on the sets that are tested,
//! and on `indexmap`. Its definitions are in `specs/`: `Atoms` says when a test holds, `Nodes` what a graph
//! is and which facts its nodes keep, `Outcome` which outcome a node gives a route, `Made` what a new node
//! leaves as it was.
#![tactic(auto)]

mod atom;
mod copies;
mod evaluate;
mod graph;
mod node;
mod outcomes;

pub use atom::{Atom, PathEntry, PathList};
pub use evaluate::atom_holds;
pub use graph::Core;
pub use node::{Node, NodeKind};
