//! The classes of AS paths in which patterns answer alike: finitely many, each with a path. It stands on `aspath_text`
//! and `indexmap`. Its definitions are in `specs/`: `Classes` says what the classes are. Behind it stands an automaton:
//! `Numbers` says which numbers no item tells apart, `Threads` how far a path has come in the patterns, and `Walk` how
//! tables lead a path to its class.
#![tactic(auto)]

mod answers;
mod classes;
mod configs;
mod letters;
mod lines;
mod numbers;
mod ranges;
mod states;
mod threads;
mod tidy;

pub use classes::Classes;
