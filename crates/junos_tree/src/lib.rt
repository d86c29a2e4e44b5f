//! Reads Junos policies and what they name as a tree. It stands on `policy_text`, `aspath_text`,
//! `prefix_sets` and `route_types`. Its definitions are in `specs/`: `Spelling` says which words spell
//! which form and `Reading` how a text reads as a tree; `Words`, `Forms` and `Tree` are the functions that
//! find the same. `Sorts` says what an item is, and `Terms` which items make a term. That the forms are
//! found exactly where their words are spelled is the law in `laws`.
#![tactic(auto)]

mod actions;
mod conditions;
mod definitions;
mod item;
mod laws;
mod place;
mod read;
mod statement;
mod tree;
mod words;

pub use item::{
    Action, CommunityAction, CommunityDefinition, CommunityVerb, Condition, Flow, JunosForm,
    JunosItem, ListFilter, OtherItem, PathDefinition, StatementSort, TermAction, TermCondition,
};
pub use laws::{forms_are_spelled, one_reading};
pub use place::Place;
pub use read::read_junos;
pub use tree::JunosTree;
