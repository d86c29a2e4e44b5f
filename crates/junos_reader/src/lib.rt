//! Checks that a chain of policies of the tree of a Junos text lies in the profile. It stands on `junos_tree`, whose public
//! items it gives on, on `policy_calls`, and on what lies below these. Its definitions are in `specs/`: the statements and
//! what they name, the facts of the tree, what stands before an item, the causes, each a rule of its own, and the first
//! fault. Where the first fault is, and when there is none, is the law in `laws`.
#![tactic(auto)]

mod check;
mod checked;
mod faults;
mod flags;
mod forms;
mod known;
mod laws;
mod sets;
mod state;
mod statements;

pub use check::check_junos;
pub use checked::CheckedJunos;
pub use junos_tree::{
    Action, CommunityAction, CommunityDefinition, CommunityVerb, Condition, Flow, JunosForm,
    JunosItem, JunosTree, ListFilter, OtherItem, PathDefinition, Place, StatementSort, TermAction,
    TermCondition, forms_are_spelled, one_reading, read_junos,
};
pub use laws::first_fault_is_least;
