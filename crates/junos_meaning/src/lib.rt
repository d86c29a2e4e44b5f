//! The meaning of a checked chain of Junos policies on a route, and `judge_junos`, which answers by it. It stands on
//! `junos_reader`, whose public items it gives on, on `route_drafts`, `name_maps`, `prefix_sets`, `community_sets` and
//! `aspath_text`. Its definitions are in `specs/`: `Sets` says what stands under names, `Conditions` when the conditions of
//! a term hold, and `Meaning` how a chain runs.
#![tactic(auto)]

mod actions;
mod answers;
mod blocks;
mod conditions;
mod judge;
mod kinds;
mod lists;
mod longest;
mod regions;
mod subroutines;
mod world;

pub use judge::judge_junos;
pub use junos_reader::{
    Action, CheckedJunos, CommunityAction, CommunityDefinition, CommunityVerb, Condition, Flow,
    JunosForm, JunosItem, JunosTree, ListFilter, OtherItem, PathDefinition, Place, StatementSort,
    TermAction, TermCondition, check_junos, first_fault_is_least, forms_are_spelled, one_reading,
    read_junos,
};
