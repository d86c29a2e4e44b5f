//! Planned steps as the definitions of a Junos policy, the way from a plan to what is printed: each AS path, community and
//! subroutine once, under the policy's name, and the policy step by step, whose terms name these. It stands on
//! `junos_layout`, whose definitions say what the definitions of a plan are, and on `indexmap`. Its own definitions are in
//! `specs/`: how what is planned is told apart (`Same`), noted once (`Noting`), and gathered from steps (`Parts`), how terms
//! are numbered (`Terms`), how names are written (`Names`), and what is promised (`Plan`).
#![tactic(auto)]

mod actions;
mod changes;
mod conditions;
mod guards;
mod names;
mod noting;
mod options;
mod parts;
mod policy;
mod sets;
mod terms;

pub use policy::policy_options;
