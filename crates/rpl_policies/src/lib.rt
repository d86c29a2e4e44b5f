//! Planned steps as the forms of an RPL policy, the way from a plan to what is printed: each set that the steps ask for
//! once, under the policy's name, and the statements of the steps, whose tests name these sets. It stands on `rpl_layout`,
//! whose definitions say what the forms are, and on `indexmap`. Its own definitions are in `specs/`: how sets are told
//! apart (`Own`), how they are noted test by test (`Noting`), and conditions as terms from the front (`Postfix`).
#![tactic(auto)]

mod actions;
mod blocks;
mod changes;
mod forms;
mod guards;
mod names;
mod noting;
mod prepends;
mod sets;
mod statements;

pub use forms::policy_forms;
