//! What a checked RPL policy makes of a route, and `judge_rpl`, which answers by it. It stands on `rpl_reader`,
//! `rpl_effects`, `name_maps` and `route_drafts`. Its definitions are in `specs/`: sets and parameters (`Sets`), conditions
//! on the arriving route (`Conditions`) and the run (`Meaning`) say what a policy means; `Blocks`, `Communities`, `Walk`,
//! `Steps` and `Runs` are what the maps, the walk and the run of the code find, and `proofs/` has that this is the meaning.
#![tactic(auto)]

mod actions;
mod blocks;
mod communities;
mod conditions;
mod elements;
mod judge;
mod known;
mod laws;
mod outcome;
mod tests;
mod walk;
mod words;

pub use judge::judge_rpl;
pub use laws::conditions_hold;
