//! The tests of settled graphs: each kind of test behind each kind of change, run on routes before and after. It has nothing
//! but tests; what a contract says is proved in its own crate.
#![tactic(auto)]

#[cfg(test)]
mod behind;
#[cfg(test)]
mod rows;
