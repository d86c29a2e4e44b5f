//! The profile of an RPL policy, and the check. It stands on `rpl_tree`, `rpl_calls`, `policy_calls` (which policy leads to
//! which), `rpl_facts` (what the text defines and uses) and what lies below them. Its definitions are in `specs/`: how deep
//! conditions are nested (`Depth`), what the rules look at beside a statement (`Facts`), the causes that a statement has by
//! itself (`Causes`), what is reached (`Reach`), and all faults with the first of them (`Profile`).
#![tactic(auto)]

mod causes;
mod check;
mod checked;
mod depth;
mod faults;
mod given;
mod items;
mod known;
mod laws;
mod possible;
mod sets;
mod state;

pub use check::check_rpl;
pub use checked::CheckedRpl;
pub use laws::first_fault_is_least;
