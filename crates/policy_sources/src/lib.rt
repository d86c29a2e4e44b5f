//! Policies in a source of any language: what comes of one when it is loaded, and what it makes of a route. The languages
//! come together here alone: it stands on the reader and the meaning of each, and on `policy_request`, which names them.
//! `loads` reads and checks, `meaning` judges. Its definitions are in `specs/`: `Source` says what comes of a source and what
//! a policy means, `Loading` what the code keeps of it.
#![tactic(auto)]

mod laws;
mod loads;
mod meaning;

pub use laws::one_load;
pub use loads::{LoadFault, LoadedPolicy, load, load_ios, load_junos, load_rpl};
pub use meaning::outcome_of;
