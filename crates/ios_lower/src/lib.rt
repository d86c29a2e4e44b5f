//! IOS policies without `continue` as nodes of the shared graph: `lower_ios`; and the parts of an entry as nodes, which
//! `ios_graph` takes. It stands on `ios_meaning` and `policy_core`. Its definitions are in `specs/`: `Atoms` and
//! `Changes` say what the lines of a policy test and set, `Deletions` which communities a list takes away, `OfPolicy`
//! what a node may say, `Continues` which policies it takes; the other files are what its walks find on the way.
#![tactic(auto)]

mod atoms;
mod chains;
mod changes;
mod continues;
mod deletion;
mod lists;
mod lower;
mod named;
mod prefix_lists;
mod taken;

pub use atoms::atoms_of;
pub use chains::{act_all, test_all};
pub use changes::entry_changes;
pub use continues::has_continue;
pub use lists::{Lists, lists_of};
pub use lower::lower_ios;
