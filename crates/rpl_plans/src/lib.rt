//! Plans of RPL policies: what the guards of steps ask, as RPL can ask it with its sets written out, and what steps change,
//! an attribute at a time. Lists by first match become terms: neighbouring entries of one action are one set, and each
//! permit set is one term, `not` of each deny set before it and the set itself. It stands on `policy_core`, whose steps it
//! plans. Its definitions are in `specs/`: what tests hold on a route (`Holds`), what entries of lists ask (`Entries`), how
//! they become terms (`Choices`), what actions make of a route (`Actions`), what planned steps do (`Plans`), and whose values a
//! text of RPL can say (`Fits`).
#![tactic(auto)]

mod actions;
mod atoms;
mod choice;
mod entries;
mod grouping;
mod paths;
mod plans;
mod ranges;
mod step;
mod terms;
mod test;

pub use actions::{PlannedActions, planned_actions};
pub use atoms::planned_terms;
pub use choice::{Choice, PlannedTerm, PlannedTerms};
pub use plans::planned_steps;
pub use step::{PlannedLiteral, PlannedStep};
pub use test::{PlannedTest, RouteAddress};
