//! Plans of Junos policies: what the guards of steps ask, as terms of Junos can ask it with what they name written out, and
//! what steps change, an attribute at a time. Literals that are wanted, of different kinds and said by one condition stand in
//! the `from`; others are said by subroutines, a list as one with a term an entry. A list of permit entries of which no prefix
//! contains another is one condition, whose route-filters the longest match can't confuse. It stands on `policy_core`, whose
//! steps it plans. Its definitions are in `specs/`: when conditions hold (`Conditions`), which prefixes are apart (`Apart`),
//! what entries of lists ask (`Entries`), when one condition says lists (`Gathered`), what changes make of a route
//! (`Changes`), what planned steps do (`Plans`), and whose values a text of Junos can say (`Fits`).
#![tactic(auto)]

mod apart;
mod atoms;
mod changes;
mod condition;
mod entries;
mod gathered;
mod guards;
mod lists;
mod paths;
mod plans;
mod ranges;
mod step;

pub use changes::{PlannedChanges, planned_changes};
pub use condition::{PlannedCondition, PlannedEntry, PlannedList, PlannedTest, RouteAddress};
pub use plans::planned_steps;
pub use step::{PlannedGuard, PlannedLiteral, PlannedStep};
