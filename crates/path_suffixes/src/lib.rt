//! AS-path patterns behind numbers that are put before the path: what a pattern still asks of the path as it was. It
//! stands on `aspath_text`. Its definitions are in `specs/`: `Behind` takes a pattern item by item; the laws, which are
//! clauses, say that the result matches a path exactly where the pattern matches the longer one.
#![tactic(auto)]

mod suffix;

pub use suffix::{suffix_pattern, suffix_pattern_of_all};
