//! The meaning of a checked IOS policy on a route, and `judge_ios`, which answers by it. It stands on
//! `ios_reader`, `aspath_text`, `prefix_sets` and `community_sets`, and collects its changes in a `route_drafts::Draft`.
//! Its definitions are in `specs/`:
//! `Order`, `Lists` and `Meaning` say what a policy means; `Answers`, `Drafts` and `Deletions` are what the walks
//! of the code find, and `proofs/` has that this is the meaning.
#![tactic(auto)]

mod answers;
mod community_answers;
mod deletion_index;
mod deletions;
mod draft;
mod entries;
mod judge;
mod path_answers;
mod prefix_answers;
mod reach;

pub use entries::{MapEntry, is_line, ordered_entries};
pub use judge::judge_ios;
