//! Maps under names that are lent, and the row of what one name has in a list: what every meaning looks its sets, lists
//! and policies up by. It stands on `text_words` alone. Its definition is `specs/Under`.
#![tactic(auto)]

mod map;

pub use map::NameMap;
