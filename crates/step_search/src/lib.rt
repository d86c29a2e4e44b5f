//! What is found from a start by steps, each of it once, and where each name stands in a list of names. It stands on
//! `text_words` and `name_maps`. Its definitions are `specs/Found` and `specs/Tables`.
#![tactic(auto)]

mod found;
mod places;

pub use found::{Key, Steps, all_found};
pub use places::Places;
