//! The words of IOS XR Route Policy Language: names, parameters, numbers, the elements of sets, and the tests
//! of conditions. It stands on `policy_text` and `aspath_text`. Its definitions are in `specs/`: `Tokens` are
//! words of which some stand in quotes, with the walks over them; `Values` says what the words are,
//! `Elements` what the elements of sets, and `Conditions` what the tests and how they join.
#![tactic(auto)]

mod condition;
mod element;
mod number;
mod paths;
mod phrase;
mod sets;
mod tests;
mod values;

pub use condition::{MedTest, RplTest, Term};
pub use element::{Comparison, Element, LengthTest, PathElement, PathTest, PrefixElement};
pub use number::{RplNumber, RplSet};
pub use paths::OwnPath;
pub use phrase::{ReadsWords, after, called, ended_by, is_key, one_plain, place_of};
pub use sets::{OwnPrefix, RectElement, set_in};
pub use tests::{test_in, words_behind};
pub use values::{Count63, HeaderName, InnerName, ParameterName, plain_number};
