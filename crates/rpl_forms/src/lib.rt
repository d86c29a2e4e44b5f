//! The forms of IOS XR Route Policy Language: what a statement of a set or of a policy says, and which
//! words spell it. It stands on `rpl_words`, which has the words, the elements of sets and the tests, and
//! gives their types on. Its definitions are in `specs/`: `Terms` says how the words of a condition bind, and
//! `Statements` which words spell which form. That forms are found exactly where their words are spelled is
//! the law in `laws`.
#![tactic(auto)]

mod actions;
mod condition_words;
mod item;
mod laws;
mod marks;
mod reading;
mod statements;

pub use condition_words::tests_in;
pub use item::{
    Action, Apply, Argument, CommunitySetting, Header, IfWord, OtherItem, PolicyHeader,
    PolicyStatement, Prepend, RplForm, RplItem,
};
pub use laws::{conditions_are_spelled, forms_are_spelled};
pub use rpl_words::{
    Comparison, Element, LengthTest, MedTest, PathElement, PathTest, PrefixElement, RplNumber,
    RplSet, RplTest, Term,
};
pub use statements::{form_in, header_in};
pub use text_words::BlockKind;
