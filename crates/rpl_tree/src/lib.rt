//! Reads IOS XR Route Policy Language as a tree: a flat list of items in text order, or the place where the
//! text is broken. It stands on `rpl_forms`, which reads single statements, and gives that on. Its
//! definitions are in `specs/`: blocks and open `if`s (`Blocks`), where a text is broken (`Broken`), the
//! tree (`Tree`), how statements read as it (`Reading`), and how they nest (`Nesting`).
#![tactic(auto)]

mod broken;
mod items;
mod laws;
mod read;
mod standing;
mod tree;

pub use laws::{first_faults, one_reading, statements_nest};
pub use read::read_rpl;
pub use rpl_forms::{
    Action, Apply, Argument, BlockKind, CommunitySetting, Comparison, Element, Header, IfWord,
    LengthTest, MedTest, OtherItem, PathElement, PathTest, PolicyHeader, PolicyStatement,
    PrefixElement, Prepend, RplForm, RplItem, RplNumber, RplSet, RplTest, Term,
};
pub use tree::RplTree;
