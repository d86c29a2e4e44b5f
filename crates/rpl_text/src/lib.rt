//! Writes the forms of IOS XR Route Policy Language as a text, and the law that the text reads back as these
//! forms. It stands on `rpl_tree`, which reads. Its definitions are in `specs/`: `Words` says which words a
//! form is written in and `Patterns` the text of a path pattern, `Layout` how the lines stand, `Written`
//! which forms may be written, and `Blocks` what is read in a text.
#![tactic(auto)]

mod bytes;
mod conditions;
mod elements;
mod laws;
mod patterns;
mod sets;
mod statements;
mod values;
mod write;

pub use laws::written_forms_are_read;
pub use write::write_rpl;
