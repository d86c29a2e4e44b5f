//! Writes definitions of Junos as a text of `policy-options`, and the law that the text reads back as these
//! definitions. It stands on `junos_tree`, which reads. Its definitions are in `specs/`: `Words` says which words a form is
//! written in, `Layout` how the lines stand and which forms they say, `Texts` how their text is put together, and `Written`
//! which definitions may be written.
#![tactic(auto)]

mod actions;
mod conditions;
mod laws;
mod lines;
mod option;
mod words;
mod write;

pub use laws::written_options_are_read;
pub use option::{PolicyDefinition, PolicyOption, PolicyTerm};
pub use write::write_junos;
