//! Bytes become words here, and words bytes: the statements of a text with their words and spans. It
//! stands on std alone. Its definitions are in `specs/`, a file a notion.
#![tactic(auto)]

mod fault;
mod ios_cut;
mod junos_bytes;
mod junos_cut;
mod junos_groups;
mod junos_words;
mod laws;
mod line_cut;
mod memory;
mod push;
mod row;
mod rpl_blocks;
mod rpl_cut;
mod rpl_words;
mod stack;
mod statement;

pub use fault::{BrokenKind, TextFault};
pub use ios_cut::ios_statements;
pub use junos_cut::junos_statements;
pub use laws::{statements_rise, written_texts_are_cut};
pub use line_cut::{end_of_words, line_statements};
pub use memory::Memory;
pub use push::{push_line, push_words};
pub use row::Row;
pub use rpl_blocks::{BlockKind, is_word, opened_by};
pub use rpl_cut::rpl_statements;
pub use stack::Stack;
pub use statement::{Ender, Span, Statement, Word};
