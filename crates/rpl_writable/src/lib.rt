//! Planned RPL policies as texts: the law that the forms of planned steps whose values fit may be written. It stands on
//! `rpl_layout`, whose forms they are, and on `rpl_text`, which writes them. Its definitions are in `specs/`: `Names` says
//! which names a policy's blocks may have, and which bytes no name holds. The laws are in `laws`.
#![tactic(auto)]

mod laws;

pub use laws::{plain_words_name_blocks, plans_may_be_written};
