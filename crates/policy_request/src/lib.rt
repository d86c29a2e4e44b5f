//! What the words of the command ask for: a request as data. It stands on clap, which reads options and files. `command` and
//! `clap_command` read the words, `word_forms` and `language` the values. Its definitions are in `specs/`: `Words` says
//! which words make a request, `Languages` how policies are named, `NewNames` how one that is written may be.
#![tactic(auto)]

mod clap_command;
mod command;
mod language;
mod word_forms;
mod word_laws;

pub use command::{JudgeWords, Request, TranslateWords, WordsFault, read_words};
pub use language::{Language, language_in, names_of};
pub use word_laws::{one_chain, refused_by_a_cause, words_ask_once};
