//! What the command-line program does: `translate` writes a route-map of an IOS source as a policy in RPL, and
//! `judge` tells what a policy makes of a route: a route-map of IOS, a chain of Junos policies or a route-policy of RPL.
//! It stands on `policy_request`, which reads the words, and on `policy_sources`, which loads and judges policies of all
//! languages; it gives the public items of both on. For a translation it also stands on `expressible_table`, `ios_graph`,
//! `settled_graph`, `policy_core` and `rpl_printer`.
//! From the outside in: `run` and its layers (top_call, request), the lines on standard error (lines, place), the verbs
//! (translation, judge), and what both tell of a file (refusal).
//! Its definitions are in `specs/`: `Run` and `Ends` say what `run` does, `Requests` what is right for a request.
#![tactic(auto)]

mod answer_laws;
mod judge;
mod lines;
mod place;
mod refusal;
mod request;
mod status;
mod top_call;
mod translation;

pub use answer_laws::one_status_is_due;
pub use lines::tell_memory;
pub use place::{Place, place_of};
pub use policy_request::{
    JudgeWords, Language, Request, TranslateWords, WordsFault, language_in, names_of, one_chain,
    read_words, refused_by_a_cause, words_ask_once,
};
pub use policy_sources::{
    LoadFault, LoadedPolicy, load, load_ios, load_junos, load_rpl, one_load, outcome_of,
};
pub use policy_text::cause_name;
pub use status::Status;
pub use top_call::run;
pub use translation::{TranslateFault, translate};
