//! The calls of an RPL text: its policies, what they apply, what they ask of what is handed to them, what
//! arguments are asked by what they lead on to, and what they may be by what leads on to them. It stands on
//! `rpl_forms`, `step_search` and what lies below that. Its definitions are in `specs/`, a file a notion.
#![tactic(auto)]

mod arguments;
mod ask;
mod asks;
mod demand;
mod given;
mod parameters;
mod policies;
mod said;
mod settings;
mod table;

pub use arguments::{Arguments, Handing, handed_at, own_at, target, word_at};
pub use ask::{Ask, NumberRange, Question, SetSort};
pub use demand::{Demand, demands, number_within};
pub use given::{Fact, Given, givens};
pub use parameters::Parameter;
pub use policies::{name_under, opens, parameters_in};
pub use said::{Call, OwnAsk, Said, Setting, said_by};
