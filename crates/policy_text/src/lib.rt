//! What the readers of all languages share: statements and their words, why a policy is refused, and
//! the forms of words and statements. It stands on `route_types`. Its definitions are in `specs/`, a
//! file a notion; the laws of the forms, both ways, are in `proofs/Agree` and `proofs/Values`.
#![tactic(auto)]

mod causes;
mod common_words;
mod fault;
mod halves;
mod name_sets;
mod phrase;
mod reads;

pub use causes::{Rules, first_cause};
pub use common_words::{known_community, number_of_8_bits, number_of_16_bits, number_of_32_bits};
pub use fault::{Cause, CheckFault, cause_name};
pub use halves::{HalfWord, NumberOrAll, halves_in, known_rect};
pub use name_sets::{NameOf, NameSet, add_name, any_marked, any_missing, has_name, names_of};
pub use phrase::{after, bounds, copied, is, is_name, parts_at};
pub use reads::{
    AddressWord, NameWord, Number16, Number32, Number64, OriginWord, Reads, one_behind, one_word,
    optional_at, some_behind, some_words, value_at,
};
pub use route_types::{read_address, read_community, read_number, read_origin, read_prefix};
pub use text_words::{
    BrokenKind, Ender, Span, Statement, TextFault, Word, ios_statements, junos_statements,
};
