//! AS-path patterns of IOS and of Junos as texts: read by their grammars, and items over the numbers of a path
//! printed as text of the one or the other. It stands on `path_patterns`, whose other public items it gives on, and
//! on `policy_text`.
//!
//! Its definitions are in `specs/`, of which two say what is meant: `IosGrammar` and `JunosGrammar`, which text spells
//! which pattern. The functions that compute the same are `IosRead` and `JunosRead`; the other files are ways to them.
//!
//! That a text spells what is found in it, and nothing else, is the law of the functions `ios_patterns` and
//! `junos_patterns`.
#![tactic(auto)]

mod fault;
mod ios_print;
mod ios_read;
mod ios_text;
mod ios_words;
mod junos_print;
mod junos_read;
mod junos_words;
mod laws;
mod pattern_words;

pub use fault::PatternFault;
pub use ios_print::print_ios;
pub use ios_read::read_ios_pattern;
pub use junos_print::print_junos;
pub use junos_read::read_junos_pattern;
pub use laws::{ios_patterns, junos_patterns};
pub use path_patterns::{
    DigitSet, DigitWord, IosBranch, IosPattern, Mark, NumberRange, NumberSet, PathPieces, Piece,
    PieceSet, Repeat, Tail, TokenBranch, TokenItem, TokenPattern, finds, matches, path_items,
    path_searches, tokens,
};
pub use pattern_words::{IosPatternWord, JunosPatternWord};
