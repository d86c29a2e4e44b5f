//! AS-path patterns of IOS and what is searched by them in the text of a path; items over the numbers of a path and
//! which paths they match; how the one becomes the other, and both the items that texts are made of. It stands on
//! `route_types` and the kit's itoa; the texts of patterns are in `aspath_text`.
//!
//! Its definitions are in `specs/`, of which two say what is meant: `Search` how an IOS pattern is searched in the text
//! of a path, `Items` which paths items match. `Finds` and `PathMatches` compute the same; the other files are ways to
//! them.
//!
//! That `finds_in` is true exactly where a pattern is found is the law of `path_searches`, and that `path_matches` is
//! true exactly where items match that of `path_items`.
//! Besides, crates above may cite these laws of `proofs/`: `FoundTaken`, that a pattern is found exactly
//! where the numbers of the path are taken; `RowsFind`, that rows over the path tell the same.
#![tactic(auto)]

mod counts;
mod digit_ranges;
mod duplicate;
mod items;
mod junos_items;
mod laws;
mod merged;
mod pattern;
mod piece_rows;
mod range_counts;
mod range_words;
mod row_steps;
mod rows;
mod token_form;
mod word_item;

pub use items::{NumberRange, NumberSet, TokenBranch, TokenItem, TokenPattern};
pub use junos_items::written;
pub use laws::{path_items, path_searches};
pub use pattern::{
    DigitSet, DigitWord, IosBranch, IosPattern, Mark, PathPieces, Piece, PieceSet, Repeat, Tail,
};
pub use rows::{finds, matches};
pub use token_form::tokens;
pub use word_item::{WordItem, word_items};
