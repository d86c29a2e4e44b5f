//! What runs of RPL policies do on one arriving route, each in one form that stays small: the last value of each
//! attribute, and what is put before the path and done with the communities as pieces, of which one stands for all that
//! an earlier effect has there. It stands on `text_words`, `route_types` and `route_drafts`. Its definitions are in
//! `specs/`: `Pieces` says what pieces come to, `Changes` which route changes leave, `Answers` which of several answers
//! counts.
#![tactic(auto)]

mod changes;
mod draft;
mod effect;
mod kept;
mod steps;
mod table;

pub use draft::drafted;
pub use effect::{Changes, Effect, Piece, Run, Times};
pub use kept::{Found, Kept, Levels};
pub use steps::last_steps;
pub use table::lent;
