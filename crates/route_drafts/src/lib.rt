//! A route while a run changes it: what the meanings of all languages collect their changes in, so that a prepend is a
//! push and communities are put in order once, at the end. It stands on `route_types`. Its definition is `specs/Drafts`:
//! the route that a draft makes.
#![tactic(auto)]

mod draft;

pub use draft::Draft;
