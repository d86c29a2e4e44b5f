//! The values that every layer speaks of: addresses, prefixes, communities, routes, changes and
//! outcomes; the words that spell numbers, addresses, prefixes and communities; and the text of a
//! route, read and printed. It stands on `text_words` and the kit's itoa. Its definitions are in `specs/`, a
//! file a notion: the text of a route is `RouteText`, and `RouteRead` with `RouteLines` the function
//! that reads it. The laws of route texts are the clauses of `route_texts`; those that crates above
//! cite in `proofs/` are `Numbers`, `Spelled`, `Printed` and `Sets`.
#![tactic(auto)]

mod address;
mod change;
mod community;
mod duplicate;
mod fault;
mod laws;
mod line_words;
mod print;
mod route;
mod route_print;
mod route_text;
mod words;

pub use address::{Address, Family, Prefix};
pub use change::{Change, apply_change};
pub use community::{CommChange, Community, Rect, fits_some, unfitted};
pub use duplicate::Duplicate;
pub use fault::RouteFault;
pub use laws::route_texts;
pub use print::{push_address, push_number, push_prefix};
pub use route::{NextHop, Origin, Outcome, Route, new_route};
pub use route_print::print_route;
pub use route_text::{read_next_hop, read_origin, read_route};
pub use text_words::{Memory, Row};
pub use words::{read_address, read_community, read_number, read_prefix};
