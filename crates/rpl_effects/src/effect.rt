//! The effects of runs, and what they are made of.

use route_types::{NextHop, Origin, Row};

/// A number that is put before a path, so many times.
#[derive(Clone, Copy, Debug)]
pub struct Times {
    pub number: u32,
    pub count: u8,
}

/// One thing that is done, or all of its sort that the effect at a place of a table does.
#[derive(Clone, Copy)]
pub enum Piece<T> {
    One(T),
    OfEffect(usize),
}

/// Changes of a route, by a table of earlier effects: the value of each attribute that is set, what is put before the
/// path, and what is done with the communities, each in the order in which it is done.
#[derive(Drop)]
pub struct Changes<S> {
    pub next_hop: Option<NextHop>,
    pub origin: Option<Origin>,
    pub local_preference: Option<u32>,
    pub med: Option<u32>,
    pub weight: Option<u16>,
    pub prepends: Row<Piece<Times>>,
    pub steps: Row<Piece<S>>,
}

/// What a run has done so far: whether it took the ticket, and its changes.
#[derive(Drop)]
pub struct Run<S> {
    pub ticket: bool,
    pub changes: Changes<S>,
}

/// What a run does, and how it ends.
#[derive(Drop)]
pub enum Effect<S> {
    /// What stands behind it runs.
    GoesOn(Run<S>),
    /// The whole run ends, and accepts the changed route.
    Accepted(Changes<S>),
    /// The whole run ends, and rejects the route.
    Rejected,
}
