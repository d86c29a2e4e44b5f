ghost use Rattle.std.specs.Prelude.{◌≡◌, IfOk};

use core_nodes::Atom;
use route_types::{Change, Duplicate, Memory, Row};
use std::alloc::Global;

/// A test and the answer that is wanted of it.
#[derive(Debug, PartialEq, Eq, Drop)]
pub struct Literal {
    pub atom: Atom,
    pub wanted: bool,
}

/// What is done with the routes on which all literals of the guard hold: changes in their order, and then the
/// route is accepted or rejected.
#[derive(Debug, PartialEq, Eq, Drop)]
pub struct Step {
    pub guard: Row<Literal>,
    pub actions: Row<Change>,
    pub accept: bool,
}

impl Duplicate for Literal {
    fn duplicate(&self, alloc: Global) -> Result<Literal, Memory> {
        Ok(Literal {
            atom: self.atom.duplicate(alloc)?,
            wanted: self.wanted,
        })
    }
}
