use crate::changes::PlannedChanges;
use crate::condition::{PlannedCondition, PlannedTest};
use route_types::{Duplicate, Memory, Row};
use std::alloc::Global;

/// What is asked of a route, and the answer that is wanted.
#[derive(Debug, PartialEq, Eq, Hash, Drop)]
pub struct PlannedLiteral {
    pub test: PlannedTest,
    pub wanted: bool,
}

/// What a `from` asks: conditions of different kinds that it says directly, and literals, which subroutines say.
#[derive(Debug, Drop)]
pub struct PlannedGuard {
    pub conditions: Row<PlannedCondition>,
    pub literals: Row<PlannedLiteral>,
}

/// What is done with the routes for which the guard holds: its changes, and then the route is accepted or rejected.
#[derive(Debug, Drop)]
pub struct PlannedStep {
    pub guard: PlannedGuard,
    pub changes: PlannedChanges,
    pub accept: bool,
}

impl Duplicate for PlannedLiteral {
    fn duplicate(&self, alloc: Global) -> Result<PlannedLiteral, Memory> {
        let test = self.test.duplicate(alloc)?;
        Ok(PlannedLiteral {
            test,
            wanted: self.wanted,
        })
    }
}
