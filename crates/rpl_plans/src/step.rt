use crate::actions::PlannedActions;
use crate::choice::PlannedTerms;
use route_types::Row;

/// What is asked of a route, and the answer that is wanted.
#[derive(Debug, Drop)]
pub struct PlannedLiteral {
    pub terms: PlannedTerms,
    pub wanted: bool,
}

/// What is done with the routes on which all literals of the guard hold: its actions, and then the route is accepted or
/// rejected.
#[derive(Debug, Drop)]
pub struct PlannedStep {
    pub guard: Row<PlannedLiteral>,
    pub actions: PlannedActions,
    pub accept: bool,
}
