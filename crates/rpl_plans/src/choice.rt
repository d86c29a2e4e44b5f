use crate::test::PlannedTest;
use route_types::{Duplicate, Memory, Row};
use std::alloc::Global;

/// An entry of a list: what it answers where its test holds.
#[derive(Debug, Drop)]
pub struct Choice {
    pub permit: bool,
    pub test: PlannedTest,
}

/// What a permit set gives: `not` of each deny set before it, and the permit set itself.
#[derive(Debug, Drop)]
pub struct PlannedTerm {
    pub denied: Row<PlannedTest>,
    pub permitted: PlannedTest,
}

/// Terms of which one has to hold: there is at least one.
#[derive(Debug, Drop)]
pub struct PlannedTerms {
    pub first: PlannedTerm,
    pub others: Row<PlannedTerm>,
}

impl Duplicate for Choice {
    fn duplicate(&self, alloc: Global) -> Result<Choice, Memory> {
        Ok(Choice {
            permit: self.permit,
            test: self.test.duplicate(alloc)?,
        })
    }
}
