// Guarded steps as planned steps.
ghost use Rattle.std.specs.Prelude.{◌≡◌, true, IfOk};
ghost use Rattle.std.specs.List.{list_all, AllByRecursion};
ghost use Rattle.policy_core.specs.Guards.{literal_holds, outcome_of, step_says};
ghost use Rattle.policy_core.specs.Sayable.{rpl_atom, rpl_change};
ghost use Rattle.route_types.specs.Route.{RouteParts, InRange};
ghost use Rattle.rpl_plans.specs.Fits.{FitsLiteral, FitsStep, FitsSteps};
ghost use Rattle.rpl_plans.specs.Holds.{planned_holds};
ghost use Rattle.rpl_plans.specs.Plans.{SaysLiteral, SaysGuard, SaysStep, SaysSteps, planned_outcome};

use crate::actions::planned_actions;
use crate::atoms::planned_terms;
use crate::step::{PlannedLiteral, PlannedStep};
use policy_core::{Literal, Step};
use route_types::{Memory, Row};
use std::alloc::Global;

fn planned_literal(alloc: Global, literal: &Literal) -> Result<PlannedLiteral, Memory>
    requires { rpl_atom literal.now.atom ≡ true }
    ensures says { IfOk result (λ planned. SaysLiteral literal.now planned) }
    ensures fits { IfOk result (λ planned. FitsLiteral planned) }
{
    let terms = planned_terms(alloc, &literal.atom)?;
    Ok(PlannedLiteral {
        terms,
        wanted: literal.wanted,
    })
}

#[tactic(auto, using(crate::proofs::FitLaws::all_with))]
fn planned_guard(alloc: Global, guard: &[Literal]) -> Result<Row<PlannedLiteral>, Memory>
    requires { list_all (λ l. rpl_atom l.atom) guard.now ≡ true }
    ensures says { IfOk result (λ planned. SaysGuard guard.now planned) }
    ensures fits { IfOk result (λ planned. AllByRecursion FitsLiteral planned) }
{
    let mut found = Row::new(alloc);
    let mut rest = guard;
    while let [first, tail @ ..] = rest {
        let literal = planned_literal(alloc, first)?;
        found.push(literal)?;
        rest = tail;
    }
    Ok(found)
}

fn planned_step(alloc: Global, step: &Step) -> Result<PlannedStep, Memory>
    requires { step_says rpl_atom rpl_change step.now ≡ true }
    ensures says { IfOk result (λ planned. SaysStep step.now planned) }
    ensures fits { IfOk result (λ planned. FitsStep planned) }
{
    let guard = planned_guard(alloc, step.guard.as_slice())?;
    let actions = planned_actions(alloc, step.actions.as_slice())?;
    Ok(PlannedStep {
        guard,
        actions,
        accept: step.accept,
    })
}

/// The planned steps of guarded steps whose tests and changes a text of RPL can say. The time is near-linear in the size of
/// the result. The one error is want of memory.
pub fn planned_steps(alloc: Global, steps: &[Step]) -> Result<Row<PlannedStep>, Memory>
    requires { list_all (step_says rpl_atom rpl_change) steps.now ≡ true }
    // Each planned step does what its step does.
    ensures says { IfOk result (λ planned. SaysSteps steps.now planned) }
    // Their values lie where a text of RPL can say them.
    ensures fits { IfOk result (λ planned. FitsSteps planned) }
    // They give every route the outcome of the steps.
    ensures outcome { IfOk result (λ planned. (r : RouteParts) → InRange r → planned_outcome (planned_holds r) planned r ≡ outcome_of steps.now r) }
{
    let found = each_step(alloc, steps)?;
    Ok(found)
}

#[tactic(auto, using(crate::proofs::FitLaws::all_with))]
fn each_step(alloc: Global, steps: &[Step]) -> Result<Row<PlannedStep>, Memory>
    requires { list_all (step_says rpl_atom rpl_change) steps.now ≡ true }
    ensures says { IfOk result (λ planned. SaysSteps steps.now planned) }
    ensures fits { IfOk result (λ planned. FitsSteps planned) }
{
    let mut found = Row::new(alloc);
    let mut rest = steps;
    while let [first, tail @ ..] = rest {
        let step = planned_step(alloc, first)?;
        found.push(step)?;
        rest = tail;
    }
    Ok(found)
}
