// Guarded steps as planned steps.
ghost use Rattle.std.specs.Prelude.{◌≡◌, true, IfOk};
ghost use Rattle.std.specs.List.{list_all, AllByRecursion};
ghost use Rattle.policy_core.specs.Guards.{outcome_of, step_says};
ghost use Rattle.policy_core.specs.Sayable.{junos_atom, junos_change};
ghost use Rattle.route_types.specs.Route.{RouteParts, InRange};
ghost use Rattle.junos_plans.specs.Conditions.{condition_holds};
ghost use Rattle.junos_plans.specs.Fits.{FitsStep, FitsSteps};
ghost use Rattle.junos_plans.specs.Plans.{SaysStep, SaysSteps, planned_outcome};

use crate::changes::planned_changes;
use crate::guards::planned_guard;
use crate::step::PlannedStep;
use policy_core::Step;
use route_types::{Memory, Row};
use std::alloc::Global;

fn planned_step(alloc: Global, step: &Step) -> Result<PlannedStep, Memory>
    requires { step_says junos_atom junos_change step.now ≡ true }
    ensures says { IfOk result (λ planned. SaysStep step.now planned) }
    ensures fits { IfOk result (λ planned. FitsStep planned) }
{
    let guard = planned_guard(alloc, step.guard.as_slice())?;
    let changes = planned_changes(alloc, step.actions.as_slice())?;
    Ok(PlannedStep {
        guard,
        changes,
        accept: step.accept,
    })
}

/// The planned steps of guarded steps whose tests and changes a text of Junos can say. The time is near-linear in the size of
/// the steps. The one error is want of memory.
pub fn planned_steps(alloc: Global, steps: &[Step]) -> Result<Row<PlannedStep>, Memory>
    requires { list_all (step_says junos_atom junos_change) steps.now ≡ true }
    // Each planned step does what its step does.
    ensures says { IfOk result (λ planned. SaysSteps steps.now planned) }
    // Their values lie where a text of Junos can say them.
    ensures fits { IfOk result (λ planned. FitsSteps planned) }
    // They give every route the outcome of the steps.
    ensures outcome { IfOk result (λ planned. (r : RouteParts) → InRange r → planned_outcome (condition_holds r) planned r ≡ outcome_of steps.now r) }
{
    let found = each_step(alloc, steps)?;
    Ok(found)
}

#[tactic(auto, using(crate::proofs::FitLaws::all_with))]
fn each_step(alloc: Global, steps: &[Step]) -> Result<Row<PlannedStep>, Memory>
    requires { list_all (step_says junos_atom junos_change) steps.now ≡ true }
    ensures says { IfOk result (λ planned. SaysSteps steps.now planned) }
    ensures fits { IfOk result (λ planned. FitsSteps planned) }
{
    let mut found = Row::new(alloc);
    let mut rest = steps;
    while let [first, tail @ ..] = rest {
        let step = planned_step(alloc, first)?;
        found.push(step)?;
        rest = tail;
    }
    Ok(found)
}
