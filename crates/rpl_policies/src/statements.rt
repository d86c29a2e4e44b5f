// Steps as statements.
ghost use Rattle.std.specs.Prelude.{◌≡◌, ◌++◌, ◌∷◌, List, OnOk, IfOk};
ghost use Rattle.rpl_forms.specs.declared.item.RplForm.{RplForm as IsForm};
ghost use Rattle.rpl_layout.specs.Statements.{ending, actions_of, body_of, step_forms, steps_forms};
ghost use Rattle.rpl_policies.specs.Acts.{reached};
ghost use Rattle.rpl_policies.specs.Names.{writing};

use crate::actions::push_actions;
use crate::guards::guard_terms;
use crate::names::Names;
use route_types::{Memory, Row};
use rpl_forms::{PolicyStatement, RplForm};
use rpl_plans::{PlannedLiteral, PlannedStep};
use std::alloc::Global;

fn ending(accept: bool) -> PolicyStatement
    ensures { result ≡ ending accept }
{
    if accept {
        return PolicyStatement::Done;
    }
    PolicyStatement::Drop
}

// The actions of a step, and how it ends.
#[tactic(auto, unfolding(crate::specs::Acts::acts))]
fn push_body(alloc: Global, out: &mut Row<RplForm>, step: &PlannedStep) -> Result<(), Memory>
    ensures { OnOk result (out.new ≡ out.old ++ body_of (actions_of step.now.actions) step.now.accept) }
{
    push_actions(alloc, out, &step.actions)?;
    out.push(RplForm::Statement(ending(step.accept)))
}

// A step behind its guard.
fn push_guarded(
    alloc: Global,
    out: &mut Row<RplForm>,
    names: &Names,
    first: &PlannedLiteral,
    others: &[PlannedLiteral],
    step: &PlannedStep,
) -> Result<(), Memory>
    ensures { OnOk result ((following : List IsForm) → out.new ++ following ≡ out.old ++ step_forms (writing names.now) (first.now ∷ others.now) (body_of (actions_of step.now.actions) step.now.accept) following) }
{
    let terms = guard_terms(alloc, names, first, others)?;
    out.push(RplForm::Statement(PolicyStatement::If(terms)))?;
    push_body(alloc, out, step)?;
    out.push(RplForm::Statement(PolicyStatement::EndIf))?;
    Ok(())
}

// A step, and whether what follows it is reached.
fn push_step(
    alloc: Global,
    out: &mut Row<RplForm>,
    names: &Names,
    step: &PlannedStep,
) -> Result<bool, Memory>
    ensures { IfOk result (λ more. (following : List IsForm) → out.new ++ reached more following ≡ out.old ++ step_forms (writing names.now) step.now.guard (body_of (actions_of step.now.actions) step.now.accept) following) }
{
    match step.guard.as_slice() {
        [] => {
            push_body(alloc, out, step)?;
            Ok(false)
        }
        [first, others @ ..] => {
            push_guarded(alloc, out, names, first, others, step)?;
            Ok(true)
        }
    }
}

/// Puts the statements of steps at the end. Its one error is want of memory.
#[tactic(auto, unfolding(rpl_layout::specs::Statements::steps_forms))]
pub(crate) fn push_steps(
    alloc: Global,
    out: &mut Row<RplForm>,
    names: &Names,
    steps: &[PlannedStep],
) -> Result<(), Memory>
    ensures { OnOk result (out.new ≡ out.old ++ steps_forms (writing names.now) steps.now) }
{
    let mut rest = steps;
    while let [step, tail @ ..] = rest {
        if !push_step(alloc, out, names, step)? {
            return Ok(());
        }
        rest = tail;
    }
    Ok(())
}
