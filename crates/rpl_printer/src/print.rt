// Guarded steps as a text.
ghost use Rattle.std.specs.Prelude.{◌≡◌, true, IfOk};
ghost use Rattle.std.specs.List.{list_all};
ghost use Rattle.policy_core.specs.Guards.{step_says};
ghost use Rattle.policy_core.specs.Sayable.{rpl_atom, rpl_change};
ghost use Rattle.rpl_text.specs.Written.{HeadsBlock};
ghost use Rattle.rpl_printer.specs.Printed.{SaySteps, Prints};

use policy_core::Step;
use route_types::{Memory, Row};
use rpl_forms::RplForm;
use rpl_plans::planned_steps;
use rpl_policies::policy_forms;
use rpl_text::write_rpl;
use std::alloc::Global;

// The forms of a policy that does what the steps do; their plan is let go.
fn forms_of(alloc: Global, name: &[u8], steps: &[Step]) -> Result<Row<RplForm>, Memory>
    requires says { list_all (step_says rpl_atom rpl_change) steps.now ≡ true }
    requires named { HeadsBlock name.now }
    ensures { IfOk result (SaySteps name.now steps.now) }
{
    let planned = planned_steps(alloc, steps)?;
    let forms = policy_forms(alloc, name, planned.as_slice())?;
    Ok(forms)
}

/// The text that says guarded steps as a policy of this name (Cisco IOS XR Routing Configuration Guide, 'Implementing Routing
/// Policy').
///
/// Each test and change of the steps can be said in RPL, and the name may stand at the head of a block. Sets come first, each
/// once: prefix sets `NAME-p1`, `NAME-p2`, .., community sets `NAME-c1`, .., path sets `NAME-a1`, ..; then the policy, an `if`
/// for each step with a guard, and nothing behind the first step without one. The time is near-linear in the size of the
/// steps and of the text. The one error is want of memory.
pub fn print_rpl_policy(alloc: Global, name: &[u8], steps: &[Step]) -> Result<Row<u8>, Memory>
    requires says { list_all (step_says rpl_atom rpl_change) steps.now ≡ true }
    requires named { HeadsBlock name.now }
    // The text reads as a tree in which the policy is in profile, and which gives each route the outcome of the steps.
    ensures { IfOk result (Prints name.now steps.now) }
{
    let forms = forms_of(alloc, name, steps)?;
    let text = write_rpl(alloc, forms.as_slice())?;
    Ok(text)
}
