// Guarded steps as a text.
ghost use Rattle.std.specs.Prelude.{◌≡◌, true, IfOk};
ghost use Rattle.std.specs.List.{list_all};
ghost use Rattle.policy_core.specs.Guards.{step_says};
ghost use Rattle.policy_core.specs.Sayable.{junos_atom, junos_change};
ghost use Rattle.junos_text.specs.Written.{FitsName};
ghost use Rattle.junos_printer.specs.Printed.{SaySteps, Prints};

use junos_plans::planned_steps;
use junos_policies::policy_options;
use junos_text::{PolicyOption, write_junos};
use policy_core::Step;
use route_types::{Memory, Row};
use std::alloc::Global;

// The definitions of a policy that does what the steps do; their plan is let go.
fn definitions_of(alloc: Global, name: &[u8], steps: &[Step]) -> Result<Row<PolicyOption>, Memory>
    requires says { list_all (step_says junos_atom junos_change) steps.now ≡ true }
    requires named { FitsName name.now }
    ensures { IfOk result (SaySteps name.now steps.now) }
{
    let planned = planned_steps(alloc, steps)?;
    let options = policy_options(alloc, name, planned.as_slice())?;
    Ok(options)
}

/// The text that says guarded steps as a policy of this name (Junos OS Routing Policies, Firewall Filters, and Traffic Policers
/// User Guide).
///
/// Each test and change of the steps can be said in Junos, and the name may name a policy. All stands in `policy-options`: AS
/// paths `NAME-a1`, `NAME-a2`, .., communities `NAME-c1`, .. and subroutines `NAME-s1`, .., each once, and then the policy, a
/// term for each step, and behind the last step with a `from` a term that rejects. The time is near-linear in the size of the
/// steps and of the text. The one error is want of memory.
pub fn print_junos_policy(alloc: Global, name: &[u8], steps: &[Step]) -> Result<Row<u8>, Memory>
    requires says { list_all (step_says junos_atom junos_change) steps.now ≡ true }
    requires named { FitsName name.now }
    // The text reads as a tree in which the policy is in profile, and which gives each route the outcome of the steps.
    ensures { IfOk result (Prints name.now steps.now) }
{
    let options = definitions_of(alloc, name, steps)?;
    let text = write_junos(alloc, options.as_slice())?;
    Ok(text)
}
