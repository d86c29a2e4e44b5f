// A plan as the definitions of a text.
ghost use Rattle.std.specs.Prelude.{◌≡◌, ◌++◌, ◌∷◌, [], ◌<◌, ◌^◌, length, IfOk, OnOk};
ghost use Rattle.std.specs.List.{AllByRecursion};
ghost use Rattle.junos_plans.specs.Fits.{FitsText, FitsSteps};
ghost use Rattle.junos_layout.specs.Options.{defined_from};
ghost use Rattle.junos_layout.specs.Terms.{step_terms};
ghost use Rattle.junos_policies.specs.Names.{writing};
ghost use Rattle.junos_policies.specs.Options.{path_option, community_option, subroutine_options, terms_option, options_by, FewSubroutines, FewOptions};
ghost use Rattle.junos_policies.specs.Parts.{written_by};
ghost use Rattle.junos_policies.specs.Plan.{IsPlan};

use crate::names::{Names, place_behind};
use crate::options::{Guards, Lists, Refusals, push_communities, push_paths, push_subroutines};
use crate::parts::{PlanParts, parts_of};
use crate::sets::{all, count};
use crate::terms::step_terms;
use junos_plans::{PlannedList, PlannedLiteral, PlannedStep, PlannedTest};
use junos_text::{PolicyDefinition, PolicyOption};
use route_types::{Memory, Row};
use std::alloc::Global;

// AS paths and communities.
fn push_named(
    alloc: Global,
    out: &mut Row<PolicyOption>,
    name: &[u8],
    parts: &PlanParts,
) -> Result<(), Memory>
    requires { AllByRecursion FitsText parts.now.paths }
    ensures options { OnOk result (out.new ≡ out.old ++ (defined_from (path_option name.now) 0 parts.now.paths ++ defined_from (community_option name.now) 0 parts.now.communities)) }
    ensures paths { OnOk result (length parts.now.paths < 2 ^ 63) }
    ensures communities { OnOk result (length parts.now.communities < 2 ^ 63) }
{
    push_paths(alloc, out, name, all(&parts.paths))?;
    push_communities(alloc, out, name, all(&parts.communities))
}

// The subroutines of lists, of tests and of guards.
fn push_all(alloc: Global, out: &mut Row<PolicyOption>, names: &Names) -> Result<(), Memory>
    ensures options { OnOk result (out.new ≡ out.old ++ subroutine_options names.now.name.now names.now.parts.now (writing names.now)) }
    ensures few { OnOk result (FewSubroutines names.now.parts.now (writing names.now)) }
{
    let parts = names.parts;
    let before_tests = count(&parts.lists);
    let before_guards = place_behind(before_tests, count(&parts.tests))?;
    let _together = place_behind(before_guards, count(&parts.guards))?;
    push_subroutines::<PlannedList, Lists>(alloc, out, names, 0, all(&parts.lists))?;
    let tests = all(&parts.tests);
    push_subroutines::<PlannedTest, Refusals>(alloc, out, names, before_tests, tests)?;
    let guards = all(&parts.guards);
    push_subroutines::<Row<PlannedLiteral>, Guards>(alloc, out, names, before_guards, guards)
}

// The policy itself, of which there are fewer than 2^63 terms.
#[tactic(auto, using(crate::proofs::Numbered::few_terms))]
fn push_policy(
    alloc: Global,
    out: &mut Row<PolicyOption>,
    names: &Names,
    steps: &[PlannedStep],
) -> Result<(), Memory>
    ensures option { OnOk result (out.new ≡ out.old ++ terms_option names.now.name.now (step_terms (writing names.now) steps.now) ∷ []) }
    ensures few { OnOk result (length (step_terms (writing names.now) steps.now) < 2 ^ 63) }
{
    let name = Row::from_slice(alloc, names.name)?;
    let terms = step_terms(alloc, names, steps)?;
    let _count = terms.as_slice().len();
    out.push(PolicyOption::Policy(PolicyDefinition { name, terms }))
}

// The definitions of parts that were noted.
fn options_over(
    alloc: Global,
    name: &[u8],
    parts: &PlanParts,
    steps: &[PlannedStep],
) -> Result<Row<PolicyOption>, Memory>
    requires { AllByRecursion FitsText parts.now.paths }
    ensures options { IfOk result (λ options. options ≡ options_by name.now parts.now (written_by name.now parts.now) steps.now) }
    ensures few { OnOk result (FewOptions parts.now (written_by name.now parts.now) steps.now) }
{
    let mut options = Row::new(alloc);
    push_named(alloc, &mut options, name, parts)?;
    let names = Names { name, parts };
    push_all(alloc, &mut options, &names)?;
    push_policy(alloc, &mut options, &names, steps)?;
    Ok(options)
}

/// The definitions of a text that defines a policy of this name, which does what the steps do: each AS path, community and
/// subroutine once, named `NAME-a1`, `NAME-c1`, `NAME-s1` and so on, and then the policy (Junos OS Routing Policies,
/// Firewall Filters, and Traffic Policers User Guide). The name is any text. The time is near-linear in the size of the
/// steps. The one error is want of memory, as comes too where there are 2^62 subroutines or more.
pub fn policy_options(
    alloc: Global,
    name: &[u8],
    steps: &[PlannedStep],
) -> Result<Row<PolicyOption>, Memory>
    requires { FitsSteps steps.now }
    // They are the definitions of the steps: what is used is defined, once, under the name that it is used by.
    ensures { IfOk result (λ options. IsPlan name.now steps.now options) }
{
    let parts = parts_of(alloc, steps)?;
    let options = options_over(alloc, name, &parts, steps)?;
    Ok(options)
}
