//! The run of a chain, and the judge.
ghost use Rattle.std.specs.Prelude.{◌≡◌, ℕ, List, [], IfOk, OnOk, map};
ghost use Rattle.route_types.specs.Address.{PrefixParts};
ghost use Rattle.route_drafts.specs.Drafts.{route_of};
ghost use Rattle.junos_reader.specs.Facts.{forms_of};
ghost use Rattle.junos_meaning.specs.Chains.{fate_of, StayRight};
ghost use Rattle.junos_meaning.specs.Maps.{IsWorld};
ghost use Rattle.route_types.specs.declared.route.Outcome.{Outcome as SpecOutcome};
ghost use Rattle.junos_meaning.specs.Meaning.{acted_by, run_terms, junos_meaning};
ghost use Rattle.junos_meaning.specs.Regions.{content_of};
ghost use Rattle.junos_meaning.specs.Sets.{policy_terms};
ghost use Rattle.junos_meaning.specs.Subroutines.{AreRight};

use crate::actions::{acted_by, flow_behind, some_change};
use crate::answers::Answers;
use crate::regions::{Region, actions_of, regions_of};
use crate::subroutines::region_holds;
use crate::world::{World, body_of, world_of};
use junos_reader::{Action, CheckedJunos, Flow};
use route_drafts::Draft;
use route_types::{Memory, Outcome, Prefix, Route, Row};
use std::alloc::Global;

/// How the terms of a policy end: with the route as changed so far.
#[derive(Drop)]
pub(crate) enum Ending {
    /// The chain goes on with its next policy.
    GoesOn(Draft),
    Accepted(Draft),
    Rejected,
}

// The route behind these actions. Where one changes it the answers of subroutines are forgotten.
#[tactic(auto, using(crate::proofs::Acting::unchanged))]
fn changed_by<'a>(
    alloc: Global,
    world: &World<'a>,
    known: &mut Answers<'a>,
    actions: &[&'a Action],
    draft: Draft,
) -> Result<Draft, Memory>
    requires world { IsWorld world.now }
    requires known { AreRight known.old.known (forms_of world.now.items.now) (route_of world.now.prefix.now draft) }
    ensures value { IfOk result (λ d. route_of world.now.prefix.now d ≡ acted_by (forms_of world.now.items.now) (map (λ a. a.now) actions.now) (route_of world.now.prefix.now draft)) }
    ensures known { IfOk result (λ d. AreRight known.new.known (forms_of world.now.items.now) (route_of world.now.prefix.now d)) }
{
    if !some_change(actions) {
        return Ok(draft);
    }
    *known = Answers::new(alloc);
    acted_by(alloc, world, actions, draft)
}

// The route behind a term that holds.
fn changed<'a>(
    alloc: Global,
    world: &World<'a>,
    known: &mut Answers<'a>,
    region: &Region<'a>,
    draft: Draft,
) -> Result<Draft, Memory>
    requires world { IsWorld world.now }
    requires known { AreRight known.old.known (forms_of world.now.items.now) (route_of world.now.prefix.now draft) }
    ensures value { IfOk result (λ d. route_of world.now.prefix.now d ≡ acted_by (forms_of world.now.items.now) (content_of region.now).actions (route_of world.now.prefix.now draft)) }
    ensures known { IfOk result (λ d. AreRight known.new.known (forms_of world.now.items.now) (route_of world.now.prefix.now d)) }
{
    let actions = actions_of(alloc, region)?;
    changed_by(alloc, world, known, actions.as_slice(), draft)
}

// The run over the terms of the policy of this name.
#[tactic(auto, unfolding(crate::specs::Meaning::run_terms))]
fn run_policy<'a>(
    alloc: Global,
    world: &World<'a>,
    known: &mut Answers<'a>,
    name: &'a [u8],
    start: Draft,
) -> Result<Ending, Memory>
    requires world { IsWorld world.now }
    requires known { AreRight known.old.known (forms_of world.now.items.now) (route_of world.now.prefix.now start) }
    ensures value { IfOk result (λ e. fate_of world.now.prefix.now e ≡ run_terms (forms_of world.now.items.now) (policy_terms (forms_of world.now.items.now) name.now) (route_of world.now.prefix.now start)) }
    ensures known { IfOk result (λ e. StayRight known.new.known (forms_of world.now.items.now) world.now.prefix.now e) }
{
    let regions = regions_of(alloc, body_of(world, name))?;
    let mut draft = start;
    let mut rest = regions.as_slice();
    while let [first, tail @ ..] = rest {
        if region_holds(alloc, world, &draft, 128, known, first)? {
            draft = changed(alloc, world, known, first, draft)?;
            match flow_behind(alloc, first)? {
                Flow::Accept => return Ok(Ending::Accepted(draft)),
                Flow::Reject => return Ok(Ending::Rejected),
                Flow::NextPolicy => return Ok(Ending::GoesOn(draft)),
                Flow::NextTerm => (),
            }
        }
        rest = tail;
    }
    Ok(Ending::GoesOn(draft))
}

// The route of this draft, accepted.
fn accepted(alloc: Global, draft: Draft, prefix: &Prefix) -> Result<Outcome, Memory>
    ensures { IfOk result (λ o. o ≡ SpecOutcome.Accept (route_of prefix.now draft)) }
{
    let found = draft.finished(alloc, prefix)?;
    Ok(Outcome::Accept(found))
}

// The run over the policies of these names.
#[tactic(auto, unfolding(crate::specs::Meaning::junos_meaning))]
fn run_chain<'a>(
    alloc: Global,
    world: &World<'a>,
    names: &'a [Row<u8>],
    start: Draft,
) -> Result<Outcome, Memory>
    requires { IsWorld world.now }
    ensures { IfOk result (λ o. o ≡ junos_meaning (forms_of world.now.items.now) names.now (route_of world.now.prefix.now start)) }
{
    let mut known = Answers::new(alloc);
    let mut draft = start;
    let mut rest = names;
    while let [first, tail @ ..] = rest {
        match run_policy(alloc, world, &mut known, first.as_slice(), draft)? {
            Ending::GoesOn(behind) => draft = behind,
            Ending::Accepted(behind) => return accepted(alloc, behind, world.prefix),
            Ending::Rejected => return Ok(Outcome::Reject),
        }
        rest = tail;
    }
    accepted(alloc, draft, world.prefix)
}

/// What a chain of policies makes of a route (Junos OS Routing Policies, Firewall Filters, and Traffic Policers User
/// Guide): the route as the terms that held changed it, or its rejection. The one error is want of memory.
pub fn judge_junos(alloc: Global, policy: &CheckedJunos, route: &Route) -> Result<Outcome, Memory>
    ensures { IfOk result (λ o. o ≡ junos_meaning (forms_of policy.now.items) policy.now.names route.now) }
{
    let world = world_of(alloc, policy.tree().items(), route.prefix())?;
    let draft = Draft::of_route(alloc, route)?;
    run_chain(alloc, &world, policy.names(), draft)
}
