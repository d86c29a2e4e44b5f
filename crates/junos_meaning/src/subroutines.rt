//! Whether the conditions of a term hold, and what subroutines answer.
ghost use Rattle.std.specs.Prelude.{◌≡◌, ◌≤◌, ◌&&◌, ℕ, List, IfOk, OnOk, map};
ghost use Rattle.std.specs.List.{list_any};
ghost use Rattle.route_drafts.specs.Drafts.{route_of};
ghost use Rattle.junos_reader.specs.Facts.{forms_of};
ghost use Rattle.junos_reader.specs.Statements.{is_calling_condition, called_by_condition};
ghost use Rattle.junos_meaning.specs.Conditions.{from_holds, one_holds, call_holds};
ghost use Rattle.junos_meaning.specs.Maps.{IsWorld};
ghost use Rattle.junos_meaning.specs.Meaning.{accepts, terms_accept};
ghost use Rattle.junos_meaning.specs.Regions.{content_of};
ghost use Rattle.junos_meaning.specs.Sets.{policy_terms};
ghost use Rattle.junos_meaning.specs.Subroutines.{AreRight};

use crate::actions::flow_behind;
use crate::answers::Answers;
use crate::conditions::plain_hold;
use crate::longest::some_filter_holds;
use crate::regions::{Region, conditions_of, regions_of};
use crate::world::{World, body_of};
use junos_reader::{Condition, Flow};
use route_drafts::Draft;
use route_types::{Memory, Row};
use std::alloc::Global;

fn is_call(condition: &Condition) -> bool
    ensures { result ≡ is_calling_condition condition.now }
{
    matches!(condition, Condition::Policy(_))
}

fn some_calls(conditions: &[&Condition]) -> bool
    ensures { result ≡ list_any is_calling_condition (map (λ c. c.now) conditions.now) }
{
    let mut rest = conditions;
    while let [first, tail @ ..] = rest {
        if is_call(first) {
            return true;
        }
        rest = tail;
    }
    false
}

fn called_by(condition: &Condition) -> &[Row<u8>]
    ensures { result.now ≡ called_by_condition condition.now }
{
    match condition {
        Condition::Policy(names) => names.as_slice(),
        _ => &[],
    }
}

/// Whether the conditions of a term hold. From it on so many calls may stand one in the other; the answers that are known
/// for the route are kept.
#[cycle(calls)]
pub(crate) fn region_holds<'a>(
    alloc: Global,
    world: &World<'a>,
    draft: &Draft,
    calls: u8,
    known: &mut Answers<'a>,
    region: &Region<'a>,
) -> Result<bool, Memory>
    requires world { IsWorld world.now }
    requires known { AreRight known.old.known (forms_of world.now.items.now) (route_of world.now.prefix.now draft.now) }
    ensures value { IfOk result (λ b. b ≡ from_holds (forms_of world.now.items.now) (accepts calls (forms_of world.now.items.now) (route_of world.now.prefix.now draft.now)) (route_of world.now.prefix.now draft.now) (content_of region.now).conditions) }
    ensures known { OnOk result (AreRight known.new.known (forms_of world.now.items.now) (route_of world.now.prefix.now draft.now)) }
{
    let conditions = conditions_of(alloc, region)?;
    from_holds(alloc, world, draft, calls, known, conditions.as_slice())
}

// Whether the conditions of a `from` hold.
#[cycle(calls)]
#[tactic(auto, unfolding(crate::specs::Conditions::from_holds))]
fn from_holds<'a>(
    alloc: Global,
    world: &World<'a>,
    draft: &Draft,
    calls: u8,
    known: &mut Answers<'a>,
    conditions: &[&'a Condition],
) -> Result<bool, Memory>
    requires world { IsWorld world.now }
    requires known { AreRight known.old.known (forms_of world.now.items.now) (route_of world.now.prefix.now draft.now) }
    ensures value { IfOk result (λ b. b ≡ from_holds (forms_of world.now.items.now) (accepts calls (forms_of world.now.items.now) (route_of world.now.prefix.now draft.now)) (route_of world.now.prefix.now draft.now) (map (λ c. c.now) conditions.now)) }
    ensures known { OnOk result (AreRight known.new.known (forms_of world.now.items.now) (route_of world.now.prefix.now draft.now)) }
{
    if !plain_hold(alloc, world, draft, conditions)? {
        return Ok(false);
    }
    if !some_filter_holds(alloc, conditions, world.prefix)? {
        return Ok(false);
    }
    calls_hold(alloc, world, draft, calls, known, conditions)
}

// Whether of the conditions that call policies one holds, or there is none.
#[cycle(calls)]
fn calls_hold<'a>(
    alloc: Global,
    world: &World<'a>,
    draft: &Draft,
    calls: u8,
    known: &mut Answers<'a>,
    conditions: &[&'a Condition],
) -> Result<bool, Memory>
    requires world { IsWorld world.now }
    requires known { AreRight known.old.known (forms_of world.now.items.now) (route_of world.now.prefix.now draft.now) }
    ensures value { IfOk result (λ b. b ≡ one_holds is_calling_condition (call_holds (accepts calls (forms_of world.now.items.now) (route_of world.now.prefix.now draft.now))) (map (λ c. c.now) conditions.now)) }
    ensures known { OnOk result (AreRight known.new.known (forms_of world.now.items.now) (route_of world.now.prefix.now draft.now)) }
{
    if !some_calls(conditions) {
        return Ok(true);
    }
    let mut rest = conditions;
    while let [first, tail @ ..] = rest {
        if is_call(first) && some_accepts(alloc, world, draft, calls, known, called_by(first))? {
            return Ok(true);
        }
        rest = tail;
    }
    Ok(false)
}

// Whether some policy of these names accepts the route.
#[cycle(calls)]
fn some_accepts<'a>(
    alloc: Global,
    world: &World<'a>,
    draft: &Draft,
    calls: u8,
    known: &mut Answers<'a>,
    names: &'a [Row<u8>],
) -> Result<bool, Memory>
    requires world { IsWorld world.now }
    requires known { AreRight known.old.known (forms_of world.now.items.now) (route_of world.now.prefix.now draft.now) }
    ensures value { IfOk result (λ b. b ≡ list_any (accepts calls (forms_of world.now.items.now) (route_of world.now.prefix.now draft.now)) names.now) }
    ensures known { OnOk result (AreRight known.new.known (forms_of world.now.items.now) (route_of world.now.prefix.now draft.now)) }
{
    let mut rest = names;
    while let [first, tail @ ..] = rest {
        if accepts(alloc, world, draft, calls, known, first.as_slice())? {
            return Ok(true);
        }
        rest = tail;
    }
    Ok(false)
}

// Whether the policy of this name, run by itself, accepts the route; an answer that is known is not looked for again.
#[cycle(calls)]
#[tactic(auto, unfolding(crate::specs::Meaning::accepts), using(crate::proofs::CallLaws::one_call))]
fn accepts<'a>(
    alloc: Global,
    world: &World<'a>,
    draft: &Draft,
    calls: u8,
    known: &mut Answers<'a>,
    name: &'a [u8],
) -> Result<bool, Memory>
    requires world { IsWorld world.now }
    requires known { AreRight known.old.known (forms_of world.now.items.now) (route_of world.now.prefix.now draft.now) }
    ensures value { IfOk result (λ b. b ≡ accepts calls (forms_of world.now.items.now) (route_of world.now.prefix.now draft.now) name.now) }
    ensures known { OnOk result (AreRight known.new.known (forms_of world.now.items.now) (route_of world.now.prefix.now draft.now)) }
{
    if calls == 0 {
        return Ok(true);
    }
    if let Some(answer) = known.get(calls, name) {
        return Ok(answer);
    }
    let answer = terms_accept(alloc, world, draft, calls - 1, known, name)?;
    known.put(calls, name, answer)?;
    Ok(answer)
}

// What the terms of the policy of this name answer: they change nothing, and past their end accept.
#[cycle(calls)]
#[tactic(auto, unfolding(crate::specs::Meaning::terms_accept))]
fn terms_accept<'a>(
    alloc: Global,
    world: &World<'a>,
    draft: &Draft,
    calls: u8,
    known: &mut Answers<'a>,
    name: &'a [u8],
) -> Result<bool, Memory>
    requires world { IsWorld world.now }
    requires known { AreRight known.old.known (forms_of world.now.items.now) (route_of world.now.prefix.now draft.now) }
    ensures value { IfOk result (λ b. b ≡ terms_accept (λ t. from_holds (forms_of world.now.items.now) (accepts calls (forms_of world.now.items.now) (route_of world.now.prefix.now draft.now)) (route_of world.now.prefix.now draft.now) t.conditions) (policy_terms (forms_of world.now.items.now) name.now)) }
    ensures known { OnOk result (AreRight known.new.known (forms_of world.now.items.now) (route_of world.now.prefix.now draft.now)) }
{
    let regions = regions_of(alloc, body_of(world, name))?;
    let mut rest = regions.as_slice();
    while let [first, tail @ ..] = rest {
        if region_holds(alloc, world, draft, calls, known, first)? {
            match flow_behind(alloc, first)? {
                Flow::Accept | Flow::NextPolicy => return Ok(true),
                Flow::Reject => return Ok(false),
                Flow::NextTerm => (),
            }
        }
        rest = tail;
    }
    let past_end = true;
    Ok(past_end)
}
