//! The run of a policy, and the judge.
ghost use Rattle.std.specs.Prelude.{◌≡◌, ◌<◌, ◌≤◌, ◌^◌, List, ℕ, [], ◌∷◌, ◌++◌, ◌||◌, IfOk, IfSome, OnOk, Some, length, slice_get};
ghost use Rattle.rpl_meaning.specs.Blocks.{IsWorld, word_in};
ghost use Rattle.rpl_meaning.specs.Meaning.{State, Fate, run_policy, body_of, arriving, at_end, then_on, rpl_meaning, name_of};
ghost use Rattle.rpl_meaning.specs.Sets.{parameters_of, block_at, policy_named, below};
ghost use Rattle.rpl_tree.specs.Tree.{forms};
ghost use Rattle.rpl_tree.specs.Nesting.{Steps, Rest};
ghost use Rattle.rpl_meaning.specs.Runs.{IsKnown, IsFound, IsRun, Leads, Covers, left_by, fate_at};
ghost use Rattle.rpl_effects.specs.Kept.{kept_at};
ghost use Rattle.rpl_meaning.specs.Steps.{called_in};
ghost use Rattle.rpl_meaning.specs.Walk.{Ending, Start, chosen, state_of};
ghost use Rattle.rpl_meaning.specs.declared.walk.Mode.TheVariants.{Running};

use crate::known::{Known, all_levels, covers, in_both, key_of, no_levels, one_more};
use crate::outcome::outcome_of;
use crate::tests::{World, world_of};
use crate::walk::{Mode, Place, RplEffect, RplRun, Step, taken};
use crate::words::{Words, handed};
use name_maps::NameMap;
use route_types::{Memory, Outcome, Route, Row};
use rpl_effects::{Changes, Effect, Found, Kept, Levels, Run, lent};
use rpl_reader::CheckedRpl;
use rpl_tree::{Apply, Header, RplForm, RplItem};
use std::alloc::Global;

// What stands in the block of a policy, below its first line.
fn body_of<'a>(world: &World<'a>, name: &'a [u8]) -> &'a [RplItem]
    requires { IsWorld world.now }
    ensures { forms result.now ≡ body_of name.now (forms world.now.items.now) }
{
    match world.policies.get(name) {
        Some([_, behind @ ..]) => behind,
        _ => &[],
    }
}

// The parameters in a first line.
fn parameters_in(form: &RplForm) -> &[Row<u8>]
    ensures { result.now ≡ parameters_of (form.now ∷ []) }
{
    match form {
        RplForm::Header(Header::Policy(header)) => header.parameters.as_slice(),
        _ => &[],
    }
}

// The parameters of a policy.
fn parameters_of<'a>(world: &World<'a>, name: &'a [u8]) -> &'a [Row<u8>]
    requires { IsWorld world.now }
    ensures { result.now ≡ parameters_of (block_at policy_named name.now (forms world.now.items.now)) }
{
    match world.policies.get(name) {
        Some([first, ..]) => parameters_in(&first.form),
        _ => &[],
    }
}

// What a form comes to.
#[derive(Drop)]
pub(crate) enum Next<'a> {
    /// The walk stands there.
    On(Place<'a>),
    Ended(RplEffect<'a>),
}

// What a form comes to, and for which numbers of levels.
#[derive(Drop)]
pub(crate) struct Turn<'a> {
    pub(crate) next: Next<'a>,
    pub(crate) held: Levels,
}

// What stands in a policy does, and for which numbers of levels.
#[derive(Drop)]
pub(crate) struct Body<'a> {
    pub(crate) effect: RplEffect<'a>,
    pub(crate) levels: Levels,
}

fn either(one: bool, other: bool) -> bool
    ensures { result ≡ (one || other) }
{
    one || other
}

// What an `apply` comes to by what the applied policy does: where it goes on, so does the walk.
fn behind_apply<'a>(
    effect: &RplEffect<'a>,
    place: usize,
    before: RplRun<'a>,
) -> Result<Next<'a>, Memory>
    ensures { IfOk result (λ n. (go : Steps → State → Fate) (p : Start) (r : Rest) → slice_get p.table place ≡ Some effect.now → left_by go p r n ≡ then_on (chosen go Running r) (fate_at p.table place (state_of p before.entry))) }
{
    let Run { ticket, changes } = before;
    match effect {
        Effect::GoesOn(later) => {
            let ticket = either(later.ticket, ticket);
            let changes = changes.and_then(&later.changes, place)?;
            Ok(Next::On(Place {
                mode: Mode::Running,
                run: Run { ticket, changes },
            }))
        }
        Effect::Accepted(later) => {
            let changes = changes.and_then(later, place)?;
            Ok(Next::Ended(Effect::Accepted(changes)))
        }
        Effect::Rejected => Ok(Next::Ended(Effect::Rejected)),
    }
}

// Puts the effect of a policy behind those of the table.
fn keep<'a>(known: &mut Known<'a>, effect: RplEffect<'a>, levels: Levels) -> Result<Found, Memory>
    ensures found { IfOk result (λ f. f ≡ record { place = length known.old.effects.items; levels = levels }) }
    ensures effects { OnOk result (known.new.effects.items ≡ known.old.effects.items ++ effect.entry ∷ []) }
    ensures kept { OnOk result (known.new.kept ≡ known.old.kept) }
{
    let place = known.effects.len();
    known.effects.push(effect)?;
    Ok(Found { place, levels })
}

// A run that did nothing so far.
fn fresh<'a>(alloc: Global) -> RplRun<'a>
    ensures { (p : Start) → state_of p result ≡ p.state }
{
    Run {
        ticket: false,
        changes: Changes::none(alloc),
    }
}

// What was found for these words, if it is what the policy does with so many levels.
fn found_before<'a>(known: &Known<'a>, key: &Vec<&'a [u8]>, levels: u8) -> Option<Found>
    ensures kept { IfSome result (λ f. kept_at known.now.kept.entries key.now ≡ Some f) }
    ensures covers { IfSome result (λ f. Covers f.levels levels) }
{
    match known.kept.get(key) {
        Some(found) => {
            if covers(found.levels, levels) {
                return Some(found);
            }
            None
        }
        None => None,
    }
}

// The run of the policy of this name, with so many levels of `apply` below it.
#[cycle(policies)]
fn run_policy<'a>(
    alloc: Global,
    world: &World<'a>,
    known: &mut Known<'a>,
    levels: u8,
    name: &'a [u8],
    words: &Words<'a>,
) -> Result<Found, Memory>
    requires world { IsWorld world.now }
    requires known { IsKnown world.now known.old }
    ensures { IfOk result (λ f. IsFound world.now known.old known.new levels (λ n s. run_policy n (forms world.now.items.now) world.now.route.now (word_in words.now.entries) name.now s) f) }
{
    if levels == 0 {
        let found = keep(known, Effect::GoesOn(fresh(alloc)), no_levels())?;
        return Ok(found);
    }
    let body = run_body(alloc, world, known, levels - 1, words, body_of(world, name))?;
    let found = keep(known, body.effect, one_more(body.levels, levels))?;
    Ok(found)
}

// The run over what stands in a policy, with so many levels of `apply` left.
#[cycle(policies)]
fn run_body<'a>(
    alloc: Global,
    world: &World<'a>,
    known: &mut Known<'a>,
    levels: u8,
    words: &Words<'a>,
    body: &'a [RplItem],
) -> Result<Body<'a>, Memory>
    requires world { IsWorld world.now }
    requires known { IsKnown world.now known.old }
    ensures { IfOk result (λ b. IsRun world.now known.old known.new levels (word_in words.now.entries) (forms body.now) b) }
{
    let mut mode = Mode::Running;
    let mut run = fresh(alloc);
    let mut held = all_levels();
    let mut rest = body;
    while let [first, tail @ ..] = rest {
        let turn = stepped(
            alloc,
            world,
            known,
            levels,
            words,
            mode,
            &first.form,
            run,
            held,
        )?;
        let Turn {
            next,
            held: narrower,
        } = turn;
        held = narrower;
        match next {
            Next::On(place) => {
                mode = place.mode;
                run = place.run;
            }
            Next::Ended(effect) => {
                return Ok(Body {
                    effect,
                    levels: held,
                });
            }
        }
        rest = tail;
    }
    Ok(Body {
        effect: Effect::GoesOn(run),
        levels: held,
    })
}

// What a form comes to where the walk stands, with all that an applied policy does.
#[cycle(policies)]
fn stepped<'a>(
    alloc: Global,
    world: &World<'a>,
    known: &mut Known<'a>,
    levels: u8,
    words: &Words<'a>,
    mode: Mode,
    form: &'a RplForm,
    run: RplRun<'a>,
    held: Levels,
) -> Result<Turn<'a>, Memory>
    requires world { IsWorld world.now }
    requires known { IsKnown world.now known.old }
    ensures { IfOk result (λ x. Leads world.now known.old known.new levels (word_in words.now.entries) mode form.now run.entry held x) }
{
    let step = taken(alloc, world, words, mode, form, run)?;
    match step {
        Step::On(place) => Ok(Turn {
            next: Next::On(place),
            held,
        }),
        Step::Calls(apply, before) => {
            let found = applied(alloc, world, known, levels, words, apply)?;
            let effect = lent(known.effects.as_slice(), found.place);
            let next = behind_apply(effect, found.place, before)?;
            Ok(Turn {
                next,
                held: in_both(held, found.levels),
            })
        }
        Step::Ended(effect) => Ok(Turn {
            next: Next::Ended(effect),
            held,
        }),
    }
}

// The effect of an applied policy: the one that was found for its words, or that of its run.
#[cycle(policies)]
fn applied<'a>(
    alloc: Global,
    world: &World<'a>,
    known: &mut Known<'a>,
    levels: u8,
    words: &Words<'a>,
    apply: &'a Apply,
) -> Result<Found, Memory>
    requires world { IsWorld world.now }
    requires known { IsKnown world.now known.old }
    ensures { IfOk result (λ f. IsFound world.now known.old known.new levels (λ n s. called_in world.now n (word_in words.now.entries) apply.now s) f) }
{
    let key = key_of(alloc, words, apply)?;
    if let Some(found) = found_before(known, &key, levels) {
        return Ok(found);
    }
    let name = apply.policy.as_slice();
    let parameters = parameters_of(world, name);
    let inner = handed(alloc, words, parameters, apply.arguments.as_slice())?;
    let found = run_policy(alloc, world, known, levels, name, &inner)?;
    known.kept.put(key, found)?;
    Ok(found)
}

// What the policy of this name makes of a route, by the items of a text.
pub(crate) fn judge_items<'a>(
    alloc: Global,
    items: &'a [RplItem],
    name: &'a [u8],
    route: &'a Route,
) -> Result<Outcome, Memory>
    ensures { IfOk result (λ o. o ≡ rpl_meaning (forms items.now) name.now route.now) }
{
    let world = world_of(alloc, items, route)?;
    let mut known = Known {
        kept: Kept::new(alloc),
        effects: Vec::new(alloc),
    };
    let words = NameMap::new(alloc);
    let found = run_policy(alloc, &world, &mut known, 129, name, &words)?;
    outcome_of(alloc, known.effects.as_slice(), found.place, route)
}

/// What the policy makes of a route: `Reject`, or `Accept` with the changed route (Cisco IOS XR Routing
/// Configuration Guide, 'Implementing Routing Policy'). It is the meaning of the policy that stands under its name
/// in its tree. What an applied policy does is found once for each policy and the words that are handed to it. The one
/// error is want of memory.
pub fn judge_rpl(alloc: Global, policy: &CheckedRpl, route: &Route) -> Result<Outcome, Memory>
    ensures { IfOk result (λ o. o ≡ rpl_meaning (forms policy.now.items) (name_of policy.now) route.now) }
{
    let [name] = policy.names() else {
        return Ok(Outcome::Reject);
    };
    judge_items(alloc, policy.tree().items(), name.as_slice(), route)
}
