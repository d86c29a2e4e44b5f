// The guarded steps of a settled node: nodes that are still to be listed wait on a stack.
ghost use Rattle.std.specs.Prelude.{◌≡◌, ◌<◌, ◌++◌, ◌∷◌, [], Bool, true, length, map, IfOk};
ghost use Rattle.std.specs.List.{list_all};
ghost use Rattle.route_types.specs.Route.{RouteParts};
ghost use Rattle.route_types.specs.declared.change.Change.{Change};
ghost use Rattle.core_nodes.specs.Outcome.{outcome_at};
ghost use Rattle.core_nodes.specs.declared.atom.Atom.{Atom};
ghost use Rattle.policy_core.specs.Settled.{IsUntested, IsSettled};
ghost use Rattle.policy_core.specs.Steps.{is_end, listed_at, steps_at};
ghost use Rattle.policy_core.specs.Guards.{outcome_of, IsClosed, step_says, said_at};
ghost use Rattle.policy_core.specs.Waiting.{guarded, wants, is_test, MayWait, AllMayWait, Leaves, Takes, TakesFirst};

use crate::step::{Literal, Step};
use core_nodes::{Atom, Core, Node, NodeKind};
use route_types::{Change, Duplicate, Memory, Row};
use std::alloc::Global;
use text_words::Stack;

// A node whose steps up to an end are still to come, each guarded by these literals too.
#[derive(Drop)]
pub(crate) struct Waiting {
    pub(crate) place: usize,
    pub(crate) end: Option<usize>,
    pub(crate) guard: Row<Literal>,
}

// Whether the end is the node.
fn is_end(end: Option<usize>, place: usize) -> bool
    ensures { result ≡ is_end end place }
{
    match end {
        None => false,
        Some(node) => place == node,
    }
}

fn is_test(kind: &NodeKind) -> bool
    ensures { result ≡ is_test kind.now }
{
    match kind {
        NodeKind::Test { .. } => true,
        NodeKind::Do { .. } => false,
        NodeKind::Stop { .. } => false,
    }
}

fn push_copy(alloc: Global, actions: &mut Row<Change>, change: &Change) -> Result<(), Memory>
    ensures { IfOk result (λ _. actions.new ≡ actions.old ++ change.now ∷ []) }
{
    let copied = change.duplicate(alloc)?;
    actions.push(copied)?;
    Ok(())
}

// The one step, under a guard, of a node that has no test behind it.
fn one_step(alloc: Global, core: &Core, place: usize, guard: Row<Literal>) -> Result<Step, Memory>
    requires within { place < length core.now }
    requires untested { IsUntested core.now place }
    ensures { IfOk result (λ step. map (guarded guard) (listed_at core.now place).alone ≡ step ∷ []) }
{
    let mut actions = Row::new(alloc);
    let mut at = place;
    loop {
        match core.kind(at) {
            NodeKind::Test { .. } => unreachable!(),
            NodeKind::Do { change, next } => {
                push_copy(alloc, &mut actions, change)?;
                at = next.place();
            }
            NodeKind::Stop { accept } => {
                return Ok(Step {
                    guard,
                    actions,
                    accept: *accept,
                });
            }
        }
    }
}

// Adds the one step of a node that ends or changes; a test has none.
fn push_alone(
    alloc: Global,
    core: &Core,
    found: &mut Row<Step>,
    place: usize,
    guard: Row<Literal>,
) -> Result<(), Memory>
    requires { MayWait core.now place }
    ensures { IfOk result (λ _. found.new ≡ found.old ++ map (guarded guard) (listed_at core.now place).alone) }
{
    if is_test(core.kind(place)) {
        return Ok(());
    }
    let step = one_step(alloc, core, place, guard)?;
    found.push(step)?;
    Ok(())
}

// The steps of the child `yes` up to the child `no`, under a guard: its one step where both are one node, else it
// waits.
#[tactic(auto, using(crate::proofs::WaitingLaws::first_found, crate::proofs::WaitingLaws::first_waits))]
fn take_first(
    alloc: Global,
    core: &Core,
    found: &mut Row<Step>,
    waiting: &mut Stack<Waiting>,
    yes: usize,
    no: usize,
    guard: Row<Literal>,
) -> Result<(), Memory>
    requires first { MayWait core.now yes }
    requires others { AllMayWait core.now waiting.old }
    ensures { IfOk result (λ _. TakesFirst core.now yes no guard waiting.old found.old waiting.new found.new) }
{
    if yes == no {
        push_alone(alloc, core, found, yes, guard)?;
        return Ok(());
    }
    waiting.push(Waiting {
        place: yes,
        end: Some(no),
        guard,
    })?;
    Ok(())
}

// The guard of the child `yes` of a test that waits. The child `no` waits, with a copy of the test's guard, but where
// it is the end and so has no step.
fn leave(
    alloc: Global,
    waiting: &mut Stack<Waiting>,
    next: Waiting,
    atom: &Atom,
    no: usize,
) -> Result<Row<Literal>, Memory>
    ensures guard { IfOk result (λ guard. guard ≡ next.guard ++ wants atom.now ∷ []) }
    ensures left { IfOk result (λ _. Leaves next.end next.guard no waiting.old waiting.new) }
{
    leave_no(alloc, waiting, &next, no)?;
    let mut guard = next.guard;
    let atom = atom.duplicate(alloc)?;
    guard.push(Literal { atom, wanted: true })?;
    Ok(guard)
}

fn leave_no(
    alloc: Global,
    waiting: &mut Stack<Waiting>,
    next: &Waiting,
    no: usize,
) -> Result<(), Memory>
    ensures { IfOk result (λ _. Leaves next.now.end next.now.guard no waiting.old waiting.new) }
{
    if is_end(next.end, no) {
        return Ok(());
    }
    let guard = next.guard.duplicate(alloc)?;
    waiting.push(Waiting {
        place: no,
        end: next.end,
        guard,
    })?;
    Ok(())
}

// The steps of a node that waits, or the nodes that it leads to.
fn take(
    alloc: Global,
    core: &Core,
    found: &mut Row<Step>,
    waiting: &mut Stack<Waiting>,
    next: Waiting,
) -> Result<(), Memory>
    requires next { MayWait core.now next.place }
    requires others { AllMayWait core.now waiting.old }
    ensures { IfOk result (λ _. Takes core.now next waiting.old found.old waiting.new found.new) }
{
    if is_end(next.end, next.place) {
        return Ok(());
    }
    match core.kind(next.place) {
        NodeKind::Test { atom, yes, no } => {
            let guard = leave(alloc, waiting, next, atom, no.place())?;
            take_first(alloc, core, found, waiting, yes.place(), no.place(), guard)?;
            Ok(())
        }
        NodeKind::Do { .. } => {
            push_alone(alloc, core, found, next.place, next.guard)?;
            Ok(())
        }
        NodeKind::Stop { .. } => {
            push_alone(alloc, core, found, next.place, next.guard)?;
            Ok(())
        }
    }
}

// The steps of a settled node.
fn list_steps(alloc: Global, core: &Core, place: usize) -> Result<Row<Step>, Memory>
    requires { MayWait core.now place }
    ensures { IfOk result (λ found. found ≡ steps_at core.now place) }
{
    let mut found = Row::new(alloc);
    let mut waiting = Stack::new(alloc);
    waiting.push(Waiting {
        place,
        end: None,
        guard: Row::new(alloc),
    })?;
    while let Some(next) = waiting.pop() {
        take(alloc, core, &mut found, &mut waiting, next)?;
    }
    Ok(found)
}

/// The guarded steps of a settled node of the graph, each with what is done on the routes that meet its guard and none
/// before it. A test gives the steps of its child `yes` up to its child `no`, each also guarded by it, and then those
/// of `no`; a node that ends or changes gives one step with an empty guard. The time is linear in the size of the
/// result. The one error is want of memory.
pub fn steps(alloc: Global, core: &Core, node: Node) -> Result<Vec<Step>, Memory>
    requires within { node < length core.now }
    requires settled { IsSettled core.now node }
    ensures exact { IfOk result (λ found. found.items ≡ steps_at core.now node) }
    // The first step whose guard holds gives the outcome of the node.
    ensures outcome { IfOk result (λ found. (r : RouteParts) → outcome_of found.items r ≡ outcome_at core.now node r) }
    // The last guard is empty.
    ensures closed { IfOk result (λ found. IsClosed found.items) }
    // The tests and changes of the steps are those of the node.
    ensures says { IfOk result (λ found. (on_atom : Atom → Bool) (on_change : Change → Bool) → said_at on_atom on_change core.now node ≡ true → list_all (step_says on_atom on_change) found.items ≡ true) }
{
    let _ = core.count();
    let found = list_steps(alloc, core, node.place())?;
    Ok(found.into_vec())
}
