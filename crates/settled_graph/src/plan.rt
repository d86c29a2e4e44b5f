// What a key comes to.
ghost use Rattle.std.specs.Prelude.{◌≡◌, ◌<◌, List, length, if◌then◌else◌, IfOk};
ghost use Rattle.core_nodes.specs.Made.{IsAt};
ghost use Rattle.core_nodes.specs.Nodes.{AreNodes};
ghost use Rattle.core_nodes.specs.declared.node.NodeKind.{NodeKind as Kind};
ghost use Rattle.core_nodes.specs.declared.node.NodeKind.TheVariants.{Test};
ghost use Rattle.resolved_tests.specs.Answers.{Resolves};
ghost use Rattle.settled_graph.specs.Plans.{IsAndThen, IsPlan, parts_of};

use crate::key::{Key, same_behind};
use pending_changes::Pending;
use policy_core::{Atom, Core, NodeKind};
use resolved_tests::{Answer, resolve};
use route_types::{Change, Duplicate, Memory};
use std::alloc::Global;

/// A test of the arriving route, and the places of the nodes that it leads to behind the same changes.
#[derive(Debug, Drop)]
pub struct Asking {
    pub answer: Answer,
    pub met: usize,
    pub unmet: usize,
}

/// What a node comes to behind what is pending.
#[derive(Debug, Drop)]
pub enum Plan {
    /// The route is accepted, as it is left then, or rejected.
    Ends(bool),
    /// Another node gives the same outcome.
    Goes(Key),
    /// The arriving route is tested.
    Asks(Asking),
}

/// What the node of a key comes to: a test that is decided goes on to one node alone. The one error is want of memory.
#[tactic(auto, using(crate::proofs::PlanLaws::stop_ends, crate::proofs::PlanLaws::do_leads))]
pub(crate) fn plan_of(alloc: Global, core: &Core, key: &Key) -> Result<Plan, Memory>
    requires { key.now.place < length core.now }
    ensures { IfOk result (IsPlan core.now key.now) }
{
    match core.kind(key.place) {
        NodeKind::Test { atom, yes, no } => {
            let plan = plan_of_test(alloc, key, atom, yes.place(), no.place())?;
            Ok(plan)
        }
        NodeKind::Do { change, next } => {
            let pending = and_then(alloc, &key.pending, change)?;
            Ok(Plan::Goes(Key {
                place: next.place(),
                pending,
            }))
        }
        NodeKind::Stop { accept } => Ok(Plan::Ends(*accept)),
    }
}

#[tactic(auto, using(crate::proofs::PlanLaws::is_and_then))]
fn and_then(alloc: Global, pending: &Pending, change: &Change) -> Result<Pending, Memory>
    ensures { IfOk result (IsAndThen change.now pending.now) }
{
    let copied = pending.duplicate(alloc)?;
    let both = copied.and_then(alloc, change)?;
    Ok(both)
}

#[tactic(auto, using(crate::proofs::PlanLaws::test_decided, crate::proofs::PlanLaws::test_asks))]
fn plan_of_test(
    alloc: Global,
    key: &Key,
    atom: &Atom,
    met: usize,
    unmet: usize,
) -> Result<Plan, Memory>
    ensures { IfOk result (λ plan. (nodes : List Kind) → AreNodes nodes → IsAt nodes key.now.place (Test atom.now met unmet) → IsPlan nodes key.now plan) }
{
    match resolve(alloc, &key.pending, atom)? {
        Answer::Decided(holds) => {
            let next = same_behind(alloc, key, way(holds, met, unmet))?;
            Ok(Plan::Goes(next))
        }
        answer => Ok(Plan::Asks(Asking { answer, met, unmet })),
    }
}

fn way(holds: bool, met: usize, unmet: usize) -> usize
    ensures { result ≡ (if holds then met else unmet) }
{
    if holds { met } else { unmet }
}

/// The keys that a plan stands on. The one error is want of memory.
pub(crate) fn parts_of(alloc: Global, key: &Key, plan: &Plan) -> Result<Vec<Key>, Memory>
    ensures { IfOk result (λ parts. parts.items ≡ parts_of key.now plan.now) }
{
    let mut parts = Vec::new(alloc);
    match plan {
        Plan::Ends(_) => Ok(parts),
        Plan::Goes(next) => {
            let next = next.duplicate(alloc)?;
            parts.push(next)?;
            Ok(parts)
        }
        Plan::Asks(asking) => {
            let met = same_behind(alloc, key, asking.met)?;
            let unmet = same_behind(alloc, key, asking.unmet)?;
            parts.push(met)?;
            parts.push(unmet)?;
            Ok(parts)
        }
    }
}
