// What is still to be done, on a stack.
ghost use Rattle.std.specs.Prelude.{◌≡◌, ◌⊎◌, ◌<◌, ◌∷◌, ◌++◌, List, length, map, IfOk};
ghost use Rattle.core_nodes.specs.declared.node.NodeKind.{NodeKind as Kind};
ghost use Rattle.std.specs.List.{AllByRecursion};
ghost use Rattle.settled_graph.specs.Keys.{IsKnown, AreWithin, IsSound, IsNoted};
ghost use Rattle.settled_graph.specs.Plans.{IsPlan, parts_of};
ghost use Rattle.settled_graph.specs.Tasks.{MayBeDone, MayAllBeDone, IsPlanned, planless, work};
ghost use Rattle.settled_graph.specs.declared.key.Key.{Key as KeyParts};

use crate::key::Key;
use crate::make::node_of;
use crate::memo::{Memo, is_known, note};
use crate::plan::{Plan, parts_of, plan_of};
use policy_core::{Core, Node};
use route_types::Memory;
use std::alloc::Global;
use text_words::Stack;

/// A key that is to be settled: its plan is to be made, or its node.
#[derive(Debug, Drop)]
pub struct Task {
    pub key: Key,
    pub plan: Option<Plan>,
}

/// Does a task. The one error is want of memory.
#[tactic(auto, using(crate::proofs::MakeLaws::sound_within, crate::proofs::TaskLaws::done_known, crate::proofs::TaskLaws::done_planned, crate::proofs::TaskLaws::planned_less, crate::proofs::TaskLaws::done_less))]
pub(crate) fn take(
    alloc: Global,
    core: &Core,
    settled: &mut Core,
    memo: &mut Memo,
    tasks: &mut Stack<Task>,
    task: Task,
) -> Result<(), Memory>
    requires task { MayBeDone core.now (IsKnown memo.old) task }
    requires sound { IsSound core.now settled.old memo.old }
    ensures sound { IfOk result (λ _. IsSound core.now settled.new memo.new) }
    ensures tasks { IfOk result (λ _. (root : KeyParts) → MayAllBeDone core.now root (IsKnown memo.old) (task ∷ tasks.old) → MayAllBeDone core.now root (IsKnown memo.new) tasks.new) }
    ensures less { IfOk result (λ _. work tasks.new < work (task ∷ tasks.old)) }
{
    let Task { key, plan } = task;
    match plan {
        None => {
            plan_key(alloc, core, memo, tasks, key)?;
            Ok(())
        }
        Some(plan) => {
            make_node(alloc, settled, memo, key, plan)?;
            Ok(())
        }
    }
}

// Makes the plan of a key, unless the key is settled: its parts are to be settled, and then its node is to be made.
fn plan_key(
    alloc: Global,
    core: &Core,
    memo: &Memo,
    tasks: &mut Stack<Task>,
    key: Key,
) -> Result<(), Memory>
    requires { key.place < length core.now }
    ensures { IfOk result (λ _. (IsKnown memo.now key × (tasks.new ≡ tasks.old)) ⊎ IsPlanned core.now key tasks.old tasks.new) }
{
    if is_known(memo, &key) {
        return Ok(());
    }
    let plan = plan_of(alloc, core, &key)?;
    let parts = parts_of(alloc, &key, &plan)?;
    tasks.push(Task {
        key,
        plan: Some(plan),
    })?;
    push_all(tasks, parts)?;
    Ok(())
}

fn push_all(tasks: &mut Stack<Task>, keys: Vec<Key>) -> Result<(), Memory>
    ensures { IfOk result (λ _. tasks.new ≡ map planless keys.items ++ tasks.old) }
{
    let mut left = keys;
    while let Some(key) = left.pop() {
        tasks.push(Task { key, plan: None })?;
    }
    Ok(())
}

// Makes the node of a key, and keeps it.
#[tactic(auto, using(crate::proofs::MakeLaws::noted_sound))]
fn make_node(
    alloc: Global,
    settled: &mut Core,
    memo: &mut Memo,
    key: Key,
    plan: Plan,
) -> Result<(), Memory>
    requires parts { AllByRecursion (IsKnown memo.old) (parts_of key plan) }
    requires within { AreWithin settled.old memo.old }
    ensures sound { IfOk result (λ _. (old : List Kind) → IsSound old settled.old memo.old → IsPlan old key plan → IsSound old settled.new memo.new) }
    ensures noted { IfOk result (λ _. IsNoted memo.old memo.new key) }
{
    let node = node_of(alloc, settled, memo, &key, plan)?;
    note(memo, key, node)?;
    Ok(())
}
