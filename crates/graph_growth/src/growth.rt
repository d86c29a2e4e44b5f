//! How many nodes and steps a policy has in the shared graph.

ghost use Rattle.std.specs.Prelude.{◌≡◌, ◌<◌, false, length, IfOk};
ghost use Rattle.policy_core.specs.Settled.{IsSettled};
ghost use Rattle.policy_core.specs.Steps.{steps_at};
ghost use Rattle.ios_meaning.specs.Meaning.{name_of};
ghost use Rattle.ios_lower.specs.Continues.{has_continue};

use ios_lower::lower_ios;
use ios_reader::CheckedIos;
use policy_core::{Core, Node, steps};
use route_types::Memory;
use std::alloc::Global;

/// The nodes of a graph, and the steps of one of them.
#[derive(Clone, Copy, Debug, PartialEq, Eq)]
pub struct Counts {
    pub steps: usize,
    pub nodes: usize,
}

/// Counts the nodes of a graph and the steps of a settled node of it. The one error is want of memory.
pub fn count(alloc: Global, core: &Core, node: Node) -> Result<Counts, Memory>
    requires within { node < length core.now }
    requires settled { IsSettled core.now node }
    ensures steps { IfOk result (λ c. c.steps ≡ length (steps_at core.now node)) }
    ensures nodes { IfOk result (λ c. c.nodes ≡ length core.now) }
{
    let listed = steps(alloc, core, node)?;
    Ok(Counts {
        steps: listed.len(),
        nodes: core.count(),
    })
}

/// Counts the nodes and the steps of a policy without `continue`. The one error is want of memory.
pub fn counts_of(alloc: Global, policy: &CheckedIos) -> Result<Counts, Memory>
    requires { has_continue policy.now.items (name_of policy.now) ≡ false }
{
    let (core, node) = lower_ios(alloc, policy)?;
    count(alloc, &core, node)
}
