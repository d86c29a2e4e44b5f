// The nodes that make what is pending, and end.
ghost use Rattle.std.specs.Prelude.{◌<◌, true, length, [], IfOk};
ghost use Rattle.settled_graph.specs.Ends.{Acts, EndsBehind};

use pending_changes::Pending;
use policy_core::{Core, Node};
use route_types::{Change, Memory};
use std::alloc::Global;

/// The node that makes what is pending and accepts, or rejects. The one error is want of memory.
#[tactic(auto, using(crate::proofs::EndLaws::accepts))]
pub(crate) fn end_behind(
    alloc: Global,
    core: &mut Core,
    accept: bool,
    pending: &Pending,
) -> Result<Node, Memory>
    ensures { IfOk result (EndsBehind core.old core.new accept pending.now) }
{
    if !accept {
        let node = core.stop(false)?;
        return Ok(node);
    }
    let node = accept_behind(alloc, core, pending)?;
    Ok(node)
}

fn accept_behind(alloc: Global, core: &mut Core, pending: &Pending) -> Result<Node, Memory>
    ensures { IfOk result (EndsBehind core.old core.new true pending.now) }
{
    let changes = pending.changes(alloc)?;
    let last = core.stop(true)?;
    let node = act_all(core, changes.into_vec(), last)?;
    Ok(node)
}

// The node that makes the changes, from the first one on, and goes on to `behind`.
fn act_all(core: &mut Core, changes: Vec<Change>, behind: Node) -> Result<Node, Memory>
    requires { behind < length core.old }
    ensures { IfOk result (λ n. Acts core.old core.new changes.items [] behind n) }
{
    let mut left = changes;
    let mut node = behind;
    while let Some(change) = left.pop() {
        let next = core.act(change, node)?;
        node = next;
    }
    Ok(node)
}
