ghost use Rattle.std.specs.Prelude.{◌≡◌, ◌<◌, Bool, true, length, IfOk};
ghost use Rattle.route_types.specs.Route.{RouteParts, InRange};
ghost use Rattle.core_nodes.specs.Outcome.{outcome_at};
ghost use Rattle.policy_core.specs.Settled.{IsSettled};
ghost use Rattle.route_types.specs.Community.{RectParts};
ghost use Rattle.route_types.specs.declared.change.Change.{Change};
ghost use Rattle.core_nodes.specs.declared.atom.Atom.{Atom};
ghost use Rattle.settled_graph.specs.Keys.{Settles};
ghost use Rattle.policy_core.specs.Apart.{untouched, apart_at};
ghost use Rattle.settled_graph.specs.Said.{says_at};

use crate::key::Key;
use crate::memo::{Memo, found};
use crate::tasks::{Task, take};
use indexmap::IndexMap;
use pending_changes::Pending;
use policy_core::{Core, Node};
use route_types::{Duplicate, Memory};
use std::alloc::Global;
use text_words::Stack;

/// A graph, and the node of it that gives each route what the node, one of the graph given, does, and in which no test
/// follows a change: each change waits until the run ends, and each test is asked of the route as it arrives. There is one
/// node for each node that is reached behind each pending change, so the time is near-linear in the result. The one error
/// is want of memory.
#[tactic(auto, using(crate::proofs::MakeLaws::root_says))]
pub fn settle(alloc: Global, core: &Core, node: Node) -> Result<(Core, Node), Memory>
    requires { node < length core.now }
    // The node is one of the graph's.
    ensures of_core { IfOk result (λ p. p.1 < length p.0) }
    // No test follows a change.
    ensures settled { IfOk result (λ p. IsSettled p.0 p.1) }
    // Each route in range has the same outcome.
    ensures outcome { IfOk result (λ p. (r : RouteParts) → InRange r → outcome_at p.0 p.1 r ≡ outcome_at core.now node r) }
    // What is said of all tests, of the values that are set and of the rectangles that are removed, is kept, where on no way
    // a path test follows a prepend, or a community test a change of the communities.
    ensures said { IfOk result (λ p. (on_atom : Atom → Bool) (on_value : Change → Bool) (on_rect : RectParts → Bool) → apart_at core.now node untouched ≡ true → says_at on_atom on_value on_rect core.now node ≡ true → says_at on_atom on_value on_rect p.0 p.1 ≡ true) }
{
    let root = Key {
        place: node.place(),
        pending: Pending::none(alloc),
    };
    let mut settled = Core::new(alloc);
    let found = settle_key(alloc, core, &mut settled, root)?;
    Ok((settled, found))
}

// The node that settles a key, put into a graph without nodes.
fn settle_key(alloc: Global, core: &Core, settled: &mut Core, root: Key) -> Result<Node, Memory>
    requires { root.place < length core.now }
    ensures { IfOk result (Settles core.now settled.new root) }
{
    let mut memo = IndexMap::new(alloc);
    let mut tasks = Stack::new(alloc);
    let key = root.duplicate(alloc)?;
    tasks.push(Task { key, plan: None })?;
    while let Some(task) = tasks.pop() {
        take(alloc, core, settled, &mut memo, &mut tasks, task)?;
    }
    Ok(found(&memo, &root))
}
