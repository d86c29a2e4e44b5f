// The outcome that a node gives a route.
ghost use Rattle.std.specs.Prelude.{◌≡◌, ◌<◌, length, if◌then◌else◌, IfOk};
ghost use Rattle.core_nodes.specs.Outcome.{ended, outcome_at};

use crate::evaluate::atom_holds;
use crate::graph::Core;
use crate::node::{Node, NodeKind};
use route_types::{Duplicate, Memory, Outcome, Route};

// The place that a test goes on to.
fn way(holds: bool, yes: &Node, no: &Node) -> usize
    ensures { result ≡ (if holds then yes.now else no.now) }
{
    if holds { yes.place() } else { no.place() }
}

// The end with this answer.
fn ended(accept: bool, route: Route) -> Outcome
    ensures { result ≡ ended accept route }
{
    if accept {
        Outcome::Accept(route)
    } else {
        Outcome::Reject
    }
}

impl Core {
    /// The outcome that the node, one of this graph, gives the route. Each test reads the route as changed
    /// so far. The one error is want of memory.
    pub fn run(&self, node: Node, route: &Route) -> Result<Outcome, Memory>
        requires { node < length self.now }
        ensures { IfOk result (λ outcome. outcome ≡ outcome_at self.now node route.now) }
    {
        let alloc = self.allocator();
        let mut place = node.place();
        let mut changed = route.duplicate(alloc)?;
        loop {
            match self.kind(place) {
                NodeKind::Test { atom, yes, no } => {
                    let holds = atom_holds(alloc, atom, &changed)?;
                    place = way(holds, yes, no);
                }
                NodeKind::Do { change, next } => {
                    changed = changed.changed(alloc, change)?;
                    place = next.place();
                }
                NodeKind::Stop { accept } => return Ok(ended(*accept, changed)),
            }
        }
    }
}
