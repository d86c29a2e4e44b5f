//! Lists of entries as graphs, and how many nodes they have.

ghost use Rattle.std.specs.Prelude.{◌≡◌, ◌<◌, length, IfOk};

use policy_core::{Atom, Core, Node};
use route_types::{Change, Memory};
use settled_graph::settle;
use std::alloc::Global;

/// The nodes of a graph before and after it is settled.
#[derive(Clone, Copy, Debug, PartialEq, Eq)]
pub struct Counts {
    pub before: usize,
    pub after: usize,
}

// An entry that tests the MED and sets the local preference: it accepts then, or goes on.
fn entry(core: &mut Core, number: u32, goes_on: bool, behind: Node) -> Result<Node, Memory>
    requires { behind < length core.old }
    ensures { IfOk result (λ n. n < length core.new) }
{
    if goes_on {
        let set = core.act(Change::LocalPreference(number), behind)?;
        let node = core.test(Atom::MedAtMost(number), set, behind)?;
        return Ok(node);
    }
    let accept = core.stop(true)?;
    let set = core.act(Change::LocalPreference(number), accept)?;
    let node = core.test(Atom::MedAtMost(number), set, behind)?;
    Ok(node)
}

// A list of so many entries, behind which the route is rejected, or accepted where entries go on.
fn list(core: &mut Core, entries: u32, goes_on: bool) -> Result<Node, Memory>
    ensures { IfOk result (λ n. n < length core.new) }
{
    let mut node = core.stop(goes_on)?;
    for number in 0..entries {
        node = entry(core, number, goes_on, node)?;
    }
    Ok(node)
}

/// The nodes of a list of so many entries, and of the settled one. The one error is want of memory.
pub fn count(alloc: Global, entries: u32, goes_on: bool) -> Result<Counts, Memory> {
    let mut core = Core::new(alloc);
    let node = list(&mut core, entries, goes_on)?;
    let (settled, _) = settle(alloc, &core, node)?;
    Ok(Counts {
        before: core.count(),
        after: settled.count(),
    })
}
