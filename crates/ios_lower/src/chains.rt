//! Nodes that test one atom after the other, and nodes that make one change after the other.

ghost use Rattle.std.specs.Prelude.{◌<◌, [], length, IfOk};
ghost use Rattle.ios_lower.specs.Chains.{Tests, Acts};

use policy_core::{Atom, Core, Node};
use route_types::{Change, Memory};

/// The node that goes to `yes` where all atoms hold, which are tested from the first one on, and else to
/// `no`; both are nodes of the graph. The one error is want of memory.
pub fn test_all(core: &mut Core, atoms: Vec<Atom>, yes: Node, no: Node) -> Result<Node, Memory>
    requires of_yes { yes < length core.old }
    requires of_no { no < length core.old }
    ensures { IfOk result (λ n. Tests core.old core.new atoms.items [] yes no n) }
{
    let mut left = atoms;
    let mut node = yes;
    while let Some(atom) = left.pop() {
        let next = core.test(atom, node, no)?;
        node = next;
    }
    Ok(node)
}

/// The node that makes the changes, from the first one on, and goes on to `behind`, a node of the graph. The one
/// error is want of memory.
pub fn act_all(core: &mut Core, changes: Vec<Change>, behind: Node) -> Result<Node, Memory>
    requires { behind < length core.old }
    ensures { IfOk result (λ n. Acts core.old core.new changes.items [] behind n) }
{
    let mut left = changes;
    let mut node = behind;
    while let Some(change) = left.pop() {
        let next = core.act(change, node)?;
        node = next;
    }
    Ok(node)
}
