//! IOS policies as nodes of the shared graph.

ghost use Rattle.std.specs.Prelude.{◌≡◌, ◌<◌, [], Bool, true, false, length, IfOk, map};
ghost use Rattle.std.specs.List.{AllByRecursion};
ghost use Rattle.route_types.specs.Route.{RouteParts, InRange};
ghost use Rattle.core_nodes.specs.Outcome.{outcome_at};
ghost use Rattle.core_nodes.specs.declared.atom.Atom.{Atom};
ghost use Rattle.route_types.specs.declared.change.Change.{Change};
ghost use Rattle.policy_core.specs.Guards.{said_at};
ghost use Rattle.policy_core.specs.Settled.{IsSettled};
ghost use Rattle.ios_meaning.specs.Drafts.{entry_of};
ghost use Rattle.ios_meaning.specs.Meaning.{ios_meaning, name_of};
ghost use Rattle.ios_lower.specs.Continues.{has_continue};
ghost use Rattle.ios_lower.specs.Lists.{AreLists};
ghost use Rattle.ios_lower.specs.Lowered.{IsBody, IsEntry, AreLowered, IsPolicyNode};
ghost use Rattle.ios_lower.specs.OfPolicy.{IsOfPolicy, PolicySays};

use crate::atoms::atoms_of;
use crate::chains::{act_all, test_all};
use crate::changes::entry_changes;
use crate::lists::{Lists, lists_of};
use ios_meaning::{MapEntry, ordered_entries};
use ios_reader::{CheckedIos, IosItem};
use policy_core::{Core, Node};
use route_types::Memory;
use std::alloc::Global;

/// A graph, and the node of it that gives every route what the policy makes of it (Cisco IOS IP Routing:
/// Protocol-Independent command reference, 'route-map'). The policy has no `continue` line. All tests of an
/// entry stand before its changes and share the node to which they go where one of them fails; entries are
/// put in from the last one on. The one error is want of memory. The time is near-linear in the lines of the
/// policy and the entries of the lists that they name.
pub fn lower_ios(alloc: Global, policy: &CheckedIos) -> Result<(Core, Node), Memory>
    requires { has_continue policy.now.items (name_of policy.now) ≡ false }
    // The node is one of the graph's.
    ensures of_core { IfOk result (λ p. p.1 < length p.0) }
    // No test follows a change.
    ensures settled { IfOk result (λ p. IsSettled p.0 p.1) }
    // Each node tests and changes what the policy does.
    ensures says { IfOk result (λ p. AllByRecursion (IsOfPolicy policy.now.items (name_of policy.now)) p.0) }
    // What all tests and changes of the policy pass, those from the node on pass, as `steps` hands on.
    ensures said { IfOk result (λ p. (on_atom : Atom → Bool) (on_change : Change → Bool) → PolicySays on_atom on_change policy.now.items (name_of policy.now) → said_at on_atom on_change p.0 p.1 ≡ true) }
    // The node gives each route the policy's outcome.
    ensures meaning { IfOk result (λ p. (r : RouteParts) → InRange r → outcome_at p.0 p.1 r ≡ ios_meaning policy.now.items (name_of policy.now) r) }
{
    let mut core = Core::new(alloc);
    let [name] = policy.names() else {
        let node = core.stop(false)?;
        return Ok((core, node));
    };
    let node = lower_named(alloc, &mut core, name.as_slice(), policy.tree().items())?;
    Ok((core, node))
}

// The route-map of this name in a tree.
fn lower_named<'a>(
    alloc: Global,
    core: &mut Core,
    name: &[u8],
    items: &'a [IosItem],
) -> Result<Node, Memory>
    requires empty { core.old ≡ [] }
    requires ends { has_continue items.now name.now ≡ false }
    ensures { IfOk result (IsPolicyNode items.now name.now core.new) }
{
    let entries = ordered_entries(alloc, name, items)?;
    let lists = lists_of(alloc, items, entries.as_slice())?;
    let node = lower_entries(alloc, core, &lists, entries)?;
    let _ = core.count();
    Ok(node)
}

// Entries in order, put in from the last one on; behind the last one the end rejects.
fn lower_entries<'a>(
    alloc: Global,
    core: &mut Core,
    lists: &Lists<'a>,
    entries: Vec<MapEntry<'a>>,
) -> Result<Node, Memory>
    requires lists { AreLists lists.now }
    requires empty { core.old ≡ [] }
    ensures { IfOk result (AreLowered lists.now.items.now (map entry_of entries.entry.items) [] core.new) }
{
    let mut left = entries;
    let mut node = core.stop(false)?;
    while let Some(entry) = left.pop() {
        let next = lower_entry(alloc, core, lists, &entry, node)?;
        node = next;
    }
    Ok(node)
}

// An entry before the node of those behind it.
fn lower_entry<'a>(
    alloc: Global,
    core: &mut Core,
    lists: &Lists<'a>,
    entry: &MapEntry<'a>,
    behind: Node,
) -> Result<Node, Memory>
    requires lists { AreLists lists.now }
    requires of_core { behind < length core.old }
    ensures { IfOk result (IsEntry lists.now.items.now (entry_of entry.now) core.old core.new behind) }
{
    let body = lower_body(alloc, core, lists, entry)?;
    let atoms = atoms_of(alloc, lists, entry.lines.as_slice())?;
    let node = test_all(core, atoms, body, behind)?;
    Ok(node)
}

// What an entry gives the routes for which it holds.
fn lower_body<'a>(
    alloc: Global,
    core: &mut Core,
    lists: &Lists<'a>,
    entry: &MapEntry<'a>,
) -> Result<Node, Memory>
    requires { AreLists lists.now }
    ensures { IfOk result (IsBody lists.now.items.now (entry_of entry.now) core.old core.new) }
{
    if entry.permit {
        let node = lower_permit(alloc, core, lists, entry)?;
        return Ok(node);
    }
    let node = lower_deny(core, lists, entry)?;
    Ok(node)
}

// An entry that permits: its changes, and the end.
fn lower_permit<'a>(
    alloc: Global,
    core: &mut Core,
    lists: &Lists<'a>,
    entry: &MapEntry<'a>,
) -> Result<Node, Memory>
    requires lists { AreLists lists.now }
    requires permits { entry.now.permit ≡ true }
    ensures { IfOk result (IsBody lists.now.items.now (entry_of entry.now) core.old core.new) }
{
    let end = core.stop(true)?;
    let changes = entry_changes(alloc, lists, entry.lines.as_slice())?;
    let node = act_all(core, changes, end)?;
    Ok(node)
}

// An entry that denies: the end.
fn lower_deny<'a>(core: &mut Core, lists: &Lists<'a>, entry: &MapEntry<'a>) -> Result<Node, Memory>
    requires { entry.now.permit ≡ false }
    ensures { IfOk result (IsBody lists.now.items.now (entry_of entry.now) core.old core.new) }
{
    let end = core.stop(false)?;
    Ok(end)
}
