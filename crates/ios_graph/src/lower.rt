//! IOS policies with `continue` as nodes of the shared graph.

ghost use Rattle.std.specs.Prelude.{◌≡◌, ◌<◌, ◌∷◌, ◌++◌, [], Bool, List, true, false, length, IfOk, map};
ghost use Rattle.std.specs.List.{AllByRecursion};
ghost use Rattle.route_types.specs.Route.{RouteParts, InRange};
ghost use Rattle.route_types.specs.declared.change.Change.{Change};
ghost use Rattle.core_nodes.specs.Outcome.{outcome_at};
ghost use Rattle.core_nodes.specs.declared.atom.Atom.{Atom};
ghost use Rattle.policy_core.specs.Apart.{untouched, apart_at};
ghost use Rattle.policy_core.specs.Guards.{said_at};
ghost use Rattle.policy_core.specs.Settled.{IsSettled};
ghost use Rattle.ios_reader.specs.Entries.{Entry};
ghost use Rattle.ios_reader.specs.Profile.{InProfile};
ghost use Rattle.ios_meaning.specs.Drafts.{entry_of};
ghost use Rattle.ios_meaning.specs.Meaning.{ios_meaning, name_of};
ghost use Rattle.ios_lower.specs.Continues.{has_continue};
ghost use Rattle.ios_lower.specs.Lists.{AreLists};
ghost use Rattle.ios_lower.specs.OfPolicy.{IsOfPolicy, PolicySays};
ghost use Rattle.ios_graph.specs.Runs.{AreRising};
ghost use Rattle.ios_graph.specs.Lowered.{AreWithin, IsBody, IsTested, AreLowered, IsPolicyNode};

use crate::rows::{Rows, node_behind, node_from, put_before};
use ios_lower::{Lists, act_all, atoms_of, entry_changes, has_continue, lists_of, test_all};
use ios_meaning::{MapEntry, ordered_entries};
use ios_reader::{CheckedIos, IosItem};
use policy_core::{Core, Node};
use route_types::Memory;
use std::alloc::Global;

/// A graph, and the node of it that gives every route what the policy makes of it (Cisco IOS IP Routing:
/// Protocol-Independent command reference, 'route-map' and 'continue'). Each entry has its tests twice, for the routes for
/// which some entry before it held and for those for which none did: past the last entry the ones are accepted,
/// the others rejected. Both go to the entry's changes, which stand once, and from there to where the entry goes on,
/// always among the nodes of the first sort; so tests may stand behind changes. A policy without a `continue` line has
/// the second sort alone, and no test behind a change. The one error is want of memory. The time is near-linear in the
/// lines of the policy and the entries of the lists that they name.
#[tactic(auto, using(policy_core::proofs::ApartLaws::settled_apart))]
pub fn lower_ios(alloc: Global, policy: &CheckedIos) -> Result<(Core, Node), Memory>
    // The node is one of the graph's.
    ensures of_core { IfOk result (λ p. p.1 < length p.0) }
    // Where the policy has no `continue` line, no test follows a change.
    ensures settled { IfOk result (λ p. has_continue policy.now.items (name_of policy.now) ≡ false → IsSettled p.0 p.1) }
    // No path test follows a prepend, and no community test a change of the communities.
    ensures apart { IfOk result (λ p. apart_at p.0 p.1 untouched ≡ true) }
    // Each node tests and changes what the policy does.
    ensures says { IfOk result (λ p. AllByRecursion (IsOfPolicy policy.now.items (name_of policy.now)) p.0) }
    // What all tests and changes of the policy pass, those from the node on pass.
    ensures said { IfOk result (λ p. (on_atom : Atom → Bool) (on_change : Change → Bool) → PolicySays on_atom on_change policy.now.items (name_of policy.now) → said_at on_atom on_change p.0 p.1 ≡ true) }
    // The node gives each route the policy's outcome.
    ensures meaning { IfOk result (λ p. (r : RouteParts) → InRange r → outcome_at p.0 p.1 r ≡ ios_meaning policy.now.items (name_of policy.now) r) }
{
    if !has_continue(policy) {
        let lowered = ios_lower::lower_ios(alloc, policy)?;
        return Ok(lowered);
    }
    let mut core = Core::new(alloc);
    let [name] = policy.names() else {
        let node = core.stop(false)?;
        return Ok((core, node));
    };
    let node = lower_named(alloc, &mut core, name.as_slice(), policy.tree().items())?;
    Ok((core, node))
}

// The route-map of this name in a tree.
fn lower_named<'a>(
    alloc: Global,
    core: &mut Core,
    name: &[u8],
    items: &'a [IosItem],
) -> Result<Node, Memory>
    requires empty { core.old ≡ [] }
    requires profile { InProfile name.now items.now }
    ensures { IfOk result (IsPolicyNode items.now name.now core.new) }
{
    let entries = ordered_entries(alloc, name, items)?;
    let lists = lists_of(alloc, items, entries.as_slice())?;
    let rows = lower_entries(alloc, core, &lists, entries)?;
    let _ = core.count();
    Ok(rows.none_held)
}

// Entries in order, put in from the last one on.
fn lower_entries<'a>(
    alloc: Global,
    core: &mut Core,
    lists: &Lists<'a>,
    entries: Vec<MapEntry<'a>>,
) -> Result<Rows, Memory>
    requires lists { AreLists lists.now }
    requires empty { core.old ≡ [] }
    requires rising { AreRising (map entry_of entries.items) }
    ensures { IfOk result (AreLowered lists.now.items.now (map entry_of entries.entry.items) [] core.new) }
{
    let rejected = core.stop(false)?;
    let accepted = core.stop(true)?;
    let mut rows = Rows {
        accepted,
        rejected,
        none_held: rejected,
        some_held: Vec::new(alloc),
    };
    let mut left = entries;
    while let Some(entry) = left.pop() {
        lower_entry(alloc, core, lists, &entry, &mut rows)?;
    }
    Ok(rows)
}

// An entry before those that are there: its body once, and its tests in both rows.
fn lower_entry<'a>(
    alloc: Global,
    core: &mut Core,
    lists: &Lists<'a>,
    entry: &MapEntry<'a>,
    rows: &mut Rows,
) -> Result<(), Memory>
    requires lists { AreLists lists.now }
    requires within { AreWithin core.old rows.old }
    ensures { IfOk result (λ _. (es left : List Entry) → AreRising es → AreLowered lists.now.items.now es (left ++ entry_of entry.now ∷ []) core.old rows.old → AreLowered lists.now.items.now es left core.new rows.new) }
{
    let body = lower_body(alloc, core, lists, entry, rows)?;
    let none_held = lower_tests(alloc, core, lists, entry, body, rows.none_held)?;
    let next = node_from(rows, 0);
    let some_held = lower_tests(alloc, core, lists, entry, body, next)?;
    put_before(rows, entry.number, none_held, some_held)?;
    Ok(())
}

// The node that goes to `body` where the entry holds, and else to `other`.
fn lower_tests<'a>(
    alloc: Global,
    core: &mut Core,
    lists: &Lists<'a>,
    entry: &MapEntry<'a>,
    body: Node,
    other: Node,
) -> Result<Node, Memory>
    requires lists { AreLists lists.now }
    requires of_body { body < length core.old }
    requires of_other { other < length core.old }
    ensures { IfOk result (IsTested lists.now.items.now (entry_of entry.now) core.old core.new body other) }
{
    let atoms = atoms_of(alloc, lists, entry.lines.as_slice())?;
    let node = test_all(core, atoms, body, other)?;
    Ok(node)
}

// What an entry gives the routes for which it holds.
fn lower_body<'a>(
    alloc: Global,
    core: &mut Core,
    lists: &Lists<'a>,
    entry: &MapEntry<'a>,
    rows: &Rows,
) -> Result<Node, Memory>
    requires lists { AreLists lists.now }
    requires within { AreWithin core.old rows.now }
    ensures { IfOk result (IsBody lists.now.items.now (entry_of entry.now) rows.now core.old core.new) }
{
    if entry.permit {
        let node = lower_permit(alloc, core, lists, entry, rows)?;
        return Ok(node);
    }
    Ok(rows.rejected)
}

// An entry that permits: its changes, and where it goes on.
fn lower_permit<'a>(
    alloc: Global,
    core: &mut Core,
    lists: &Lists<'a>,
    entry: &MapEntry<'a>,
    rows: &Rows,
) -> Result<Node, Memory>
    requires lists { AreLists lists.now }
    requires within { AreWithin core.old rows.now }
    requires permits { entry.now.permit ≡ true }
    ensures { IfOk result (IsBody lists.now.items.now (entry_of entry.now) rows.now core.old core.new) }
{
    let behind = node_behind(rows, entry.lines.as_slice());
    let changes = entry_changes(alloc, lists, entry.lines.as_slice())?;
    let node = act_all(core, changes, behind)?;
    Ok(node)
}
