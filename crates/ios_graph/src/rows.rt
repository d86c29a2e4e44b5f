//! The nodes of the entries that are in the graph, in two rows.

ghost use Rattle.std.specs.Prelude.{◌≡◌, IfOk, map};
ghost use Rattle.ios_meaning.specs.Meaning.{continuation_of};
ghost use Rattle.ios_graph.specs.Rows.{Falls, HasMore, node_from, node_behind};

use crate::continues::continuation_of;
use ios_reader::MapLine;
use policy_core::Node;
use route_types::Memory;

/// The node of an entry for the routes for which some entry before it held, beside the number of the entry.
#[derive(Clone, Copy)]
pub struct Target {
    pub number: u64,
    pub node: Node,
}

/// The nodes of the entries that are in the graph: those from some entry on, in order of their numbers.
#[derive(Drop)]
pub struct Rows {
    /// Past the last entry, where some entry held: the route is accepted.
    pub accepted: Node,
    /// Past the last entry, where none held: the route is rejected.
    pub rejected: Node,
    /// The first of the entries, for the routes for which none before it held.
    pub none_held: Node,
    /// Each of the entries, for the routes for which some entry before it held; the last one stands first.
    pub some_held: Vec<Target>,
}

/// The node of the first entry that has this number or a greater one, for the routes for which some entry held; where
/// none of the entries has, the one that accepts. It takes no memory, and time by the logarithm of the entries.
pub(crate) fn node_from(rows: &Rows, number: u64) -> Node
    requires { Falls rows.now.some_held.items }
    ensures { result ≡ node_from number rows.now.accepted rows.now.some_held.items }
{
    let targets = rows.some_held.as_slice();
    let count = targets.partition_point(|target| target.number >= number);
    if count == 0 {
        return rows.accepted;
    }
    targets[count - 1].node
}

/// The node where the run goes on behind an entry of these lines that held: at the entry that a `continue` line names,
/// at the next one where it names none, and at the end that accepts where there is no such line.
pub(crate) fn node_behind(rows: &Rows, lines: &[&MapLine]) -> Node
    requires { Falls rows.now.some_held.items }
    ensures { result ≡ node_behind rows.now (continuation_of (map (λ l. l.now) lines.now)) }
{
    match continuation_of(lines) {
        Some(target) => node_from(rows, target.unwrap_or(0)),
        None => rows.accepted,
    }
}

/// Puts the nodes of an entry before those that are there. The one error is want of memory.
pub(crate) fn put_before(
    rows: &mut Rows,
    number: u64,
    none_held: Node,
    some_held: Node,
) -> Result<(), Memory>
    ensures { IfOk result (λ _. HasMore rows.old number none_held some_held rows.new) }
{
    rows.some_held.push(Target {
        number,
        node: some_held,
    })?;
    rows.none_held = none_held;
    Ok(())
}
