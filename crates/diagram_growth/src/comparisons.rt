// The conjunction of comparisons, and the number of its nodes.
ghost use Rattle.std.specs.Prelude.{◌<◌, IfOk};
ghost use Rattle.bit_diagrams.specs.Store.{IsIdOf};
ghost use Rattle.bit_diagrams.specs.Meaning.{Keeps};

use bit_diagrams::{Diagrams, Id, Memory};
use indexmap::IndexSet;
use std::alloc::Global;

/// A store, and the Id in it of what was built.
#[derive(Drop)]
pub struct Built {
    pub store: Diagrams,
    pub id: Id,
}

/// The conjunction of this many comparisons `bit 2i = bit 2i+1`, made from the last pair to the first,
/// so that each step adds its comparison on top.
pub fn conjunction(alloc: Global, count: u32) -> Result<Built, Memory>
    ensures { IfOk result (λ built. IsIdOf built.store built.id) }
{
    let mut store = Diagrams::new(alloc, 2 * count as usize)?;
    let mut all = store.constant(true);
    for pair in (0..count as usize).rev() {
        let equal = comparison(&mut store, 2 * pair, 2 * pair + 1)?;
        all = store.both(equal, all)?;
    }
    Ok(Built { store, id: all })
}

// The Id of the lists whose bits at the two places are equal.
fn comparison(store: &mut Diagrams, left: usize, right: usize) -> Result<Id, Memory>
    requires left_within { left < store.old.places }
    requires right_within { right < store.old.places }
    ensures of_store { IfOk result (IsIdOf store.new) }
    ensures keeps { Keeps store.old store.new }
{
    let here = store.bit(left)?;
    let there = store.bit(right)?;
    let not_there = store.negate(there)?;
    store.choose(here, there, not_there)
}

/// The number of nodes that the Id leads to.
pub fn count_nodes(alloc: Global, store: &Diagrams, id: Id) -> Result<usize, Memory> {
    let mut seen = IndexSet::new(alloc);
    see(store, &mut seen, id)?;
    for index in 0..store.node_count() {
        let Some(next) = seen.get_index(index).copied() else {
            break;
        };
        if let Some(node) = store.node(next) {
            see(store, &mut seen, node.low)?;
            see(store, &mut seen, node.high)?;
        }
    }
    Ok(seen.len())
}

// Counts the Id, once, if it names a node.
fn see(store: &Diagrams, seen: &mut IndexSet<Id>, id: Id) -> Result<(), Memory> {
    if store.node(id).is_some() {
        seen.insert(id)?;
    }
    Ok(())
}
