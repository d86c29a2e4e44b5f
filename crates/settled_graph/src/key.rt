ghost use Rattle.std.specs.Prelude.{◌≡◌, IfOk};
ghost use Rattle.settled_graph.specs.Plans.{same_behind};

use pending_changes::Pending;
use route_types::{Duplicate, Memory};
use std::alloc::Global;

/// A node of a graph, by its place, and what is pending before it.
#[derive(Debug, PartialEq, Eq, Hash, Drop)]
pub struct Key {
    pub place: usize,
    pub pending: Pending,
}

impl Duplicate for Key {
    fn duplicate(&self, alloc: Global) -> Result<Key, Memory> {
        Ok(Key {
            place: self.place,
            pending: self.pending.duplicate(alloc)?,
        })
    }
}

/// Another node behind the same changes. The one error is want of memory.
pub(crate) fn same_behind(alloc: Global, key: &Key, place: usize) -> Result<Key, Memory>
    ensures { IfOk result (λ k. k ≡ same_behind key.now place) }
{
    let pending = key.pending.duplicate(alloc)?;
    Ok(Key { place, pending })
}
