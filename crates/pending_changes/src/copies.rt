ghost use Rattle.std.specs.Prelude.{◌≡◌, IfOk};

use crate::pending::Pending;
use route_types::{CommChange, Duplicate, Memory};
use std::alloc::Global;

impl Duplicate for Pending {
    fn duplicate(&self, alloc: Global) -> Result<Pending, Memory> {
        let prepended = self.prepended.duplicate(alloc)?;
        let communities = copied_change(alloc, &self.communities)?;
        Ok(Pending {
            local_preference: self.local_preference,
            med: self.med,
            weight: self.weight,
            origin: self.origin,
            next_hop: self.next_hop,
            prepended,
            communities,
        })
    }
}

fn copied_change(alloc: Global, change: &Option<CommChange>) -> Result<Option<CommChange>, Memory>
    ensures { IfOk result (λ copied. copied ≡ change.now) }
{
    match change {
        None => Ok(None),
        Some(change) => {
            let copied = change.duplicate(alloc)?;
            Ok(Some(copied))
        }
    }
}
