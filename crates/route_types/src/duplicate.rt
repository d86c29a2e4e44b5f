ghost use Rattle.std.specs.Prelude.{◌≡◌, IfOk};

use crate::address::{Address, Family, Prefix};
use crate::change::Change;
use crate::community::{CommChange, Community, Rect};
use crate::route::{NextHop, Origin, Route};
use std::alloc::Global;
use text_words::{Memory, Row};

/// Values of which there can be a second one.
pub trait Duplicate: Drop {
    /// A value equal to this one. The one error is want of memory.
    fn duplicate(&self, alloc: Global) -> Result<Self, Memory>
        ensures { IfOk result (λ x. x ≡ self.now) };
}

impl<T: Duplicate> Duplicate for Row<T> {
    fn duplicate(&self, alloc: Global) -> Result<Row<T>, Memory> {
        let mut copies = Row::new(alloc);
        let mut rest = self.as_slice();
        while let [first, tail @ ..] = rest {
            copies.push(first.duplicate(alloc)?)?;
            rest = tail;
        }
        Ok(copies)
    }
}

impl Duplicate for CommChange {
    fn duplicate(&self, alloc: Global) -> Result<CommChange, Memory> {
        Ok(CommChange {
            removed: self.removed.duplicate(alloc)?,
            added: self.added.duplicate(alloc)?,
        })
    }
}

impl Duplicate for Change {
    fn duplicate(&self, alloc: Global) -> Result<Change, Memory> {
        match self {
            Change::NextHop(next_hop) => Ok(Change::NextHop(*next_hop)),
            Change::Prepend(number) => Ok(Change::Prepend(*number)),
            Change::Origin(origin) => Ok(Change::Origin(*origin)),
            Change::LocalPreference(number) => Ok(Change::LocalPreference(*number)),
            Change::Med(number) => Ok(Change::Med(*number)),
            Change::Weight(number) => Ok(Change::Weight(*number)),
            Change::Communities(change) => {
                let copied = change.duplicate(alloc)?;
                Ok(Change::Communities(copied))
            }
        }
    }
}

impl Duplicate for Route {
    fn duplicate(&self, alloc: Global) -> Result<Route, Memory> {
        Ok(Route {
            prefix: self.prefix,
            next_hop: self.next_hop,
            path: self.path.duplicate(alloc)?,
            origin: self.origin,
            local_preference: self.local_preference,
            med: self.med,
            weight: self.weight,
            communities: self.communities.duplicate(alloc)?,
        })
    }
}

impl Duplicate for bool {
    fn duplicate(&self, _alloc: Global) -> Result<bool, Memory> {
        Ok(*self)
    }
}

impl Duplicate for u8 {
    fn duplicate(&self, _alloc: Global) -> Result<u8, Memory> {
        Ok(*self)
    }
}

impl Duplicate for u16 {
    fn duplicate(&self, _alloc: Global) -> Result<u16, Memory> {
        Ok(*self)
    }
}

impl Duplicate for u32 {
    fn duplicate(&self, _alloc: Global) -> Result<u32, Memory> {
        Ok(*self)
    }
}

impl Duplicate for u64 {
    fn duplicate(&self, _alloc: Global) -> Result<u64, Memory> {
        Ok(*self)
    }
}

impl Duplicate for Family {
    fn duplicate(&self, _alloc: Global) -> Result<Family, Memory> {
        Ok(*self)
    }
}

impl Duplicate for Address {
    fn duplicate(&self, _alloc: Global) -> Result<Address, Memory> {
        Ok(*self)
    }
}

impl Duplicate for Prefix {
    fn duplicate(&self, _alloc: Global) -> Result<Prefix, Memory> {
        Ok(*self)
    }
}

impl Duplicate for Community {
    fn duplicate(&self, _alloc: Global) -> Result<Community, Memory> {
        Ok(*self)
    }
}

impl Duplicate for Rect {
    fn duplicate(&self, _alloc: Global) -> Result<Rect, Memory> {
        Ok(*self)
    }
}

impl Duplicate for Origin {
    fn duplicate(&self, _alloc: Global) -> Result<Origin, Memory> {
        Ok(*self)
    }
}

impl Duplicate for NextHop {
    fn duplicate(&self, _alloc: Global) -> Result<NextHop, Memory> {
        Ok(*self)
    }
}
