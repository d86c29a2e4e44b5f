ghost use Rattle.std.specs.Prelude.{◌≡◌, IfOk};

use crate::atom::{Atom, PathEntry, PathList};
use route_types::{Duplicate, Memory};
use std::alloc::Global;

impl Duplicate for PathEntry {
    fn duplicate(&self, alloc: Global) -> Result<PathEntry, Memory> {
        Ok(PathEntry {
            permit: self.permit,
            pattern: self.pattern.duplicate(alloc)?,
        })
    }
}

impl Duplicate for PathList {
    fn duplicate(&self, alloc: Global) -> Result<PathList, Memory> {
        Ok(PathList {
            entries: self.entries.duplicate(alloc)?,
        })
    }
}

impl Duplicate for Atom {
    fn duplicate(&self, alloc: Global) -> Result<Atom, Memory> {
        match self {
            Atom::Prefix(lists) => {
                let copied = lists.duplicate(alloc)?;
                Ok(Atom::Prefix(copied))
            }
            Atom::NextHop(lists) => {
                let copied = lists.duplicate(alloc)?;
                Ok(Atom::NextHop(copied))
            }
            Atom::Path(lists) => {
                let copied = lists.duplicate(alloc)?;
                Ok(Atom::Path(copied))
            }
            Atom::Community(lists) => {
                let copied = lists.duplicate(alloc)?;
                Ok(Atom::Community(copied))
            }
            Atom::MedOneOf(numbers) => {
                let copied = numbers.duplicate(alloc)?;
                Ok(Atom::MedOneOf(copied))
            }
            Atom::MedAtLeast(number) => Ok(Atom::MedAtLeast(*number)),
            Atom::MedAtMost(number) => Ok(Atom::MedAtMost(*number)),
            Atom::LocalPreference(number) => Ok(Atom::LocalPreference(*number)),
            Atom::Origin(origin) => Ok(Atom::Origin(*origin)),
            Atom::NoCommunity => Ok(Atom::NoCommunity),
        }
    }
}
