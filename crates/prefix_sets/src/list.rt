ghost use Rattle.std.specs.Prelude.{◌≡◌, IfOk};
ghost use Rattle.prefix_sets.specs.FirstMatch.{first_match};

use crate::range::PrefixRange;
use route_types::{Duplicate, Family, Memory, Prefix, Row};
use std::alloc::Global;

/// An entry of a prefix list: what it answers on the prefixes of its range.
#[derive(Clone, Copy, Debug, PartialEq, Eq, Hash)]
pub struct PrefixEntry {
    pub permit: bool,
    pub range: PrefixRange,
}

/// A prefix list of one family: its entries in the order in which they are tried.
#[derive(Debug, PartialEq, Eq, Hash, Drop)]
pub struct PrefixList {
    pub family: Family,
    pub entries: Row<PrefixEntry>,
}

#[tactic(auto, unfolding(crate::specs::FirstMatch::first_match))]
fn first_match(entries: &[PrefixEntry], prefix: &Prefix) -> bool
    ensures { result ≡ first_match entries.now prefix.now }
{
    let mut rest = entries;
    while let [first, tail @ ..] = rest {
        if first.range.holds(prefix) {
            return first.permit;
        }
        rest = tail;
    }
    false
}

/// Whether the list permits the prefix: the first entry whose range holds it decides, and where
/// none does the answer is no. It takes no memory.
pub fn holds(list: &PrefixList, prefix: &Prefix) -> bool
    ensures { result ≡ first_match list.now.entries prefix.now }
{
    first_match(list.entries.as_slice(), prefix)
}

impl Duplicate for PrefixEntry {
    fn duplicate(&self, _alloc: Global) -> Result<PrefixEntry, Memory> {
        Ok(*self)
    }
}

impl Duplicate for PrefixList {
    fn duplicate(&self, alloc: Global) -> Result<PrefixList, Memory> {
        Ok(PrefixList {
            family: self.family,
            entries: self.entries.duplicate(alloc)?,
        })
    }
}
