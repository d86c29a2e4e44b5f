ghost use Rattle.std.specs.Prelude.{◌≡◌, ◌≤◌, IfOk};
ghost use Rattle.route_types.specs.Address.{full_prefix};
ghost use Rattle.prefix_sets.specs.Range.{in_range};

use route_types::{Address, Duplicate, Memory, Prefix};
use std::alloc::Global;
use std::marker::Model;

/// The prefixes within `prefix` whose length is `least` to `most`. `least` is at least the length
/// of `prefix`; a range with `least` above `most` holds nothing.
#[derive(Clone, Copy, Debug, PartialEq, Eq, PartialOrd, Ord, Hash)]
pub struct PrefixRange {
    prefix: Prefix,
    least: u8,
    most: u8,
}

impl Model for PrefixRange {
    ghost use Rattle.std.specs.Prelude.{◌≤◌};
    ghost use Rattle.prefix_sets.specs.Range.{RangeParts};

    ghost Value = { RangeParts };

    ghost view = { λ r. record { prefix = r.prefix; least = r.least; most = r.most } };

    ghost invariant = { λ r. r.prefix.length ≤ r.least };

    ghost inverse = { λ r. record { prefix = r.prefix; least = r.least; most = r.most } };
}

impl PrefixRange {
    /// The range of `prefix` from `least` to `most`.
    pub fn new(prefix: Prefix, least: u8, most: u8) -> PrefixRange
        requires { prefix.length ≤ least }
        ensures { result ≡ record { prefix = prefix; least = least; most = most } }
    {
        PrefixRange {
            prefix,
            least,
            most,
        }
    }

    /// The prefix that holds all prefixes of the range.
    pub fn prefix(&self) -> Prefix
        ensures { result ≡ self.now.prefix }
    {
        self.prefix
    }

    /// The least length of a prefix in the range.
    pub fn least(&self) -> u8
        ensures { result ≡ self.now.least }
    {
        self.least
    }

    /// The greatest length of a prefix in the range.
    pub fn most(&self) -> u8
        ensures { result ≡ self.now.most }
    {
        self.most
    }

    /// Whether `prefix` lies within the range's prefix, and its length within the range's lengths.
    pub fn holds(&self, prefix: &Prefix) -> bool
        ensures { result ≡ in_range self.now prefix.now }
    {
        let length = prefix.length();
        self.prefix.contains(prefix) && self.least <= length && length <= self.most
    }
    /// Whether the address, taken as a prefix of full length, is in the range. No address with more
    /// bits than its family has is in one.
    pub fn holds_address(&self, address: &Address) -> bool
        ensures { result ≡ in_range self.now (full_prefix address.now) }
    {
        let width = address.family.width();
        self.prefix.contains_address(address) && self.least <= width && width <= self.most
    }
}

impl Duplicate for PrefixRange {
    fn duplicate(&self, _alloc: Global) -> Result<PrefixRange, Memory> {
        Ok(*self)
    }
}
