ghost use Rattle.std.specs.Prelude.{◌≡◌, ◌-◌, ◌*◌, ◌/◌, ◌^◌, ◌<◌, ◌≤◌};
ghost use Rattle.route_types.specs.declared.address.Family.TheVariants.{V4};
ghost use Rattle.route_types.specs.Address.{width, prefix_of, full_prefix, IsMasked, same_family, contains};

use std::marker::Model;

/// An address family: IPv4 (RFC 791) or IPv6 (RFC 8200).
#[derive(Clone, Copy, Debug, PartialEq, Eq, PartialOrd, Ord, Hash)]
pub enum Family {
    V4,
    V6,
}

impl Family {
    /// The bits of an address of the family: 32 or 128.
    pub fn width(self) -> u8
        ensures { result ≡ width self }
    {
        match self {
            Family::V4 => 32,
            Family::V6 => 128,
        }
    }
}

/// An address: its family, and its bits as a number, the first bit the most significant one of 32
/// bits (V4) or 128 bits (V6).
#[derive(Clone, Copy, Debug, PartialEq, Eq, PartialOrd, Ord, Hash)]
pub struct Address {
    pub family: Family,
    pub bits: u128,
}

/// A prefix (RFC 4632): the addresses that agree with `address` in the first `length` bits. The
/// other bits of `address` are 0, `address` fits its family, and `length` is at most the family's
/// width.
#[derive(Clone, Copy, Debug, PartialEq, Eq, PartialOrd, Ord, Hash)]
pub struct Prefix {
    address: Address,
    length: u8,
}

impl Model for Prefix {
    ghost use Rattle.route_types.specs.Address.{PrefixParts, IsMasked};

    ghost Value = { PrefixParts };

    ghost view = { λ p. record { address = p.address; length = p.length } };

    ghost invariant = { λ p. IsMasked p.address p.length };

    ghost inverse = { λ p. record { address = p.address; length = p.length } };
}

fn same_family(a: Family, b: Family) -> bool
    ensures { result ≡ same_family a b }
{
    a == b
}

// The bits in front of the last `count` ones, as a number.
#[tactic(auto, using(crate::proofs::Bits::front_by_shift))]
fn front_bits(bits: u128, count: u8) -> u128
    ensures { result ≡ bits / 2 ^ count }
{
    bits.checked_shr(u32::from(count)).unwrap_or(0)
}

// The bits with the last `count` ones set to 0.
#[tactic(auto, using(crate::proofs::Bits::masked_by_shift))]
fn without_last_bits(bits: u128, count: u8) -> u128
    ensures { result ≡ bits / 2 ^ count * 2 ^ count }
{
    front_bits(bits, count)
        .checked_shl(u32::from(count))
        .unwrap_or(0)
}

impl Prefix {
    /// The prefix of an address and a length, 0 to the family's width; the bits behind the length
    /// are set to 0. The address fits its family.
    pub fn new(address: Address, length: u8) -> Prefix
        requires fits { address.bits < 2 ^ width address.family }
        requires within { length ≤ width address.family }
        ensures { result ≡ prefix_of address length }
    {
        let host = address.family.width() - length;
        Prefix {
            address: Address {
                family: address.family,
                bits: without_last_bits(address.bits, host),
            },
            length,
        }
    }

    /// The address of the prefix, all its bits behind the length being 0.
    pub fn address(&self) -> Address
        ensures { result ≡ self.now.address }
    {
        self.address
    }

    /// How many bits the addresses share: 0 to 32 (V4) or 128 (V6).
    pub fn length(&self) -> u8
        ensures { result ≡ self.now.length }
    {
        self.length
    }

    /// How many bits stand behind the length, all of them 0: 0 to 32 (V4) or 128 (V6).
    pub fn host_bits(&self) -> u8
        ensures value { result ≡ width self.now.address.family - self.now.length }
        ensures masked { IsMasked self.now.address self.now.length }
    {
        self.address.family.width() - self.length
    }

    /// Whether `inner` is this prefix or lies within it: it is of the same family, no shorter, and
    /// agrees with it in the first `length` bits.
    pub fn contains(&self, inner: &Prefix) -> bool
        ensures { result ≡ contains self.now inner.now }
    {
        let host = self.host_bits();
        same_family(self.address.family, inner.address.family)
            && self.length <= inner.length
            && front_bits(self.address.bits, host) == front_bits(inner.address.bits, host)
    }
    /// Whether the address lies within this prefix: it is of the same family and agrees with it in the
    /// first `length` bits. An address with more bits than its family has lies within none.
    pub fn contains_address(&self, address: &Address) -> bool
        ensures { result ≡ contains self.now (full_prefix address.now) }
    {
        let host = self.host_bits();
        same_family(self.address.family, address.family)
            && self.length <= address.family.width()
            && front_bits(self.address.bits, host) == front_bits(address.bits, host)
    }
}
