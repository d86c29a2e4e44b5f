ghost use Rattle.std.specs.Prelude.{◌≡◌};
ghost use Rattle.route_types.specs.Address.{full_prefix};
ghost use Rattle.prefix_sets.specs.FirstMatch.{first_match, hop_match};

use crate::list::{PrefixEntry, PrefixList};
use route_types::{Address, NextHop};

#[tactic(auto, unfolding(crate::specs::FirstMatch::first_match))]
fn first_match_of(entries: &[PrefixEntry], address: &Address) -> bool
    ensures { result ≡ first_match entries.now (full_prefix address.now) }
{
    let mut rest = entries;
    while let [first, tail @ ..] = rest {
        if first.range.holds_address(address) {
            return first.permit;
        }
        rest = tail;
    }
    false
}

/// Whether the list permits an address, taken as a prefix of full length: the first entry whose range
/// holds it decides, and where none does the answer is no. It takes no memory.
pub fn holds_address(list: &PrefixList, address: &Address) -> bool
    ensures { result ≡ first_match list.now.entries (full_prefix address.now) }
{
    first_match_of(list.entries.as_slice(), address)
}

/// Whether the list permits a next hop: an address as `holds_address` says, and the router's own one
/// never, since it is in no range. It takes no memory.
pub fn holds_next_hop(list: &PrefixList, next_hop: &NextHop) -> bool
    ensures { result ≡ hop_match list.now.entries next_hop.now }
{
    match next_hop {
        NextHop::At(address) => holds_address(list, address),
        NextHop::Own => false,
    }
}
