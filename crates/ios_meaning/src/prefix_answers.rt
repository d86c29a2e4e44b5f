// What the prefix lists of a tree answer on one prefix.
ghost use Rattle.std.specs.Prelude.{◌≡◌, ◌/◌, ◌^◌, ℕ, List, true, false, None, IfOk, bytes_eq};
ghost use Rattle.std.specs.List.{list_any};
ghost use Rattle.route_types.specs.Address.{same_family};
ghost use Rattle.prefix_sets.specs.Range.{in_range};
ghost use Rattle.ios_meaning.specs.Answers.{comes_first, lower, decided_from, held_at, permits_at};

use ios_reader::{IosForm, IosItem, PrefixListEntry};
use name_maps::NameMap;
use prefix_sets::PrefixRange;
use route_types::{Address, Family, Memory, Row};
use std::alloc::Global;

/// Of the entries of a list that hold, the one of lowest number.
#[derive(Clone, Copy)]
pub struct Deciding {
    pub number: u64,
    pub permit: bool,
}

/// Whether the two families are one.
pub fn same_family(a: Family, b: Family) -> bool
    ensures { result ≡ same_family a b }
{
    a == b
}

// The bits in front of the last `count` ones, as a number.
#[tactic(auto, using(route_types::proofs::Bits::front_by_shift))]
fn front_bits(bits: u128, count: u8) -> u128
    ensures { result ≡ bits / 2 ^ count }
{
    bits.checked_shr(u32::from(count)).unwrap_or(0)
}

// Whether the prefix of this address and length is in the range. A next hop's address may have more
// bits than its family; it is in no range then.
fn in_range(range: &PrefixRange, address: &Address, length: u8) -> bool
    ensures { result ≡ in_range range.now (record { address = address.now; length = length }) }
{
    let prefix = range.prefix();
    let outer = prefix.address();
    let host = prefix.host_bits();
    same_family(outer.family, address.family)
        && prefix.length() <= length
        && front_bits(outer.bits, host) == front_bits(address.bits, host)
        && range.least() <= length
        && length <= range.most()
}

// Whether an entry that holds comes before the one of its list that decides so far.
fn comes_first<'a>(found: &NameMap<'a, Deciding>, entry: &'a PrefixListEntry) -> bool
    ensures { result ≡ comes_first entry.now (held_at found.now entry.now.list) }
{
    match found.get(entry.list.as_slice()) {
        Some(deciding) => entry.number < deciding.number,
        None => true,
    }
}

// Takes an entry that holds into account.
fn add_holding<'a>(
    found: &mut NameMap<'a, Deciding>,
    entry: &'a PrefixListEntry,
) -> Result<(), Memory>
    ensures { IfOk result (λ _. (q : List ℕ) → held_at found.new q ≡ elim (bytes_eq q entry.now.list) [ true ↦ lower entry.now (held_at found.old q) | false ↦ held_at found.old q ]) }
{
    if !comes_first(found, entry) {
        return Ok(());
    }
    let deciding = Deciding {
        number: entry.number,
        permit: entry.entry.permit,
    };
    found.put(entry.list.as_slice(), deciding)?;
    Ok(())
}

/// For each list the entry that decides on the prefix of this address and length.
#[tactic(auto, unfolding(crate::specs::Answers::decided_from))]
pub fn deciding_entries<'a>(
    alloc: Global,
    items: &'a [IosItem],
    address: &Address,
    length: u8,
) -> Result<NameMap<'a, Deciding>, Memory>
    ensures { IfOk result (λ found. (q : List ℕ) → held_at found q ≡ decided_from (record { address = address.now; length = length }) q None items.now) }
{
    let mut found = NameMap::new(alloc);
    let mut rest = items;
    while let [item, behind @ ..] = rest {
        if let IosForm::PrefixEntry(entry) = &item.form {
            if in_range(&entry.entry.range, address, length) {
                add_holding(&mut found, entry)?;
            }
        }
        rest = behind;
    }
    Ok(found)
}

// The answer of the list of this name; without an entry that holds it is no.
fn permits<'a>(found: &NameMap<'a, Deciding>, name: &'a [u8]) -> bool
    ensures { result ≡ permits_at found.now name.now }
{
    match found.get(name) {
        Some(deciding) => deciding.permit,
        None => false,
    }
}

/// Whether some list of these names answers yes.
pub fn some_permits<'a>(found: &NameMap<'a, Deciding>, lists: &'a [Row<u8>]) -> bool
    ensures { result ≡ list_any (permits_at found.now) lists.now }
{
    let mut rest = lists;
    while let [list, behind @ ..] = rest {
        if permits(found, list.as_slice()) {
            return true;
        }
        rest = behind;
    }
    false
}
