//! The list that answers as the longest match does.

ghost use Rattle.std.specs.Prelude.{◌≡◌, ◌≤◌, ◌++◌, ◌∷◌, [], ℕ, map, IfOk, OnOk, IsTrue};
ghost use Rattle.std.specs.List.{All, Contains};
ghost use Rattle.std.specs.List.Sorted.{IsPermutation};
ghost use Rattle.route_types.specs.Address.{PrefixParts, width};
ghost use Rattle.prefix_sets.specs.FirstMatch.{first_match};
ghost use Rattle.prefix_sets.specs.LongestMatch.{AreDistinct, are_of, longest_match};
ghost use Rattle.prefix_sets.specs.LongestEntries.{IsKeyed, IsRising, permit_entries, deny_entry, entries_of};

use crate::list::{PrefixEntry, PrefixList};
use crate::range::PrefixRange;
use route_types::{Family, Memory, Row};
use std::alloc::Global;

// A filter, with what it is sorted by: how many bits stand behind its length, and its address.
#[derive(Clone, Copy, Debug, PartialEq, Eq)]
pub(crate) struct Keyed {
    pub host_bits: u8,
    pub bits: u128,
    pub range: PrefixRange,
}

fn with_key(filter: &PrefixRange) -> Keyed
    ensures range { result.range ≡ filter.now }
    ensures keyed { IsKeyed result }
{
    let prefix = filter.prefix();
    Keyed {
        host_bits: prefix.host_bits(),
        bits: prefix.address().bits,
        range: *filter,
    }
}

fn all_keyed(alloc: Global, filters: &[PrefixRange]) -> Result<Vec<Keyed>, Memory>
    ensures ranges { IfOk result (λ ks. map (λ k. k.range) ks.items ≡ filters.now) }
    ensures keyed { IfOk result (λ ks. All IsKeyed ks.items) }
{
    let mut found = Vec::new(alloc);
    let mut rest = filters;
    while let [first, tail @ ..] = rest {
        found.push(with_key(first))?;
        rest = tail;
    }
    Ok(found)
}

// The filters by falling length of their prefixes, then by rising address.
fn longest_first(alloc: Global, filters: &[PrefixRange]) -> Result<Vec<Keyed>, Memory>
    ensures moved { IfOk result (λ ks. IsPermutation filters.now (map (λ k. k.range) ks.items)) }
    ensures keyed { IfOk result (λ ks. All IsKeyed ks.items) }
    ensures rising { IfOk result (λ ks. IsRising ks.items) }
{
    let mut sorted = all_keyed(alloc, filters)?;
    sorted.sort_by_key(|k| (k.host_bits, k.bits))?;
    Ok(sorted)
}

fn push_permit(entries: &mut Row<PrefixEntry>, filter: &PrefixRange) -> Result<(), Memory>
    ensures { OnOk result (entries.new ≡ entries.old ++ permit_entries filter.now) }
{
    if filter.least() > filter.most() {
        return Ok(());
    }
    entries.push(PrefixEntry {
        permit: true,
        range: *filter,
    })
}

fn deny_entry(filter: &PrefixRange, most: u8) -> PrefixEntry
    ensures { result ≡ deny_entry most filter.now }
{
    let prefix = filter.prefix();
    PrefixEntry {
        permit: false,
        range: PrefixRange::new(prefix, prefix.length(), most),
    }
}

#[tactic(auto, unfolding(crate::specs::LongestEntries::entries_of))]
fn entries_of(alloc: Global, filters: &[Keyed], most: u8) -> Result<Row<PrefixEntry>, Memory>
    ensures { IfOk result (λ es. es ≡ entries_of most (map (λ k. k.range) filters.now)) }
{
    let mut entries = Row::new(alloc);
    let mut rest = filters;
    while let [first, tail @ ..] = rest {
        push_permit(&mut entries, &first.range)?;
        entries.push(deny_entry(&first.range, most))?;
        rest = tail;
    }
    Ok(entries)
}

/// The list that permits a prefix exactly where the longest match of the filters does: of the filters
/// whose prefix contains it the longest is chosen, and its lengths alone decide (Junos OS, `route-filter`).
/// The prefixes of the filters are distinct and of the family. The longest filters come first, those of
/// one length by rising address; each gives a permit entry of its range where that isn't empty, and then
/// a deny entry of its prefix with all lengths up to 32 (V4) or 128 (V6). It sorts once and takes time in
/// step with the number of filters else. The error is want of memory.
pub fn from_longest(
    alloc: Global,
    family: Family,
    filters: &[PrefixRange],
) -> Result<PrefixList, Memory>
    requires distinct { AreDistinct filters.now }
    requires family { IsTrue (are_of family filters.now) }
    // The list holds exactly where the longest match does, for every prefix of a length within its family.
    ensures answers { IfOk result (λ l. (q : PrefixParts) → q.length ≤ width q.address.family → first_match l.entries q ≡ longest_match filters.now q) }
    ensures family { IfOk result (λ l. l.family ≡ family) }
    // Each entry has the prefix of a filter.
    ensures prefixes { IfOk result (λ l. All (λ e. Contains (map (λ f. f.prefix) filters.now) e.range.prefix) l.entries) }
{
    let sorted = longest_first(alloc, filters)?;
    let entries = entries_of(alloc, sorted.as_slice(), family.width())?;
    Ok(PrefixList { family, entries })
}
