// Which communities `set comm-list` takes away.
ghost use Rattle.std.specs.Prelude.{◌≡◌, ◌∷◌, ◌++◌, [], not, ℕ, List, IfOk, map, filter, bytes_eq, true, false};
ghost use Rattle.ios_meaning.specs.Drafts.{entries_named, entries_at, answers_alone, removes_by};
ghost use Rattle.ios_meaning.specs.Deletions.{IsIndex};

use crate::deletion_index::{Index, answers_alone, index_of};
use ios_reader::{CommunityListEntry, IosForm, IosItem};
use route_types::{Community, Memory, Row};
use std::alloc::Global;
use std::collections::BTreeMap;

/// The entries of the community lists of a tree under the names of the lists, in text order.
pub type ListsByName<'a> = BTreeMap<&'a [u8], Vec<&'a CommunityListEntry>>;

// The entries that stand under the name of a list, which are then taken from under it.
fn taken_entries<'a>(
    alloc: Global,
    lists: &mut ListsByName<'a>,
    name: &'a [u8],
) -> Vec<&'a CommunityListEntry>
    ensures taken { map (λ e. e.now) result.items ≡ entries_at lists.old name.now }
    ensures others { (q : List ℕ) → bytes_eq name.now q ≡ false → entries_at lists.new q ≡ entries_at lists.old q }
{
    match lists.remove(&name) {
        Some(entries) => entries,
        None => Vec::new(alloc),
    }
}

// Puts an entry behind those of its list.
fn add_entry<'a>(
    alloc: Global,
    lists: &mut ListsByName<'a>,
    entry: &'a CommunityListEntry,
) -> Result<(), Memory>
    ensures { IfOk result (λ _. (q : List ℕ) → entries_at lists.new q ≡ elim (bytes_eq q entry.now.list) [ true ↦ entries_at lists.old q ++ entry.now ∷ [] | false ↦ entries_at lists.old q ]) }
{
    let name = entry.list.as_slice();
    let mut entries = taken_entries(alloc, lists, name);
    entries.push(entry)?;
    lists.insert(name, entries)?;
    Ok(())
}

/// The entries of the community lists under the names of the lists.
pub fn lists_by_name<'a>(alloc: Global, items: &'a [IosItem]) -> Result<ListsByName<'a>, Memory>
    ensures { IfOk result (λ lists. (q : List ℕ) → entries_at lists q ≡ entries_named q items.now) }
{
    let mut lists: ListsByName<'a> = BTreeMap::new(alloc);
    let mut rest = items;
    while let [item, behind @ ..] = rest {
        if let IosForm::CommunityEntry(entry) = &item.form {
            add_entry(alloc, &mut lists, entry)?;
        }
        rest = behind;
    }
    Ok(lists)
}

// The communities without those for which the entries of an index answer yes on each alone.
fn without<'a>(
    alloc: Global,
    index: &Index<'a>,
    communities: &[Community],
) -> Result<Vec<Community>, Memory>
    requires { IsIndex index.now }
    ensures { IfOk result (λ kept. kept.items ≡ filter (λ c. not (answers_alone (map (λ e. e.now) index.now.entries.now) c)) communities.now) }
{
    let mut kept = Vec::new(alloc);
    let mut rest = communities;
    while let [community, behind @ ..] = rest {
        if !answers_alone(index, community) {
            kept.push(*community)?;
        }
        rest = behind;
    }
    Ok(kept)
}

// The communities without those for which the entries answer yes on each alone.
fn kept_by(
    alloc: Global,
    entries: &[&CommunityListEntry],
    communities: &[Community],
) -> Result<Row<Community>, Memory>
    ensures { IfOk result (λ kept. kept ≡ filter (λ c. not (answers_alone (map (λ e. e.now) entries.now) c)) communities.now) }
{
    let index = index_of(alloc, entries)?;
    let kept = without(alloc, &index, communities)?;
    Ok(Row::from_vec(kept))
}

/// The communities without those for which the list of this name answers yes on each alone.
pub fn without_list<'a>(
    alloc: Global,
    lists: &ListsByName<'a>,
    name: &'a [u8],
    communities: &[Community],
) -> Result<Row<Community>, Memory>
    ensures { IfOk result (λ kept. kept ≡ filter (λ c. not (removes_by lists.now name.now c)) communities.now) }
{
    match lists.get(&name) {
        Some(entries) => kept_by(alloc, entries.as_slice(), communities),
        None => kept_by(alloc, &[], communities),
    }
}
