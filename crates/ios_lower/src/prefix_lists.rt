//! The prefix lists of a tree under their names, each in order of the numbers of its entries.

ghost use Rattle.std.specs.Prelude.{◌≡◌, ℕ, List, IfOk, map};
ghost use Rattle.route_types.specs.Address.{same_family};
ghost use Rattle.ios_tree.specs.Tree.{family_of};
ghost use Rattle.ios_meaning.specs.Order.{in_order};
ghost use Rattle.ios_meaning.specs.Lists.{prefix_list};
ghost use Rattle.ios_lower.specs.Named.{entries_under};
ghost use Rattle.ios_lower.specs.Lists.{numbered, family_entries, listed};

use crate::named::{Named, add_entry};
use ios_reader::{IosForm, IosItem, PrefixListEntry};
use prefix_sets::PrefixEntry;
use route_types::{Family, Memory};
use std::alloc::Global;
use std::collections::BTreeMap;

/// An entry of a prefix list behind its number, so that a sort need not look at the entry itself.
#[derive(Clone, Copy)]
pub struct Numbered<'a> {
    pub number: u64,
    pub entry: &'a PrefixListEntry,
}

fn is_of_family(family: Family, entry: &PrefixListEntry) -> bool
    ensures { result ≡ same_family family (family_of entry.now) }
{
    family == entry.entry.range.prefix().address().family
}

// The entries of all prefix lists of a family, in text order.
fn family_entries<'a>(
    alloc: Global,
    family: Family,
    items: &'a [IosItem],
) -> Result<Vec<Numbered<'a>>, Memory>
    ensures { IfOk result (λ found. map numbered found.items ≡ family_entries family items.now) }
{
    let mut found = Vec::new(alloc);
    let mut rest = items;
    while let [item, behind @ ..] = rest {
        if let IosForm::PrefixEntry(entry) = &item.form {
            if is_of_family(family, entry) {
                found.push(Numbered {
                    number: entry.number,
                    entry,
                })?;
            }
        }
        rest = behind;
    }
    Ok(found)
}

// The entries of all prefix lists of a family, in order of their numbers.
fn ordered_entries<'a>(
    alloc: Global,
    family: Family,
    items: &'a [IosItem],
) -> Result<Vec<Numbered<'a>>, Memory>
    ensures { IfOk result (λ found. map numbered found.items ≡ in_order (λ e. e.number) (family_entries family items.now)) }
{
    let mut found = family_entries(alloc, family, items)?;
    found.sort_by_key(|entry| entry.number)?;
    Ok(found)
}

// What entries hold, under the names of their lists.
fn by_name<'a>(alloc: Global, entries: &[Numbered<'a>]) -> Result<Named<'a, PrefixEntry>, Memory>
    ensures { IfOk result (λ lists. (q : List ℕ) → entries_under lists q ≡ listed q (map numbered entries.now)) }
{
    let mut lists: Named<'a, PrefixEntry> = BTreeMap::new(alloc);
    let mut rest = entries;
    while let [first, behind @ ..] = rest {
        let entry = first.entry;
        add_entry(alloc, &mut lists, entry.list.as_slice(), &entry.entry)?;
        rest = behind;
    }
    Ok(lists)
}

/// The prefix lists of a family under their names. The one error is want of memory.
#[tactic(auto, using(crate::proofs::PrefixLists::listed_in_order))]
pub(crate) fn prefix_lists<'a>(
    alloc: Global,
    family: Family,
    items: &'a [IosItem],
) -> Result<Named<'a, PrefixEntry>, Memory>
    ensures { IfOk result (λ lists. (q : List ℕ) → entries_under lists q ≡ prefix_list family q items.now) }
{
    let entries = ordered_entries(alloc, family, items)?;
    let lists = by_name(alloc, entries.as_slice())?;
    Ok(lists)
}
