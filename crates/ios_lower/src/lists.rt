//! The lists of a tree under their names, each made once.

ghost use Rattle.std.specs.Prelude.{◌≡◌, ◌∷◌, ◌++◌, [], ℕ, List, IfOk, map, bytes_eq, true, false};
ghost use Rattle.std.specs.List.{AllByRecursion};
ghost use Rattle.ios_meaning.specs.Lists.{path_list};
ghost use Rattle.ios_meaning.specs.Drafts.{entries_named};
ghost use Rattle.ios_lower.specs.Atoms.{path_entry_of};
ghost use Rattle.ios_lower.specs.AtomSteps.{IsMatched, AddsPath};
ghost use Rattle.ios_lower.specs.Named.{under, entries_under};
ghost use Rattle.ios_lower.specs.Lists.{AreLists};

use crate::named::{Listed, Named, add, add_entry};
use crate::prefix_lists::prefix_lists;
use crate::taken::taken_by_entries;
use aspath_text::tokens;
use ios_meaning::MapEntry;
use ios_reader::{CommunityListEntry, IosForm, IosItem, PathListEntry};
use policy_core::PathEntry;
use prefix_sets::PrefixEntry;
use route_types::{Family, Memory, Rect};
use std::alloc::Global;
use std::collections::BTreeMap;

/// The lists of a tree, under their names: the entries of prefix lists and of community lists, those of path lists with
/// the items of their patterns, and what the community lists take away by which some entries delete.
#[derive(Drop)]
pub struct Lists<'a> {
    pub items: &'a [IosItem],
    pub of_v4: Named<'a, PrefixEntry>,
    pub of_v6: Named<'a, PrefixEntry>,
    pub of_communities: Named<'a, CommunityListEntry>,
    pub of_paths: Listed<'a, PathEntry>,
    pub taken: Listed<'a, Rect>,
}

fn community_lists<'a>(
    alloc: Global,
    items: &'a [IosItem],
) -> Result<Named<'a, CommunityListEntry>, Memory>
    ensures { IfOk result (λ lists. (q : List ℕ) → entries_under lists q ≡ entries_named q items.now) }
{
    let mut lists: Named<'a, CommunityListEntry> = BTreeMap::new(alloc);
    let mut rest = items;
    while let [item, behind @ ..] = rest {
        if let IosForm::CommunityEntry(entry) = &item.form {
            add_entry(alloc, &mut lists, entry.list.as_slice(), entry)?;
        }
        rest = behind;
    }
    Ok(lists)
}

// Puts an entry behind those of its list, with the items of its pattern.
fn add_path<'a>(
    alloc: Global,
    lists: &mut Listed<'a, PathEntry>,
    entry: &'a PathListEntry,
) -> Result<(), Memory>
    ensures same { IfOk result (λ _. (q : List ℕ) → under lists.new q ≡ elim (bytes_eq q entry.now.list) [ true ↦ under lists.old q ++ path_entry_of entry.now ∷ [] | false ↦ under lists.old q ]) }
    ensures matched { IfOk result (λ _. IsMatched entry.now) }
{
    let pattern = tokens(alloc, &entry.pattern)?;
    let made = PathEntry {
        permit: entry.permit,
        pattern,
    };
    add(alloc, lists, entry.list.as_slice(), made)?;
    Ok(())
}

// Puts the item behind those of its list, if it is an entry of a path list.
fn push_path<'a>(
    alloc: Global,
    lists: &mut Listed<'a, PathEntry>,
    form: &'a IosForm,
) -> Result<(), Memory>
    ensures { IfOk result (λ _. AddsPath form.now lists.old lists.new) }
{
    if let IosForm::PathEntry(entry) = form {
        add_path(alloc, lists, entry)?;
        return Ok(());
    }
    Ok(())
}

fn path_lists<'a>(alloc: Global, items: &'a [IosItem]) -> Result<Listed<'a, PathEntry>, Memory>
    ensures same { IfOk result (λ lists. (q : List ℕ) → under lists q ≡ map path_entry_of (path_list q items.now)) }
    ensures matched { IfOk result (λ lists. (q : List ℕ) → AllByRecursion IsMatched (path_list q items.now)) }
{
    let mut lists: Listed<'a, PathEntry> = BTreeMap::new(alloc);
    let mut rest = items;
    while let [item, behind @ ..] = rest {
        push_path(alloc, &mut lists, &item.form)?;
        rest = behind;
    }
    Ok(lists)
}

/// The lists of a tree, with what those take away by which the entries delete. The one error is want of memory.
pub fn lists_of<'a>(
    alloc: Global,
    items: &'a [IosItem],
    entries: &[MapEntry<'a>],
) -> Result<Lists<'a>, Memory>
    ensures right { IfOk result AreLists }
    ensures items { IfOk result (λ l. l.items.now ≡ items.now) }
{
    let of_v4 = prefix_lists(alloc, Family::V4, items)?;
    let of_v6 = prefix_lists(alloc, Family::V6, items)?;
    let of_communities = community_lists(alloc, items)?;
    let of_paths = path_lists(alloc, items)?;
    let taken = taken_by_entries(alloc, &of_communities, entries)?;
    Ok(Lists {
        items,
        of_v4,
        of_v6,
        of_communities,
        of_paths,
        taken,
    })
}
