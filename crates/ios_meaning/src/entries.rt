// The entries of a route-map, in order of their numbers.
ghost use Rattle.std.specs.Prelude.{◌≡◌, IfOk, map};
ghost use Rattle.ios_tree.specs.Sorts.{is_line_sort, sort_of_form};
ghost use Rattle.ios_reader.specs.Entries.{lines_below, entries_of};
ghost use Rattle.ios_meaning.specs.Order.{in_order};
ghost use Rattle.ios_meaning.specs.Drafts.{entry_of};

use ios_reader::{IosForm, IosItem, ItemSort, MapLine};
use route_types::Memory;
use std::alloc::Global;

/// An entry of a route-map: its number, whether it permits, and its lines as they stand in the tree.
#[derive(Drop)]
pub struct MapEntry<'a> {
    pub number: u64,
    pub permit: bool,
    pub lines: Vec<&'a MapLine>,
}

fn is_line_sort(sort: ItemSort) -> bool
    ensures { result ≡ is_line_sort sort }
{
    match sort {
        ItemSort::PrefixList(_) | ItemSort::CommunityList | ItemSort::PathList | ItemSort::Map => {
            false
        }
        ItemSort::Line => true,
    }
}

/// Whether a statement is a line of the entry above it, of a form or of none.
pub fn is_line(form: &IosForm) -> bool
    ensures { result ≡ is_line_sort (sort_of_form form.now) }
{
    match form {
        IosForm::PrefixEntry(_) | IosForm::PrefixDescription(_) => false,
        IosForm::CommunityEntry(_) | IosForm::PathEntry(_) | IosForm::MapHeader(_) => false,
        IosForm::Line(_) => true,
        IosForm::Other(other) => is_line_sort(other.sort),
    }
}

// The lines right below a header.
fn lines_below<'a>(alloc: Global, below: &'a [IosItem]) -> Result<Vec<&'a MapLine>, Memory>
    ensures { IfOk result (λ found. map (λ l. l.now) found.items ≡ lines_below below.now) }
{
    let mut found = Vec::new(alloc);
    let mut rest = below;
    while let [item, behind @ ..] = rest {
        if !is_line(&item.form) {
            return Ok(found);
        }
        if let IosForm::Line(line) = &item.form {
            found.push(line)?;
        }
        rest = behind;
    }
    Ok(found)
}

// The entries of the map of this name, in text order.
fn entries_of<'a>(
    alloc: Global,
    name: &[u8],
    items: &'a [IosItem],
) -> Result<Vec<MapEntry<'a>>, Memory>
    ensures { IfOk result (λ found. map entry_of found.items ≡ entries_of name.now items.now) }
{
    let mut found = Vec::new(alloc);
    let mut rest = items;
    while let [item, below @ ..] = rest {
        if let IosForm::MapHeader(header) = &item.form {
            if name == header.map.as_slice() {
                found.push(MapEntry {
                    number: header.number,
                    permit: header.permit,
                    lines: lines_below(alloc, below)?,
                })?;
            }
        }
        rest = below;
    }
    Ok(found)
}

/// The entries of the map of this name, in order of their numbers. The one error is want of memory.
pub fn ordered_entries<'a>(
    alloc: Global,
    name: &[u8],
    items: &'a [IosItem],
) -> Result<Vec<MapEntry<'a>>, Memory>
    ensures { IfOk result (λ found. map entry_of found.items ≡ in_order (λ e. e.number) (entries_of name.now items.now)) }
{
    let mut found = entries_of(alloc, name, items)?;
    found.sort_by_key(|entry| entry.number)?;
    Ok(found)
}
