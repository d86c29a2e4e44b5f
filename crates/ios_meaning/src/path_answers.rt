// What the path lists of a tree answer on a path.
ghost use Rattle.std.specs.Prelude.{◌≡◌, ℕ, List, None, IfOk};
ghost use Rattle.ios_tree.specs.declared.item.IosForm.TheVariants.{PathEntry as OfPathList};
ghost use Rattle.ios_meaning.specs.Answers.{path_answered_by, path_answered_from, held_at};

use aspath_text::finds;
use ios_reader::{IosForm, IosItem, PathListEntry};
use name_maps::NameMap;
use route_types::Memory;
use std::alloc::Global;

// Takes an entry into account; the pattern of one whose list has its answer is not looked for.
fn add_entry<'a>(
    alloc: Global,
    found: &mut NameMap<'a, bool>,
    entry: &'a PathListEntry,
    path: &[u32],
) -> Result<(), Memory>
    ensures { IfOk result (λ _. (q : List ℕ) → held_at found.new q ≡ path_answered_by path.now q (OfPathList entry.now) (held_at found.old q)) }
{
    let list = entry.list.as_slice();
    if found.get(list).is_some() {
        return Ok(());
    }
    if finds(alloc, &entry.pattern, path)? {
        found.put_first(list, entry.permit)?;
    }
    Ok(())
}

/// For each path list its answer on a path; no answer where no pattern of it is found.
#[tactic(auto, unfolding(crate::specs::Answers::path_answered_from))]
pub fn path_answers<'a>(
    alloc: Global,
    items: &'a [IosItem],
    path: &[u32],
) -> Result<NameMap<'a, bool>, Memory>
    ensures { IfOk result (λ found. (q : List ℕ) → held_at found q ≡ path_answered_from path.now q None items.now) }
{
    let mut found = NameMap::new(alloc);
    let mut rest = items;
    while let [item, behind @ ..] = rest {
        if let IosForm::PathEntry(entry) = &item.form {
            add_entry(alloc, &mut found, entry, path)?;
        }
        rest = behind;
    }
    Ok(found)
}
