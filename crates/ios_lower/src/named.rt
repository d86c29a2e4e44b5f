//! What stands under the names of lists.

ghost use Rattle.std.specs.Prelude.{◌≡◌, ◌∷◌, ◌++◌, [], ℕ, List, IfOk, bytes_eq, true, false};
ghost use Rattle.ios_lower.specs.Named.{under, entries_under};

use route_types::Memory;
use std::alloc::Global;
use std::collections::BTreeMap;

/// What stands under the names of lists, in the order in which it is tried.
pub(crate) type Listed<'a, T> = BTreeMap<&'a [u8], Vec<T>>;

/// Entries of lists under the names of their lists, in the order in which they are tried.
pub(crate) type Named<'a, E> = Listed<'a, &'a E>;

// What stands under a name, which is then taken from under it.
fn taken<'a, T: Drop>(alloc: Global, lists: &mut Listed<'a, T>, name: &'a [u8]) -> Vec<T>
    ensures taken { result.items ≡ under lists.old name.now }
    ensures others { (q : List ℕ) → bytes_eq name.now q ≡ false → under lists.new q ≡ under lists.old q }
{
    match lists.remove(&name) {
        Some(values) => values,
        None => Vec::new(alloc),
    }
}

/// Puts a value behind those of its list. The one error is want of memory.
pub(crate) fn add<'a, T: Drop>(
    alloc: Global,
    lists: &mut Listed<'a, T>,
    name: &'a [u8],
    value: T,
) -> Result<(), Memory>
    ensures { IfOk result (λ _. (q : List ℕ) → under lists.new q ≡ elim (bytes_eq q name.now) [ true ↦ under lists.old q ++ value ∷ [] | false ↦ under lists.old q ]) }
{
    let mut values = taken(alloc, lists, name);
    values.push(value)?;
    lists.insert(name, values)?;
    Ok(())
}

/// Puts an entry behind those of its list. The one error is want of memory.
pub(crate) fn add_entry<'a, E>(
    alloc: Global,
    lists: &mut Named<'a, E>,
    name: &'a [u8],
    entry: &'a E,
) -> Result<(), Memory>
    ensures { IfOk result (λ _. (q : List ℕ) → entries_under lists.new q ≡ elim (bytes_eq q name.now) [ true ↦ entries_under lists.old q ++ entry.now ∷ [] | false ↦ entries_under lists.old q ]) }
{
    add(alloc, lists, name, entry)?;
    Ok(())
}
