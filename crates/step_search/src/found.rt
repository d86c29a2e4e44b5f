//! What is found from a start by steps, each of it once.
ghost use Rattle.std.specs.Prelude.{◌≡◌, ◌+◌, ◌⊎◌, true, List, [], ◌∷◌, ◌++◌, IfOk, OnOk};
ghost use Rattle.step_search.specs.Found.{IsIn, GrewBy, IsFound, IsSearched};

use indexmap::IndexSet;
use std::alloc::Global;
use std::hash::Hash;
use text_words::{Memory, Row};

/// What is looked for: two that are equal are one.
pub trait Key: Copy + Eq + Hash {
    ghost one: { (a b : Self) → Self.eq a b ≡ true → a ≡ b };
}

/// The steps from what was found to what is next to it.
pub trait Steps<K> {
    ghost next: { Self → K → List K };

    /// Puts what is next to `from` behind what is in `row`. Its one error is want of memory.
    fn push_next(&self, row: &mut Row<K>, from: K) -> Result<(), Memory>
        ensures { OnOk result (row.new ≡ row.old ++ next self.now from) };
}

// Adds a key, if the set lacks it.
fn add<K: Key>(found: &mut IndexSet<K>, key: K) -> Result<(), Memory>
    ensures { OnOk result (((found.new.keys ≡ found.old.keys) ⊎ (found.new.keys ≡ found.old.keys ++ key ∷ [])) × IsIn key found.new.keys) }
{
    found.insert_full(key)?;
    Ok(())
}

// Adds those of a list that the set lacks.
fn add_all<K: Key>(found: &mut IndexSet<K>, more: &[K]) -> Result<(), Memory>
    ensures kept { OnOk result (GrewBy found.old.keys more.now found.new.keys) }
    ensures added { OnOk result ((k : K) → IsIn k more.now → IsIn k found.new.keys) }
{
    let mut rest = more;
    while let [first, tail @ ..] = rest {
        add(found, *first)?;
        rest = tail;
    }
    Ok(())
}

// Adds what is next to the key at a place.
fn add_next<K: Key, S: Steps<K>>(
    alloc: Global,
    steps: &S,
    found: &mut IndexSet<K>,
    place: usize,
) -> Result<(), Memory>
    ensures { OnOk result ((start : List K) → IsSearched (S.next steps.now) start found.old.keys place → IsSearched (S.next steps.now) start found.new.keys (place + 1)) }
{
    let Some(from) = found.get_index(place).copied() else {
        return Ok(());
    };
    let mut row = Row::new(alloc);
    steps.push_next(&mut row, from)?;
    add_all(found, row.as_slice())?;
    Ok(())
}

/// All that some number of steps leads to from the start. Its one error is want of memory.
pub fn all_found<K: Key, S: Steps<K>>(
    alloc: Global,
    steps: &S,
    start: &[K],
) -> Result<IndexSet<K>, Memory>
    ensures sound { IfOk result (λ found. (k : K) → IsIn k found.keys → IsFound (S.next steps.now) start.now k) }
    ensures whole { IfOk result (λ found. (k : K) → IsFound (S.next steps.now) start.now k → IsIn k found.keys) }
{
    let mut found = IndexSet::with_capacity(alloc, 16)?;
    add_all(&mut found, start)?;
    let mut place = 0;
    while place < found.len() {
        add_next(alloc, steps, &mut found, place)?;
        place += 1;
    }
    Ok(found)
}
