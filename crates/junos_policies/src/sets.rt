// Sets in the order of first use.
ghost use Rattle.std.specs.Prelude.{◌≡◌, ◌<◌, ◌^◌, List, [], ◌∷◌, length, OnOk};
ghost use Rattle.std.specs.List.{flat_map};
ghost use Rattle.junos_policies.specs.Noting.{noted, noted_all, place_in};

use indexmap::IndexSet;
use route_types::{Duplicate, Memory};
use std::alloc::Global;
use std::hash::Hash;

// Notes a value, of which a copy goes to the end where none stands that is equal to it.
fn note<T: Eq + Hash + Duplicate>(
    alloc: Global,
    set: &mut IndexSet<T>,
    value: &T,
) -> Result<(), Memory>
    ensures { OnOk result (set.new.keys ≡ noted T.eq set.old.keys value.now) }
{
    if set.contains(value) {
        return Ok(());
    }
    let copy = value.duplicate(alloc)?;
    set.insert_full(copy)?;
    Ok(())
}

/// Notes one value. Its one error is want of memory.
#[tactic(auto, unfolding(crate::specs::Noting::noted_all))]
pub(crate) fn note_one<T: Eq + Hash + Duplicate>(
    alloc: Global,
    set: &mut IndexSet<T>,
    value: &T,
) -> Result<(), Memory>
    ensures { OnOk result (set.new.keys ≡ noted_all T.eq set.old.keys (value.now ∷ [])) }
{
    note(alloc, set, value)
}

/// Notes values, one after the other. Its one error is want of memory.
#[tactic(auto, unfolding(crate::specs::Noting::noted_all))]
pub(crate) fn note_all<T: Eq + Hash + Duplicate>(
    alloc: Global,
    set: &mut IndexSet<T>,
    values: &[T],
) -> Result<(), Memory>
    ensures { OnOk result (set.new.keys ≡ noted_all T.eq set.old.keys values.now) }
{
    let mut rest = values;
    while let [value, tail @ ..] = rest {
        note(alloc, set, value)?;
        rest = tail;
    }
    Ok(())
}

/// What values are used in an item.
pub(crate) trait Uses<A, T: Eq + Hash + Duplicate> {
    ghost uses: { A → List T };

    /// Notes the values that an item uses. Its one error is want of memory.
    fn note(alloc: Global, set: &mut IndexSet<T>, item: &A) -> Result<(), Memory>
        ensures { OnOk result (set.new.keys ≡ noted_all T.eq set.old.keys (uses item.now)) };
}

/// Notes the values that items use, item by item. Its one error is want of memory.
#[tactic(auto, unfolding(crate::specs::Noting::noted_all), using(crate::proofs::Noted::noted_append))]
pub(crate) fn note_each<A, T: Eq + Hash + Duplicate, U: Uses<A, T>>(
    alloc: Global,
    set: &mut IndexSet<T>,
    items: &[A],
) -> Result<(), Memory>
    ensures { OnOk result (set.new.keys ≡ noted_all T.eq set.old.keys (flat_map U.uses items.now)) }
{
    let mut rest = items;
    while let [item, tail @ ..] = rest {
        U::note(alloc, set, item)?;
        rest = tail;
    }
    Ok(())
}

/// The values in their order. It takes no memory.
pub(crate) fn all<T: Eq + Hash>(set: &IndexSet<T>) -> &[T]
    ensures values { result.now ≡ set.now.keys }
    ensures few { length set.now.keys < 2 ^ 63 }
{
    set.iter().as_slice()
}

/// The place of the value that is equal to this one; their count where none is. It takes no memory.
#[tactic(auto, using(crate::proofs::Places::place_of_position, crate::proofs::Places::place_of_none))]
pub(crate) fn place_of<T: Eq + Hash>(set: &IndexSet<T>, value: &T) -> usize
    ensures place { result ≡ place_in (T.eq value.now) set.now.keys }
    ensures small { result < 2 ^ 63 }
{
    let count = set.len();
    match set.get_index_of(value) {
        None => count,
        Some(place) => place,
    }
}

/// How many values there are. It takes no memory.
pub(crate) fn count<T: Eq + Hash>(set: &IndexSet<T>) -> usize
    ensures { result ≡ length set.now.keys }
{
    set.len()
}
