//! Sets of the names that items define or use.
ghost use Rattle.std.specs.Prelude.{◌≡◌, List, ℕ, Bool, ◌||◌, not, IfOk, OnOk};
ghost use Rattle.std.specs.List.{list_any};
ghost use Rattle.policy_text.specs.NameSets.{has_name, is_key};

use route_types::{Memory, Row};
use std::alloc::Global;
use std::collections::BTreeSet;

/// Names, each with the number of its sort and a number of its own, each 0 to 2^64 - 1.
pub type NameSet<'a> = BTreeSet<(&'a [u8], u64, u64)>;

/// Whether the set has this name with this sort and this number. It takes no memory.
pub fn has_name<'a>(names: &NameSet<'a>, name: &'a [u8], sort: u64, number: u64) -> bool
    ensures { result ≡ has_name names.now name.now sort number }
{
    names.contains(&(name, sort, number))
}

/// Adds a name with its sort and its number. Its one error is want of memory.
pub fn add_name<'a>(
    names: &mut NameSet<'a>,
    name: &'a [u8],
    sort: u64,
    number: u64,
) -> Result<(), Memory>
    ensures { OnOk result ((q : List ℕ) (s n : ℕ) → has_name names.new q s n ≡ (is_key q s n name.now sort number || has_name names.old q s n)) }
{
    names.insert((name, sort, number))?;
    Ok(())
}

/// Whether the set lacks one of the names, of this sort. It takes no memory.
pub fn any_missing<'a>(names: &NameSet<'a>, sort: u64, wanted: &'a [Row<u8>]) -> bool
    ensures { result ≡ list_any (λ q. not (has_name names.now q sort 0)) wanted.now }
{
    let mut rest = wanted;
    while let [first, tail @ ..] = rest {
        if !has_name(names, first.as_slice(), sort, 0) {
            return true;
        }
        rest = tail;
    }
    false
}

/// Whether the set has one of the names, of this sort and with this number. It takes no memory.
pub fn any_marked<'a>(names: &NameSet<'a>, sort: u64, wanted: &'a [Row<u8>], number: u64) -> bool
    ensures { result ≡ list_any (λ q. has_name names.now q sort number) wanted.now }
{
    let mut rest = wanted;
    while let [first, tail @ ..] = rest {
        if has_name(names, first.as_slice(), sort, number) {
            return true;
        }
        rest = tail;
    }
    false
}

/// The names that an item gives: those that it defines, or those that it uses.
pub trait NameOf<I> {
    ghost gives: { List ℕ → ℕ → ℕ → I → Bool };

    /// Adds the names that the item gives. Its one error is want of memory.
    fn note<'a>(names: &mut NameSet<'a>, item: &'a I) -> Result<(), Memory>
        ensures { OnOk result ((q : List ℕ) (s n : ℕ) → has_name names.new q s n ≡ (gives q s n item.now || has_name names.old q s n)) };
}

/// The names that the items give. Its one error is want of memory.
pub fn names_of<'a, I, N: NameOf<I>>(alloc: Global, items: &'a [I]) -> Result<NameSet<'a>, Memory>
    ensures { IfOk result (λ names. (q : List ℕ) (s n : ℕ) → has_name names q s n ≡ list_any (N.gives q s n) items.now) }
{
    let mut names = BTreeSet::new(alloc);
    let mut rest = items;
    while let [first, tail @ ..] = rest {
        N::note(&mut names, first)?;
        rest = tail;
    }
    Ok(names)
}
