ghost use Rattle.std.specs.Prelude.{◌≡◌, ◌≤◌, ◌++◌, ◌/◌, ◌%◌, ◌^◌, not, filter, IfOk};
ghost use Rattle.route_types.specs.Sets.{fits_some};
ghost use Rattle.route_types.specs.Community.{fits, set_of, set_after};

use std::alloc::Global;
use std::marker::Model;
use text_words::{Memory, Row};

/// A community (RFC 1997): 32 bits, written as its upper and its lower half, `a:b`.
#[derive(Clone, Copy, Debug, PartialEq, Eq, PartialOrd, Ord, Hash)]
pub struct Community(pub u32);

impl Community {
    /// The upper half, `a` of `a:b`.
    pub fn high(&self) -> u16
        ensures { result ≡ self.now.0 / 2 ^ 16 }
    {
        (self.0 / 65536) as u16
    }

    /// The lower half, `b` of `a:b`.
    pub fn low(&self) -> u16
        ensures { result ≡ self.now.0 % 2 ^ 16 }
    {
        (self.0 % 65536) as u16
    }
}

/// A rectangle of communities: a range of upper halves and a range of lower halves, both with at
/// least one number in them.
#[derive(Clone, Copy, Debug, PartialEq, Eq, PartialOrd, Ord, Hash)]
pub struct Rect {
    high_least: u16,
    high_most: u16,
    low_least: u16,
    low_most: u16,
}

impl Model for Rect {
    ghost use Rattle.route_types.specs.Community.{RectParts, HasNumbers};

    ghost Value = { RectParts };

    ghost view = { λ r. record { high_least = r.high_least; high_most = r.high_most; low_least = r.low_least; low_most = r.low_most } };

    ghost invariant = { λ r. HasNumbers r.high_least r.high_most r.low_least r.low_most };

    ghost inverse = { λ r. record { high_least = r.high_least; high_most = r.high_most; low_least = r.low_least; low_most = r.low_most } };
}

impl Rect {
    /// The rectangle of the upper halves `high_least` to `high_most` and the lower halves
    /// `low_least` to `low_most`. Neither range is empty.
    pub fn new(high_least: u16, high_most: u16, low_least: u16, low_most: u16) -> Rect
        requires high { high_least ≤ high_most }
        requires low { low_least ≤ low_most }
        ensures { result ≡ record { high_least = high_least; high_most = high_most; low_least = low_least; low_most = low_most } }
    {
        Rect {
            high_least,
            high_most,
            low_least,
            low_most,
        }
    }

    /// The least upper half.
    pub fn high_least(&self) -> u16
        ensures { result ≡ self.now.high_least }
    {
        self.high_least
    }

    /// The greatest upper half, at least the least one.
    pub fn high_most(&self) -> u16
        ensures value { result ≡ self.now.high_most }
        ensures ordered { self.now.high_least ≤ result }
    {
        self.high_most
    }

    /// The least lower half.
    pub fn low_least(&self) -> u16
        ensures { result ≡ self.now.low_least }
    {
        self.low_least
    }

    /// The greatest lower half, at least the least one.
    pub fn low_most(&self) -> u16
        ensures value { result ≡ self.now.low_most }
        ensures ordered { self.now.low_least ≤ result }
    {
        self.low_most
    }

    /// Whether both halves of the community lie in the ranges.
    pub fn fits(&self, community: &Community) -> bool
        ensures { result ≡ fits self.now community.now }
    {
        let high = community.high();
        let low = community.low();
        let high_fits = self.high_least <= high && high <= self.high_most;
        high_fits && self.low_least <= low && low <= self.low_most
    }
}

/// A change of a set of communities: what fits a removed rectangle goes, and what is added comes.
#[derive(Debug, PartialEq, Eq, Hash, Drop)]
pub struct CommChange {
    pub removed: Row<Rect>,
    pub added: Row<Community>,
}

/// Whether some of the rectangles is fitted by the community. It takes no memory.
pub fn fits_some(rects: &[Rect], community: &Community) -> bool
    ensures { result ≡ fits_some fits rects.now community.now }
{
    rects.iter().any(|rect| rect.fits(community))
}

/// The communities that fit none of the rectangles, in their order. The one error is want of memory.
pub fn unfitted(
    alloc: Global,
    rects: &[Rect],
    communities: &[Community],
) -> Result<Vec<Community>, Memory>
    ensures { IfOk result (λ v. v.items ≡ filter (λ c. not (fits_some fits rects.now c)) communities.now) }
{
    let unfitted = communities
        .iter()
        .copied()
        .filter(|community| !fits_some(rects, community))
        .collect(alloc)?;
    Ok(unfitted)
}

// The communities of a list in rising order and without repeats.
pub(crate) fn set_of(list: Vec<Community>) -> Vec<Community>
    ensures { result.items ≡ set_of list.items }
{
    let mut set = list;
    set.sort_unstable();
    set.dedup();
    set
}

// What the change makes of a set: what no removed rectangle fits, and what is added.
pub(crate) fn set_after(
    alloc: Global,
    change: &CommChange,
    old: &[Community],
) -> Result<Row<Community>, Memory>
    ensures { IfOk result (λ r. r ≡ set_after change.now.removed change.now.added old.now) }
{
    let mut list = unfitted(alloc, change.removed.as_slice(), old)?;
    list.extend_from_slice(change.added.as_slice())?;
    Ok(Row::from_vec(set_of(list)))
}
