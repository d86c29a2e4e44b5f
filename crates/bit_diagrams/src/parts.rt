// What the store is made of: the want of memory, Ids and nodes.
ghost use Rattle.std.specs.Prelude.{◌≡◌, ◌==◌, ◌<◌, ℕ, Some, codes, if◌then◌else◌, not, length, slice_set};

use std::alloc::{AllocError, AllocFailed};
use std::error::Error;
use std::fmt;
use std::marker::Model;

/// Want of memory, and nothing else.
#[derive(Clone, Copy, Debug, PartialEq, Eq)]
pub struct Memory;

impl fmt::Display for Memory {
    ghost output = { λ _. Some (codes "out of memory") };

    fn fmt<W: fmt::Write>(&self, f: &mut fmt::Formatter<W>) -> fmt::Result {
        write!(f, "out of memory")
    }
}

impl Error for Memory {}

impl From<AllocError> for Memory {
    fn from(_error: AllocError) -> Memory {
        Memory
    }
}

impl<T: Drop> From<AllocFailed<T>> for Memory {
    fn from(_refused: AllocFailed<T>) -> Memory {
        Memory
    }
}

/// The name of a set of bit lists within one store: 0 is the empty set, 1 the set of all lists, and
/// each node of the store has the next number. Two Ids of one store are equal exactly where their
/// sets are.
#[derive(Clone, Copy, Debug, PartialEq, Eq, Hash)]
pub struct Id(pub(crate) usize);

impl Model for Id {
    ghost Value = { ℕ };

    ghost view = { λ id. id.0 };

    ghost inverse = { λ n. record { 0 = n } };
}

/// The Id of the empty set.
pub(crate) const FALSE: Id = Id(0);

/// The Id of the set of all lists.
pub(crate) const TRUE: Id = Id(1);

/// A node of a store: on a list whose bit at its place is true it leads to one child, else to the
/// other.
#[derive(Clone, Copy, Debug, PartialEq, Eq, Hash)]
pub struct Node {
    /// The place of the bit that it tests.
    pub place: usize,
    /// Where it leads if the bit is false.
    pub low: Id,
    /// Where it leads if the bit is true.
    pub high: Id,
}

impl Node {
    ghost use Rattle.bit_diagrams.specs.Meaning.{child_on};

    // The child that a bit chooses.
    pub(crate) fn way(&self, bit: bool) -> Id
        ensures { result ≡ (if bit then self.now.high else self.now.low) }
    {
        if bit { self.high } else { self.low }
    }

    // The child that the bit at the node's place chooses.
    pub(crate) fn child(&self, values: &[bool]) -> Id
        requires { self.now.place < length values.now }
        ensures { result ≡ child_on self.now values.now }
    {
        self.way(values[self.place])
    }

    // Writes the bit that leads to a child that is not false, to `high` where it may.
    pub(crate) fn write_way(&self, values: &mut [bool])
        requires { self.now.place < length values.old }
        ensures { values.new ≡ slice_set values.old self.now.place (not (self.now.high == 0)) }
    {
        values[self.place] = self.high != FALSE;
    }
}
