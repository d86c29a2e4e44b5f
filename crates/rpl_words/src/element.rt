use crate::number::RplNumber;
use aspath_text::IosPattern;
use route_types::{Prefix, Rect};

/// An element of a set, written in a block of its own.
#[derive(Debug, Drop)]
pub enum Element {
    /// An element of a prefix set.
    Prefix(PrefixElement),
    /// An element of a community set: `H:H`, or a community that has a word of its own. `H` is a number
    /// up to 65535, `*` for all of them, or `[x..y]`.
    Community(Rect),
    /// An element of a path set.
    Path(PathElement),
}

/// `P`, `P ge G`, `P le E`, `P ge G le E`, `P eq E`, or an address alone, which is a prefix of full
/// length: the least and the most length. A bound that isn't written is the prefix's own length for
/// the least one and, behind `ge`, 32 for the most one.
#[derive(Debug, Drop)]
pub struct PrefixElement {
    pub prefix: Prefix,
    pub least: RplNumber<u8>,
    pub most: RplNumber<u8>,
}

/// An element of a path set.
#[derive(Debug, Drop)]
pub enum PathElement {
    /// `ios-regex 'X'`
    Pattern(IosPattern),
    /// A test that may stand in a condition too.
    Test(PathTest),
}

/// What is asked of a path.
#[derive(Debug, Drop)]
pub enum PathTest {
    /// `length OP n`
    Length(LengthTest),
    /// `passes-through 'n'`
    PassesThrough(RplNumber<u32>),
    /// `originates-from 'n'`
    OriginatesFrom(RplNumber<u32>),
    /// `neighbor-is 'n'`
    NeighborIs(RplNumber<u32>),
}

/// How the count of numbers of a path compares with a number from 0 to 2047.
#[derive(Debug, Drop)]
pub struct LengthTest {
    pub comparison: Comparison,
    pub length: RplNumber<u16>,
}

/// How a number compares with another one: `eq` and `is` say that they are equal.
#[derive(Clone, Copy, Debug, PartialEq, Eq)]
pub enum Comparison {
    Equal,
    AtLeast,
    AtMost,
}
