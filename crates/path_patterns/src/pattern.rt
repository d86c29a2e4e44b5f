ghost use Rattle.std.specs.Prelude.{◌≡◌};
ghost use Rattle.path_patterns.specs.Shape.{IsShaped};
ghost use Rattle.path_patterns.specs.PathItems.{has_digit, least_turns, most_turns};

use route_types::Row;
use std::marker::Model;

/// An AS-path pattern of IOS, of the shape that `specs/Shape` states. Contracts see it as the list of
/// its branches.
#[derive(Debug, Drop)]
pub struct IosPattern {
    branches: Row<IosBranch>,
}

/// What is searched in the text of a path.
#[derive(Debug, Drop)]
pub enum IosBranch {
    /// `^$`
    EmptyPath,
    /// A mark, pieces joined by `_`, and a mark.
    Pieces(PathPieces),
}

/// The marks and the pieces of a branch.
#[derive(Debug, Drop)]
pub struct PathPieces {
    pub left: Mark,
    pub pieces: Row<Piece>,
    pub right: Mark,
}

/// What stands before the first piece, or behind the last one.
#[derive(Clone, Copy, Debug, PartialEq, Eq)]
pub enum Mark {
    /// `^` on the left, `$` on the right.
    Anchor,
    /// `_`
    Under,
    /// Nothing is written.
    Nothing,
}

/// A piece of a branch.
#[derive(Debug, Drop)]
pub enum Piece {
    /// `.*`
    Anything,
    /// Digit words, of which one is there, and tails.
    Set(PieceSet),
}

/// Digit words, of which one is there, and tails behind it.
#[derive(Debug, Drop)]
pub struct PieceSet {
    pub words: Row<DigitWord>,
    pub tails: Row<Tail>,
}

/// What spells a number.
#[derive(Debug, Drop)]
pub enum DigitWord {
    /// `[0-9]+`
    Any,
    /// One to ten digits, each of its set.
    Digits(Row<DigitSet>),
}

/// Digits of which one is there: bit `d` stands for digit `d`.
#[derive(Clone, Copy, Debug, PartialEq, Eq)]
pub struct DigitSet(pub u16);

/// `(_`, digit words, `)` and a sign of repetition.
#[derive(Debug, Drop)]
pub struct Tail {
    pub words: Row<DigitWord>,
    pub repeat: Repeat,
}

/// How often a tail is there.
#[derive(Clone, Copy, Debug, PartialEq, Eq)]
pub enum Repeat {
    /// `*`: any number of times.
    Star,
    /// `+`: once or more.
    Plus,
    /// `?`: at most once.
    Maybe,
}

impl DigitSet {
    /// Whether the digit is in the set. No number above 15 is.
    #[tactic(auto, using(crate::proofs::DigitSets::no_digit_above))]
    pub fn has(self, digit: u8) -> bool
        ensures { result ≡ has_digit self digit }
    {
        digit < 16 && (self.0 >> digit) % 2 == 1
    }
}

impl Repeat {
    /// How often a tail is there at least.
    pub(crate) fn least(self) -> u32
        ensures { result ≡ least_turns self }
    {
        match self {
            Repeat::Star | Repeat::Maybe => 0,
            Repeat::Plus => 1,
        }
    }

    /// How often a tail is there at most; `None` is no upper end.
    pub(crate) fn most(self) -> Option<u32>
        ensures { result ≡ most_turns self }
    {
        match self {
            Repeat::Star | Repeat::Plus => None,
            Repeat::Maybe => Some(1),
        }
    }
}

impl Model for IosPattern {
    ghost use Rattle.std.specs.Prelude.{List};
    ghost use Rattle.path_patterns.specs.Shape.{IsShaped};
    ghost use Rattle.path_patterns.specs.declared.pattern.IosBranch.{IosBranch};

    ghost Value = { List IosBranch };

    ghost view = { λ p. p.branches };

    ghost invariant = { λ p. IsShaped p.branches };
}

impl IosPattern {
    /// The pattern of branches that have the shape. It takes no memory.
    pub fn new(branches: Row<IosBranch>) -> IosPattern
        requires { IsShaped branches }
        ensures { result ≡ branches }
    {
        IosPattern { branches }
    }

    /// The branches, of which one has to be found. It takes no memory.
    pub fn branches(&self) -> &[IosBranch]
        ensures value { result.now ≡ self.now }
        ensures shaped { IsShaped self.now }
    {
        self.branches.as_slice()
    }
}
