ghost use Rattle.std.specs.Prelude.{◌≡◌};

use crate::memory::Memory as WantOfMemory;
use crate::statement::Span;

/// How a text is broken, so that it can't be cut or its statements are no tree.
#[derive(Clone, Copy, Debug, PartialEq, Eq)]
pub enum BrokenKind {
    /// A quote that no other quote closes.
    OpenQuote,
    /// A comment that is not closed.
    OpenComment,
    /// A block that is not closed.
    OpenBrace,
    /// A `}` where no block is open.
    StrayBrace,
    /// Words that no `;` or `{` ends.
    NoEnder,
    /// A statement where it may not stand.
    Misplaced,
    /// A block of several statements that is not closed.
    Unended,
}

/// Why a text could not be cut or read.
#[derive(Clone, Copy, Debug, PartialEq, Eq)]
pub enum TextFault {
    /// The text is broken here.
    Broken { span: Span, kind: BrokenKind },
    /// Want of memory.
    Memory,
}

impl From<WantOfMemory> for TextFault {
    ghost use Rattle.text_words.specs.declared.fault.TextFault.TheVariants.{Memory};

    ghost from_gives = { λ _ fault. fault ≡ Memory };

    fn from(_e: WantOfMemory) -> TextFault {
        TextFault::Memory
    }
}
