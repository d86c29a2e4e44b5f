ghost use Rattle.std.specs.Prelude.{◌≡◌, ◌+◌, ◌<◌, ◌^◌, [], IfOk};
ghost use Rattle.text_words.specs.JunosWords.{begun, with_byte, word_up_to};

use crate::memory::Memory;
use crate::row::Row;
use crate::statement::{Span, Word};
use std::alloc::Global;

/// A word that is begun: the span of its first byte, which is its quote where it has one, and its text so
/// far.
#[derive(Debug, Drop)]
pub(crate) struct Begun {
    pub first: Span,
    pub text: Row<u8>,
}

/// Where a byte stands: outside words, quotes and comments; in a word; in a quoted word; in a comment to
/// the end of the line; at the star that opens a comment, with the place of the slash; in such a comment,
/// with the span of the two bytes that open it; or there behind a star.
#[derive(Debug, Drop)]
pub(crate) enum Within {
    Outside,
    InWord(Begun),
    InQuote(Begun),
    InLine,
    Opening(u64),
    InComment(Span),
    AtStar(Span),
}

impl Begun {
    /// A word without bytes so far.
    pub(crate) fn new(alloc: Global, start: u64) -> Begun
        requires { start + 1 < 2 ^ 64 }
        ensures { result ≡ begun start [] }
    {
        Begun {
            first: Span {
                start,
                end: start + 1,
            },
            text: Row::new(alloc),
        }
    }

    /// The word with one byte more.
    pub(crate) fn with(mut self, byte: u8) -> Result<Begun, Memory>
        ensures { IfOk result (λ b. b ≡ with_byte self byte) }
    {
        self.text.push(byte)?;
        Ok(self)
    }

    /// The whole word, which ends before a place.
    pub(crate) fn up_to(self, end: u64, quoted: bool) -> Word
        ensures { result ≡ word_up_to end quoted self }
    {
        Word {
            text: self.text,
            quoted,
            span: Span {
                start: self.first.start,
                end,
            },
        }
    }
}
