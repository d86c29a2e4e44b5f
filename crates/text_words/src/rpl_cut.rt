ghost use Rattle.std.specs.Prelude.{◌≡◌, IfOk};
ghost use Rattle.text_words.specs.RplCut.{rpl_cut};

use crate::memory::Memory;
use crate::row::Row;
use crate::rpl_blocks::{Cutting, Place};
use crate::rpl_words::{Standing, end_text, read_byte};
use crate::statement::Statement;
use std::alloc::Global;

/// Cuts an RPL text into its statements (Cisco IOS XR Routing Configuration Guide, 'Implementing Routing
/// Policy'). Words are runs of bytes that are no blanks; a parenthesis or a comma is a word of its own,
/// and `'` opens a quoted word up to the next `'` of its line, if there is one. A line whose first byte
/// that is no blank is `!` or `#` is dropped. Outside blocks each line is a statement, and one whose
/// first word is `prefix-set`, `community-set`, `as-path-set` or `route-policy` opens a block, in which
/// line ends are blanks. In a set the word lists between commas are statements, up to `end-set`; one
/// without words has the span of its comma. In a policy a statement starts at the first word, at each of
/// `if`, `elseif`, `else`, `endif`, `pass`, `done`, `drop`, `set`, `delete`, `prepend` and `apply`, and
/// behind each `then`, `else` and `endif`, up to `end-policy`; from `if` or `elseif` to the next `then`
/// nothing starts. A quoted word is none of these. Lines outside blocks, headers and the words that end
/// blocks have depth 0, all else depth 1. Spans count bytes from 0. It takes time in step with the
/// length of the text. The error is want of memory.
#[tactic(auto, unfolding(crate::specs::RplCut::rpl_cut))]
pub fn rpl_statements(alloc: Global, text: &[u8]) -> Result<Row<Statement>, Memory>
    ensures { IfOk result (λ s. s ≡ rpl_cut text.now) }
{
    let mut cut = Cutting {
        statements: Row::new(alloc),
        place: Place::Outside,
        words: Row::new(alloc),
    };
    let mut standing = Standing::Margin;
    let mut place: u64 = 0;
    let mut rest = text;
    while let [byte, behind @ ..] = rest {
        standing = read_byte(alloc, &mut cut, standing, place, *byte, behind)?;
        place += 1;
        rest = behind;
    }
    end_text(alloc, &mut cut, standing, place)?;
    cut.finished(alloc)
}
