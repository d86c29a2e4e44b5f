ghost use Rattle.std.specs.Prelude.{◌≡◌, IfOk};
ghost use Rattle.std.specs.List.{filter};
ghost use Rattle.text_words.specs.IosCut.{is_said, ios_cut};

use crate::line_cut::{line_statements, starts_with_byte};
use crate::memory::Memory;
use crate::row::Row;
use crate::statement::{Statement, Word};
use std::alloc::Global;

/// Cuts an IOS text: its lines, as `line_statements` gives them, without those that have no word and
/// those whose first word starts with `!`. The error is want of memory.
#[tactic(auto, unfolding(crate::specs::IosCut::ios_cut))]
pub fn ios_statements(alloc: Global, text: &[u8]) -> Result<Row<Statement>, Memory>
    ensures { IfOk result (λ s. s ≡ ios_cut text.now) }
{
    let lines = line_statements(alloc, text)?;
    Ok(said_of(lines))
}

#[tactic(auto, using(std::proofs::lemmas::List::Elements::filter_from_retain))]
fn said_of(lines: Row<Statement>) -> Row<Statement>
    ensures { result ≡ filter (λ s. is_said s.words) lines }
{
    let mut said = lines.into_vec();
    said.retain(|s| is_said(s.words.as_slice()));
    Row::from_vec(said)
}

fn is_said(words: &[Word]) -> bool
    ensures { result ≡ is_said words.now }
{
    match words {
        [] => false,
        [first, ..] => !starts_with_byte(b'!', first.text.as_slice()),
    }
}
