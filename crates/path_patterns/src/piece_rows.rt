ghost use Rattle.std.specs.Prelude.{◌≡◌, ◌-◌, true, ◌∷◌, IfOk, None, Some, map};
ghost use Rattle.path_patterns.specs.declared.pattern.IosBranch.TheVariants.{Pieces};
ghost use Rattle.path_patterns.specs.PathItems.{has_digit, digits_fit, word_fits, words_hold, later_takes, pieces_takes, mark_takes, tail_takes, set_takes, branch_takes, least_turns, most_turns};
ghost use Rattle.path_patterns.specs.Rows.{words_fit, fits_along, row_step, rows_behind, later_piece, later_rows, takes_all};

use crate::pattern::{DigitSet, DigitWord, IosBranch, Mark, PathPieces, Piece, PieceSet, Tail};
use crate::row_steps::{ends_reached, row_step, start_row};
use itoa::Buffer;
use route_types::{Memory, Row};
use std::alloc::Global;

fn holds_byte(set: DigitSet, byte: u8) -> bool
    ensures { result ≡ has_digit set (byte - 48) }
{
    set.has(byte.saturating_sub(b'0'))
}

#[tactic(auto, unfolding(crate::specs::PathItems::digits_fit))]
fn digits_fit(sets: &[DigitSet], digits: &[u8]) -> bool
    ensures { result ≡ digits_fit sets.now digits.now }
{
    let mut wanted = sets;
    let mut rest = digits;
    while let [set, more @ ..] = wanted {
        let [digit, tail @ ..] = rest else {
            return false;
        };
        if !holds_byte(*set, *digit) {
            return false;
        }
        wanted = more;
        rest = tail;
    }
    rest.is_empty()
}

fn word_fits(word: &DigitWord, digits: &[u8]) -> bool
    ensures { result ≡ word_fits word.now digits.now }
{
    match word {
        DigitWord::Any => true,
        DigitWord::Digits(sets) => digits_fit(sets.as_slice(), digits),
    }
}

fn words_fit(words: &[DigitWord], digits: &[u8]) -> bool
    ensures { result ≡ words_fit words.now digits.now }
{
    words.iter().any(|word| word_fits(word, digits))
}

// Whether one of the words spells the number.
fn words_hold(words: &[DigitWord], number: u32) -> bool
    ensures { result ≡ words_hold words.now number }
{
    let mut buffer = Buffer::new();
    words_fit(words, buffer.format(number).as_bytes())
}

#[tactic(auto, unfolding(crate::specs::Rows::fits_along))]
fn words_along(alloc: Global, words: &[DigitWord], path: &[u32]) -> Result<Row<bool>, Memory>
    ensures { IfOk result (λ r. r ≡ fits_along (words_hold words.now) path.now) }
{
    let mut row = Row::new(alloc);
    let mut rest = path;
    while let [first, tail @ ..] = rest {
        row.push(words_hold(words, *first))?;
        rest = tail;
    }
    row.push(false)?;
    Ok(row)
}

#[tactic(auto, unfolding(crate::specs::Rows::fits_along))]
fn all_along(alloc: Global, path: &[u32]) -> Result<Row<bool>, Memory>
    ensures { IfOk result (λ r. r ≡ fits_along (λ _. true) path.now) }
{
    let mut row = Row::new(alloc);
    let mut rest = path;
    while let [_, tail @ ..] = rest {
        row.push(true)?;
        rest = tail;
    }
    row.push(false)?;
    Ok(row)
}

// The row behind any numbers, so many or more.
fn behind_any(alloc: Global, least: u32, path: &[u32], row: &[bool]) -> Result<Row<bool>, Memory>
    ensures { IfOk result (λ r. r ≡ row_step least None (fits_along (λ _. true) path.now) row.now) }
{
    let fits = all_along(alloc, path)?;
    row_step(alloc, least, None, fits.as_slice(), row)
}

fn behind_tail(alloc: Global, tail: &Tail, path: &[u32], row: &[bool]) -> Result<Row<bool>, Memory>
    ensures { IfOk result (λ r. r ≡ row_step (least_turns tail.now.repeat) (most_turns tail.now.repeat) (fits_along (words_hold tail.now.words) path.now) row.now) }
{
    let fits = words_along(alloc, tail.words.as_slice(), path)?;
    let repeat = tail.repeat;
    row_step(alloc, repeat.least(), repeat.most(), fits.as_slice(), row)
}

#[tactic(auto, unfolding(crate::specs::Rows::rows_behind))]
fn behind_tails(
    alloc: Global,
    tails: &[Tail],
    path: &[u32],
    row: Row<bool>,
) -> Result<Row<bool>, Memory>
    ensures { IfOk result (λ r. r ≡ rows_behind (map tail_takes tails.now) path.now row) }
{
    let mut row = row;
    let mut rest = tails;
    while let [first, tail @ ..] = rest {
        row = behind_tail(alloc, first, path, row.as_slice())?;
        rest = tail;
    }
    Ok(row)
}

#[tactic(auto, unfolding(crate::specs::Rows::rows_behind))]
fn behind_set(
    alloc: Global,
    set: &PieceSet,
    path: &[u32],
    row: &[bool],
) -> Result<Row<bool>, Memory>
    ensures { IfOk result (λ r. r ≡ rows_behind (set_takes set.now.words ∷ map tail_takes set.now.tails) path.now row.now) }
{
    let fits = words_along(alloc, set.words.as_slice(), path)?;
    let row = row_step(alloc, 1, Some(1), fits.as_slice(), row)?;
    behind_tails(alloc, set.tails.as_slice(), path, row)
}

// The row behind a piece that stands behind another one, by what stands behind it.
#[tactic(auto, unfolding(crate::specs::Rows::rows_behind))]
fn behind_piece(
    alloc: Global,
    piece: &Piece,
    others: &[Piece],
    path: &[u32],
    row: &[bool],
) -> Result<Row<bool>, Memory>
    ensures { IfOk result (λ r. r ≡ rows_behind (later_piece piece.now others.now) path.now row.now) }
{
    match (piece, others) {
        (Piece::Anything, []) => behind_any(alloc, 0, path, row),
        (Piece::Anything, _) => behind_any(alloc, 1, path, row),
        (Piece::Set(set), _) => behind_set(alloc, set, path, row),
    }
}

#[tactic(auto, unfolding(crate::specs::Rows::later_rows))]
fn later_rows(
    alloc: Global,
    pieces: &[Piece],
    path: &[u32],
    row: Row<bool>,
) -> Result<Row<bool>, Memory>
    ensures { IfOk result (λ r. r ≡ later_rows pieces.now path.now row) }
{
    let mut row = row;
    let mut rest = pieces;
    while let [first, tail @ ..] = rest {
        row = behind_piece(alloc, first, tail, path, row.as_slice())?;
        rest = tail;
    }
    Ok(row)
}

#[tactic(auto, using(crate::proofs::PieceRows::later_rows_behind))]
fn behind_later(
    alloc: Global,
    pieces: &[Piece],
    path: &[u32],
    row: Row<bool>,
) -> Result<Row<bool>, Memory>
    ensures { IfOk result (λ r. r ≡ rows_behind (later_takes pieces.now) path.now row) }
{
    later_rows(alloc, pieces, path, row)
}

#[tactic(auto, unfolding(crate::specs::Rows::rows_behind))]
fn behind_pieces(
    alloc: Global,
    pieces: &[Piece],
    path: &[u32],
    row: Row<bool>,
) -> Result<Row<bool>, Memory>
    ensures { IfOk result (λ r. r ≡ rows_behind (pieces_takes pieces.now) path.now row) }
{
    match pieces {
        [Piece::Anything, tail @ ..] => {
            let row = behind_any(alloc, 0, path, row.as_slice())?;
            behind_later(alloc, tail, path, row)
        }
        _ => behind_later(alloc, pieces, path, row),
    }
}

#[tactic(auto, unfolding(crate::specs::Rows::rows_behind))]
fn behind_mark(alloc: Global, mark: Mark, path: &[u32], row: Row<bool>) -> Result<Row<bool>, Memory>
    ensures { IfOk result (λ r. r ≡ rows_behind (mark_takes mark) path.now row) }
{
    match mark {
        Mark::Under => behind_any(alloc, 0, path, row.as_slice()),
        _ => Ok(row),
    }
}

#[tactic(auto, using(crate::proofs::PieceRows::behind_both))]
fn behind_branch(
    alloc: Global,
    branch: &PathPieces,
    path: &[u32],
    row: Row<bool>,
) -> Result<Row<bool>, Memory>
    ensures { IfOk result (λ r. r ≡ rows_behind (branch_takes (Pieces branch.now)) path.now row) }
{
    let row = behind_mark(alloc, branch.left, path, row)?;
    let row = behind_pieces(alloc, branch.pieces.as_slice(), path, row)?;
    behind_mark(alloc, branch.right, path, row)
}

/// Whether what a branch takes is the whole path. Its one error is want of memory.
#[tactic(auto, unfolding(crate::specs::Rows::takes_all, crate::specs::Rows::rows_behind))]
pub(crate) fn branch_takes(alloc: Global, branch: &IosBranch, path: &[u32]) -> Result<bool, Memory>
    ensures { IfOk result (λ answer. answer ≡ takes_all (branch_takes branch.now) path.now) }
{
    let row = start_row(alloc, path)?;
    let row = match branch {
        IosBranch::EmptyPath => row,
        IosBranch::Pieces(pieces) => behind_branch(alloc, pieces, path, row)?,
    };
    Ok(ends_reached(path, row.as_slice()))
}
