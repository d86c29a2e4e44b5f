ghost use Rattle.std.specs.Prelude.{◌≡◌, true, IfOk, List, ℕ, [], ◌∷◌, ◌++◌, ◌↔◌, map};
ghost use Rattle.path_patterns.specs.Finds.{finds_in};
ghost use Rattle.path_patterns.specs.Items.{IsPath, Matches};
ghost use Rattle.path_patterns.specs.PathMatches.{path_matches};
ghost use Rattle.path_patterns.specs.RangeCounts.{few_in_pattern};
ghost use Rattle.path_patterns.specs.Search.{Found};
ghost use Rattle.path_patterns.specs.TokenForm.{all_numbers, any_item, set_item, tail_item, later_items, pieces_items, mark_items, branch_items, branches_items, token_form};
ghost use Rattle.path_patterns.specs.DigitRanges.{set_of_words};
ghost use Rattle.path_patterns.specs.declared.pattern.Piece.TheVariants.{Anything};

use crate::digit_ranges::set_of_words;
use crate::items::{NumberRange, NumberSet, TokenBranch, TokenItem, TokenPattern};
use crate::pattern::{DigitWord, IosBranch, IosPattern, Mark, PathPieces, Piece, PieceSet, Tail};
use crate::range_counts::few_in_pattern;
use route_types::{Memory, Row};
use std::alloc::Global;

/// The items that match a path exactly where the pattern is found in its text. The ranges of each set rise and lie
/// apart, so that equal sets are written alike. Its one error is want of memory: it comes without anything taken where
/// some set of words makes more than 1,048,576 ranges, as they are counted from the digits.
#[tactic(auto, using(crate::proofs::TokensFound::tokens_found, crate::proofs::PathMatches::tokens_match))]
pub fn tokens(alloc: Global, pattern: &IosPattern) -> Result<TokenPattern, Memory>
    ensures form { IfOk result (λ t. t ≡ token_form pattern.now) }
    ensures found { IfOk result (λ t. (path : List ℕ) → IsPath path → Matches t path ↔ Found pattern.now path) }
    ensures exact { IfOk result (λ t. (path : List ℕ) → IsPath path → path_matches t path ≡ finds_in pattern.now path) }
    ensures few { IfOk result (λ _. few_in_pattern pattern.now ≡ true) }
{
    if !few_in_pattern(alloc, pattern.branches())? {
        return Err(Memory);
    }
    token_form(alloc, pattern.branches())
}

// The items of each branch, in order.
fn token_form(alloc: Global, branches: &[IosBranch]) -> Result<TokenPattern, Memory>
    ensures { IfOk result (λ t. t ≡ token_form branches.now) }
{
    let branches = branches_items(alloc, branches)?;
    Ok(TokenPattern { branches })
}

fn branches_items(alloc: Global, branches: &[IosBranch]) -> Result<Row<TokenBranch>, Memory>
    ensures { IfOk result (λ found. found ≡ branches_items branches.now) }
{
    let mut found = Vec::new(alloc);
    let mut rest = branches;
    while let [branch, tail @ ..] = rest {
        found.push(branch_items(alloc, branch)?)?;
        rest = tail;
    }
    Ok(Row::from_vec(found))
}

fn branch_items(alloc: Global, branch: &IosBranch) -> Result<TokenBranch, Memory>
    ensures { IfOk result (λ b. b.items ≡ branch_items branch.now) }
{
    let mut found = Vec::new(alloc);
    if let IosBranch::Pieces(pieces) = branch {
        push_between_marks(alloc, &mut found, pieces)?;
    }
    Ok(TokenBranch {
        items: Row::from_vec(found),
    })
}

fn push_between_marks(
    alloc: Global,
    out: &mut Vec<TokenItem>,
    pieces: &PathPieces,
) -> Result<(), Memory>
    ensures { IfOk result (λ _. out.new.items ≡ out.old.items ++ (mark_items pieces.now.left ++ (pieces_items pieces.now.pieces ++ mark_items pieces.now.right))) }
{
    push_mark(alloc, out, pieces.left)?;
    push_pieces(alloc, out, pieces.pieces.as_slice())?;
    push_mark(alloc, out, pieces.right)
}

fn push_mark(alloc: Global, out: &mut Vec<TokenItem>, mark: Mark) -> Result<(), Memory>
    ensures { IfOk result (λ _. out.new.items ≡ out.old.items ++ mark_items mark) }
{
    match mark {
        Mark::Under => push_any(alloc, out, 0),
        Mark::Anchor | Mark::Nothing => Ok(()),
    }
}

fn push_pieces(alloc: Global, out: &mut Vec<TokenItem>, pieces: &[Piece]) -> Result<(), Memory>
    ensures { IfOk result (λ _. out.new.items ≡ out.old.items ++ pieces_items pieces.now) }
{
    match pieces {
        [Piece::Anything, behind @ ..] => {
            push_any(alloc, out, 0)?;
            push_later(alloc, out, behind)
        }
        _ => push_later(alloc, out, pieces),
    }
}

#[tactic(auto, unfolding(crate::specs::TokenForm::later_items))]
fn push_later(alloc: Global, out: &mut Vec<TokenItem>, pieces: &[Piece]) -> Result<(), Memory>
    ensures { IfOk result (λ _. out.new.items ≡ out.old.items ++ later_items pieces.now) }
{
    let mut rest = pieces;
    while let [piece, behind @ ..] = rest {
        push_piece(alloc, out, piece, behind)?;
        rest = behind;
    }
    Ok(())
}

// The items of a piece that stands behind another one and before these.
#[tactic(auto, unfolding(crate::specs::TokenForm::later_items))]
fn push_piece(
    alloc: Global,
    out: &mut Vec<TokenItem>,
    piece: &Piece,
    behind: &[Piece],
) -> Result<(), Memory>
    ensures { IfOk result (λ _. out.new.items ++ later_items behind.now ≡ out.old.items ++ later_items (piece.now ∷ behind.now)) }
{
    match piece {
        Piece::Set(set) => push_set(alloc, out, set),
        Piece::Anything => push_between(alloc, out, behind),
    }
}

#[tactic(auto, unfolding(crate::specs::TokenForm::later_items))]
fn push_between(alloc: Global, out: &mut Vec<TokenItem>, behind: &[Piece]) -> Result<(), Memory>
    ensures { IfOk result (λ _. out.new.items ++ later_items behind.now ≡ out.old.items ++ later_items (Anything ∷ behind.now)) }
{
    match behind {
        [] => push_any(alloc, out, 0),
        _ => push_any(alloc, out, 1),
    }
}

fn push_set(alloc: Global, out: &mut Vec<TokenItem>, set: &PieceSet) -> Result<(), Memory>
    ensures { IfOk result (λ _. out.new.items ≡ out.old.items ++ (set_item set.now.words ∷ map tail_item set.now.tails)) }
{
    push_words(alloc, out, set.words.as_slice(), 1, Some(1))?;
    push_tails(alloc, out, set.tails.as_slice())
}

fn push_tails(alloc: Global, out: &mut Vec<TokenItem>, tails: &[Tail]) -> Result<(), Memory>
    ensures { IfOk result (λ _. out.new.items ≡ out.old.items ++ map tail_item tails.now) }
{
    let mut rest = tails;
    while let [first, behind @ ..] = rest {
        let repeat = first.repeat;
        let words = first.words.as_slice();
        push_words(alloc, out, words, repeat.least(), repeat.most())?;
        rest = behind;
    }
    Ok(())
}

fn push_words(
    alloc: Global,
    out: &mut Vec<TokenItem>,
    words: &[DigitWord],
    least: u32,
    most: Option<u32>,
) -> Result<(), Memory>
    ensures { IfOk result (λ _. out.new.items ≡ out.old.items ++ record { set = set_of_words words.now; least = least; most = most } ∷ []) }
{
    let set = set_of_words(alloc, words)?;
    out.push(TokenItem { set, least, most })?;
    Ok(())
}

fn all_numbers(alloc: Global) -> Result<NumberSet, Memory>
    ensures { IfOk result (λ set. set ≡ all_numbers) }
{
    let mut ranges = Vec::new(alloc);
    ranges.push(NumberRange {
        least: 0,
        most: u32::MAX,
    })?;
    Ok(NumberSet {
        ranges: Row::from_vec(ranges),
    })
}

fn push_any(alloc: Global, out: &mut Vec<TokenItem>, least: u32) -> Result<(), Memory>
    ensures { IfOk result (λ _. out.new.items ≡ out.old.items ++ any_item least ∷ []) }
{
    let set = all_numbers(alloc)?;
    out.push(TokenItem {
        set,
        least,
        most: None,
    })?;
    Ok(())
}
