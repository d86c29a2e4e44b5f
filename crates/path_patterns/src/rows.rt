ghost use Rattle.std.specs.Prelude.{◌≡◌, IfOk, map};
ghost use Rattle.std.specs.Bool.{Decides};
ghost use Rattle.path_patterns.specs.Finds.{finds_in};
ghost use Rattle.path_patterns.specs.Items.{in_set, takes_of, Matches};
ghost use Rattle.path_patterns.specs.PathMatches.{path_matches};
ghost use Rattle.path_patterns.specs.Rows.{fits_along, start_row, rows_behind, takes_all, pattern_takes, branches_take};
ghost use Rattle.path_patterns.specs.Search.{Found};

use crate::items::{NumberSet, TokenBranch, TokenItem, TokenPattern};
use crate::pattern::{IosBranch, IosPattern};
use crate::piece_rows::branch_takes;
use crate::row_steps::{ends_reached, row_step, start_row};
use route_types::{Memory, Row};
use std::alloc::Global;

/// Whether some branch of the pattern matches the whole path, in time proportional to the items times
/// the length of the path. Its one error is want of memory.
#[tactic(auto, using(crate::proofs::RowLaws::pattern_decides, crate::proofs::PathMatches::rows_match))]
pub fn matches(alloc: Global, pattern: &TokenPattern, path: &[u32]) -> Result<bool, Memory>
    ensures matched { IfOk result (λ answer. Decides answer (Matches pattern.now path.now)) }
    ensures exact { IfOk result (λ answer. answer ≡ path_matches pattern.now path.now) }
{
    pattern_takes(alloc, pattern, path)
}

/// Whether the pattern is found in the text of the path: its numbers in decimal, joined by one space. The
/// time is proportional to the pieces and tails times the length of the path. Its one error is want of
/// memory.
pub fn finds(alloc: Global, pattern: &IosPattern, path: &[u32]) -> Result<bool, Memory>
    ensures exact { IfOk result (λ answer. answer ≡ finds_in pattern.now path.now) }
    ensures found { IfOk result (λ answer. Decides answer (Found pattern.now path.now)) }
{
    branches_take(alloc, pattern.branches(), path)
}

#[tactic(auto, unfolding(crate::specs::Rows::fits_along))]
fn fits_along(alloc: Global, set: &NumberSet, path: &[u32]) -> Result<Row<bool>, Memory>
    ensures { IfOk result (λ r. r ≡ fits_along (in_set set.now) path.now) }
{
    let mut row = Row::new(alloc);
    let mut rest = path;
    while let [first, tail @ ..] = rest {
        row.push(set.holds(*first))?;
        rest = tail;
    }
    row.push(false)?;
    Ok(row)
}

#[tactic(auto, unfolding(crate::specs::Rows::rows_behind))]
fn rows_behind(alloc: Global, items: &[TokenItem], path: &[u32]) -> Result<Row<bool>, Memory>
    ensures { IfOk result (λ r. r ≡ rows_behind (map takes_of items.now) path.now (start_row path.now)) }
{
    let mut row = start_row(alloc, path)?;
    let mut rest = items;
    while let [item, tail @ ..] = rest {
        let fits = fits_along(alloc, &item.set, path)?;
        row = row_step(
            alloc,
            item.least,
            item.most,
            fits.as_slice(),
            row.as_slice(),
        )?;
        rest = tail;
    }
    Ok(row)
}

#[tactic(auto, unfolding(crate::specs::Rows::takes_all))]
fn takes_all(alloc: Global, branch: &TokenBranch, path: &[u32]) -> Result<bool, Memory>
    ensures { IfOk result (λ answer. answer ≡ takes_all (map takes_of branch.now.items) path.now) }
{
    let row = rows_behind(alloc, branch.items.as_slice(), path)?;
    Ok(ends_reached(path, row.as_slice()))
}

#[tactic(auto, unfolding(crate::specs::Rows::pattern_takes))]
fn pattern_takes(alloc: Global, pattern: &TokenPattern, path: &[u32]) -> Result<bool, Memory>
    ensures { IfOk result (λ answer. answer ≡ pattern_takes pattern.now path.now) }
{
    let mut rest = pattern.branches.as_slice();
    while let [branch, tail @ ..] = rest {
        if takes_all(alloc, branch, path)? {
            return Ok(true);
        }
        rest = tail;
    }
    Ok(false)
}

#[tactic(auto, unfolding(crate::specs::Rows::branches_take))]
fn branches_take(alloc: Global, branches: &[IosBranch], path: &[u32]) -> Result<bool, Memory>
    ensures { IfOk result (λ answer. answer ≡ branches_take branches.now path.now) }
{
    let mut rest = branches;
    while let [branch, tail @ ..] = rest {
        if branch_takes(alloc, branch, path)? {
            return Ok(true);
        }
        rest = tail;
    }
    Ok(false)
}
