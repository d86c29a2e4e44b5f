// The entries of path lists as terms of subroutines: each by the texts of its pattern, a branch as one Junos pattern.
ghost use Rattle.std.specs.Prelude.{◌≡◌, ◌||◌, ℕ, Bool, List, true, false, IfOk};
ghost use Rattle.std.specs.List.{list_any, AllByRecursion};
ghost use Rattle.path_patterns.specs.Items.{IsPath};
ghost use Rattle.path_patterns.specs.PathMatches.{path_matches};
ghost use Rattle.core_nodes.specs.Atoms.{path_answers};
ghost use Rattle.route_types.specs.Route.{RouteParts};
ghost use Rattle.junos_plans.specs.Conditions.{text_matches, condition_holds, entries_accept, accept_or};
ghost use Rattle.junos_plans.specs.Entries.{branch_matches, SaysPath};
ghost use Rattle.junos_plans.specs.Fits.{FitsText, FitsValue, FitsCondition, FitsEntry};

use crate::condition::{PlannedCondition, PlannedEntry};
use aspath_text::{TokenBranch, TokenPattern, print_junos};
use core_nodes::PathEntry;
use route_types::{Memory, Row};
use std::alloc::Global;

// Adds the text of a branch, if a path can match it.
fn push_branch(alloc: Global, texts: &mut Row<Row<u8>>, branch: &TokenBranch) -> Result<(), Memory>
    ensures fits { IfOk result (λ _. AllByRecursion FitsText texts.old → AllByRecursion FitsText texts.new) }
    ensures holds { IfOk result (λ _. (path : List ℕ) → IsPath path → list_any (λ t. text_matches t path) texts.new ≡ (list_any (λ t. text_matches t path) texts.old || branch_matches branch.now path)) }
{
    match print_junos(alloc, branch)? {
        None => Ok(()),
        Some(text) => {
            texts.push(Row::from_vec(text))?;
            Ok(())
        }
    }
}

// The texts of branches.
fn pattern_texts(alloc: Global, branches: &[TokenBranch]) -> Result<Row<Row<u8>>, Memory>
    ensures fits { IfOk result (λ texts. AllByRecursion FitsText texts) }
    ensures holds { IfOk result (λ texts. (path : List ℕ) → IsPath path → list_any (λ t. text_matches t path) texts ≡ list_any (λ b. branch_matches b path) branches.now) }
{
    let mut texts = Row::new(alloc);
    let mut rest = branches;
    while let [first, tail @ ..] = rest {
        push_branch(alloc, &mut texts, first)?;
        rest = tail;
    }
    Ok(texts)
}

// The condition of a pattern; none where no path matches it.
fn path_condition(alloc: Global, pattern: &TokenPattern) -> Result<Option<PlannedCondition>, Memory>
    ensures says { IfOk result (SaysPath pattern.now) }
    ensures fits { IfOk result (λ condition. FitsValue FitsCondition condition) }
{
    let texts = pattern_texts(alloc, pattern.branches.as_slice())?;
    if texts.as_slice().is_empty() {
        return Ok(None);
    }
    Ok(Some(PlannedCondition::Path(texts)))
}

// Adds the term of an entry, if a path can match it.
fn push_path(alloc: Global, found: &mut Row<PlannedEntry>, entry: &PathEntry) -> Result<(), Memory>
    ensures fits { IfOk result (λ _. AllByRecursion FitsEntry found.old → AllByRecursion FitsEntry found.new) }
    ensures holds { IfOk result (λ _. (r : RouteParts) (later : Bool) → IsPath r.path → accept_or (condition_holds r) found.new later ≡ accept_or (condition_holds r) found.old (elim (path_matches entry.now.pattern r.path) [ true ↦ entry.now.permit | false ↦ later ])) }
{
    match path_condition(alloc, &entry.pattern)? {
        None => Ok(()),
        Some(condition) => {
            found.push(PlannedEntry {
                permit: entry.permit,
                condition,
            })?;
            Ok(())
        }
    }
}

// The terms of a path list.
#[tactic(auto, unfolding(core_nodes::specs::Atoms::path_answers))]
pub(crate) fn path_entries(
    alloc: Global,
    entries: &[PathEntry],
) -> Result<Row<PlannedEntry>, Memory>
    ensures fits { IfOk result (λ found. AllByRecursion FitsEntry found) }
    ensures holds { IfOk result (λ found. (r : RouteParts) → IsPath r.path → entries_accept (condition_holds r) found ≡ path_answers entries.now r.path) }
{
    let mut found = Row::new(alloc);
    let mut rest = entries;
    while let [first, tail @ ..] = rest {
        push_path(alloc, &mut found, first)?;
        rest = tail;
    }
    Ok(found)
}
