// What a pattern asks of a path before numbers are put in front of it.
ghost use Rattle.std.specs.Prelude.{◌≡◌, ◌∷◌, ◌++◌, ◌-◌, ◌↔◌, ℕ, List, IfOk};
ghost use Rattle.path_patterns.specs.Items.{Matches};
ghost use Rattle.path_patterns.specs.PathMatches.{has_room, one_fewer, path_matches};
ghost use Rattle.path_suffixes.specs.Behind.{may_take, one_taken, taken_first, items_behind, branches_behind, pattern_behind, pattern_behind_all};

use aspath_text::{TokenBranch, TokenItem, TokenPattern};
use route_types::{Duplicate, Memory, Row};
use std::alloc::Global;

/// What the pattern still asks of a path behind a number that stands in front of it. An item that can take the number is
/// left with one number less to take, and an item that may take none passes it on to the next one. The time is linear in
/// the size of pattern and result. The one error is want of memory.
#[tactic(auto, using(crate::proofs::BehindLaws::matches_behind, crate::proofs::BehindLaws::relation_behind))]
pub fn suffix_pattern(
    alloc: Global,
    pattern: &TokenPattern,
    number: u32,
) -> Result<TokenPattern, Memory>
    ensures exact { IfOk result (λ p. p ≡ pattern_behind number pattern.now) }
    // It matches a path exactly where the pattern matches the path with the number in front.
    ensures matches { IfOk result (λ p. (path : List ℕ) → path_matches p path ≡ path_matches pattern.now (number ∷ path)) }
    ensures related { IfOk result (λ p. (path : List ℕ) → Matches p path ↔ Matches pattern.now (number ∷ path)) }
{
    let mut branches = Row::new(alloc);
    push_branches(alloc, &mut branches, pattern, number)?;
    Ok(TokenPattern { branches })
}

/// What the pattern still asks of a path behind some numbers that stand in front of it, the first one first. The one error
/// is want of memory.
#[tactic(auto, using(crate::proofs::BehindLaws::matches_behind_all))]
pub fn suffix_pattern_of_all(
    alloc: Global,
    pattern: &TokenPattern,
    numbers: &[u32],
) -> Result<TokenPattern, Memory>
    ensures exact { IfOk result (λ p. p ≡ pattern_behind_all numbers.now pattern.now) }
    // It matches a path exactly where the pattern matches the path with the numbers in front.
    ensures matches { IfOk result (λ p. (path : List ℕ) → path_matches p path ≡ path_matches pattern.now (numbers.now ++ path)) }
{
    let left = behind_all(alloc, pattern, numbers)?;
    Ok(left)
}

#[tactic(auto, unfolding(crate::specs::Behind::pattern_behind_all))]
fn behind_all(
    alloc: Global,
    pattern: &TokenPattern,
    numbers: &[u32],
) -> Result<TokenPattern, Memory>
    ensures { IfOk result (λ p. p ≡ pattern_behind_all numbers.now pattern.now) }
{
    let mut left = pattern.duplicate(alloc)?;
    let mut rest = numbers;
    while let [number, later @ ..] = rest {
        left = suffix_pattern(alloc, &left, *number)?;
        rest = later;
    }
    Ok(left)
}

#[tactic(auto, unfolding(crate::specs::Behind::branches_behind))]
fn push_branches(
    alloc: Global,
    found: &mut Row<TokenBranch>,
    pattern: &TokenPattern,
    number: u32,
) -> Result<(), Memory>
    ensures { IfOk result (λ _. found.new ≡ found.old ++ branches_behind number pattern.now.branches) }
{
    let mut rest = pattern.branches.as_slice();
    while let [first, tail @ ..] = rest {
        push_items(alloc, found, first.items.as_slice(), number)?;
        rest = tail;
    }
    Ok(())
}

#[tactic(auto, unfolding(crate::specs::Behind::items_behind))]
fn push_items(
    alloc: Global,
    found: &mut Row<TokenBranch>,
    items: &[TokenItem],
    number: u32,
) -> Result<(), Memory>
    ensures { IfOk result (λ _. found.new ≡ found.old ++ items_behind number items.now) }
{
    let mut rest = items;
    while let [first, tail @ ..] = rest {
        push_taken(alloc, found, first, tail, number)?;
        if 0 < first.least {
            return Ok(());
        }
        rest = tail;
    }
    Ok(())
}

// Adds the branch in which the item takes the number, if it may.
fn push_taken(
    alloc: Global,
    found: &mut Row<TokenBranch>,
    item: &TokenItem,
    behind: &[TokenItem],
    number: u32,
) -> Result<(), Memory>
    ensures { IfOk result (λ _. found.new ≡ found.old ++ taken_first number item.now behind.now) }
{
    if !may_take(item, number) {
        return Ok(());
    }
    let items = with_one_taken(alloc, item, behind)?;
    found.push(TokenBranch { items })?;
    Ok(())
}

fn may_take(item: &TokenItem, number: u32) -> bool
    ensures { result ≡ may_take number item.now }
{
    has_room(item.most) && item.set.holds(number)
}

fn has_room(most: Option<u32>) -> bool
    ensures { result ≡ has_room most }
{
    match most {
        None => true,
        Some(most) => 1 <= most,
    }
}

fn one_fewer(most: Option<u32>) -> Option<u32>
    ensures { result ≡ one_fewer most }
{
    match most {
        None => None,
        Some(most) => Some(less_one(most)),
    }
}

// One less, and of none none.
fn less_one(count: u32) -> u32
    ensures { result ≡ count - 1 }
{
    if count == 0 { 0 } else { count - 1 }
}

// The item with one number less to take, and those behind it.
fn with_one_taken(
    alloc: Global,
    item: &TokenItem,
    behind: &[TokenItem],
) -> Result<Row<TokenItem>, Memory>
    ensures { IfOk result (λ items. items ≡ one_taken item.now ∷ behind.now) }
{
    let mut items = Row::new(alloc);
    let first = one_taken(alloc, item)?;
    items.push(first)?;
    push_copies(alloc, &mut items, behind)?;
    Ok(items)
}

fn one_taken(alloc: Global, item: &TokenItem) -> Result<TokenItem, Memory>
    ensures { IfOk result (λ i. i ≡ one_taken item.now) }
{
    let set = item.set.duplicate(alloc)?;
    Ok(TokenItem {
        set,
        least: less_one(item.least),
        most: one_fewer(item.most),
    })
}

fn push_copies(
    alloc: Global,
    items: &mut Row<TokenItem>,
    copied: &[TokenItem],
) -> Result<(), Memory>
    ensures { IfOk result (λ _. items.new ≡ items.old ++ copied.now) }
{
    let mut rest = copied;
    while let [first, tail @ ..] = rest {
        items.push(first.duplicate(alloc)?)?;
        rest = tail;
    }
    Ok(())
}
