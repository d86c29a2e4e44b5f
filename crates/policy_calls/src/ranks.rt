//! The calls that lead back to their caller, by ranks of the policies: where no call goes to a higher rank, a call that
//! leads back stays in its rank; and where one policy of each rank leads to all others of it and back, each call that
//! stays in its rank leads back.
ghost use Rattle.std.specs.Prelude.{◌≡◌, ◌==◌, ℕ, ◌||◌, ◌&&◌, List, [], ◌∷◌, nat_le, nat_lt, IfOk, IfSome, true};
ghost use Rattle.std.specs.List.{list_any, list_all};
ghost use Rattle.policy_text.specs.NameSets.{has_name};
ghost use Rattle.policy_calls.specs.Calls.{has_link, turns_back};
ghost use Rattle.policy_calls.specs.Callees.{nows, links_of, has_pair};
ghost use Rattle.policy_calls.specs.Ranks.{rank_at, falls, level, are_between, rise_above, are_apart};

use crate::call::Call;
use crate::groups::Groups;
use crate::pairs::{PairSet, add_pair};
use crate::search::{leading_to, reached};
use policy_text::{NameSet, has_name};
use route_types::{Memory, Row};
use std::alloc::Global;
use std::collections::{BTreeMap, BTreeSet};

/// Numbers under the names of policies; one without a number has 0.
pub(crate) type Ranks<'a> = BTreeMap<&'a [u8], u64>;

fn rank_of<'a>(ranks: &Ranks<'a>, name: &'a [u8]) -> u64
    ensures { result ≡ rank_at ranks.now name.now }
{
    match ranks.get(&name) {
        Some(rank) => *rank,
        None => 0,
    }
}

// Whether no call goes to a higher rank.
fn all_fall<'a>(calls: &[Call<'a>], ranks: &Ranks<'a>) -> bool
    ensures { result ≡ list_all (falls (rank_at ranks.now)) (links_of calls.now) }
{
    let mut rest = calls;
    while let [first, tail @ ..] = rest {
        if rank_of(ranks, first.callee) > rank_of(ranks, first.caller) {
            return false;
        }
        rest = tail;
    }
    true
}

// The calls that stay in their rank.
#[tactic(auto, unfolding(crate::specs::Ranks::level))]
fn level_calls<'a>(
    alloc: Global,
    calls: &[Call<'a>],
    ranks: &Ranks<'a>,
) -> Result<Row<Call<'a>>, Memory>
    ensures { IfOk result (λ row. row ≡ level (rank_at ranks.now) calls.now) }
{
    let mut row = Row::new(alloc);
    let mut rest = calls;
    while let [first, tail @ ..] = rest {
        if rank_of(ranks, first.callee) == rank_of(ranks, first.caller) {
            row.push(*first)?;
        }
        rest = tail;
    }
    Ok(row)
}

// Whether each caller is in the one set, and each callee in the other.
fn all_between<'a>(calls: &[Call<'a>], callers: &NameSet<'a>, callees: &NameSet<'a>) -> bool
    ensures { result ≡ list_all (are_between callers.now callees.now) (links_of calls.now) }
{
    let mut rest = calls;
    while let [first, tail @ ..] = rest {
        if !has_name(callers, first.caller, 0, 0) {
            return false;
        }
        if !has_name(callees, first.callee, 0, 0) {
            return false;
        }
        rest = tail;
    }
    true
}

// Whether the ranks of these rise, from above this one on.
#[tactic(auto, unfolding(crate::specs::Ranks::rise_above))]
fn rise_above<'a>(ranks: &Ranks<'a>, least: u64, names: &[&'a [u8]]) -> bool
    ensures { result ≡ rise_above (rank_at ranks.now) least (nows names.now) }
{
    let mut last = least;
    let mut rest = names;
    while let [first, tail @ ..] = rest {
        let rank = rank_of(ranks, first);
        if rank <= last {
            return false;
        }
        last = rank;
        rest = tail;
    }
    true
}

// Whether these have different ranks.
fn are_apart<'a>(ranks: &Ranks<'a>, names: &[&'a [u8]]) -> bool
    ensures { result ≡ are_apart (rank_at ranks.now) (nows names.now) }
{
    match names {
        [] => true,
        [first, tail @ ..] => rise_above(ranks, rank_of(ranks, first), tail),
    }
}

// The calls as pairs.
fn pairs_of<'a>(alloc: Global, calls: &[Call<'a>]) -> Result<PairSet<'a>, Memory>
    ensures { IfOk result (λ pairs. (p q : List ℕ) → has_pair pairs p q ≡ has_link (links_of calls.now) p q) }
{
    let mut pairs = BTreeSet::new(alloc);
    let mut rest = calls;
    while let [first, tail @ ..] = rest {
        add_pair(&mut pairs, first.caller, first.callee)?;
        rest = tail;
    }
    Ok(pairs)
}

// Whether the ranks and roots of these groups show which calls lead back, `kept` being those that stay in their rank.
fn show<'a>(
    alloc: Global,
    calls: &[Call<'a>],
    kept: &[Call<'a>],
    groups: &Groups<'a>,
) -> Result<bool, Memory>
    requires { kept.now ≡ level (rank_at groups.now.ranks) calls.now }
    ensures { IfOk result (λ shown. shown ≡ true → (p q : List ℕ) → has_link (links_of kept.now) p q ≡ turns_back (links_of calls.now) p q) }
{
    let roots = groups.roots.as_slice();
    if !all_fall(calls, &groups.ranks) {
        return Ok(false);
    }
    if !are_apart(&groups.ranks, roots) {
        return Ok(false);
    }
    let down = reached(alloc, kept, roots)?;
    let up = leading_to(alloc, kept, roots)?;
    Ok(all_between(kept, &down, &up))
}

/// The calls that lead back to their caller, where the groups show them; else `None`.
pub(crate) fn turning_by_ranks<'a>(
    alloc: Global,
    calls: &[Call<'a>],
    groups: &Groups<'a>,
) -> Result<Option<PairSet<'a>>, Memory>
    ensures { IfOk result (λ o. IfSome o (λ pairs. (p q : List ℕ) → has_pair pairs p q ≡ turns_back (links_of calls.now) p q)) }
{
    let row = level_calls(alloc, calls, &groups.ranks)?;
    let kept = row.as_slice();
    if !show(alloc, calls, kept, groups)? {
        return Ok(None);
    }
    let pairs = pairs_of(alloc, kept)?;
    Ok(Some(pairs))
}
