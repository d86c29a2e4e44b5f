//! Where calls stand too deep.
ghost use Rattle.std.specs.Prelude.{◌≡◌, ℕ, Bool, ◌||◌, ◌&&◌, List, [], ◌∷◌, IfOk, OnOk, bytes_eq};
ghost use Rattle.std.specs.List.{list_any};
ghost use Rattle.policy_text.specs.NameSets.{has_name};
ghost use Rattle.policy_calls.specs.Calls.{is_reached, turns_back};
ghost use Rattle.policy_calls.specs.Depth.{is_at, is_too_deep, most_calls};
ghost use Rattle.policy_calls.specs.Callees.{nows, links_of, callees_at, has_pair};
ghost use Rattle.policy_calls.specs.Search.{AreSame, among};

use crate::call::Call;
use crate::callees::{Callees, callees_by_name};
use crate::pairs::{PairSet, has_cycle};
use crate::search::{note_all, note_callees};
use policy_text::NameSet;
use route_types::Memory;
use std::alloc::Global;
use std::collections::BTreeSet;

// Policies, each once, in a row and in a set.
#[derive(Drop)]
struct Level<'a> {
    order: Vec<&'a [u8]>,
    seen: NameSet<'a>,
}

// These policies, each once.
fn level_of<'a>(alloc: Global, names: &[&'a [u8]]) -> Result<Level<'a>, Memory>
    ensures same { IfOk result (λ level. AreSame level.seen level.order.items) }
    ensures all { IfOk result (λ level. (q : List ℕ) → among (nows level.order.items) q ≡ among (nows names.now) q) }
{
    let mut order = Vec::new(alloc);
    let mut seen = BTreeSet::new(alloc);
    note_all(&mut order, &mut seen, names)?;
    Ok(Level { order, seen })
}

// The policies that those of a level call.
fn next_level<'a>(
    alloc: Global,
    callees: &Callees<'a>,
    level: &[&'a [u8]],
) -> Result<Level<'a>, Memory>
    ensures same { IfOk result (λ next. AreSame next.seen next.order.items) }
    ensures called { IfOk result (λ next. (q : List ℕ) → among (nows next.order.items) q ≡ list_any (λ p. among (callees_at callees.now p) q) (nows level.now)) }
{
    let mut order = Vec::new(alloc);
    let mut seen = BTreeSet::new(alloc);
    let mut rest = level;
    while let [first, tail @ ..] = rest {
        note_callees(&mut order, &mut seen, callees, first)?;
        rest = tail;
    }
    Ok(Level { order, seen })
}

// The policies that stand at the end of as many calls from these as may stand one in the other. Level by level each call is
// followed once at most, so all calls 128 times at most.
fn deepest<'a>(alloc: Global, calls: &[Call<'a>], names: &[&'a [u8]]) -> Result<NameSet<'a>, Memory>
    ensures { IfOk result (λ set. (q : List ℕ) → has_name set q 0 0 ≡ is_at (links_of calls.now) (nows names.now) most_calls q) }
{
    let callees = callees_by_name(alloc, calls)?;
    let mut level = level_of(alloc, names)?;
    let mut depth: u64 = 0;
    while depth < 128 {
        level = next_level(alloc, &callees, level.order.as_slice())?;
        depth += 1;
    }
    Ok(level.seen)
}

/// The policies in which a call stands too deep, where no policy that is reached leads back to itself; else none.
/// `reached` are the policies that these names lead to, `turning` the calls that lead back to their caller. A name stands
/// in the set with sort 0 and number 0. Each call is followed 128 times at most. The one error is want of memory.
#[tactic(auto, unfolding(crate::specs::Depth::is_too_deep))]
pub fn too_deep<'a>(
    alloc: Global,
    calls: &[Call<'a>],
    names: &[&'a [u8]],
    reached: &NameSet<'a>,
    turning: &PairSet<'a>,
) -> Result<NameSet<'a>, Memory>
    requires reached { (q : List ℕ) → has_name reached.now q 0 0 ≡ is_reached (links_of calls.now) (nows names.now) q }
    requires turning { (p q : List ℕ) → has_pair turning.now p q ≡ turns_back (links_of calls.now) p q }
    ensures { IfOk result (λ set. (q : List ℕ) → has_name set q 0 0 ≡ is_too_deep (links_of calls.now) (nows names.now) q) }
{
    if has_cycle(calls, reached, turning) {
        return Ok(BTreeSet::new(alloc));
    }
    let set = deepest(alloc, calls, names)?;
    Ok(set)
}
