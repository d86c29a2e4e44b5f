//! Which calls lead back to their caller.
ghost use Rattle.std.specs.Prelude.{◌≡◌, ℕ, ◌||◌, ◌&&◌, List, [], ◌∷◌, IfOk};
ghost use Rattle.std.specs.List.{list_any};
ghost use Rattle.policy_calls.specs.Calls.{leads, turns_back};
ghost use Rattle.policy_calls.specs.Callees.{nows, links_of, has_pair, callees_of, callees_at};

use crate::call::Call;
use crate::callees::{Callees, callees_by_name};
use crate::groups::groups_of;
use crate::pairs::{PairSet, add_pair};
use crate::ranks::turning_by_ranks;
use crate::search::closure;
use policy_text::has_name;
use route_types::Memory;
use std::alloc::Global;
use std::collections::BTreeSet;

// Whether the one policy leads to the other.
fn leads<'a>(
    alloc: Global,
    callees: &Callees<'a>,
    from: &'a [u8],
    to: &'a [u8],
    calls: &[Call<'a>],
) -> Result<bool, Memory>
    requires { (q : List ℕ) → callees_at callees.now q ≡ callees_of q calls.now }
    ensures { IfOk result (λ b. b ≡ leads (links_of calls.now) from.now to.now) }
{
    let found = closure(alloc, callees, &[from])?;
    Ok(has_name(&found, to, 0, 0))
}

// The calls that lead back to their caller, by a search for each.
fn turning_by_search<'a>(alloc: Global, calls: &[Call<'a>]) -> Result<PairSet<'a>, Memory>
    ensures { IfOk result (λ pairs. (p q : List ℕ) → has_pair pairs p q ≡ turns_back (links_of calls.now) p q) }
{
    let callees = callees_by_name(alloc, calls)?;
    let mut pairs = BTreeSet::new(alloc);
    let mut rest = calls;
    while let [first, tail @ ..] = rest {
        if leads(alloc, &callees, first.callee, first.caller, calls)? {
            add_pair(&mut pairs, first.caller, first.callee)?;
        }
        rest = tail;
    }
    Ok(pairs)
}

/// The calls that lead back to their caller, found by one walk along the calls, and a few to show that it is right. The one
/// error is want of memory.
pub fn turning_back<'a>(alloc: Global, calls: &[Call<'a>]) -> Result<PairSet<'a>, Memory>
    ensures { IfOk result (λ pairs. (p q : List ℕ) → has_pair pairs p q ≡ turns_back (links_of calls.now) p q) }
{
    let groups = groups_of(alloc, calls)?;
    match turning_by_ranks(alloc, calls, &groups)? {
        Some(pairs) => Ok(pairs),
        None => turning_by_search(alloc, calls),
    }
}
