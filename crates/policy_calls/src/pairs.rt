//! Sets of pairs of names.
ghost use Rattle.std.specs.Prelude.{◌≡◌, ℕ, Bool, ◌||◌, ◌&&◌, List, [], ◌∷◌, OnOk, bytes_eq};
ghost use Rattle.std.specs.List.{list_any};
ghost use Rattle.policy_text.specs.NameSets.{has_name};
ghost use Rattle.policy_calls.specs.Callees.{links_of, has_pair};

use crate::call::Call;
use policy_text::{NameSet, has_name};
use route_types::Memory;
use std::collections::BTreeSet;

/// Pairs of names: a policy, and one that it calls.
pub type PairSet<'a> = BTreeSet<(&'a [u8], &'a [u8])>;

/// Whether the set has this pair. It takes no memory.
pub fn has_pair<'a>(pairs: &PairSet<'a>, caller: &'a [u8], callee: &'a [u8]) -> bool
    ensures { result ≡ has_pair pairs.now caller.now callee.now }
{
    pairs.contains(&(caller, callee))
}

pub(crate) fn add_pair<'a>(
    pairs: &mut PairSet<'a>,
    caller: &'a [u8],
    callee: &'a [u8],
) -> Result<(), Memory>
    ensures { OnOk result ((p q : List ℕ) → has_pair pairs.new p q ≡ ((bytes_eq p caller.now && bytes_eq q callee.now) || has_pair pairs.old p q)) }
{
    pairs.insert((caller, callee))?;
    Ok(())
}

/// Whether a call of a reached policy leads back to it, `reached` being the set of these.
pub fn has_cycle<'a>(calls: &[Call<'a>], reached: &NameSet<'a>, turning: &PairSet<'a>) -> bool
    ensures { result ≡ list_any (λ l. has_name reached.now l.caller 0 0 && has_pair turning.now l.caller l.callee) (links_of calls.now) }
{
    let mut rest = calls;
    while let [first, tail @ ..] = rest {
        if has_name(reached, first.caller, 0, 0) && has_pair(turning, first.caller, first.callee) {
            return true;
        }
        rest = tail;
    }
    false
}
