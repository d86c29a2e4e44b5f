// The policies that each policy calls.
ghost use Rattle.std.specs.Prelude.{◌≡◌, ◌∷◌, ◌++◌, [], ℕ, List, IfOk, bytes_eq, true, false};
ghost use Rattle.policy_calls.specs.Callees.{nows, callees_of, callees_at};

use crate::call::Call;
use route_types::Memory;
use std::alloc::Global;
use std::collections::BTreeMap;

/// Called policies under the names of their callers, in the order of the calls.
pub type Callees<'a> = BTreeMap<&'a [u8], Vec<&'a [u8]>>;

// The policies that stand under the name of a caller, which are then taken from under it.
fn taken_callees<'a>(alloc: Global, callees: &mut Callees<'a>, caller: &'a [u8]) -> Vec<&'a [u8]>
    ensures taken { nows result.items ≡ callees_at callees.old caller.now }
    ensures others { (q : List ℕ) → bytes_eq caller.now q ≡ false → callees_at callees.new q ≡ callees_at callees.old q }
{
    match callees.remove(&caller) {
        Some(taken) => taken,
        None => Vec::new(alloc),
    }
}

// Puts a called policy behind those of its caller.
fn add_call<'a>(
    alloc: Global,
    callees: &mut Callees<'a>,
    caller: &'a [u8],
    callee: &'a [u8],
) -> Result<(), Memory>
    ensures { IfOk result (λ _. (q : List ℕ) → callees_at callees.new q ≡ elim (bytes_eq q caller.now) [ true ↦ callees_at callees.old q ++ callee.now ∷ [] | false ↦ callees_at callees.old q ]) }
{
    let mut taken = taken_callees(alloc, callees, caller);
    taken.push(callee)?;
    callees.insert(caller, taken)?;
    Ok(())
}

/// The called policies under the names of their callers.
#[tactic(auto, unfolding(crate::specs::Callees::callees_of))]
pub fn callees_by_name<'a>(alloc: Global, calls: &[Call<'a>]) -> Result<Callees<'a>, Memory>
    ensures { IfOk result (λ callees. (q : List ℕ) → callees_at callees q ≡ callees_of q calls.now) }
{
    let mut callees: Callees<'a> = BTreeMap::new(alloc);
    let mut rest = calls;
    while let [first, tail @ ..] = rest {
        add_call(alloc, &mut callees, first.caller, first.callee)?;
        rest = tail;
    }
    Ok(callees)
}
