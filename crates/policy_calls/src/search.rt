//! What is reached along calls.
ghost use Rattle.std.specs.Prelude.{◌≡◌, ℕ, Bool, ◌||◌, ◌&&◌, List, [], ◌∷◌, ◌<◌, IfOk, OnOk, bytes_eq, length, map};
ghost use Rattle.std.specs.List.{list_any};
ghost use Rattle.policy_text.specs.NameSets.{has_name};
ghost use Rattle.policy_calls.specs.Calls.{is_reached, is_called, leads_to_some};
ghost use Rattle.policy_calls.specs.Callees.{nows, links_of, callees_at, swapped};
ghost use Rattle.policy_calls.specs.Search.{AreSame, IsNoting, IsClosure};

use crate::call::Call;
use crate::callees::{Callees, callees_by_name};
use policy_text::{NameSet, add_name, has_name};
use route_types::{Memory, Row};
use std::alloc::Global;
use std::collections::BTreeSet;

// Notes a name, where it is new, at the end of the row.
fn note<'a>(order: &mut Vec<&'a [u8]>, seen: &mut NameSet<'a>, name: &'a [u8]) -> Result<(), Memory>
    requires { AreSame seen.old order.old.items }
    ensures { OnOk result (IsNoting order.old.items (name.now ∷ []) [] order.new.items seen.new) }
{
    if has_name(seen, name, 0, 0) {
        return Ok(());
    }
    add_name(seen, name, 0, 0)?;
    order.push(name)?;
    Ok(())
}

// Notes all names.
pub(crate) fn note_all<'a>(
    order: &mut Vec<&'a [u8]>,
    seen: &mut NameSet<'a>,
    names: &[&'a [u8]],
) -> Result<(), Memory>
    requires { AreSame seen.old order.old.items }
    ensures { OnOk result (IsNoting order.old.items (nows names.now) [] order.new.items seen.new) }
{
    let mut rest = names;
    while let [first, tail @ ..] = rest {
        note(order, seen, first)?;
        rest = tail;
    }
    Ok(())
}

// Notes the policies that one calls.
pub(crate) fn note_callees<'a>(
    order: &mut Vec<&'a [u8]>,
    seen: &mut NameSet<'a>,
    callees: &Callees<'a>,
    name: &'a [u8],
) -> Result<(), Memory>
    requires { AreSame seen.old order.old.items }
    ensures { OnOk result (IsNoting order.old.items (callees_at callees.now name.now) [] order.new.items seen.new) }
{
    match callees.get(&name) {
        Some(called) => note_all(order, seen, called.as_slice()),
        None => Ok(()),
    }
}

// These names, and with each policy those that it calls.
pub(crate) fn closure<'a>(
    alloc: Global,
    callees: &Callees<'a>,
    names: &[&'a [u8]],
) -> Result<NameSet<'a>, Memory>
    ensures { IfOk result (λ seen. IsClosure callees.now (nows names.now) seen) }
{
    let mut order = Vec::new(alloc);
    let mut seen = BTreeSet::new(alloc);
    note_all(&mut order, &mut seen, names)?;
    let mut next = 0;
    while next < order.len() {
        let name = order[next];
        note_callees(&mut order, &mut seen, callees, name)?;
        next += 1;
    }
    Ok(seen)
}

/// The policies that these names lead to along the calls, these themselves among them. A name stands in the set with
/// sort 0 and number 0. Its one error is want of memory.
pub fn reached<'a>(
    alloc: Global,
    calls: &[Call<'a>],
    names: &[&'a [u8]],
) -> Result<NameSet<'a>, Memory>
    ensures { IfOk result (λ set. (q : List ℕ) → has_name set q 0 0 ≡ is_reached (links_of calls.now) (nows names.now) q) }
{
    let callees = callees_by_name(alloc, calls)?;
    let set = closure(alloc, &callees, names)?;
    Ok(set)
}

// The calls, each the other way round.
#[tactic(auto, unfolding(crate::specs::Callees::swapped))]
fn swapped<'a>(alloc: Global, calls: &[Call<'a>]) -> Result<Row<Call<'a>>, Memory>
    ensures { IfOk result (λ row. row ≡ swapped calls.now) }
{
    let mut row = Row::new(alloc);
    let mut rest = calls;
    while let [first, tail @ ..] = rest {
        row.push(Call {
            caller: first.callee,
            callee: first.caller,
        })?;
        rest = tail;
    }
    Ok(row)
}

/// The policies that lead to one of these along the calls, these themselves among them. A name stands in the set with
/// sort 0 and number 0. Its one error is want of memory.
pub fn leading_to<'a>(
    alloc: Global,
    calls: &[Call<'a>],
    ends: &[&'a [u8]],
) -> Result<NameSet<'a>, Memory>
    ensures { IfOk result (λ set. (q : List ℕ) → has_name set q 0 0 ≡ leads_to_some (links_of calls.now) (nows ends.now) q) }
{
    let back = swapped(alloc, calls)?;
    let set = reached(alloc, back.as_slice(), ends)?;
    Ok(set)
}

/// The policies that a reached one calls, `reached` being the set of these. A name stands in the set with sort 0 and
/// number 0. Its one error is want of memory.
pub fn called<'a>(
    alloc: Global,
    calls: &[Call<'a>],
    reached: &NameSet<'a>,
) -> Result<NameSet<'a>, Memory>
    ensures { IfOk result (λ set. (q : List ℕ) → has_name set q 0 0 ≡ list_any (λ l. bytes_eq q l.callee && has_name reached.now l.caller 0 0) (links_of calls.now)) }
{
    let mut set = BTreeSet::new(alloc);
    let mut rest = calls;
    while let [first, tail @ ..] = rest {
        if has_name(reached, first.caller, 0, 0) {
            add_name(&mut set, first.callee, 0, 0)?;
        }
        rest = tail;
    }
    Ok(set)
}
