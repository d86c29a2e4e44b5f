// What a `from` says.
ghost use Rattle.std.specs.Prelude.{◌≡◌, ◌++◌, ◌∷◌, [], map, IfOk, OnOk};
ghost use Rattle.std.specs.List.{flat_map};
ghost use Rattle.junos_tree.specs.declared.item.Condition.TheVariants.{Policy as AsksPolicy, RouteFilter as AsksRange};
ghost use Rattle.junos_layout.specs.Terms.{condition_lines, call_of, test_lines, literal_lines, from_of};
ghost use Rattle.junos_policies.specs.Names.{writing};

use crate::guards::{guard_lists, needs_guard};
use crate::names::Names;
use junos_plans::{PlannedCondition, PlannedGuard, PlannedList, PlannedLiteral, PlannedTest};
use junos_tree::Condition;
use prefix_sets::PrefixRange;
use route_types::{Duplicate, Memory, Row};
use std::alloc::Global;

// ---- conditions

fn push_ranges(out: &mut Row<Condition>, ranges: &[PrefixRange]) -> Result<(), Memory>
    ensures { OnOk result (out.new ≡ out.old ++ map (λ x. AsksRange x) ranges.now) }
{
    let mut rest = ranges;
    while let [range, tail @ ..] = rest {
        out.push(Condition::RouteFilter(*range))?;
        rest = tail;
    }
    Ok(())
}

/// Puts a condition at the end: a line for each of several ranges, else one line or none. Its one error is want of memory.
#[tactic(auto, using(crate::proofs::Rows::nothing_more))]
pub(crate) fn push_condition(
    alloc: Global,
    out: &mut Row<Condition>,
    names: &Names,
    condition: &PlannedCondition,
) -> Result<(), Memory>
    ensures { OnOk result (out.new ≡ out.old ++ condition_lines (writing names.now) condition.now) }
{
    match condition {
        PlannedCondition::Anything => Ok(()),
        PlannedCondition::Destination(ranges) => push_ranges(out, ranges.as_slice()),
        PlannedCondition::NextHop(hops) => {
            let copied = hops.duplicate(alloc)?;
            out.push(Condition::NextHop(copied))
        }
        PlannedCondition::Path(texts) => {
            let words = names.paths(alloc, texts.as_slice())?;
            out.push(Condition::AsPath(words))
        }
        PlannedCondition::Communities(sets) => {
            let words = names.communities(alloc, sets.as_slice())?;
            out.push(Condition::Community(words))
        }
        PlannedCondition::Med(number) => out.push(Condition::Metric(*number)),
        PlannedCondition::LocalPreference(number) => out.push(Condition::LocalPreference(*number)),
        PlannedCondition::Origin(origin) => out.push(Condition::Origin(*origin)),
    }
}

/// The lines of one condition. Its one error is want of memory.
pub(crate) fn condition_lines(
    alloc: Global,
    names: &Names,
    condition: &PlannedCondition,
) -> Result<Row<Condition>, Memory>
    ensures { IfOk result (λ lines. lines ≡ condition_lines (writing names.now) condition.now) }
{
    let mut lines = Row::new(alloc);
    push_condition(alloc, &mut lines, names, condition)?;
    Ok(lines)
}

fn push_conditions(
    alloc: Global,
    out: &mut Row<Condition>,
    names: &Names,
    conditions: &[PlannedCondition],
) -> Result<(), Memory>
    ensures { OnOk result (out.new ≡ out.old ++ flat_map (condition_lines (writing names.now)) conditions.now) }
{
    let mut rest = conditions;
    while let [condition, tail @ ..] = rest {
        push_condition(alloc, out, names, condition)?;
        rest = tail;
    }
    Ok(())
}

// ---- calls

// The call of one policy.
fn push_call(alloc: Global, out: &mut Row<Condition>, word: Row<u8>) -> Result<(), Memory>
    ensures { OnOk result (out.new ≡ out.old ++ AsksPolicy (word ∷ []) ∷ []) }
{
    let mut words = Row::new(alloc);
    words.push(word)?;
    out.push(Condition::Policy(words))
}

/// A `from` that calls one policy. Its one error is want of memory.
pub(crate) fn call_alone(alloc: Global, word: Row<u8>) -> Result<Row<Condition>, Memory>
    ensures { IfOk result (λ from. from ≡ AsksPolicy (word ∷ []) ∷ []) }
{
    let mut from = Row::new(alloc);
    push_call(alloc, &mut from, word)?;
    Ok(from)
}

fn push_lists(
    alloc: Global,
    out: &mut Row<Condition>,
    names: &Names,
    lists: &[PlannedList],
) -> Result<(), Memory>
    ensures { OnOk result (out.new ≡ out.old ++ call_of (writing names.now) lists.now ∷ []) }
{
    let words = names.lists(alloc, lists)?;
    out.push(Condition::Policy(words))
}

/// What a test asks. Its one error is want of memory.
pub(crate) fn test_lines(
    alloc: Global,
    names: &Names,
    test: &PlannedTest,
) -> Result<Row<Condition>, Memory>
    ensures { IfOk result (λ lines. lines ≡ test_lines (writing names.now) test.now) }
{
    let mut lines = Row::new(alloc);
    match test {
        PlannedTest::Asked(condition) => push_condition(alloc, &mut lines, names, condition)?,
        PlannedTest::Listed(lists) => push_lists(alloc, &mut lines, names, lists.as_slice())?,
    }
    Ok(lines)
}

// ---- guards

#[tactic(auto, using(crate::proofs::Literals::said_by_guard, crate::proofs::Literals::said_by_none, crate::proofs::Literals::said_by_lists))]
fn push_literals(
    alloc: Global,
    out: &mut Row<Condition>,
    names: &Names,
    literals: &Row<PlannedLiteral>,
) -> Result<(), Memory>
    ensures { OnOk result (out.new ≡ out.old ++ literal_lines (writing names.now) literals.now) }
{
    if needs_guard(literals.as_slice()) {
        let word = names.guard(alloc, literals)?;
        return push_call(alloc, out, word);
    }
    if literals.is_empty() {
        return Ok(());
    }
    push_lists(alloc, out, names, guard_lists(literals.as_slice()))
}

/// The `from` of a guard. Its one error is want of memory.
#[tactic(auto, using(crate::proofs::Rows::put_two))]
pub(crate) fn from_of(
    alloc: Global,
    names: &Names,
    guard: &PlannedGuard,
) -> Result<Row<Condition>, Memory>
    ensures { IfOk result (λ from. from ≡ from_of (writing names.now) guard.now) }
{
    let mut from = Row::new(alloc);
    push_conditions(alloc, &mut from, names, guard.conditions.as_slice())?;
    push_literals(alloc, &mut from, names, &guard.literals)?;
    Ok(from)
}
