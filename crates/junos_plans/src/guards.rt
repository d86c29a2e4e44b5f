// Guards: the literals that a `from` says directly, and the others.
ghost use Rattle.std.specs.Prelude.{◌≡◌, ◌&&◌, Bool, true, IfOk};
ghost use Rattle.std.specs.Bool.{beq};
ghost use Rattle.std.specs.List.{list_all, list_any};
ghost use Rattle.policy_core.specs.Guards.{guard_holds};
ghost use Rattle.policy_core.specs.Sayable.{junos_atom};
ghost use Rattle.route_types.specs.Route.{RouteParts, InRange};
ghost use Rattle.junos_plans.specs.Conditions.{condition_holds, test_holds};
ghost use Rattle.junos_plans.specs.Fits.{FitsTest, FitsGuard, kind_of, same_kind};
ghost use Rattle.junos_plans.specs.Plans.{guard_says};
ghost use Rattle.junos_plans.specs.declared.condition.PlannedCondition.{PlannedCondition};

use crate::atoms::planned_test;
use crate::condition::{PlannedCondition, PlannedTest};
use crate::step::{PlannedGuard, PlannedLiteral};
use policy_core::Literal;
use route_types::{Memory, Row};
use std::alloc::Global;

// The kind of a condition.
fn kind_of(condition: &PlannedCondition) -> u8
    ensures { result ≡ kind_of condition.now }
{
    match condition {
        PlannedCondition::Anything => 0,
        PlannedCondition::Destination(_) => 1,
        PlannedCondition::NextHop(_) => 2,
        PlannedCondition::Path(_) => 3,
        PlannedCondition::Communities(_) => 4,
        PlannedCondition::Med(_) => 5,
        PlannedCondition::LocalPreference(_) => 6,
        PlannedCondition::Origin(_) => 7,
    }
}

// Whether one of the conditions, of which there is at most one of a kind, is of the kind of this one.
fn has_kind(conditions: &[PlannedCondition], condition: &PlannedCondition) -> bool
    ensures { result ≡ list_any (same_kind condition.now) conditions.now }
{
    conditions
        .iter()
        .any(|other| kind_of(condition) == kind_of(other))
}

// Adds a condition, where there is none of its kind.
#[tactic(auto, using(crate::proofs::FitLaws::all_with, crate::proofs::GuardLaws::different_with))]
fn add_condition(guard: &mut PlannedGuard, condition: PlannedCondition) -> Result<(), Memory>
    ensures says { IfOk result (λ _. (holds : PlannedCondition → Bool) → guard_says holds guard.new ≡ (guard_says holds guard.old && holds condition)) }
    ensures fits { IfOk result (λ _. FitsTest (PlannedTest.Asked condition) → FitsGuard guard.old → FitsGuard guard.new) }
{
    if has_kind(guard.conditions.as_slice(), &condition) {
        return add_literal(guard, PlannedTest::Asked(condition), true);
    }
    guard.conditions.push(condition)?;
    Ok(())
}

// Adds a literal that subroutines say.
#[tactic(auto, using(crate::proofs::FitLaws::all_with))]
fn add_literal(guard: &mut PlannedGuard, test: PlannedTest, wanted: bool) -> Result<(), Memory>
    ensures says { IfOk result (λ _. (holds : PlannedCondition → Bool) → guard_says holds guard.new ≡ (guard_says holds guard.old && beq (test_holds holds test) wanted)) }
    ensures fits { IfOk result (λ _. FitsTest test → FitsGuard guard.old → FitsGuard guard.new) }
{
    guard.literals.push(PlannedLiteral { test, wanted })?;
    Ok(())
}

// Adds what a literal asks: to the `from` where it is wanted, is one condition, and is the first of its kind.
fn add(guard: &mut PlannedGuard, test: PlannedTest, wanted: bool) -> Result<(), Memory>
    ensures says { IfOk result (λ _. (holds : PlannedCondition → Bool) → guard_says holds guard.new ≡ (guard_says holds guard.old && beq (test_holds holds test) wanted)) }
    ensures fits { IfOk result (λ _. FitsTest test → FitsGuard guard.old → FitsGuard guard.new) }
{
    if !wanted {
        add_literal(guard, test, wanted)?;
        return Ok(());
    }
    match test {
        PlannedTest::Asked(condition) => add_condition(guard, condition),
        PlannedTest::Listed(lists) => add_literal(guard, PlannedTest::Listed(lists), true),
    }
}

/// What a `from` asks in place of a guard whose tests a text of Junos can say. The one error is want of memory.
pub(crate) fn planned_guard(alloc: Global, guard: &[Literal]) -> Result<PlannedGuard, Memory>
    requires { list_all (λ l. junos_atom l.atom) guard.now ≡ true }
    ensures says { IfOk result (λ planned. (r : RouteParts) → InRange r → guard_says (condition_holds r) planned ≡ guard_holds guard.now r) }
    ensures fits { IfOk result (λ planned. FitsGuard planned) }
{
    let mut planned = PlannedGuard {
        conditions: Row::new(alloc),
        literals: Row::new(alloc),
    };
    let mut rest = guard;
    while let [first, tail @ ..] = rest {
        let test = planned_test(alloc, &first.atom)?;
        add(&mut planned, test, first.wanted)?;
        rest = tail;
    }
    Ok(planned)
}
