// What steps, guards, tests and lists use, sort by sort.
ghost use Rattle.std.specs.Prelude.{◌≡◌, List, OnOk};
ghost use Rattle.std.specs.List.{flat_map};
ghost use Rattle.junos_layout.specs.Uses.{texts_in, sets_in, changed_sets};
ghost use Rattle.junos_policies.specs.Noting.{noted_all};
ghost use Rattle.junos_policies.specs.Parts.{step_guards, guard_lists, wanted_tests, test_lists, unwanted_lists, in_test, in_literal};
ghost use Rattle.junos_policies.specs.Same.{same_guard};

use crate::changes::note_change;
use crate::guards::{guard_lists, needs_guard, test_lists, unwanted_lists};
use crate::sets::{Uses, note_all, note_each, note_one};
use indexmap::IndexSet;
use junos_plans::{
    PlannedCondition, PlannedEntry, PlannedList, PlannedLiteral, PlannedStep, PlannedTest,
};
use route_types::{Duplicate, Memory, Rect, Row};
use std::alloc::Global;
use std::hash::Hash;

// ---- guards, tests and lists

#[tactic(auto, unfolding(crate::specs::Noting::noted_all))]
fn note_guard(
    alloc: Global,
    set: &mut IndexSet<Row<PlannedLiteral>>,
    step: &PlannedStep,
) -> Result<(), Memory>
    ensures { OnOk result (set.new.keys ≡ noted_all same_guard set.old.keys (step_guards step.now)) }
{
    if needs_guard(step.guard.literals.as_slice()) {
        return note_one(alloc, set, &step.guard.literals);
    }
    Ok(())
}

/// Notes the guards that subroutines say. Its one error is want of memory.
#[tactic(auto, unfolding(crate::specs::Noting::noted_all), using(crate::proofs::Noted::noted_append))]
pub(crate) fn note_guards(
    alloc: Global,
    set: &mut IndexSet<Row<PlannedLiteral>>,
    steps: &[PlannedStep],
) -> Result<(), Memory>
    ensures { OnOk result (set.new.keys ≡ noted_all same_guard set.old.keys (flat_map step_guards steps.now)) }
{
    let mut rest = steps;
    while let [step, tail @ ..] = rest {
        note_guard(alloc, set, step)?;
        rest = tail;
    }
    Ok(())
}

struct TestsOfLiterals;

impl Uses<PlannedLiteral, PlannedTest> for TestsOfLiterals {
    ghost uses = { wanted_tests };

    #[tactic(auto, unfolding(crate::specs::Noting::noted_all))]
    fn note(
        alloc: Global,
        set: &mut IndexSet<PlannedTest>,
        literal: &PlannedLiteral,
    ) -> Result<(), Memory> {
        if literal.wanted {
            return note_one(alloc, set, &literal.test);
        }
        Ok(())
    }
}

/// The tests of literals that are wanted.
pub(crate) struct TestsOfGuards;

impl Uses<Row<PlannedLiteral>, PlannedTest> for TestsOfGuards {
    ghost uses = { λ g. flat_map wanted_tests g };

    fn note(
        alloc: Global,
        set: &mut IndexSet<PlannedTest>,
        guard: &Row<PlannedLiteral>,
    ) -> Result<(), Memory> {
        note_each::<PlannedLiteral, PlannedTest, TestsOfLiterals>(alloc, set, guard.as_slice())
    }
}

/// The lists that steps call themselves.
pub(crate) struct ListsOfSteps;

impl Uses<PlannedStep, PlannedList> for ListsOfSteps {
    ghost uses = { λ s. guard_lists s.guard.literals };

    fn note(
        alloc: Global,
        set: &mut IndexSet<PlannedList>,
        step: &PlannedStep,
    ) -> Result<(), Memory> {
        note_all(alloc, set, guard_lists(step.guard.literals.as_slice()))
    }
}

struct ListsOfLiterals;

impl Uses<PlannedLiteral, PlannedList> for ListsOfLiterals {
    ghost uses = { unwanted_lists };

    fn note(
        alloc: Global,
        set: &mut IndexSet<PlannedList>,
        literal: &PlannedLiteral,
    ) -> Result<(), Memory> {
        note_all(alloc, set, unwanted_lists(literal))
    }
}

/// The lists of literals that aren't wanted.
pub(crate) struct ListsOfGuards;

impl Uses<Row<PlannedLiteral>, PlannedList> for ListsOfGuards {
    ghost uses = { λ g. flat_map unwanted_lists g };

    fn note(
        alloc: Global,
        set: &mut IndexSet<PlannedList>,
        guard: &Row<PlannedLiteral>,
    ) -> Result<(), Memory> {
        note_each::<PlannedLiteral, PlannedList, ListsOfLiterals>(alloc, set, guard.as_slice())
    }
}

/// The lists of tests.
pub(crate) struct ListsOfTests;

impl Uses<PlannedTest, PlannedList> for ListsOfTests {
    ghost uses = { test_lists };

    fn note(
        alloc: Global,
        set: &mut IndexSet<PlannedList>,
        test: &PlannedTest,
    ) -> Result<(), Memory> {
        note_all(alloc, set, test_lists(test))
    }
}

// ---- what conditions name

/// The texts of AS paths.
pub(crate) struct Texts;

impl Uses<PlannedCondition, Row<u8>> for Texts {
    ghost uses = { texts_in };

    #[tactic(auto, unfolding(crate::specs::Noting::noted_all))]
    fn note(
        alloc: Global,
        set: &mut IndexSet<Row<u8>>,
        condition: &PlannedCondition,
    ) -> Result<(), Memory> {
        match condition {
            PlannedCondition::Path(texts) => note_all(alloc, set, texts.as_slice()),
            PlannedCondition::Anything => Ok(()),
            PlannedCondition::Destination(_) => Ok(()),
            PlannedCondition::NextHop(_) => Ok(()),
            PlannedCondition::Communities(_) => Ok(()),
            PlannedCondition::Med(_) => Ok(()),
            PlannedCondition::LocalPreference(_) => Ok(()),
            PlannedCondition::Origin(_) => Ok(()),
        }
    }
}

/// The members of communities.
pub(crate) struct Members;

impl Uses<PlannedCondition, Row<Rect>> for Members {
    ghost uses = { sets_in };

    #[tactic(auto, unfolding(crate::specs::Noting::noted_all))]
    fn note(
        alloc: Global,
        set: &mut IndexSet<Row<Rect>>,
        condition: &PlannedCondition,
    ) -> Result<(), Memory> {
        match condition {
            PlannedCondition::Communities(sets) => note_all(alloc, set, sets.as_slice()),
            PlannedCondition::Anything => Ok(()),
            PlannedCondition::Destination(_) => Ok(()),
            PlannedCondition::NextHop(_) => Ok(()),
            PlannedCondition::Path(_) => Ok(()),
            PlannedCondition::Med(_) => Ok(()),
            PlannedCondition::LocalPreference(_) => Ok(()),
            PlannedCondition::Origin(_) => Ok(()),
        }
    }
}

/// What the conditions of a step name.
pub(crate) struct InStep<N> {
    _named: N,
}

impl<T: Eq + Hash + Duplicate, N: Uses<PlannedCondition, T>> Uses<PlannedStep, T> for InStep<N> {
    ghost uses = { λ s. flat_map N.uses s.guard.conditions };

    fn note(alloc: Global, set: &mut IndexSet<T>, step: &PlannedStep) -> Result<(), Memory> {
        note_each::<PlannedCondition, T, N>(alloc, set, step.guard.conditions.as_slice())
    }
}

struct InEntry<N> {
    _named: N,
}

impl<T: Eq + Hash + Duplicate, N: Uses<PlannedCondition, T>> Uses<PlannedEntry, T> for InEntry<N> {
    ghost uses = { λ e. N.uses e.condition };

    fn note(alloc: Global, set: &mut IndexSet<T>, entry: &PlannedEntry) -> Result<(), Memory> {
        N::note(alloc, set, &entry.condition)
    }
}

/// What the terms of a list name.
pub(crate) struct InList<N> {
    _named: N,
}

impl<T: Eq + Hash + Duplicate, N: Uses<PlannedCondition, T>> Uses<PlannedList, T> for InList<N> {
    ghost uses = { λ l. flat_map (λ e. N.uses e.condition) l.entries };

    fn note(alloc: Global, set: &mut IndexSet<T>, list: &PlannedList) -> Result<(), Memory> {
        note_each::<PlannedEntry, T, InEntry<N>>(alloc, set, list.entries.as_slice())
    }
}

/// What a test names itself.
pub(crate) struct InTest<N> {
    _named: N,
}

impl<T: Eq + Hash + Duplicate, N: Uses<PlannedCondition, T>> Uses<PlannedTest, T> for InTest<N> {
    ghost uses = { in_test N.uses };

    #[tactic(auto, unfolding(crate::specs::Noting::noted_all))]
    fn note(alloc: Global, set: &mut IndexSet<T>, test: &PlannedTest) -> Result<(), Memory> {
        match test {
            PlannedTest::Asked(condition) => N::note(alloc, set, condition),
            PlannedTest::Listed(_) => Ok(()),
        }
    }
}

struct InLiteral<N> {
    _named: N,
}

impl<T: Eq + Hash + Duplicate, N: Uses<PlannedCondition, T>> Uses<PlannedLiteral, T>
    for InLiteral<N> {
    ghost uses = { in_literal N.uses };

    #[tactic(auto, unfolding(crate::specs::Noting::noted_all))]
    fn note(alloc: Global, set: &mut IndexSet<T>, literal: &PlannedLiteral) -> Result<(), Memory> {
        if literal.wanted {
            return Ok(());
        }
        InTest::<N>::note(alloc, set, &literal.test)
    }
}

/// What the literals of a guard that aren't wanted name.
pub(crate) struct InGuard<N> {
    _named: N,
}

impl<T: Eq + Hash + Duplicate, N: Uses<PlannedCondition, T>> Uses<Row<PlannedLiteral>, T>
    for InGuard<N> {
    ghost uses = { λ g. flat_map (in_literal N.uses) g };

    fn note(
        alloc: Global,
        set: &mut IndexSet<T>,
        guard: &Row<PlannedLiteral>,
    ) -> Result<(), Memory> {
        note_each::<PlannedLiteral, T, InLiteral<N>>(alloc, set, guard.as_slice())
    }
}

/// The communities that the changes of a step name.
pub(crate) struct InChanges;

impl Uses<PlannedStep, Row<Rect>> for InChanges {
    ghost uses = { λ s. changed_sets s.changes.communities };

    fn note(
        alloc: Global,
        set: &mut IndexSet<Row<Rect>>,
        step: &PlannedStep,
    ) -> Result<(), Memory> {
        note_change(alloc, set, &step.changes.communities)
    }
}
