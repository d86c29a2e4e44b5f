// What a plan has to define.
ghost use Rattle.std.specs.Prelude.{◌≡◌, List, IfOk};
ghost use Rattle.junos_layout.specs.Uses.{texts_in, sets_in};
ghost use Rattle.junos_policies.specs.Parts.{guards_of, tests_of, lists_of, named_by, with_changes, parts_by, parts_of};
ghost use Rattle.junos_policies.specs.Same.{same_members};

use crate::noting::{
    InChanges, InGuard, InList, InStep, InTest, ListsOfGuards, ListsOfSteps, ListsOfTests, Members,
    TestsOfGuards, Texts, note_guards,
};
use crate::sets::{Uses, all, note_each};
use indexmap::IndexSet;
use junos_plans::{PlannedCondition, PlannedList, PlannedLiteral, PlannedStep, PlannedTest};
use route_types::{Duplicate, Memory, Rect, Row};
use std::alloc::Global;
use std::hash::Hash;
use std::marker::Model;

/// What a plan has to define, each once, those of each sort in the order of their first use.
#[derive(Drop)]
pub(crate) struct PlanParts {
    /// The texts of AS paths.
    pub paths: IndexSet<Row<u8>>,
    /// The members of communities.
    pub communities: IndexSet<Row<Rect>>,
    /// The lists that are called.
    pub lists: IndexSet<PlannedList>,
    /// The tests that a subroutine of its own refuses.
    pub tests: IndexSet<PlannedTest>,
    /// The literals of guards that a subroutine says.
    pub guards: IndexSet<Row<PlannedLiteral>>,
}

impl Model for PlanParts {
    ghost use Rattle.junos_policies.specs.Parts.{PartsList};

    ghost Value = { PartsList };

    ghost view = { λ p. record { paths = p.paths.keys; communities = p.communities.keys; lists = p.lists.keys; tests = p.tests.keys; guards = p.guards.keys } };
}

fn guards_of(alloc: Global, steps: &[PlannedStep]) -> Result<IndexSet<Row<PlannedLiteral>>, Memory>
    ensures { IfOk result (λ guards. guards.keys ≡ guards_of steps.now) }
{
    let mut guards = IndexSet::new(alloc);
    note_guards(alloc, &mut guards, steps)?;
    Ok(guards)
}

fn tests_of(alloc: Global, guards: &[Row<PlannedLiteral>]) -> Result<IndexSet<PlannedTest>, Memory>
    ensures { IfOk result (λ tests. tests.keys ≡ tests_of guards.now) }
{
    let mut tests = IndexSet::new(alloc);
    note_each::<Row<PlannedLiteral>, PlannedTest, TestsOfGuards>(alloc, &mut tests, guards)?;
    Ok(tests)
}

fn lists_of(
    alloc: Global,
    steps: &[PlannedStep],
    guards: &[Row<PlannedLiteral>],
    tests: &[PlannedTest],
) -> Result<IndexSet<PlannedList>, Memory>
    ensures { IfOk result (λ lists. lists.keys ≡ lists_of steps.now guards.now tests.now) }
{
    let mut lists = IndexSet::new(alloc);
    note_each::<PlannedStep, PlannedList, ListsOfSteps>(alloc, &mut lists, steps)?;
    note_each::<Row<PlannedLiteral>, PlannedList, ListsOfGuards>(alloc, &mut lists, guards)?;
    note_each::<PlannedTest, PlannedList, ListsOfTests>(alloc, &mut lists, tests)?;
    Ok(lists)
}

// What the conditions of steps, lists, tests and guards name.
fn named_by<T: Eq + Hash + Duplicate, N: Uses<PlannedCondition, T>>(
    alloc: Global,
    steps: &[PlannedStep],
    lists: &[PlannedList],
    tests: &[PlannedTest],
    guards: &[Row<PlannedLiteral>],
) -> Result<IndexSet<T>, Memory>
    ensures { IfOk result (λ found. found.keys ≡ named_by T.eq N.uses steps.now lists.now tests.now guards.now) }
{
    let mut found = IndexSet::new(alloc);
    note_each::<PlannedStep, T, InStep<N>>(alloc, &mut found, steps)?;
    note_each::<PlannedList, T, InList<N>>(alloc, &mut found, lists)?;
    note_each::<PlannedTest, T, InTest<N>>(alloc, &mut found, tests)?;
    note_each::<Row<PlannedLiteral>, T, InGuard<N>>(alloc, &mut found, guards)?;
    Ok(found)
}

fn communities_of(
    alloc: Global,
    steps: &[PlannedStep],
    lists: &[PlannedList],
    tests: &[PlannedTest],
    guards: &[Row<PlannedLiteral>],
) -> Result<IndexSet<Row<Rect>>, Memory>
    ensures { IfOk result (λ found. found.keys ≡ with_changes (named_by same_members sets_in steps.now lists.now tests.now guards.now) steps.now) }
{
    let mut found = named_by::<Row<Rect>, Members>(alloc, steps, lists, tests, guards)?;
    note_each::<PlannedStep, Row<Rect>, InChanges>(alloc, &mut found, steps)?;
    Ok(found)
}

fn parts_by(
    alloc: Global,
    steps: &[PlannedStep],
    tests: IndexSet<PlannedTest>,
    guards: IndexSet<Row<PlannedLiteral>>,
) -> Result<PlanParts, Memory>
    ensures { IfOk result (λ parts. parts ≡ parts_by steps.now tests.keys guards.keys) }
{
    let all_guards = all(&guards);
    let all_tests = all(&tests);
    let lists = lists_of(alloc, steps, all_guards, all_tests)?;
    let all_lists = all(&lists);
    let paths = named_by::<Row<u8>, Texts>(alloc, steps, all_lists, all_tests, all_guards)?;
    let communities = communities_of(alloc, steps, all_lists, all_tests, all_guards)?;
    Ok(PlanParts {
        paths,
        communities,
        lists,
        tests,
        guards,
    })
}

/// What the steps have to define. Its one error is want of memory.
pub(crate) fn parts_of(alloc: Global, steps: &[PlannedStep]) -> Result<PlanParts, Memory>
    ensures { IfOk result (λ parts. parts ≡ parts_of steps.now) }
{
    let guards = guards_of(alloc, steps)?;
    let tests = tests_of(alloc, all(&guards))?;
    let parts = parts_by(alloc, steps, tests, guards)?;
    Ok(parts)
}
