// The sets that the tests of steps ask for, in the order of the tests.
ghost use Rattle.std.specs.Prelude.{◌≡◌, ◌++◌, IfOk, OnOk};
ghost use Rattle.std.specs.List.{flat_map};
ghost use Rattle.rpl_layout.specs.Forms.{HasFew};
ghost use Rattle.rpl_layout.specs.Sharing.{term_tests, literal_tests, tests_of};
ghost use Rattle.rpl_policies.specs.Noting.{no_sets, noted_tests};

use crate::sets::PlanSets;
use route_types::Memory;
use rpl_plans::{PlannedLiteral, PlannedStep, PlannedTerm, PlannedTerms, PlannedTest};
use std::alloc::Global;

#[tactic(auto, unfolding(crate::specs::Noting::noted_tests))]
fn note_tests(alloc: Global, sets: &mut PlanSets, tests: &[PlannedTest]) -> Result<(), Memory>
    ensures { OnOk result (sets.new ≡ noted_tests sets.old tests.now) }
{
    let mut rest = tests;
    while let [test, tail @ ..] = rest {
        sets.note_test(alloc, test)?;
        rest = tail;
    }
    Ok(())
}

#[tactic(auto, unfolding(crate::specs::Noting::noted_tests), using(crate::proofs::Noted::noted_append))]
fn note_term(alloc: Global, sets: &mut PlanSets, term: &PlannedTerm) -> Result<(), Memory>
    ensures { OnOk result (sets.new ≡ noted_tests sets.old (term_tests term.now)) }
{
    note_tests(alloc, sets, term.denied.as_slice())?;
    sets.note_test(alloc, &term.permitted)
}

#[tactic(auto, unfolding(crate::specs::Noting::noted_tests))]
fn note_each_term(alloc: Global, sets: &mut PlanSets, terms: &[PlannedTerm]) -> Result<(), Memory>
    ensures { OnOk result (sets.new ≡ noted_tests sets.old (flat_map term_tests terms.now)) }
{
    let mut rest = terms;
    while let [term, tail @ ..] = rest {
        note_term(alloc, sets, term)?;
        rest = tail;
    }
    Ok(())
}

#[tactic(auto, using(crate::proofs::Noted::noted_append))]
fn note_terms(alloc: Global, sets: &mut PlanSets, terms: &PlannedTerms) -> Result<(), Memory>
    ensures { OnOk result (sets.new ≡ noted_tests sets.old (term_tests terms.now.first ++ flat_map term_tests terms.now.others)) }
{
    note_term(alloc, sets, &terms.first)?;
    note_each_term(alloc, sets, terms.others.as_slice())
}

#[tactic(auto, unfolding(crate::specs::Noting::noted_tests))]
fn note_guard(alloc: Global, sets: &mut PlanSets, guard: &[PlannedLiteral]) -> Result<(), Memory>
    ensures { OnOk result (sets.new ≡ noted_tests sets.old (flat_map literal_tests guard.now)) }
{
    let mut rest = guard;
    while let [literal, tail @ ..] = rest {
        note_terms(alloc, sets, &literal.terms)?;
        rest = tail;
    }
    Ok(())
}

#[tactic(auto, unfolding(crate::specs::Noting::noted_tests))]
fn note_steps(alloc: Global, sets: &mut PlanSets, steps: &[PlannedStep]) -> Result<(), Memory>
    ensures { OnOk result (sets.new ≡ noted_tests sets.old (tests_of steps.now)) }
{
    let mut rest = steps;
    while let [step, tail @ ..] = rest {
        note_guard(alloc, sets, step.guard.as_slice())?;
        rest = tail;
    }
    Ok(())
}

/// The sets of steps. Its one error is want of memory.
pub(crate) fn sets_of(alloc: Global, steps: &[PlannedStep]) -> Result<PlanSets, Memory>
    ensures { IfOk result (λ sets. sets ≡ noted_tests no_sets (tests_of steps.now)) }
{
    let mut sets = PlanSets::new(alloc);
    note_steps(alloc, &mut sets, steps)?;
    Ok(sets)
}
