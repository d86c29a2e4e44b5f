// The terms of subroutines and of the policy.
ghost use Rattle.std.specs.Prelude.{◌≡◌, ◌++◌, ◌∷◌, [], List, map, codes, decimal, length, IfOk, OnOk};
ghost use Rattle.junos_tree.specs.Terms.{Content as IsContent};
ghost use Rattle.junos_layout.specs.Actions.{actions_of};
ghost use Rattle.junos_layout.specs.Terms.{ending, ends_by, condition_lines, test_lines, list_terms, literal_term, subroutine_terms, from_of, behind_from, step_terms};
ghost use Rattle.junos_layout.specs.Options.{numbered};
ghost use Rattle.junos_layout.specs.Writing.{OfList, Unless, AllOf};
ghost use Rattle.junos_policies.specs.Names.{writing};
ghost use Rattle.junos_policies.specs.Terms.{with_terms, reached};

use crate::actions::push_actions;
use crate::conditions::{call_alone, condition_lines, from_of, test_lines};
use crate::names::Names;
use junos_plans::{PlannedEntry, PlannedList, PlannedLiteral, PlannedStep, PlannedTest};
use junos_text::PolicyTerm;
use junos_tree::{Action, Condition, Flow};
use route_types::{Memory, Row, push_number};
use std::alloc::Global;

// ---- one term

// `t1`, `t2`, ..
fn term_name(alloc: Global, number: u64) -> Result<Row<u8>, Memory>
    ensures { IfOk result (λ text. text ≡ codes "t" ++ decimal number) }
{
    let mut text = Vec::new(alloc);
    text.extend_from_slice(b"t")?;
    push_number(&mut text, number)?;
    Ok(Row::from_vec(text))
}

// Puts a term behind those that are there, under their number and one more.
#[tactic(auto, unfolding(crate::specs::Terms::with_terms))]
fn push_term(
    alloc: Global,
    out: &mut Row<PolicyTerm>,
    conditions: Row<Condition>,
    actions: Row<Action>,
) -> Result<(), Memory>
    ensures { OnOk result (out.new ≡ with_terms out.old (record { conditions = conditions; actions = actions } ∷ [])) }
{
    let before = out.as_slice().len();
    let name = term_name(alloc, before as u64 + 1)?;
    out.push(PolicyTerm {
        name,
        conditions,
        actions,
    })
}

fn ending(accept: bool) -> Action
    ensures { result ≡ ending accept }
{
    if accept {
        return Action::Flow(Flow::Accept);
    }
    Action::Flow(Flow::Reject)
}

// A term that only accepts or rejects.
fn push_ends_by(
    alloc: Global,
    out: &mut Row<PolicyTerm>,
    from: Row<Condition>,
    accept: bool,
) -> Result<(), Memory>
    ensures { OnOk result (out.new ≡ with_terms out.old (ends_by from accept ∷ [])) }
{
    let mut actions = Row::new(alloc);
    actions.push(ending(accept))?;
    push_term(alloc, out, from, actions)
}

// A last term, which has no `from`.
fn push_last(alloc: Global, out: &mut Row<PolicyTerm>, accept: bool) -> Result<(), Memory>
    ensures { OnOk result (out.new ≡ with_terms out.old (ends_by [] accept ∷ [])) }
{
    push_ends_by(alloc, out, Row::new(alloc), accept)
}

// ---- subroutines

#[tactic(auto, unfolding(crate::specs::Terms::with_terms))]
fn push_entries(
    alloc: Global,
    out: &mut Row<PolicyTerm>,
    names: &Names,
    entries: &[PlannedEntry],
) -> Result<(), Memory>
    ensures { OnOk result (out.new ≡ with_terms out.old (map (λ e. ends_by (condition_lines (writing names.now) e.condition) e.permit) entries.now)) }
{
    let mut rest = entries;
    while let [entry, tail @ ..] = rest {
        let from = condition_lines(alloc, names, &entry.condition)?;
        push_ends_by(alloc, out, from, entry.permit)?;
        rest = tail;
    }
    Ok(())
}

/// The terms of a list. Its one error is want of memory.
#[tactic(auto, using(crate::proofs::Numbered::with_append))]
pub(crate) fn list_terms(
    alloc: Global,
    names: &Names,
    list: &PlannedList,
) -> Result<Row<PolicyTerm>, Memory>
    ensures { IfOk result (λ terms. terms ≡ with_terms [] (subroutine_terms (writing names.now) (OfList list.now))) }
{
    let mut terms = Row::new(alloc);
    push_entries(alloc, &mut terms, names, list.entries.as_slice())?;
    push_last(alloc, &mut terms, false)?;
    Ok(terms)
}

/// The terms that reject where a test holds, and else accept. Its one error is want of memory.
#[tactic(auto, unfolding(crate::specs::Terms::with_terms))]
pub(crate) fn refusal_terms(
    alloc: Global,
    names: &Names,
    test: &PlannedTest,
) -> Result<Row<PolicyTerm>, Memory>
    ensures { IfOk result (λ terms. terms ≡ with_terms [] (subroutine_terms (writing names.now) (Unless test.now))) }
{
    let mut terms = Row::new(alloc);
    let from = test_lines(alloc, names, test)?;
    push_ends_by(alloc, &mut terms, from, false)?;
    push_last(alloc, &mut terms, true)?;
    Ok(terms)
}

// A literal that doesn't say what is wanted rejects.
fn push_literal(
    alloc: Global,
    out: &mut Row<PolicyTerm>,
    names: &Names,
    literal: &PlannedLiteral,
) -> Result<(), Memory>
    ensures { OnOk result (out.new ≡ with_terms out.old (literal_term (writing names.now) literal.now ∷ [])) }
{
    if literal.wanted {
        let word = names.refusal(alloc, &literal.test)?;
        let from = call_alone(alloc, word)?;
        return push_ends_by(alloc, out, from, false);
    }
    let from = test_lines(alloc, names, &literal.test)?;
    push_ends_by(alloc, out, from, false)
}

#[tactic(auto, unfolding(crate::specs::Terms::with_terms))]
fn push_literals(
    alloc: Global,
    out: &mut Row<PolicyTerm>,
    names: &Names,
    literals: &[PlannedLiteral],
) -> Result<(), Memory>
    ensures { OnOk result (out.new ≡ with_terms out.old (map (literal_term (writing names.now)) literals.now)) }
{
    let mut rest = literals;
    while let [literal, tail @ ..] = rest {
        push_literal(alloc, out, names, literal)?;
        rest = tail;
    }
    Ok(())
}

/// The terms of a guard's literals. Its one error is want of memory.
#[tactic(auto, using(crate::proofs::Numbered::with_append))]
pub(crate) fn guard_terms(
    alloc: Global,
    names: &Names,
    literals: &Row<PlannedLiteral>,
) -> Result<Row<PolicyTerm>, Memory>
    ensures { IfOk result (λ terms. terms ≡ with_terms [] (subroutine_terms (writing names.now) (AllOf literals.now))) }
{
    let mut terms = Row::new(alloc);
    push_literals(alloc, &mut terms, names, literals.as_slice())?;
    push_last(alloc, &mut terms, true)?;
    Ok(terms)
}

// ---- the policy

// The changes of a step, and how it ends.
fn step_actions(alloc: Global, names: &Names, step: &PlannedStep) -> Result<Row<Action>, Memory>
    ensures { IfOk result (λ actions. actions ≡ actions_of (writing names.now) step.now.changes ++ ending step.now.accept ∷ []) }
{
    let mut actions = Row::new(alloc);
    push_actions(alloc, &mut actions, names, &step.changes)?;
    actions.push(ending(step.accept))?;
    Ok(actions)
}

// A step, and whether what follows it is reached.
#[tactic(auto, unfolding(crate::specs::Terms::with_terms), using(crate::proofs::Numbered::behind_some, crate::proofs::Numbered::behind_none))]
fn push_step(
    alloc: Global,
    out: &mut Row<PolicyTerm>,
    names: &Names,
    step: &PlannedStep,
) -> Result<bool, Memory>
    ensures { IfOk result (λ more. (following : List IsContent) → with_terms out.new (reached more following) ≡ with_terms out.old (record { conditions = from_of (writing names.now) step.now.guard; actions = actions_of (writing names.now) step.now.changes ++ ending step.now.accept ∷ [] } ∷ behind_from (from_of (writing names.now) step.now.guard) following)) }
{
    let from = from_of(alloc, names, &step.guard)?;
    let more = !from.is_empty();
    let actions = step_actions(alloc, names, step)?;
    push_term(alloc, out, from, actions)?;
    Ok(more)
}

#[tactic(auto, unfolding(crate::specs::Terms::with_terms, junos_layout::specs::Terms::step_terms))]
fn push_steps(
    alloc: Global,
    out: &mut Row<PolicyTerm>,
    names: &Names,
    steps: &[PlannedStep],
) -> Result<(), Memory>
    ensures { OnOk result (out.new ≡ with_terms out.old (step_terms (writing names.now) steps.now)) }
{
    let mut rest = steps;
    while let [step, tail @ ..] = rest {
        if !push_step(alloc, out, names, step)? {
            return Ok(());
        }
        rest = tail;
    }
    push_last(alloc, out, false)
}

/// The terms of the steps. Its one error is want of memory.
#[tactic(auto, using(crate::proofs::Numbered::numbered_all))]
pub(crate) fn step_terms(
    alloc: Global,
    names: &Names,
    steps: &[PlannedStep],
) -> Result<Row<PolicyTerm>, Memory>
    ensures { IfOk result (λ terms. terms ≡ numbered 1 (step_terms (writing names.now) steps.now)) }
{
    let mut terms = Row::new(alloc);
    push_steps(alloc, &mut terms, names, steps)?;
    Ok(terms)
}
