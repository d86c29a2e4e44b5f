// The terms of a list: one for each permit set.
ghost use Rattle.std.specs.Prelude.{◌≡◌, ◌++◌, ◌∷◌, [], List, IfOk};
ghost use Rattle.rpl_plans.specs.Choices.{terms_from, or_never, grouped};
ghost use Rattle.rpl_plans.specs.declared.choice.Choice.{Choice};

use crate::choice::{Choice, PlannedTerm, PlannedTerms};
use crate::grouping::grouped;
use crate::test::PlannedTest;
use route_types::{Duplicate, Memory, Row};
use std::alloc::Global;

// Adds the term of an entry, where it permits; else notes its test.
#[tactic(auto, unfolding(crate::specs::Choices::terms_from))]
fn push_choice(
    alloc: Global,
    terms: &mut Row<PlannedTerm>,
    denied: &mut Row<PlannedTest>,
    choice: &Choice,
) -> Result<(), Memory>
    ensures { IfOk result (λ _. (cs : List Choice) → terms.new ++ terms_from denied.new cs ≡ terms.old ++ terms_from denied.old (choice.now ∷ cs)) }
{
    let test = choice.test.duplicate(alloc)?;
    if choice.permit {
        let before = denied.duplicate(alloc)?;
        terms.push(PlannedTerm {
            denied: before,
            permitted: test,
        })?;
    } else {
        denied.push(test)?;
    }
    Ok(())
}

// Adds the terms of a list. Of one entry there is nothing to join.
#[tactic(auto, using(crate::proofs::GroupingLaws::grouped_alone))]
pub(crate) fn push_terms(
    alloc: Global,
    terms: &mut Row<PlannedTerm>,
    choices: &[Choice],
) -> Result<(), Memory>
    ensures { IfOk result (λ _. terms.new ≡ terms.old ++ terms_from [] (grouped choices.now)) }
{
    if choices.len() == 1 {
        return push_each(alloc, terms, choices);
    }
    let choices = grouped(alloc, choices)?;
    push_each(alloc, terms, choices.as_slice())?;
    Ok(())
}

// Adds the terms of a list whose neighbours are of two actions.
#[tactic(auto, unfolding(crate::specs::Choices::terms_from))]
fn push_each(alloc: Global, terms: &mut Row<PlannedTerm>, choices: &[Choice]) -> Result<(), Memory>
    ensures { IfOk result (λ _. terms.new ≡ terms.old ++ terms_from [] choices.now) }
{
    let mut denied = Row::new(alloc);
    let mut rest = choices;
    while let [first, tail @ ..] = rest {
        push_choice(alloc, terms, &mut denied, first)?;
        rest = tail;
    }
    Ok(())
}

// The terms, or a test that never holds where there is none.
pub(crate) fn or_never(alloc: Global, never: PlannedTest, terms: Row<PlannedTerm>) -> PlannedTerms
    ensures { result ≡ or_never never terms }
{
    let mut items = terms.into_vec();
    if items.is_empty() {
        return PlannedTerms {
            first: PlannedTerm {
                denied: Row::new(alloc),
                permitted: never,
            },
            others: Row::from_vec(items),
        };
    }
    let first = items.remove(0);
    PlannedTerms {
        first,
        others: Row::from_vec(items),
    }
}
