// The entries of path lists as what conditions ask: each by the text of its pattern as an IOS pattern.
ghost use Rattle.std.specs.Prelude.{◌≡◌, Bool, true, false, IfOk};
ghost use Rattle.std.specs.List.{AllByRecursion};
ghost use Rattle.path_patterns.specs.Items.{IsPath};
ghost use Rattle.path_patterns.specs.PathMatches.{path_matches};
ghost use Rattle.core_nodes.specs.Atoms.{path_answers};
ghost use Rattle.route_types.specs.Route.{RouteParts};
ghost use Rattle.rpl_plans.specs.Choices.{first_or};
ghost use Rattle.rpl_plans.specs.Fits.{FitsValue, FitsTest, FitsChoice};
ghost use Rattle.rpl_plans.specs.Holds.{planned_holds, SaysPath};

use crate::choice::Choice;
use crate::test::PlannedTest;
use aspath_text::{TokenPattern, print_ios};
use core_nodes::PathEntry;
use route_types::{Memory, Row};
use std::alloc::Global;

// The test of a pattern; none where no path matches it.
fn path_test(alloc: Global, pattern: &TokenPattern) -> Result<Option<PlannedTest>, Memory>
    ensures says { IfOk result (SaysPath pattern.now) }
    ensures fits { IfOk result (λ test. FitsValue FitsTest test) }
{
    match print_ios(alloc, pattern)? {
        None => Ok(None),
        Some(text) => {
            let mut texts = Row::new(alloc);
            texts.push(Row::from_vec(text))?;
            Ok(Some(PlannedTest::PathIn(texts)))
        }
    }
}

// Adds what an entry asks, if a path can match it.
fn push_path(alloc: Global, found: &mut Row<Choice>, entry: &PathEntry) -> Result<(), Memory>
    ensures fits { IfOk result (λ _. AllByRecursion FitsChoice found.old → AllByRecursion FitsChoice found.new) }
    ensures holds { IfOk result (λ _. (r : RouteParts) (later : Bool) → IsPath r.path → first_or (planned_holds r) found.new later ≡ first_or (planned_holds r) found.old (elim (path_matches entry.now.pattern r.path) [ true ↦ entry.now.permit | false ↦ later ])) }
{
    match path_test(alloc, &entry.pattern)? {
        None => Ok(()),
        Some(test) => {
            found.push(Choice {
                permit: entry.permit,
                test,
            })?;
            Ok(())
        }
    }
}

// What the entries of a path list ask.
#[tactic(auto, unfolding(core_nodes::specs::Atoms::path_answers))]
pub(crate) fn path_choices(alloc: Global, entries: &[PathEntry]) -> Result<Row<Choice>, Memory>
    ensures fits { IfOk result (λ found. AllByRecursion FitsChoice found) }
    ensures holds { IfOk result (λ found. (r : RouteParts) → IsPath r.path → first_or (planned_holds r) found false ≡ path_answers entries.now r.path) }
{
    let mut found = Row::new(alloc);
    let mut rest = entries;
    while let [first, tail @ ..] = rest {
        push_path(alloc, &mut found, first)?;
        rest = tail;
    }
    Ok(found)
}
