// The lists of a test as subroutines.
ghost use Rattle.std.specs.Prelude.{◌≡◌, ◌||◌, true, IfOk};
ghost use Rattle.std.specs.List.{list_any, list_all, AllByRecursion};
ghost use Rattle.path_patterns.specs.Items.{IsPath};
ghost use Rattle.core_nodes.specs.Atoms.{path_answers};
ghost use Rattle.policy_core.specs.Ranges.{list_in_range};
ghost use Rattle.policy_core.specs.Sayable.{is_plain_all_of, lists_are};
ghost use Rattle.route_types.specs.Route.{RouteParts};
ghost use Rattle.junos_plans.specs.Conditions.{condition_holds, entries_accept};
ghost use Rattle.junos_plans.specs.Entries.{prefix_lists, comm_lists};
ghost use Rattle.junos_plans.specs.Fits.{FitsList};

use crate::condition::{PlannedList, RouteAddress};
use crate::entries::{comm_entries, prefix_entries};
use crate::paths::path_entries;
use community_sets::CommList;
use core_nodes::PathList;
use prefix_sets::PrefixList;
use route_types::{Memory, Row};
use std::alloc::Global;

// Prefix lists.
#[tactic(auto, using(crate::proofs::FitLaws::all_with), unfolding(crate::specs::Entries::prefix_lists))]
pub(crate) fn prefix_lists(
    alloc: Global,
    asked: RouteAddress,
    lists: &[PrefixList],
) -> Result<Row<PlannedList>, Memory>
    requires { list_all list_in_range lists.now ≡ true }
    ensures same { IfOk result (λ found. found ≡ prefix_lists asked lists.now) }
    ensures fits { IfOk result (λ found. AllByRecursion FitsList found) }
{
    let mut found = Row::new(alloc);
    let mut rest = lists;
    while let [first, tail @ ..] = rest {
        let entries = prefix_entries(alloc, asked, first.entries.as_slice())?;
        found.push(PlannedList { entries })?;
        rest = tail;
    }
    Ok(found)
}

// Community lists.
#[tactic(auto, using(crate::proofs::FitLaws::all_with), unfolding(crate::specs::Entries::comm_lists))]
pub(crate) fn comm_lists(alloc: Global, lists: &[CommList]) -> Result<Row<PlannedList>, Memory>
    requires { lists_are is_plain_all_of lists.now ≡ true }
    ensures same { IfOk result (λ found. found ≡ comm_lists lists.now) }
    ensures fits { IfOk result (λ found. AllByRecursion FitsList found) }
{
    let mut found = Row::new(alloc);
    let mut rest = lists;
    while let [first, tail @ ..] = rest {
        let entries = comm_entries(alloc, first.entries.as_slice())?;
        found.push(PlannedList { entries })?;
        rest = tail;
    }
    Ok(found)
}

// Adds a path list.
fn push_path_list(
    alloc: Global,
    found: &mut Row<PlannedList>,
    list: &PathList,
) -> Result<(), Memory>
    ensures fits { IfOk result (λ _. AllByRecursion FitsList found.old → AllByRecursion FitsList found.new) }
    ensures holds { IfOk result (λ _. (r : RouteParts) → IsPath r.path → list_any (λ l. entries_accept (condition_holds r) l.entries) found.new ≡ (list_any (λ l. entries_accept (condition_holds r) l.entries) found.old || path_answers list.now.entries r.path)) }
{
    let entries = path_entries(alloc, list.entries.as_slice())?;
    found.push(PlannedList { entries })?;
    Ok(())
}

// Path lists.
pub(crate) fn path_lists(alloc: Global, lists: &[PathList]) -> Result<Row<PlannedList>, Memory>
    ensures fits { IfOk result (λ found. AllByRecursion FitsList found) }
    ensures holds { IfOk result (λ found. (r : RouteParts) → IsPath r.path → list_any (λ l. entries_accept (condition_holds r) l.entries) found ≡ list_any (λ l. path_answers l.entries r.path) lists.now) }
{
    let mut found = Row::new(alloc);
    let mut rest = lists;
    while let [first, tail @ ..] = rest {
        push_path_list(alloc, &mut found, first)?;
        rest = tail;
    }
    Ok(found)
}
