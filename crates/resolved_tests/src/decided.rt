// Community lists that answer alike on every set.
ghost use Rattle.std.specs.Prelude.{◌≡◌};
ghost use Rattle.std.specs.List.{list_any, list_all};
ghost use Rattle.resolved_tests.specs.Decided.{has_none, asks_nothing, permits_each, denies_each, DecidesLists};

use community_sets::{CommEntry, CommList, CommTest};
use route_types::{Community, Rect};

/// What lists answer on every set: yes where the first entry of one asks for nothing and permits, no where none of them
/// permits any. `None` where neither is plain. It takes no memory.
#[tactic(auto, using(crate::proofs::DecidedLaws::some_permits_each, crate::proofs::DecidedLaws::all_deny_each))]
pub(crate) fn decided_by_lists(lists: &[CommList]) -> Option<bool>
    ensures { DecidesLists result lists.now }
{
    if some_permits_each(lists) {
        return Some(true);
    }
    if all_deny_each(lists) {
        return Some(false);
    }
    None
}

fn some_permits_each(lists: &[CommList]) -> bool
    ensures { result ≡ list_any (λ l. permits_each l.entries) lists.now }
{
    lists
        .iter()
        .any(|list| permits_each(list.entries.as_slice()))
}

fn all_deny_each(lists: &[CommList]) -> bool
    ensures { result ≡ list_all (λ l. denies_each l.entries) lists.now }
{
    lists
        .iter()
        .all(|list| denies_each(list.entries.as_slice()))
}

fn permits_each(entries: &[CommEntry]) -> bool
    ensures { result ≡ permits_each entries.now }
{
    let [first, ..] = entries else {
        return false;
    };
    asks_nothing(&first.test) && first.permit
}

fn denies_each(entries: &[CommEntry]) -> bool
    ensures { result ≡ denies_each entries.now }
{
    let [first, ..] = entries else {
        return true;
    };
    asks_nothing(&first.test) && !first.permit
}

fn asks_nothing(test: &CommTest) -> bool
    ensures { result ≡ asks_nothing test.now }
{
    match test {
        CommTest::AllOf(rects) => has_no_rect(rects.as_slice()),
        CommTest::Exactly(_) => false,
    }
}

fn has_no_rect(rects: &[Rect]) -> bool
    ensures { result ≡ has_none rects.now }
{
    rects.is_empty()
}

/// Whether there is no community. It takes no memory.
pub(crate) fn has_no_community(communities: &[Community]) -> bool
    ensures { result ≡ has_none communities.now }
{
    communities.is_empty()
}
