// Lists behind a change, by their entries.
ghost use Rattle.std.specs.Prelude.{◌≡◌, ◌<◌, [], ◌∷◌, length, if◌then◌else◌, IfOk};
ghost use Rattle.community_branches.specs.Branches.{IsBranch, entries_behind, lists_behind};

use crate::asked::ask;
use crate::tests::branch_by_test;
use community_cuts::list_before;
use community_sets::{CommEntry, CommList};
use policy_core::{Core, Node};
use route_types::{CommChange, Memory, Row};
use std::alloc::Global;

/// The node that goes to `yes` where one of the lists permits the communities behind the change, else to `no`; both are
/// nodes of the graph. The nodes test the communities before the change: a list as one test where one can say it, else
/// entry by entry. The one error is want of memory.
#[tactic(auto, using(crate::proofs::Steps::lists_start, crate::proofs::Steps::all_done, crate::proofs::Steps::none_left))]
pub fn branch_by_lists(
    alloc: Global,
    core: &mut Core,
    lists: &[CommList],
    change: &CommChange,
    yes: Node,
    no: Node,
) -> Result<Node, Memory>
    requires of_yes { yes < length core.old }
    requires of_no { no < length core.old }
    ensures { IfOk result (IsBranch core.old core.new (lists_behind change.now lists.now) yes no) }
{
    let mut node = no;
    let mut rest = lists;
    while let [front @ .., last] = rest {
        node = branch_by_list(alloc, core, last, change, yes, node)?;
        rest = front;
    }
    Ok(node)
}

#[tactic(auto, using(crate::proofs::TestLaws::list_asked))]
fn branch_by_list(
    alloc: Global,
    core: &mut Core,
    list: &CommList,
    change: &CommChange,
    yes: Node,
    no: Node,
) -> Result<Node, Memory>
    requires of_yes { yes < length core.old }
    requires of_no { no < length core.old }
    ensures { IfOk result (IsBranch core.old core.new (entries_behind change.now list.now.entries) yes no) }
{
    match list_before(alloc, list, change)? {
        Some(found) => {
            let lists = alone(alloc, found)?;
            let node = ask(core, lists, yes, no)?;
            Ok(node)
        }
        None => {
            let node = branch_by_entries(alloc, core, list.entries.as_slice(), change, yes, no)?;
            Ok(node)
        }
    }
}

fn alone(alloc: Global, list: CommList) -> Result<Row<CommList>, Memory>
    ensures { IfOk result (λ lists. lists ≡ list ∷ []) }
{
    let mut lists = Row::new(alloc);
    lists.push(list)?;
    Ok(lists)
}

// The first entry that holds decides: from the last one on, what no entry held for so far goes on to `node`.
#[tactic(auto, using(crate::proofs::Steps::all_done, crate::proofs::Steps::none_left))]
fn branch_by_entries(
    alloc: Global,
    core: &mut Core,
    entries: &[CommEntry],
    change: &CommChange,
    yes: Node,
    no: Node,
) -> Result<Node, Memory>
    requires of_yes { yes < length core.old }
    requires of_no { no < length core.old }
    ensures { IfOk result (IsBranch core.old core.new (entries_behind change.now entries.now) yes no) }
{
    let mut node = no;
    let mut rest = entries;
    while let [front @ .., last] = rest {
        let held = way(last.permit, yes, no);
        node = branch_by_test(alloc, core, &last.test, change, held, node)?;
        rest = front;
    }
    Ok(node)
}

fn way(permit: bool, yes: Node, no: Node) -> Node
    ensures { result ≡ (if permit then yes else no) }
{
    if permit { yes } else { no }
}
