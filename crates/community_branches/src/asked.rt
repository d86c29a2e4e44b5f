// Nodes that test the communities of the route as it arrives.
ghost use Rattle.std.specs.Prelude.{◌≡◌, ◌<◌, ◌∷◌, [], true, length, map, IfOk};
ghost use Rattle.core_nodes.specs.declared.atom.Atom.TheVariants.{Community as Communities};
ghost use Rattle.core_nodes.specs.Atoms.{atom_holds};
ghost use Rattle.community_sets.specs.Tests.{all_fitted};
ghost use Rattle.community_branches.specs.Branches.{IsBranch, some_fitted};
ghost use Rattle.community_branches.specs.Asked.{all_of, one_each};

use community_sets::{CommEntry, CommList, CommTest};
use policy_core::{Atom, Core, Node};
use route_types::{Memory, Rect, Row};
use std::alloc::Global;

/// The node that goes to `yes` where one of the lists permits the communities, else to `no`. The one error is want of
/// memory.
#[tactic(auto, using(crate::proofs::BranchLaws::made_branch))]
pub(crate) fn ask(
    core: &mut Core,
    lists: Row<CommList>,
    yes: Node,
    no: Node,
) -> Result<Node, Memory>
    requires of_yes { yes < length core.old }
    requires of_no { no < length core.old }
    ensures { IfOk result (IsBranch core.old core.new (λ r. atom_holds (Communities lists) r) yes no) }
{
    let node = core.test(Atom::Community(lists), yes, no)?;
    Ok(node)
}

/// The node that goes to `yes` where each rectangle is fitted by some community, else to `no`. The one error is want of
/// memory.
pub(crate) fn ask_all(
    alloc: Global,
    core: &mut Core,
    rects: Row<Rect>,
    yes: Node,
    no: Node,
) -> Result<Node, Memory>
    requires of_yes { yes < length core.old }
    requires of_no { no < length core.old }
    ensures { IfOk result (IsBranch core.old core.new (λ r. all_fitted rects r.communities) yes no) }
{
    let entries = one_entry(alloc, all_of(rects))?;
    let lists = one_list(alloc, entries)?;
    let node = ask(core, lists, yes, no)?;
    Ok(node)
}

/// The node that goes to `yes` where some rectangle is fitted by some community, else to `no`: one list with an entry for
/// each rectangle. The one error is want of memory.
#[tactic(auto, using(crate::proofs::AskedLaws::none_branch))]
pub(crate) fn ask_some(
    alloc: Global,
    core: &mut Core,
    rects: &[Rect],
    yes: Node,
    no: Node,
) -> Result<Node, Memory>
    requires of_yes { yes < length core.old }
    requires of_no { no < length core.old }
    ensures { IfOk result (IsBranch core.old core.new (some_fitted rects.now) yes no) }
{
    if rects.is_empty() {
        return Ok(no);
    }
    let entries = one_each(alloc, rects)?;
    let lists = one_list(alloc, entries)?;
    let node = ask(core, lists, yes, no)?;
    Ok(node)
}

fn one_list(alloc: Global, entries: Row<CommEntry>) -> Result<Row<CommList>, Memory>
    ensures { IfOk result (λ lists. lists ≡ record { entries = entries } ∷ []) }
{
    let mut lists = Row::new(alloc);
    lists.push(CommList { entries })?;
    Ok(lists)
}

fn one_entry(alloc: Global, entry: CommEntry) -> Result<Row<CommEntry>, Memory>
    ensures { IfOk result (λ entries. entries ≡ entry ∷ []) }
{
    let mut entries = Row::new(alloc);
    entries.push(entry)?;
    Ok(entries)
}

fn all_of(rects: Row<Rect>) -> CommEntry
    ensures { result ≡ all_of rects }
{
    CommEntry {
        permit: true,
        test: CommTest::AllOf(rects),
    }
}

fn one_of(alloc: Global, rect: &Rect) -> Result<CommEntry, Memory>
    ensures { IfOk result (λ entry. entry ≡ all_of (rect.now ∷ [])) }
{
    let mut rects = Row::new(alloc);
    rects.push(*rect)?;
    Ok(all_of(rects))
}

// An entry for each rectangle.
fn one_each(alloc: Global, rects: &[Rect]) -> Result<Row<CommEntry>, Memory>
    ensures { IfOk result (λ entries. entries ≡ one_each rects.now) }
{
    let mut entries = Row::new(alloc);
    let mut rest = rects;
    while let [first, tail @ ..] = rest {
        let entry = one_of(alloc, first)?;
        entries.push(entry)?;
        rest = tail;
    }
    Ok(entries)
}
