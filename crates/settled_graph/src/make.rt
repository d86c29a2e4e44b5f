// The node of a key, from those of its parts.
ghost use Rattle.std.specs.Prelude.{◌≡◌, ◌<◌, ℕ, Some, List, length, if◌then◌else◌, IfOk};
ghost use Rattle.std.specs.List.{AllByRecursion};
ghost use Rattle.core_nodes.specs.Made.{Keeps};
ghost use Rattle.core_nodes.specs.declared.node.NodeKind.{NodeKind as Kind};
ghost use Rattle.settled_graph.specs.Keys.{known, IsKnown, AreWithin, IsSound, Settles};
ghost use Rattle.settled_graph.specs.Plans.{IsPlan, Answers, parts_of, same_behind};
ghost use Rattle.settled_graph.specs.declared.plan.Plan.TheVariants.{Asks};

use crate::ends::end_behind;
use crate::key::{Key, same_behind};
use crate::memo::{Memo, found};
use crate::plan::{Asking, Plan};
use community_branches::branch_by_lists;
use policy_core::{Core, Node};
use resolved_tests::Answer;
use route_types::Memory;
use std::alloc::Global;

/// The node of a key with its plan, whose parts are settled. The one error is want of memory.
#[tactic(auto, using(crate::proofs::MakeLaws::end_settles))]
pub(crate) fn node_of(
    alloc: Global,
    core: &mut Core,
    memo: &Memo,
    key: &Key,
    plan: Plan,
) -> Result<Node, Memory>
    requires parts { AllByRecursion (IsKnown memo.now) (parts_of key.now plan) }
    requires within { AreWithin core.old memo.now }
    ensures settles { IfOk result (λ n. (old : List Kind) → IsSound old core.old memo.now → IsPlan old key.now plan → Settles old core.new key.now n) }
    ensures keeps { IfOk result (λ n. Keeps core.old core.new) }
{
    match plan {
        Plan::Ends(accept) => {
            let node = end_behind(alloc, core, accept, &key.pending)?;
            Ok(node)
        }
        Plan::Goes(next) => Ok(found(memo, &next)),
        Plan::Asks(asking) => {
            let node = fork(alloc, core, memo, key, asking)?;
            Ok(node)
        }
    }
}

#[tactic(auto, using(crate::proofs::MakeLaws::fork_settles))]
fn fork(
    alloc: Global,
    core: &mut Core,
    memo: &Memo,
    key: &Key,
    asking: Asking,
) -> Result<Node, Memory>
    requires parts { AllByRecursion (IsKnown memo.now) (parts_of key.now (Asks asking)) }
    requires within { AreWithin core.old memo.now }
    ensures settles { IfOk result (λ n. (old : List Kind) → IsSound old core.old memo.now → IsPlan old key.now (Asks asking) → Settles old core.new key.now n) }
    ensures keeps { IfOk result (λ n. Keeps core.old core.new) }
{
    let met = same_behind(alloc, key, asking.met)?;
    let yes = found(memo, &met);
    let unmet = same_behind(alloc, key, asking.unmet)?;
    let no = found(memo, &unmet);
    let node = branch_by_answer(alloc, core, asking.answer, yes, no)?;
    Ok(node)
}

// The node that goes to `yes` where the answer says so of the arriving route, else to `no`. Nothing is asked where the
// two are one.
#[tactic(auto, using(crate::proofs::MakeLaws::one_way, crate::proofs::MakeLaws::decided_answers, crate::proofs::MakeLaws::parted_answers))]
fn branch_by_answer(
    alloc: Global,
    core: &mut Core,
    answer: Answer,
    yes: Node,
    no: Node,
) -> Result<Node, Memory>
    requires of_yes { yes < length core.old }
    requires of_no { no < length core.old }
    ensures { IfOk result (Answers core.old core.new answer yes no) }
{
    if yes.place() == no.place() {
        return Ok(yes);
    }
    match answer {
        Answer::Decided(holds) => Ok(way(holds, yes, no)),
        Answer::Asked(atom) => {
            let node = core.test(atom, yes, no)?;
            Ok(node)
        }
        Answer::Parted(parted) => {
            let lists = parted.lists.as_slice();
            let node = branch_by_lists(alloc, core, lists, &parted.change, yes, no)?;
            Ok(node)
        }
    }
}

fn way(holds: bool, yes: Node, no: Node) -> Node
    ensures { result ≡ (if holds then yes else no) }
{
    if holds { yes } else { no }
}
