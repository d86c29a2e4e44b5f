//! What the check knows of the whole text before its walk.
ghost use Rattle.std.specs.Prelude.{◌≡◌, ℕ, List, [], ◌∷◌, IfOk, OnOk};
ghost use Rattle.step_search.specs.Found.{IsIn};
ghost use Rattle.policy_calls.specs.Callees.{links_of};
ghost use Rattle.rpl_calls.specs.Calls.{calls_of, links};
ghost use Rattle.rpl_calls.specs.Said.{calls_in};
ghost use Rattle.rpl_calls.specs.declared.demand.Demand.{Demand as SpecDemand};
ghost use Rattle.rpl_reader.specs.Reach.{arguments_in, IsDemanded};
ghost use Rattle.policy_text.specs.NameSets.{has_name};
ghost use Rattle.rpl_reader.specs.Known.{known_policy, known_block, IsKnown};
ghost use Rattle.rpl_reader.specs.Holds.{HoldsSets, Holds};

use crate::sets::{note_all_given, note_named};
use name_maps::NameMap;
use policy_calls::{Call, PairSet, reached, too_deep, turning_back};
use policy_text::{NameSet, has_name};
use route_types::{Memory, Row};
use rpl_calls::{Arguments, Demand};
use rpl_facts::{Count, blocks_of, counts_of, kind_code, statements_of, wide_sets};
use rpl_forms::{BlockKind, RplItem};
use std::alloc::Global;
use std::collections::BTreeSet;

/// The name of the policy; the blocks that are there; the community sets that have an element that isn't a single
/// community; how many parameters policies have; the policies that are reached, and the sets; the calls that lead back
/// to their caller; and the policies in which a call is too deep.
#[derive(Drop)]
pub(crate) struct Known<'a> {
    pub(crate) policy: &'a [u8],
    pub(crate) there: NameSet<'a>,
    pub(crate) wide: NameSet<'a>,
    pub(crate) counts: NameMap<'a, Count>,
    pub(crate) policies: NameSet<'a>,
    pub(crate) sets: NameSet<'a>,
    pub(crate) turning: PairSet<'a>,
    pub(crate) deep: NameSet<'a>,
}

// Whether the policies of this name are reached.
pub(crate) fn is_reached_policy<'a>(known: &Known<'a>, name: &'a [u8]) -> bool
    ensures { result ≡ known_policy known.now name.now }
{
    has_name(&known.policies, name, 0, 0)
}

// Whether the block of this kind and name is reached.
pub(crate) fn is_reached_block<'a>(known: &Known<'a>, kind: BlockKind, name: &'a [u8]) -> bool
    ensures { result ≡ known_block known.now kind name.now }
{
    match kind {
        BlockKind::Policy => has_name(&known.policies, name, 0, 0),
        BlockKind::PrefixSet => has_name(&known.sets, name, kind_code(BlockKind::PrefixSet), 0),
        BlockKind::CommunitySet => {
            has_name(&known.sets, name, kind_code(BlockKind::CommunitySet), 0)
        }
        BlockKind::PathSet => has_name(&known.sets, name, kind_code(BlockKind::PathSet), 0),
    }
}

// The calls by name.
fn links_of<'a>(alloc: Global, calls: &[rpl_calls::Call<'a>]) -> Result<Row<Call<'a>>, Memory>
    ensures { IfOk result (λ row. links_of row ≡ links (calls_in calls.now)) }
{
    let mut row = Row::new(alloc);
    let mut rest = calls;
    while let [first, tail @ ..] = rest {
        let apply = first.apply;
        row.push(Call {
            caller: first.caller,
            callee: apply.policy.as_slice(),
        })?;
        rest = tail;
    }
    Ok(row)
}

// The sets that are reached, where these policies are.
fn sets_of<'a>(
    alloc: Global,
    items: &'a [RplItem],
    policies: &NameSet<'a>,
    arguments: &Arguments<'_, 'a>,
    demands: &[Demand],
) -> Result<NameSet<'a>, Memory>
    ensures { IfOk result (λ sets. HoldsSets items.now (λ p. has_name policies.now p 0 0) arguments.now demands.now sets) }
{
    let statements = statements_of(alloc, items)?;
    let mut sets = BTreeSet::new(alloc);
    let spoken = statements.as_slice();
    note_named(alloc, &mut sets, policies, spoken)?;
    note_all_given(&mut sets, policies, arguments, demands)?;
    Ok(sets)
}

// What is known by the calls by name.
fn known_by<'a>(
    alloc: Global,
    policy: &'a [u8],
    items: &'a [RplItem],
    arguments: &Arguments<'_, 'a>,
    demands: &[Demand],
    by_name: &[Call<'a>],
) -> Result<Known<'a>, Memory>
    ensures { IfOk result (λ k. Holds policy.now items.now arguments.now demands.now (links_of by_name.now) k) }
{
    let names = [policy];
    let policies = reached(alloc, by_name, &names)?;
    let turning = turning_back(alloc, by_name)?;
    let deep = too_deep(alloc, by_name, &names, &policies, &turning)?;
    let sets = sets_of(alloc, items, &policies, arguments, demands)?;
    let there = blocks_of(alloc, items)?;
    let wide = wide_sets(alloc, items)?;
    let counts = counts_of(alloc, items)?;
    Ok(Known {
        policy,
        there,
        wide,
        counts,
        policies,
        sets,
        turning,
        deep,
    })
}

// What is known of the text for the policy of this name, by its calls, their arguments and what these are asked. Its one
// error is want of memory.
pub(crate) fn known_of<'a>(
    alloc: Global,
    policy: &'a [u8],
    items: &'a [RplItem],
    calls: &[rpl_calls::Call<'a>],
    arguments: &Arguments<'_, 'a>,
    demands: &[Demand],
) -> Result<Known<'a>, Memory>
    requires calls { calls_in calls.now ≡ calls_of items.now }
    requires arguments { arguments.now ≡ arguments_in items.now }
    requires sound { (d : SpecDemand) → IsIn d demands.now → IsDemanded items.now d }
    requires whole { (d : SpecDemand) → IsDemanded items.now d → IsIn d demands.now }
    ensures { IfOk result (λ k. IsKnown policy.now items.now k) }
{
    let row = links_of(alloc, calls)?;
    let by_name = row.as_slice();
    let known = known_by(alloc, policy, items, arguments, demands, by_name)?;
    Ok(known)
}
