// Actions of a step as statements.
ghost use Rattle.std.specs.Prelude.{◌≡◌, ◌++◌, ◌∷◌, [], OnOk};
ghost use Rattle.rpl_words.specs.declared.number.RplNumber.TheVariants.{Fixed as IsFixed};
ghost use Rattle.rpl_forms.specs.declared.item.Action.TheVariants.{SetMed as SetsMed, SetLocalPreference as SetsPreference, SetWeight as SetsWeight, SetOrigin as SetsOrigin, SetNextHop as SetsNextHop};
ghost use Rattle.rpl_layout.specs.Statements.{set_to, actions_of};
ghost use Rattle.rpl_policies.specs.Acts.{acts};

use crate::changes::push_communities;
use crate::prepends::push_prepends;
use route_types::{Memory, NextHop, Origin, Row};
use rpl_forms::{Action, PolicyStatement, RplForm};
use rpl_plans::PlannedActions;
use rpl_words::RplNumber;
use std::alloc::Global;

/// Puts an action at the end. Its one error is want of memory.
#[tactic(auto, unfolding(crate::specs::Acts::acts))]
pub(crate) fn push_act(out: &mut Row<RplForm>, action: Action) -> Result<(), Memory>
    ensures { OnOk result (out.new ≡ out.old ++ acts (action ∷ [])) }
{
    out.push(RplForm::Statement(PolicyStatement::Act(action)))
}

// ---- values

#[tactic(auto, using(crate::proofs::Acts::no_acts))]
fn push_local_preference(out: &mut Row<RplForm>, value: Option<u32>) -> Result<(), Memory>
    ensures { OnOk result (out.new ≡ out.old ++ acts (set_to (λ n. SetsPreference (IsFixed n)) value)) }
{
    match value {
        None => Ok(()),
        Some(number) => push_act(out, Action::SetLocalPreference(RplNumber::Fixed(number))),
    }
}

#[tactic(auto, using(crate::proofs::Acts::no_acts))]
fn push_med(out: &mut Row<RplForm>, value: Option<u32>) -> Result<(), Memory>
    ensures { OnOk result (out.new ≡ out.old ++ acts (set_to (λ n. SetsMed (IsFixed n)) value)) }
{
    match value {
        None => Ok(()),
        Some(number) => push_act(out, Action::SetMed(RplNumber::Fixed(number))),
    }
}

#[tactic(auto, using(crate::proofs::Acts::no_acts))]
fn push_weight(out: &mut Row<RplForm>, value: Option<u16>) -> Result<(), Memory>
    ensures { OnOk result (out.new ≡ out.old ++ acts (set_to (λ n. SetsWeight (IsFixed n)) value)) }
{
    match value {
        None => Ok(()),
        Some(number) => push_act(out, Action::SetWeight(RplNumber::Fixed(number))),
    }
}

#[tactic(auto, using(crate::proofs::Acts::no_acts))]
fn push_origin(out: &mut Row<RplForm>, value: Option<Origin>) -> Result<(), Memory>
    ensures { OnOk result (out.new ≡ out.old ++ acts (set_to SetsOrigin value)) }
{
    match value {
        None => Ok(()),
        Some(origin) => push_act(out, Action::SetOrigin(origin)),
    }
}

#[tactic(auto, using(crate::proofs::Acts::no_acts))]
fn push_next_hop(out: &mut Row<RplForm>, value: Option<NextHop>) -> Result<(), Memory>
    ensures { OnOk result (out.new ≡ out.old ++ acts (set_to SetsNextHop value)) }
{
    match value {
        None => Ok(()),
        Some(next_hop) => push_act(out, Action::SetNextHop(next_hop)),
    }
}

// ---- all of them

/// Puts the actions of a step at the end, in their order. Its one error is want of memory.
pub(crate) fn push_actions(
    alloc: Global,
    out: &mut Row<RplForm>,
    actions: &PlannedActions,
) -> Result<(), Memory>
    ensures { OnOk result (out.new ≡ out.old ++ acts (actions_of actions.now)) }
{
    push_local_preference(out, actions.local_preference)?;
    push_med(out, actions.med)?;
    push_weight(out, actions.weight)?;
    push_origin(out, actions.origin)?;
    push_next_hop(out, actions.next_hop)?;
    push_prepends(out, actions.prepended.as_slice())?;
    push_communities(alloc, out, &actions.communities)?;
    Ok(())
}
