//! What the actions of a policy make of a route.
ghost use Rattle.std.specs.Prelude.{◌≡◌, ◌^◌, ◌-◌, IfOk};
ghost use Rattle.rpl_meaning.specs.Blocks.{IsWorld, word_in};
ghost use Rattle.rpl_meaning.specs.Communities.{stepped};
ghost use Rattle.rpl_meaning.specs.Meaning.{acted};
ghost use Rattle.rpl_meaning.specs.Walk.{Start, route_at};
ghost use Rattle.rpl_tree.specs.Tree.{forms};
ghost use Rattle.rpl_forms.specs.declared.item.Action.{Action as SpecAction};

use crate::communities::{CommunityStep, elements_in};
use crate::tests::World;
use crate::words::{Words, value_8, value_16, value_32};
use route_types::{Memory, Rect};
use rpl_effects::Changes;
use rpl_forms::{Action, CommunitySetting, Prepend, RplItem, RplSet};

/// The changes that a run has made so far.
pub(crate) type RplChanges<'a> = Changes<CommunityStep<'a>>;

fn with_set<'a>(
    world: &World<'a>,
    words: &Words<'a>,
    setting: &'a CommunitySetting,
    changes: RplChanges<'a>,
) -> Result<RplChanges<'a>, Memory>
    requires { IsWorld world.now }
    ensures { IfOk result (λ c. (p : Start) → route_at p c ≡ acted (forms world.now.items.now) (word_in words.now.entries) (SpecAction.SetCommunity setting.now) (route_at p changes.entry)) }
{
    let elements = elements_in(world, words, &setting.set);
    if setting.additive {
        return changes.with_step(CommunityStep::Add(elements));
    }
    changes.with_step(CommunityStep::Replace(elements))
}

fn without<'a>(
    world: &World<'a>,
    words: &Words<'a>,
    set: &'a RplSet<Rect>,
    changes: RplChanges<'a>,
) -> Result<RplChanges<'a>, Memory>
    requires { IsWorld world.now }
    ensures { IfOk result (λ c. (p : Start) → route_at p c ≡ acted (forms world.now.items.now) (word_in words.now.entries) (SpecAction.DeleteCommunity set.now) (route_at p changes.entry)) }
{
    let elements = elements_in(world, words, set);
    changes.with_step(CommunityStep::Delete(elements))
}

fn with_prepended<'a>(
    all: &'a [RplItem],
    words: &Words<'a>,
    prepend: &'a Prepend,
    changes: RplChanges<'a>,
) -> Result<RplChanges<'a>, Memory>
    ensures { IfOk result (λ c. (p : Start) → route_at p c ≡ acted (forms all.now) (word_in words.now.entries) (SpecAction.Prepend prepend.now) (route_at p changes.entry)) }
{
    let number = value_32(words, &prepend.number);
    changes.with_prepended(number, value_8(words, &prepend.count))
}

/// The changes behind an action.
pub(crate) fn acted<'a>(
    world: &World<'a>,
    words: &Words<'a>,
    action: &'a Action,
    changes: RplChanges<'a>,
) -> Result<RplChanges<'a>, Memory>
    requires { IsWorld world.now }
    ensures { IfOk result (λ c. (p : Start) → route_at p c ≡ acted (forms world.now.items.now) (word_in words.now.entries) action.now (route_at p changes.entry)) }
{
    match action {
        Action::SetMed(number) => Ok(Changes {
            med: Some(value_32(words, number)),
            ..changes
        }),
        Action::SetLocalPreference(number) => Ok(Changes {
            local_preference: Some(value_32(words, number)),
            ..changes
        }),
        Action::SetWeight(number) => Ok(Changes {
            weight: Some(value_16(words, number)),
            ..changes
        }),
        Action::SetOrigin(origin) => Ok(Changes {
            origin: Some(*origin),
            ..changes
        }),
        Action::SetNextHop(next_hop) => Ok(Changes {
            next_hop: Some(*next_hop),
            ..changes
        }),
        Action::SetCommunity(setting) => with_set(world, words, setting, changes),
        Action::DeleteCommunity(set) => without(world, words, set, changes),
        Action::Prepend(prepend) => with_prepended(world.items, words, prepend, changes),
    }
}
