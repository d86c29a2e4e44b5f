//! A tree with what stands under its names, for one judge.
ghost use Rattle.std.specs.Prelude.{◌≡◌, List, ℕ, [], ◌∷◌, IfOk, option_map};
ghost use Rattle.junos_reader.specs.Facts.{forms_of};
ghost use Rattle.junos_meaning.specs.Maps.{IsWorld};
ghost use Rattle.junos_meaning.specs.Sets.{defined_at, policy_named, behind, members_in, community_members, pattern_in, path_pattern, list_members};
ghost use Rattle.junos_meaning.specs.Conditions.{is_member, is_within};

use crate::blocks::{Blocks, Communities, Paths, Policies, blocks_of};
use crate::lists::{ListAnswers, Lists, lists_of};
use aspath_text::TokenPattern;
use junos_reader::{JunosForm, JunosItem};
use route_types::{Memory, Prefix, Rect};
use std::alloc::Global;

/// A tree, the prefix of the route, and what stands under the names of the tree.
#[derive(Drop)]
pub(crate) struct World<'a> {
    pub(crate) items: &'a [JunosItem],
    pub(crate) prefix: &'a Prefix,
    pub(crate) lists: Lists<'a>,
    pub(crate) communities: Blocks<'a>,
    pub(crate) paths: Blocks<'a>,
    pub(crate) policies: Blocks<'a>,
}

/// What stands under the names of a tree, each map made once.
pub(crate) fn world_of<'a>(
    alloc: Global,
    items: &'a [JunosItem],
    prefix: &'a Prefix,
) -> Result<World<'a>, Memory>
    ensures world { IfOk result IsWorld }
    ensures items { IfOk result (λ w. w.items.now ≡ items.now) }
    ensures prefix { IfOk result (λ w. w.prefix.now ≡ prefix.now) }
{
    Ok(World {
        items,
        prefix,
        lists: lists_of(alloc, prefix, items)?,
        communities: blocks_of::<Communities>(alloc, items)?,
        paths: blocks_of::<Paths>(alloc, items)?,
        policies: blocks_of::<Policies>(alloc, items)?,
    })
}

/// What the prefix list of this name answers on the prefix of the route.
pub(crate) fn list_answers<'a>(world: &World<'a>, name: &'a [u8]) -> ListAnswers
    requires { IsWorld world.now }
    ensures member { result.member ≡ is_member (list_members (forms_of world.now.items.now) name.now) world.now.prefix.now }
    ensures within { result.within ≡ is_within (list_members (forms_of world.now.items.now) name.now) world.now.prefix.now }
{
    match world.lists.get(name) {
        Some(answers) => answers,
        None => ListAnswers {
            member: false,
            within: false,
        },
    }
}

fn members_in(form: &JunosForm) -> &[Rect]
    ensures { result.now ≡ members_in form.now }
{
    match form {
        JunosForm::Community(community) => community.members.as_slice(),
        _ => &[],
    }
}

/// The members of the community of this name.
pub(crate) fn members_of<'a>(world: &World<'a>, name: &'a [u8]) -> &'a [Rect]
    requires { IsWorld world.now }
    ensures { result.now ≡ community_members (forms_of world.now.items.now) name.now }
{
    match world.communities.get(name) {
        Some([first, ..]) => members_in(&first.form),
        _ => &[],
    }
}

fn pattern_in(form: &JunosForm) -> Option<&TokenPattern>
    ensures { option_map (λ p. p.now) result ≡ pattern_in form.now }
{
    match form {
        JunosForm::AsPath(path) => Some(&path.pattern),
        _ => None,
    }
}

/// The pattern of the AS path of this name.
pub(crate) fn pattern_of<'a>(world: &World<'a>, name: &'a [u8]) -> Option<&'a TokenPattern>
    requires { IsWorld world.now }
    ensures { option_map (λ p. p.now) result ≡ path_pattern (forms_of world.now.items.now) name.now }
{
    match world.paths.get(name) {
        Some([first, ..]) => pattern_in(&first.form),
        _ => None,
    }
}

/// The items behind the definition of the policy of this name.
pub(crate) fn body_of<'a>(world: &World<'a>, name: &'a [u8]) -> &'a [JunosItem]
    requires { IsWorld world.now }
    ensures { forms_of result.now ≡ behind (defined_at policy_named name.now (forms_of world.now.items.now)) }
{
    match world.policies.get(name) {
        Some([_, behind @ ..]) => behind,
        _ => &[],
    }
}
