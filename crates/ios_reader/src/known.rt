//! What the check knows of the whole tree before its walk.
ghost use Rattle.std.specs.Prelude.{◌≡◌, IfOk};
ghost use Rattle.ios_reader.specs.Facts.{facts_of};
ghost use Rattle.ios_reader.specs.Known.{known_facts, least_of};

use crate::lines::Setting;
use crate::names::{Defined, Marked, named_lists};
use crate::settings::least_setting;
use ios_tree::IosItem;
use policy_text::{NameSet, names_of};
use route_types::Memory;
use std::alloc::Global;

// The lists that are there, those that the lines of the policy name, the marks that are there, and the least number
// of an entry of the policy that continues and sets the MED, the path, the next hop, the communities.
#[derive(Drop)]
pub(crate) struct Known<'a> {
    pub(crate) policy: &'a [u8],
    pub(crate) defined: NameSet<'a>,
    pub(crate) named: NameSet<'a>,
    pub(crate) marked: NameSet<'a>,
    pub(crate) med: Option<u64>,
    pub(crate) path: Option<u64>,
    pub(crate) next_hop: Option<u64>,
    pub(crate) communities: Option<u64>,
}

pub(crate) fn least_of(known: &Known<'_>, setting: Setting) -> Option<u64>
    ensures { result ≡ least_of known.now setting }
{
    match setting {
        Setting::Med => known.med,
        Setting::Path => known.path,
        Setting::NextHop => known.next_hop,
        Setting::Communities => known.communities,
    }
}

// What is known of the tree for the policy of this name.
pub(crate) fn known_of<'a>(
    alloc: Global,
    policy: &'a [u8],
    items: &'a [IosItem],
) -> Result<Known<'a>, Memory>
    ensures { IfOk result (λ k. known_facts k ≡ facts_of policy.now items.now) }
{
    let defined = names_of::<IosItem, Defined>(alloc, items)?;
    let named = named_lists(alloc, policy, items)?;
    let marked = names_of::<IosItem, Marked>(alloc, items)?;
    let med = least_setting(policy, items, Setting::Med);
    let path = least_setting(policy, items, Setting::Path);
    let next_hop = least_setting(policy, items, Setting::NextHop);
    let communities = least_setting(policy, items, Setting::Communities);
    Ok(Known {
        policy,
        defined,
        named,
        marked,
        med,
        path,
        next_hop,
        communities,
    })
}
