// What the types of values say of each value of a list.
ghost use Rattle.std.specs.Prelude.{◌≡◌, true};
ghost use Rattle.std.specs.List.{AllByRecursion, list_all};
ghost use Rattle.policy_core.specs.Sayable.{is_plain};
ghost use Rattle.junos_plans.specs.Fits.{FitsMember, FitsCommunity, FitsChange};

use route_types::{CommChange, Community, Rect};

fn member_fits(member: &Rect)
    requires { is_plain member.now ≡ true }
    ensures { FitsMember member.now }
{
    let _high = member.high_most();
    let _low = member.low_most();
}

// No member has an empty range, or a number of more than 16 bits. It only reads them.
pub(crate) fn members_fit(members: &[Rect])
    requires { list_all is_plain members.now ≡ true }
    ensures { AllByRecursion FitsMember members.now }
{
    let mut rest = members;
    while let [first, tail @ ..] = rest {
        member_fits(first);
        rest = tail;
    }
}

fn community_fits(community: &Community)
    ensures { FitsCommunity community.now }
{
    let _number = community.0;
}

// No community is a number of more than 32 bits. It only reads them.
pub(crate) fn communities_fit(communities: &[Community])
    ensures { AllByRecursion FitsCommunity communities.now }
{
    let mut rest = communities;
    while let [first, tail @ ..] = rest {
        community_fits(first);
        rest = tail;
    }
}

// The values of a change of communities lie in the ranges of their types. It only reads them.
pub(crate) fn change_fits(change: &CommChange)
    requires { list_all is_plain change.now.removed ≡ true }
    ensures { FitsChange change.now }
{
    members_fit(change.removed.as_slice());
    communities_fit(change.added.as_slice());
}
