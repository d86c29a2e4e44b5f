// What the types of values say of each value of a list.
ghost use Rattle.std.specs.List.{AllByRecursion};
ghost use Rattle.rpl_plans.specs.Fits.{FitsRect, FitsCommunity, FitsChange};

use route_types::{CommChange, Community, Rect};

fn rect_fits(rect: &Rect)
    ensures { FitsRect rect.now }
{
    let _high = rect.high_most();
    let _low = rect.low_most();
}

// No rectangle has an empty range, or a number of more than 16 bits. It only reads them.
pub(crate) fn rects_fit(rects: &[Rect])
    ensures { AllByRecursion FitsRect rects.now }
{
    let mut rest = rects;
    while let [first, tail @ ..] = rest {
        rect_fits(first);
        rest = tail;
    }
}

fn community_fits(community: &Community)
    ensures { FitsCommunity community.now }
{
    let _number = community.0;
}

// No community is a number of more than 32 bits. It only reads them.
fn communities_fit(communities: &[Community])
    ensures { AllByRecursion FitsCommunity communities.now }
{
    let mut rest = communities;
    while let [first, tail @ ..] = rest {
        community_fits(first);
        rest = tail;
    }
}

// The values of a change of communities lie in the ranges of their types. It only reads them.
pub(crate) fn change_fits(change: &CommChange)
    ensures { FitsChange change.now }
{
    rects_fit(change.removed.as_slice());
    communities_fit(change.added.as_slice());
}
