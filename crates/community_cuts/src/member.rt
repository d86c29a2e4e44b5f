// What a rectangle of a test comes to before a change.
ghost use Rattle.std.specs.Prelude.{◌≡◌};
ghost use Rattle.community_cuts.specs.Earlier.{fitted, ComesTo, member_by};

use community_sets::{Cut, cuts};
use route_types::{CommChange, Community, Rect};

/// What the test of a rectangle behind a change comes to before it.
#[derive(Clone, Copy, Debug, PartialEq, Eq)]
pub enum Member {
    /// It holds, since an added community fits.
    Held,
    /// It is asked as it is: no removal meets it.
    Kept,
    /// It does not hold: one removal has all of it.
    Gone,
    /// What is left of it is asked.
    Parted,
}

/// What the test of a rectangle behind a change comes to before it. It takes no memory.
pub fn member_before(rect: &Rect, change: &CommChange) -> Member
    ensures { ComesTo result rect.now change.now }
{
    let added = is_fitted(rect, change.added.as_slice());
    member_by(added, cuts(rect, change))
}

fn is_fitted(rect: &Rect, communities: &[Community]) -> bool
    ensures { result ≡ fitted rect.now communities.now }
{
    communities.iter().any(|community| rect.fits(community))
}

fn member_by(added: bool, cut: Cut) -> Member
    ensures { result ≡ member_by added cut }
{
    if added {
        return Member::Held;
    }
    match cut {
        Cut::Never => Member::Kept,
        Cut::Whole => Member::Gone,
        Cut::Part => Member::Parted,
    }
}
