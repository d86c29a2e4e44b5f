ghost use Rattle.std.specs.Prelude.{◌≡◌, ◌↔◌, ◌++◌, IsTrue, List, IfOk};
ghost use Rattle.std.specs.List.{Any};
ghost use Rattle.route_types.specs.Community.{set_after, sides};
ghost use Rattle.route_types.specs.declared.community.Community.{Community};
ghost use Rattle.community_sets.specs.Cuts.{Share, Covered, IsRect, meet, lies_in, cut_of};

use route_types::{CommChange, Memory, Rect, Row, unfitted};
use std::alloc::Global;

/// What a change takes away of the communities of a rectangle.
#[derive(Clone, Copy, Debug, PartialEq, Eq)]
pub enum Cut {
    /// No community.
    Never,
    /// Each of them, by one removed rectangle.
    Whole,
    /// Neither.
    Part,
}

/// The change that acts as the first and then the second: what the second removes goes from what the
/// first adds too. The one error is want of memory.
pub fn then(alloc: Global, first: &CommChange, second: &CommChange) -> Result<CommChange, Memory>
    // For every set it acts as the first and then the second.
    ensures acts { IfOk result (λ joined. (set : List Community) → set_after joined.removed joined.added set ≡ set_after second.now.removed second.now.added (set_after first.now.removed first.now.added set)) }
    // Its removed rectangles are those of the two.
    ensures removed { IfOk result (λ joined. joined.removed ≡ first.now.removed ++ second.now.removed) }
{
    let mut removed = Vec::from_slice(alloc, first.removed.as_slice())?;
    removed.extend_from_slice(second.removed.as_slice())?;
    let mut added = unfitted(alloc, second.removed.as_slice(), first.added.as_slice())?;
    added.extend_from_slice(second.added.as_slice())?;
    Ok(CommChange {
        removed: Row::from_vec(removed),
        added: Row::from_vec(added),
    })
}

/// How the removals of a change cut a rectangle. It takes no memory.
pub fn cuts(rect: &Rect, change: &CommChange) -> Cut
    // No removed rectangle shares a community with it.
    ensures never { (result ≡ Cut.Never) ↔ (Any (Share rect.now) change.now.removed → ⊥) }
    // One removed rectangle has all its communities.
    ensures whole { (result ≡ Cut.Whole) ↔ Any (Covered rect.now) change.now.removed }
{
    let removed = change.removed.as_slice();
    let met = is_met(rect, removed);
    let covered = is_covered(rect, removed);
    cut_of(met, covered)
}

// The cut of a rectangle that is met by a removed one, and is covered by one.
fn cut_of(met: bool, covered: bool) -> Cut
    ensures { result ≡ cut_of met covered }
{
    if !met {
        return Cut::Never;
    }
    if covered {
        return Cut::Whole;
    }
    Cut::Part
}

fn is_met(rect: &Rect, removed: &[Rect]) -> bool
    ensures met { IsTrue result ↔ Any (Share rect.now) removed.now }
    ensures covered { Any (Covered rect.now) removed.now → IsTrue result }
{
    removed.iter().any(|other| share(rect, other))
}

fn is_covered(rect: &Rect, removed: &[Rect]) -> bool
    ensures { IsTrue result ↔ Any (Covered rect.now) removed.now }
{
    removed.iter().any(|other| is_within(rect, other))
}

fn share(rect: &Rect, other: &Rect) -> bool
    ensures shared { IsTrue result ↔ Share rect.now other.now }
    ensures covered { Covered rect.now other.now → IsTrue result }
{
    meet(rect, other)
}

#[tactic(auto, using(crate::proofs::CutLaws::covered_from))]
fn is_within(rect: &Rect, other: &Rect) -> bool
    ensures { IsTrue result ↔ Covered rect.now other.now }
{
    lies_in(rect, other)
}

fn meet(rect: &Rect, other: &Rect) -> bool
    ensures exact { result ≡ meet (sides rect.now) (sides other.now) }
    ensures rect { IsRect rect.now }
{
    let high_most = rect.high_most();
    let low_most = rect.low_most();
    let high = rect.high_least().max(other.high_least()) <= high_most.min(other.high_most());
    high && rect.low_least().max(other.low_least()) <= low_most.min(other.low_most())
}

fn lies_in(rect: &Rect, other: &Rect) -> bool
    ensures exact { result ≡ lies_in (sides rect.now) (sides other.now) }
    ensures rect { IsRect rect.now }
{
    let high_most = rect.high_most();
    let low_most = rect.low_most();
    let high = other.high_least() <= rect.high_least() && high_most <= other.high_most();
    high && other.low_least() <= rect.low_least() && low_most <= other.low_most()
}
