ghost use Rattle.std.specs.Prelude.{◌≡◌, ◌≤◌, ◌||◌, ◌&&◌, ◌/◌, ◌%◌, ◌^◌, ℕ, not, nat_lt, IfOk};
ghost use Rattle.route_types.specs.Community.{fits};
ghost use Rattle.route_types.specs.Sets.{fits_some};
ghost use Rattle.route_types.specs.declared.community.Community.{Community};
ghost use Rattle.community_sets.specs.Sides.{in_side, in_part};

use crate::side::Side;
use route_types::{Memory, Rect};
use std::alloc::Global;

/// What is left of a rectangle without the removed ones, as rectangles. The one error is want of memory.
pub fn rest(alloc: Global, rect: &Rect, removed: &[Rect]) -> Result<Vec<Rect>, Memory>
    // A community fits one of them exactly where it fits the rectangle and no removed one.
    ensures { IfOk result (λ left. (c : Community) → fits_some fits left.items c ≡ (fits rect.now c && not (fits_some fits removed.now c))) }
{
    let mut left = Vec::from_slice(alloc, &[*rect])?;
    let mut ahead = removed;
    while let [first, tail @ ..] = ahead {
        left = without(alloc, left.as_slice(), first)?;
        ahead = tail;
    }
    Ok(left)
}

// What is left of rectangles without the removed one.
fn without(alloc: Global, rects: &[Rect], removed: &Rect) -> Result<Vec<Rect>, Memory>
    ensures { IfOk result (λ left. (c : Community) → fits_some fits left.items c ≡ (fits_some fits rects.now c && not (fits removed.now c))) }
{
    let mut left = Vec::new(alloc);
    let mut ahead = rects;
    while let [first, tail @ ..] = ahead {
        push_left(&mut left, first, removed)?;
        ahead = tail;
    }
    Ok(left)
}

// What lies below or above the removed range of upper halves stays whole; of what lies within, what lies
// below or above the removed range of lower halves.
fn push_left(left: &mut Vec<Rect>, rect: &Rect, removed: &Rect) -> Result<(), Memory>
    ensures { IfOk result (λ _. (c : Community) → fits_some fits left.new.items c ≡ (fits_some fits left.old.items c || (fits rect.now c && not (fits removed.now c)))) }
{
    let high = high_side(rect);
    let low = low_side(rect);
    let high_cut = high_side(removed);
    let low_cut = low_side(removed);
    push_part(left, below(high, high_cut), Some(low))?;
    push_part(left, above(high, high_cut), Some(low))?;
    let within = common(high, high_cut);
    push_part(left, within, below(low, low_cut))?;
    push_part(left, within, above(low, low_cut))?;
    Ok(())
}

fn high_side(rect: &Rect) -> Side
    ensures least { result.least ≡ rect.now.high_least }
    ensures most { result.most ≡ rect.now.high_most }
{
    let least = rect.high_least();
    let most = rect.high_most();
    Side { least, most }
}

fn low_side(rect: &Rect) -> Side
    ensures least { result.least ≡ rect.now.low_least }
    ensures most { result.most ≡ rect.now.low_most }
{
    let least = rect.low_least();
    let most = rect.low_most();
    Side { least, most }
}

// What lies below the other range.
fn below(side: Side, cut: Side) -> Option<Side>
    ensures { (n : ℕ) → in_part result n ≡ (in_side side n && nat_lt n cut.least) }
{
    if cut.least <= side.least {
        return None;
    }
    let most = side.most.min(cut.least - 1);
    Some(Side {
        least: side.least,
        most,
    })
}

// What lies above the other range.
fn above(side: Side, cut: Side) -> Option<Side>
    ensures { (n : ℕ) → in_part result n ≡ (in_side side n && nat_lt cut.most n) }
{
    if side.most <= cut.most {
        return None;
    }
    let least = side.least.max(cut.most + 1);
    Some(Side {
        least,
        most: side.most,
    })
}

// What lies within the other range.
fn common(side: Side, cut: Side) -> Option<Side>
    ensures { (n : ℕ) → in_part result n ≡ (in_side side n && in_side cut n) }
{
    let least = side.least.max(cut.least);
    let most = side.most.min(cut.most);
    if most < least {
        return None;
    }
    Some(Side { least, most })
}

// Adds the rectangle of the two ranges, where both are there.
fn push_part(left: &mut Vec<Rect>, high: Option<Side>, low: Option<Side>) -> Result<(), Memory>
    ensures { IfOk result (λ _. (c : Community) → fits_some fits left.new.items c ≡ (fits_some fits left.old.items c || (in_part high (c.0 / 2 ^ 16) && in_part low (c.0 % 2 ^ 16)))) }
{
    let Some(high) = high else {
        return Ok(());
    };
    let Some(low) = low else {
        return Ok(());
    };
    left.push(Rect::new(high.least, high.most, low.least, low.most))?;
    Ok(())
}
