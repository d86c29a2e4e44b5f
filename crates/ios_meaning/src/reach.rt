// For which communities alone an entry of a community list holds.
ghost use Rattle.std.specs.Prelude.{◌≡◌, ◌==◌};
ghost use Rattle.std.specs.List.{list_all};
ghost use Rattle.ios_meaning.specs.Deletions.{is_one, is_all, reach_of_members, reach_of_one_high, reach_of_all_highs, reach_of_rect, reach_of, reaches, key_of, is_other};

use ios_reader::CommunityShape;
use route_types::{Community, Rect};

/// For which communities alone an entry holds.
#[derive(Clone, Copy)]
pub enum Reach {
    /// For none.
    Nobody,
    /// For this one.
    One(Community),
    /// For those of this upper half.
    High(u16),
    /// For those of this lower half.
    Low(u16),
    /// For all.
    Every,
    /// For those of this rectangle.
    Within(Rect),
}

/// What the entries of a map have in common: one number is enough to find them by.
#[derive(Clone, Copy)]
pub enum KeySort {
    /// Each holds for one community, which is its number.
    OfOne,
    /// Each holds for an upper half, which is its number.
    OfHigh,
    /// Each holds for a lower half, which is its number.
    OfLow,
    /// Each holds for all communities; its number is 0.
    OfEvery,
}

fn are_all(members: &[Community], community: &Community) -> bool
    ensures { result ≡ list_all (λ m. m.0 == community.now.0) members.now }
{
    members.iter().all(|member| member.0 == community.0)
}

fn reach_of_members(members: &[Community]) -> Reach
    ensures { result ≡ reach_of_members members.now }
{
    let [first, more @ ..] = members else {
        return Reach::Every;
    };
    if are_all(more, first) {
        Reach::One(*first)
    } else {
        Reach::Nobody
    }
}

// Whether a range of halves is one number.
fn is_one(least: u16, most: u16) -> bool
    ensures { result ≡ is_one least most }
{
    least == most
}

// Whether a range of halves is all of them.
fn is_all(least: u16, most: u16) -> bool
    ensures { result ≡ is_all least most }
{
    least == 0 && most == u16::MAX
}

fn reach_of_one_high(rect: &Rect) -> Reach
    ensures { result ≡ reach_of_one_high rect.now }
{
    let high = rect.high_least();
    let low = rect.low_least();
    if is_one(low, rect.low_most()) {
        return Reach::One(Community(u32::from(high) * 65536 + u32::from(low)));
    }
    if is_all(low, rect.low_most()) {
        return Reach::High(high);
    }
    Reach::Within(*rect)
}

fn reach_of_all_highs(rect: &Rect) -> Reach
    ensures { result ≡ reach_of_all_highs rect.now }
{
    let low = rect.low_least();
    if is_one(low, rect.low_most()) {
        return Reach::Low(low);
    }
    if is_all(low, rect.low_most()) {
        return Reach::Every;
    }
    Reach::Within(*rect)
}

fn reach_of_rect(rect: &Rect) -> Reach
    ensures { result ≡ reach_of_rect rect.now }
{
    let high = rect.high_least();
    if is_one(high, rect.high_most()) {
        return reach_of_one_high(rect);
    }
    if is_all(high, rect.high_most()) {
        return reach_of_all_highs(rect);
    }
    Reach::Within(*rect)
}

/// For which communities alone an entry of this shape holds.
pub fn reach_of(shape: &CommunityShape) -> Reach
    ensures { result ≡ reach_of shape.now }
{
    match shape {
        CommunityShape::Standard(members) => reach_of_members(members.as_slice()),
        CommunityShape::Expanded(rect) => reach_of_rect(rect),
    }
}

/// Whether a community is among those of a reach.
pub fn reaches(reach: &Reach, community: &Community) -> bool
    ensures { result ≡ reaches community.now reach.now }
{
    match reach {
        Reach::Nobody => false,
        Reach::One(one) => community.0 == one.0,
        Reach::High(high) => community.high() == *high,
        Reach::Low(low) => community.low() == *low,
        Reach::Every => true,
        Reach::Within(rect) => rect.fits(community),
    }
}

/// The number by which an entry of this reach is found in the map of a sort.
pub fn key_of(sort: KeySort, reach: &Reach) -> Option<u32>
    ensures { result ≡ key_of sort reach.now }
{
    match (sort, reach) {
        (KeySort::OfOne, Reach::One(one)) => Some(one.0),
        (KeySort::OfHigh, Reach::High(high)) => Some(u32::from(*high)),
        (KeySort::OfLow, Reach::Low(low)) => Some(u32::from(*low)),
        (KeySort::OfEvery, Reach::Every) => Some(0),
        _ => None,
    }
}

/// Whether an entry of this reach is in none of the maps, and may hold.
pub fn is_other(reach: &Reach) -> bool
    ensures { result ≡ is_other reach.now }
{
    matches!(reach, Reach::Within(_))
}
