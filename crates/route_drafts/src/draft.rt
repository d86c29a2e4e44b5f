ghost use Rattle.std.specs.Prelude.{◌≡◌, ◌++◌, [], true, false, not, IfOk, filter, reverse};
ghost use Rattle.route_types.specs.Address.{PrefixParts};
ghost use Rattle.route_types.specs.Community.{fits, set_of};
ghost use Rattle.route_types.specs.Sets.{fits_some};
ghost use Rattle.route_drafts.specs.Drafts.{route_of};

use route_types::{
    Community, Memory, NextHop, Origin, Prefix, Rect, Route, Row, new_route, unfitted,
};
use std::alloc::Global;

/// The attributes of a route while statements change them. The path stands from its far end, so that a
/// prepend grows it; the communities stand in any order, and may repeat.
#[derive(Debug, Drop)]
pub struct Draft {
    pub next_hop: NextHop,
    pub path: Row<u32>,
    pub origin: Origin,
    pub local_preference: u32,
    pub med: u32,
    pub weight: u16,
    pub communities: Row<Community>,
}

// The numbers, the last one first.
fn backwards(alloc: Global, numbers: &[u32]) -> Result<Vec<u32>, Memory>
    ensures { IfOk result (λ found. found.items ≡ reverse numbers.now) }
{
    let mut found = Vec::from_slice(alloc, numbers)?;
    found.reverse();
    Ok(found)
}

// The communities that others are added to, or that they take the place of.
fn base(alloc: Global, additive: bool, communities: Row<Community>) -> Vec<Community>
    ensures { result.items ≡ elim additive [ true ↦ communities | false ↦ [] ] }
{
    if additive {
        return communities.into_vec();
    }
    Vec::new(alloc)
}

impl Draft {
    /// The attributes of a route. Its one error is want of memory, here and below.
    pub fn of_route(alloc: Global, route: &Route) -> Result<Draft, Memory>
        ensures { IfOk result (λ d. route_of route.now.prefix d ≡ route.now) }
    {
        let path = backwards(alloc, route.path())?;
        let communities = Vec::from_slice(alloc, route.communities())?;
        Ok(Draft {
            next_hop: *route.next_hop(),
            path: Row::from_vec(path),
            origin: *route.origin(),
            local_preference: route.local_preference(),
            med: route.med(),
            weight: route.weight(),
            communities: Row::from_vec(communities),
        })
    }

    /// The route of this prefix with these attributes.
    pub fn finished(self, alloc: Global, prefix: &Prefix) -> Result<Route, Memory>
        ensures { IfOk result (λ r. r ≡ route_of prefix.now self) }
    {
        let mut path = self.path.into_vec();
        path.reverse();
        new_route(
            alloc,
            *prefix,
            self.next_hop,
            path.as_slice(),
            self.origin,
            self.local_preference,
            self.med,
            self.weight,
            self.communities.as_slice(),
        )
    }

    /// With these numbers before the path, in their order.
    #[tactic(auto, using(crate::proofs::Drafts::prepended))]
    pub fn with_prepended(self, alloc: Global, numbers: &[u32]) -> Result<Draft, Memory>
        ensures value { IfOk result (λ d. d ≡ record self { path = self.path ++ reverse numbers.now }) }
        ensures route { IfOk result (λ d. (p : PrefixParts) → route_of p d ≡ record (route_of p self) { path = numbers.now ++ reverse self.path }) }
    {
        let more = backwards(alloc, numbers)?;
        let mut path = self.path.into_vec();
        path.extend_from_slice(more.as_slice())?;
        Ok(Draft {
            path: Row::from_vec(path),
            ..self
        })
    }

    /// With these communities added to its own, or in their place.
    pub fn with_communities(
        self,
        alloc: Global,
        additive: bool,
        added: &[Community],
    ) -> Result<Draft, Memory>
        ensures value { IfOk result (λ d. d ≡ record self { communities = elim additive [ true ↦ self.communities | false ↦ [] ] ++ added.now }) }
        ensures route { IfOk result (λ d. (p : PrefixParts) → route_of p d ≡ record (route_of p self) { communities = set_of (elim additive [ true ↦ set_of self.communities | false ↦ [] ] ++ added.now) }) }
    {
        let mut communities = base(alloc, additive, self.communities);
        communities.extend_from_slice(added)?;
        Ok(Draft {
            communities: Row::from_vec(communities),
            ..self
        })
    }

    /// Without the communities that fit some of the rectangles.
    pub fn without_fitting(self, alloc: Global, rects: &[Rect]) -> Result<Draft, Memory>
        ensures value { IfOk result (λ d. d ≡ record self { communities = filter (λ c. not (fits_some fits rects.now c)) self.communities }) }
        ensures route { IfOk result (λ d. (p : PrefixParts) → route_of p d ≡ record (route_of p self) { communities = filter (λ c. not (fits_some fits rects.now c)) (set_of self.communities) }) }
    {
        let communities = unfitted(alloc, rects, self.communities.as_slice())?;
        Ok(Draft {
            communities: Row::from_vec(communities),
            ..self
        })
    }
}
