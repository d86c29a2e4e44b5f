ghost use Rattle.std.specs.Prelude.{◌≡◌, ◌∷◌, IfOk};
ghost use Rattle.route_types.specs.Community.{IsAscending, set_of};

use crate::address::{Address, Prefix};
use crate::community::{Community, set_of};
use std::alloc::Global;
use std::marker::Model;
use text_words::{Memory, Row};

/// The ORIGIN attribute (RFC 4271, section 5.1.1).
#[derive(Clone, Copy, Debug, PartialEq, Eq, Hash)]
pub enum Origin {
    Igp,
    Egp,
    Incomplete,
}

/// The next hop (RFC 4271, section 5.1.3): an address, or the router's own one.
#[derive(Clone, Copy, Debug, PartialEq, Eq, Hash)]
pub enum NextHop {
    At(Address),
    Own,
}

/// A BGP route with every attribute present. The path lists AS numbers (RFC 6793), the nearest
/// first; the communities are in rising order and without repeats.
#[derive(Debug, Drop)]
pub struct Route {
    pub(crate) prefix: Prefix,
    pub(crate) next_hop: NextHop,
    pub(crate) path: Row<u32>,
    pub(crate) origin: Origin,
    pub(crate) local_preference: u32,
    pub(crate) med: u32,
    pub(crate) weight: u16,
    pub(crate) communities: Row<Community>,
}

impl Model for Route {
    ghost use Rattle.route_types.specs.Route.{RouteParts};
    ghost use Rattle.route_types.specs.Community.{IsAscending};

    ghost Value = { RouteParts };

    ghost view = { λ r. record { prefix = r.prefix; next_hop = r.next_hop; path = r.path; origin = r.origin; local_preference = r.local_preference; med = r.med; weight = r.weight; communities = r.communities } };

    ghost invariant = { λ r. IsAscending r.communities };
}

impl Route {
    /// The destination.
    pub fn prefix(&self) -> &Prefix
        ensures { result.now ≡ self.now.prefix }
    {
        &self.prefix
    }

    /// The next hop.
    pub fn next_hop(&self) -> &NextHop
        ensures { result.now ≡ self.now.next_hop }
    {
        &self.next_hop
    }

    /// The AS path, the nearest number first.
    pub fn path(&self) -> &[u32]
        ensures { result.now ≡ self.now.path }
    {
        self.path.as_slice()
    }

    /// The origin.
    pub fn origin(&self) -> &Origin
        ensures { result.now ≡ self.now.origin }
    {
        &self.origin
    }

    /// The local preference, 0 to 2^32 - 1.
    pub fn local_preference(&self) -> u32
        ensures { result ≡ self.now.local_preference }
    {
        self.local_preference
    }

    /// The MED, 0 to 2^32 - 1.
    pub fn med(&self) -> u32
        ensures { result ≡ self.now.med }
    {
        self.med
    }

    /// The weight, 0 to 65535.
    pub fn weight(&self) -> u16
        ensures { result ≡ self.now.weight }
    {
        self.weight
    }

    /// The communities, in rising order and without repeats.
    pub fn communities(&self) -> &[Community]
        ensures value { result.now ≡ self.now.communities }
        ensures ascending { IsAscending self.now.communities }
    {
        self.communities.as_slice()
    }
}

impl Route {
    pub(crate) fn with_next_hop(self, next_hop: NextHop) -> Route
        ensures { result ≡ record self { next_hop = next_hop } }
    {
        Route { next_hop, ..self }
    }

    pub(crate) fn with_number_in_front(self, number: u32) -> Result<Route, Memory>
        ensures { IfOk result (λ r. r ≡ record self { path = number ∷ self.path }) }
    {
        let mut route = self;
        route.path.push_front(number)?;
        Ok(route)
    }

    pub(crate) fn with_origin(self, origin: Origin) -> Route
        ensures { result ≡ record self { origin = origin } }
    {
        Route { origin, ..self }
    }

    pub(crate) fn with_local_preference(self, local_preference: u32) -> Route
        ensures { result ≡ record self { local_preference = local_preference } }
    {
        Route {
            local_preference,
            ..self
        }
    }

    pub(crate) fn with_med(self, med: u32) -> Route
        ensures { result ≡ record self { med = med } }
    {
        Route { med, ..self }
    }

    pub(crate) fn with_weight(self, weight: u16) -> Route
        ensures { result ≡ record self { weight = weight } }
    {
        Route { weight, ..self }
    }

    pub(crate) fn with_communities(self, communities: Row<Community>) -> Route
        requires { IsAscending communities }
        ensures { result ≡ record self { communities = communities } }
    {
        Route {
            communities,
            ..self
        }
    }
}

/// The route of these attributes. `path` lists AS numbers, the nearest first; the communities may
/// come in any order and repeat. The one error is want of memory.
#[tactic(auto, using(crate::proofs::Sets::is_ascending_set))]
pub fn new_route(
    alloc: Global,
    prefix: Prefix,
    next_hop: NextHop,
    path: &[u32],
    origin: Origin,
    local_preference: u32,
    med: u32,
    weight: u16,
    communities: &[Community],
) -> Result<Route, Memory>
    ensures { IfOk result (λ r. r ≡ record { prefix = prefix; next_hop = next_hop; path = path.now; origin = origin; local_preference = local_preference; med = med; weight = weight; communities = set_of communities.now }) }
{
    let communities = set_of(Vec::from_slice(alloc, communities)?);
    Ok(Route {
        prefix,
        next_hop,
        path: Row::from_slice(alloc, path)?,
        origin,
        local_preference,
        med,
        weight,
        communities: Row::from_vec(communities),
    })
}

/// What a policy answers on a route.
#[derive(Debug, Drop)]
pub enum Outcome {
    /// The route is dropped.
    Reject,
    /// The route is kept, as changed.
    Accept(Route),
}
