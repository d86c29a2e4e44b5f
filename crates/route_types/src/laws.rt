ghost use Rattle.std.specs.Prelude.{◌≡◌, ◌⊎◌, ℕ, List, Ok, Err};
ghost use Rattle.route_types.specs.Route.{RouteParts, InRange};
ghost use Rattle.route_types.specs.RouteRead.{route_in};
ghost use Rattle.route_types.specs.RouteText.{SpellsRoute, IsFirstBadLine, route_text};

/// The laws of the text of a route; its clauses are all that it does. The printed text of a route
/// spells that route and no other.
pub fn route_texts()
    // The printed text of a route in range spells the route.
    ensures printed { (r : RouteParts) → InRange r → SpellsRoute (route_text r) r }
    // A text spells at most one route.
    ensures one_route { (text : List ℕ) (r q : RouteParts) → SpellsRoute text r → SpellsRoute text q → r ≡ q }
    // A route that is spelled is in range.
    ensures in_range { (text : List ℕ) (r : RouteParts) → SpellsRoute text r → InRange r }
    // A text spells a route, or it has a first line that is not the form ..
    ensures either { (text : List ℕ) → ((r : RouteParts) × SpellsRoute text r) ⊎ ((n : ℕ) × IsFirstBadLine text n) }
    // .. and not both,
    ensures not_both { (text : List ℕ) (n : ℕ) (r : RouteParts) → IsFirstBadLine text n → SpellsRoute text r → ⊥ }
    // and there is one first line.
    ensures one_line { (text : List ℕ) (n m : ℕ) → IsFirstBadLine text n → IsFirstBadLine text m → n ≡ m }
    // The function finds the route that a text spells,
    ensures found { (text : List ℕ) (r : RouteParts) → route_in text ≡ Ok r → SpellsRoute text r }
    ensures only { (text : List ℕ) (r : RouteParts) → SpellsRoute text r → route_in text ≡ Ok r }
    // and else the first line that is not the form.
    ensures refused { (text : List ℕ) (n : ℕ) → route_in text ≡ Err n → IsFirstBadLine text n }
{}
