ghost use Rattle.std.specs.Prelude.{◌≡◌, ℕ, ◌++◌, Bool, false, List};
ghost use Rattle.route_types.specs.Route.{RouteParts};
ghost use Rattle.ios_tree.specs.declared.item.IosItem.{IosItem};
ghost use Rattle.ios_reader.specs.Profile.{PolicyParts, InProfile, IsPolicyOf};
ghost use Rattle.ios_meaning.specs.Meaning.{ios_meaning, name_of};
ghost use Rattle.ios_reader.specs.Entries.{Entry, entries_of};
ghost use Rattle.ios_meaning.specs.Order.{in_order};
ghost use Rattle.ios_readings.specs.Readings.{meaning_on_changed};
ghost use Rattle.ios_readings.specs.AtOnce.{run_at_once, from_number};

/// The law of the two readings of `continue`; its clauses are all that it does. In profile no line tests what an entry
/// of lower number sets that continues, so it is all one whether tests read the arriving route or the changed one.
pub fn both_readings_agree()
    // A route-map in profile gives each route the same by both readings.
    ensures in_profile { (all : List IosItem) (name : List ℕ) → InProfile name all → (r : RouteParts) → meaning_on_changed all name r ≡ ios_meaning all name r }
    // So does a checked policy.
    ensures checked { (policy : PolicyParts) → IsPolicyOf policy.items policy.names → (r : RouteParts) → meaning_on_changed policy.items (name_of policy) r ≡ ios_meaning policy.items (name_of policy) r }
{}

/// The law of the run that changes the route at once, as a graph runs it; its clauses are all that it does.
pub fn changes_at_once()
    // A route-map in profile gives each route what this run gives it.
    ensures in_profile { (all : List IosItem) (name : List ℕ) → InProfile name all → (r : RouteParts) → run_at_once all false 0 (in_order (λ e. e.number) (entries_of name all)) r ≡ ios_meaning all name r }
    // Where the run goes on at a number, those entries alone count that have it or a greater one.
    ensures goes_on { (all : List IosItem) (name : List ℕ) → InProfile name all → (before es : List Entry) → in_order (λ e. e.number) (entries_of name all) ≡ before ++ es → (held : Bool) (n : ℕ) (r : RouteParts) → run_at_once all held n es r ≡ run_at_once all held 0 (from_number n es) r }
{}
