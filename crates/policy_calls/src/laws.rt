ghost use Rattle.std.specs.Prelude.{◌≡◌, ℕ, List, true};
ghost use Rattle.policy_calls.specs.Calls.{Link, Walks, leads};

/// The law of what leads to what; its clauses are all that it does.
pub fn leading_is_walking()
    // Where a policy leads to another, there is a walk from it to that one, each policy calling the next.
    ensures walk { (links : List Link) (p r : List ℕ) → leads links p r ≡ true → (qs : List (List ℕ)) × Walks links p qs r }
    // Where there is a walk, the first policy leads to the last.
    ensures leads { (links : List Link) (p r : List ℕ) (qs : List (List ℕ)) → Walks links p qs r → leads links p r ≡ true }
{}
