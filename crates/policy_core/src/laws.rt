// Laws of nodes, for those who make them: which are settled, and what is said from a node on.
ghost use Rattle.std.specs.Prelude.{◌≡◌, ℕ, ◌<◌, Bool, true, List, length};
ghost use Rattle.std.specs.List.{AllByRecursion};
ghost use Rattle.route_types.specs.declared.change.Change.{Change};
ghost use Rattle.core_nodes.specs.Made.{Keeps, IsMade};
ghost use Rattle.core_nodes.specs.Nodes.{AreNodes};
ghost use Rattle.core_nodes.specs.declared.atom.Atom.{Atom};
ghost use Rattle.core_nodes.specs.declared.node.NodeKind.{NodeKind};
ghost use Rattle.core_nodes.specs.declared.node.NodeKind.TheVariants.{Test, Do, Stop};
ghost use Rattle.policy_core.specs.Guards.{said_at, says_own};
ghost use Rattle.policy_core.specs.Settled.{IsUntested, IsSettled};

/// Which new nodes are settled, and that nodes stay so while the graph grows.
pub fn new_nodes_are_settled()
    // A test of two settled nodes is settled.
    ensures test { (old new : List NodeKind) (a : Atom) (met unmet p : ℕ) → met < length old → unmet < length old → Keeps old new → IsMade old new (Test a met unmet) p → IsSettled old met → IsSettled old unmet → IsSettled new p }
    // A change before a node that has no test behind it has none, and is settled.
    ensures act { (old new : List NodeKind) (c : Change) (next p : ℕ) → next < length old → Keeps old new → IsMade old new (Do c next) p → IsUntested old next → IsUntested new p × IsSettled new p }
    // An end has no test behind it, and is settled.
    ensures stop { (old new : List NodeKind) (accept : Bool) (p : ℕ) → IsMade old new (Stop accept) p → IsUntested new p × IsSettled new p }
    // The older nodes stay as they are.
    ensures settled { (old new : List NodeKind) (p : ℕ) → Keeps old new → p < length old → IsSettled old p → IsSettled new p }
    ensures untested { (old new : List NodeKind) (p : ℕ) → Keeps old new → p < length old → IsUntested old p → IsUntested new p }
{}

/// Where the test or change of each node of a graph passes, those from each node on pass, as `steps` asks.
pub fn all_nodes_say()
    ensures { (on_atom : Atom → Bool) (on_change : Change → Bool) (nodes : List NodeKind) (p : ℕ) → AreNodes nodes → p < length nodes → AllByRecursion (λ k. says_own on_atom on_change k ≡ true) nodes → said_at on_atom on_change nodes p ≡ true }
{}
