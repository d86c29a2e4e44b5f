ghost use Rattle.std.specs.Prelude.{◌≡◌, ℕ, List, Some, None};
ghost use Rattle.text_words.specs.declared.statement.Span.{Span};
ghost use Rattle.policy_text.specs.Causes.{Rise};
ghost use Rattle.policy_text.specs.declared.fault.Cause.{Cause};
ghost use Rattle.junos_tree.specs.declared.item.JunosItem.{JunosItem};
ghost use Rattle.junos_reader.specs.Profile.{first_fault, span_of, IsSound, IsFirst};

/// The law of the first fault; its clauses are all that it does. The spans of a tree that was read rise.
pub fn first_fault_is_least()
    // Where there is no first fault, no place of the tree has one.
    ensures none { (names : List (List ℕ)) (all : List JunosItem) → first_fault names all ≡ None → IsSound names all }
    // Where no place of the tree has a fault, there is no first one.
    ensures sound { (names : List (List ℕ)) (all : List JunosItem) → IsSound names all → first_fault names all ≡ None }
    // The first fault is at a place, and no place with a fault starts before it.
    ensures first { (names : List (List ℕ)) (all : List JunosItem) (span : Span) (cause : Cause) → Rise span_of all → first_fault names all ≡ Some (span, cause) → IsFirst names all span cause }
    // A place with a fault, before which none with a fault starts, is that of the first fault.
    ensures only { (names : List (List ℕ)) (all : List JunosItem) (span : Span) (cause : Cause) → Rise span_of all → IsFirst names all span cause → first_fault names all ≡ Some (span, cause) }
{}
