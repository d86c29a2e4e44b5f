ghost use Rattle.std.specs.Prelude.{◌≡◌, ℕ, List};
ghost use Rattle.text_words.specs.declared.statement.Span.{Span};
ghost use Rattle.policy_text.specs.declared.fault.Cause.{Cause};
ghost use Rattle.rpl_forms.specs.declared.item.RplItem.{RplItem};
ghost use Rattle.rpl_reader.specs.Profile.{HasFault, IsSound, IsFirstFault, ComesFirst};

/// The law of the first fault; its clauses are all that it does.
pub fn first_fault_is_least()
    // No fault comes before the first one: none starts before it, and none at its place has an earlier cause.
    ensures least { (policy : List ℕ) (all : List RplItem) (span : Span) (cause : Cause) → IsFirstFault policy all span cause → (other : Span) (why : Cause) → HasFault policy all other why → ComesFirst span cause other why }
    // There is one first fault at most: the place where it starts, and its cause.
    ensures one { (policy : List ℕ) (all : List RplItem) (span other : Span) (cause why : Cause) → IsFirstFault policy all span cause → IsFirstFault policy all other why → (span.start ≡ other.start) × (cause ≡ why) }
    // A policy without a fault has no first one.
    ensures sound { (policy : List ℕ) (all : List RplItem) (span : Span) (cause : Cause) → IsSound policy all → IsFirstFault policy all span cause → ⊥ }
{}
