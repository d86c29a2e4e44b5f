ghost use Rattle.std.specs.Prelude.{◌≡◌, ℕ, Bool, List, Some, None};
ghost use Rattle.text_words.specs.declared.statement.Span.{Span};
ghost use Rattle.policy_text.specs.declared.fault.Cause.{Cause};
ghost use Rattle.ios_tree.specs.Spans.{SpansRise};
ghost use Rattle.ios_tree.specs.declared.item.IosForm.{IosForm};
ghost use Rattle.ios_tree.specs.declared.item.IosItem.{IosItem};
ghost use Rattle.ios_reader.specs.Profile.{first_fault_within, IsSoundWithin, IsFirstFaultWithin};

/// The law of the first fault; its clauses are all that it does. The spans of a tree that was read rise.
pub fn first_fault_is_least()
    // Where there is no first fault, no place of the tree has one.
    ensures none { (takes : IosForm → Bool) (name : List ℕ) (all : List IosItem) → first_fault_within takes name all ≡ None → IsSoundWithin takes name all }
    // Where no place of the tree has a fault, there is no first one.
    ensures sound { (takes : IosForm → Bool) (name : List ℕ) (all : List IosItem) → IsSoundWithin takes name all → first_fault_within takes name all ≡ None }
    // The first fault is at a place, and no place with a fault starts before it.
    ensures first { (takes : IosForm → Bool) (name : List ℕ) (all : List IosItem) (end : ℕ) (span : Span) (cause : Cause) → SpansRise end all → first_fault_within takes name all ≡ Some (span, cause) → IsFirstFaultWithin takes name all span cause }
    // A place with a fault, before which none with a fault starts, is that of the first fault.
    ensures only { (takes : IosForm → Bool) (name : List ℕ) (all : List IosItem) (end : ℕ) (span : Span) (cause : Cause) → SpansRise end all → IsFirstFaultWithin takes name all span cause → first_fault_within takes name all ≡ Some (span, cause) }
{}
