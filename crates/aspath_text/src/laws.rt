ghost use Rattle.std.specs.Prelude.{◌≡◌, ℕ, List, Some};
ghost use Rattle.aspath_text.specs.IosGrammar.{SpellsPattern};
ghost use Rattle.aspath_text.specs.IosRead.{ios_pattern_in};
ghost use Rattle.aspath_text.specs.JunosGrammar.{SpellsJunos};
ghost use Rattle.aspath_text.specs.JunosRead.{junos_pattern_in};
ghost use Rattle.path_patterns.specs.Shape.{IsShaped};
ghost use Rattle.path_patterns.specs.declared.items.TokenPattern.{TokenPattern};
ghost use Rattle.path_patterns.specs.declared.pattern.IosBranch.{IosBranch};

/// The law of IOS path patterns; its clauses are all that it does. The pattern that is found in a text
/// is spelled by it, a pattern that is spelled is found, so that a text spells at most one, and each has
/// the shape.
pub fn ios_patterns()
    // What is found is spelled.
    ensures found { (text : List ℕ) (bs : List IosBranch) → ios_pattern_in text ≡ Some bs → SpellsPattern text bs }
    // What is spelled is found.
    ensures only { (text : List ℕ) (bs : List IosBranch) → SpellsPattern text bs → ios_pattern_in text ≡ Some bs }
    // What is spelled has the shape.
    ensures shaped { (text : List ℕ) (bs : List IosBranch) → SpellsPattern text bs → IsShaped bs }
{}

/// The laws of the function that finds the Junos pattern of a text; its clauses are all that it does.
#[tactic(auto, using(crate::proofs::JunosRead::junos_pattern_found, crate::proofs::JunosRead::junos_pattern_only))]
pub fn junos_patterns()
    // The text spells the pattern that is found,
    ensures found { (text : List ℕ) (p : TokenPattern) → junos_pattern_in text ≡ Some p → SpellsJunos text p }
    // and a pattern that the text spells is found.
    ensures only { (text : List ℕ) (p : TokenPattern) → SpellsJunos text p → junos_pattern_in text ≡ Some p }
{}
