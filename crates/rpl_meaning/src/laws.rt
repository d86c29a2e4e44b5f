//! The laws of the meaning, each the contract of a function that does nothing.

ghost use Rattle.std.specs.Prelude.{◌≡◌, Bool, []};
ghost use Rattle.rpl_words.specs.Conditions.{Condition, terms_of};
ghost use Rattle.rpl_words.specs.declared.condition.RplTest.{RplTest};
ghost use Rattle.rpl_meaning.specs.Conditions.{condition_holds, terms_hold};

/// The terms of a condition, of which each stands behind what it joins, answer as the condition does: by `not`,
/// `and` and `or` of its parts.
pub fn conditions_hold()
    ensures { (test : RplTest → Bool) (c : Condition) → terms_hold test [] (terms_of c) ≡ condition_holds test c }
{}
