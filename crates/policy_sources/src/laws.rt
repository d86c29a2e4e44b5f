//! The law of what comes of a source; its clauses are all that it does.
ghost use Rattle.std.specs.Prelude.{ℕ, List};
ghost use Rattle.policy_request.specs.declared.language.Language.{Language};
ghost use Rattle.policy_sources.specs.Source.{AreAlike, Load, Loads, Source, Taken, source_in};

/// One thing comes of a source: its policy, or why there is none.
pub fn one_load()
    // Any two things that come of a source are one policy, or the same refusal.
    ensures alike { (taken : Taken) (source : Source) (a b : Load) → Loads taken source a → Loads taken source b → AreAlike a b }
    // Something comes of what a policy word of a language names in a text.
    ensures some { (taken : Taken) (language : Language) (word text : List ℕ) → (load : Load) × Loads taken (source_in language word text) load }
{}
