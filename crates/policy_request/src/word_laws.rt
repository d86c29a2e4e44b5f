// The laws of the words; their clauses are all that they do.
ghost use Rattle.std.specs.Prelude.{◌≡◌, ℕ, List};
ghost use Rattle.policy_request.specs.Languages.{IsChain, names_in};
ghost use Rattle.policy_request.specs.Words.{Request, Accepts, IsRefused, UsageCause};
ghost use Rattle.policy_request.specs.declared.language.Language.TheVariants.{Junos};

/// Words make at most one request.
#[tactic(auto, using(crate::proofs::Words::accepted_once))]
pub fn words_ask_once()
    ensures { (words : List (List ℕ)) (a b : Request) → Accepts words a → Accepts words b → a ≡ b }
{}

/// Words are refused exactly where one of three causes stands: the verb is unknown, clap's definition
/// finds a fault, or a value is out of its form.
pub fn refused_by_a_cause()
    // Refused words have a cause.
    ensures causes { (words : List (List ℕ)) → IsRefused words → UsageCause words }
    // Words with a cause are refused.
    ensures refuses { (words : List (List ℕ)) → UsageCause words → IsRefused words }
{}

/// The names in a policy word of Junos are those of the chain that the word is, and a word is no other chain.
pub fn one_chain()
    // The names that are found are a chain of the word.
    ensures found { (word : List ℕ) → IsChain word (names_in Junos word) }
    // A chain of the word is what is found.
    ensures only { (word : List ℕ) (names : List (List ℕ)) → IsChain word names → names ≡ names_in Junos word }
{}
