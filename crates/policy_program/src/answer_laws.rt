// The laws of the answers to a request; their clauses are all that they do.
ghost use Rattle.std.specs.Prelude.{◌≡◌, ◌⊎◌, ℕ, List, Some};
ghost use Rattle.policy_outside.specs.Texts.{Texts};
ghost use Rattle.policy_request.specs.Words.{Request};
ghost use Rattle.policy_program.specs.Answer.{Answer, Refusal, Told, status_of};
ghost use Rattle.policy_program.specs.Requests.{IsDue, IsServed};

/// The answers that are due to a request by the texts of a shelf have one status: that of a refusal, or, where
/// every file is as it has to be, that of a result.
pub fn one_status_is_due()
    // Any two answers that are due have one status.
    ensures one { (texts : Texts) (q : Request) (a b : Answer) → IsDue (Some texts) q a → IsDue (Some texts) q b → status_of a ≡ status_of b }
    // Every file is as it has to be, or a refusal is due.
    ensures some { (texts : Texts) (q : Request) → IsServed (Some texts) q ⊎ ((file : List ℕ) × (about : Told) × IsDue (Some texts) q (Refusal file about)) }
    // Not both.
    ensures not_both { (texts : Texts) (q : Request) (file : List ℕ) (about : Told) → IsServed (Some texts) q → IsDue (Some texts) q (Refusal file about) → ⊥ }
{}
