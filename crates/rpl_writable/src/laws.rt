//! The laws of written plans, each the contract of a function that does nothing.

ghost use Rattle.std.specs.Prelude.{◌≡◌, ◌≤◌, ℕ, Bool, true, false, List, length};
ghost use Rattle.std.specs.List.{list_any, list_all, AllByRecursion};
ghost use Rattle.rpl_plans.specs.Fits.{FitsSteps};
ghost use Rattle.rpl_plans.specs.declared.step.PlannedStep.{PlannedStep};
ghost use Rattle.rpl_layout.specs.Forms.{PlannedSets, HasFew, forms_of};
ghost use Rattle.rpl_layout.specs.Guards.{Writing};
ghost use Rattle.rpl_layout.specs.Sharing.{Tells, sets_of, written_by};
ghost use Rattle.rpl_text.specs.Blocks.{names_of};
ghost use Rattle.rpl_text.specs.Written.{HeadsBlock, MayBeWritten};
ghost use Rattle.rpl_writable.specs.Names.{IsOwnName, breaks_names};

/// The forms of planned steps as a text.
pub fn plans_may_be_written()
    // Where each set is taken once, the values fit and the policy's name may name a block, the forms may be written.
    ensures written { (tells : Tells) (name : List ℕ) (steps : List PlannedStep) → HeadsBlock name → HasFew (sets_of tells steps) → FitsSteps steps → MayBeWritten (forms_of name (sets_of tells steps) (written_by tells name (sets_of tells steps)) steps) }
    // Each block has the policy's name, or stands under it with `-` and more behind it.
    ensures names { (name : List ℕ) (sets : PlannedSets) (written : Writing) (steps : List PlannedStep) → AllByRecursion (IsOwnName name) (names_of (forms_of name sets written steps)) }
{}

/// A word whose bytes are all of a sort may name a block, where no byte that breaks a name is of that sort.
pub fn plain_words_name_blocks()
    ensures { (sort : ℕ → Bool) (word : List ℕ) → list_any sort breaks_names ≡ false → 1 ≤ length word → list_all sort word ≡ true → HeadsBlock word }
{}
