//! The laws of written plans, each the contract of a function that does nothing.

ghost use Rattle.std.specs.Prelude.{◌≡◌, ◌≤◌, ◌∷◌, [], ℕ, Bool, true, false, List, length};
ghost use Rattle.std.specs.List.{list_any, list_all, AllByRecursion};
ghost use Rattle.junos_tree.specs.declared.item.JunosItem.{JunosItem};
ghost use Rattle.junos_reader.specs.Facts.{forms_of as forms_in};
ghost use Rattle.junos_reader.specs.Profile.{InProfile};
ghost use Rattle.junos_text.specs.Layout.{forms_of};
ghost use Rattle.junos_text.specs.Written.{FitsName, MayBeWritten, forms};
ghost use Rattle.junos_plans.specs.Fits.{FitsSteps};
ghost use Rattle.junos_plans.specs.declared.step.PlannedStep.{PlannedStep};
ghost use Rattle.junos_layout.specs.Options.{Definitions, options_of};
ghost use Rattle.junos_layout.specs.Uses.{HasFew, FitsDefinitions, NamesDefinitions};
ghost use Rattle.junos_layout.specs.Writing.{Writing};
ghost use Rattle.junos_writable.specs.Names.{IsOwnName, NamesOwn, names_of, breaks_names};

/// The definitions of planned steps as a text.
pub fn plans_may_be_written()
    // Where the values fit, what is used is named by its definition, and the policy's name may name a policy, the definitions may be written.
    ensures written { (name : List ℕ) (defs : Definitions) (w : Writing) (steps : List PlannedStep) → FitsName name → HasFew defs w steps → FitsDefinitions defs → FitsSteps steps → NamesDefinitions name defs w steps → MayBeWritten (options_of name defs w steps) }
    // Each definition has the policy's name, or stands under it with `-` and more behind it.
    ensures names { (name : List ℕ) (defs : Definitions) (w : Writing) (steps : List PlannedStep) → AllByRecursion (IsOwnName name) (names_of (forms_of (options_of name defs w steps))) }
    // So has each definition that is used, where what is used is named by its definition.
    ensures uses { (name : List ℕ) (defs : Definitions) (w : Writing) (steps : List PlannedStep) → NamesDefinitions name defs w steps → AllByRecursion (NamesOwn name) (forms_of (options_of name defs w steps)) }
{}

/// Any tree that says the definitions of planned steps has the policy in profile under its name: it is there, and no statement
/// has a fault.
pub fn written_plans_are_in_profile()
    ensures { (name : List ℕ) (defs : Definitions) (w : Writing) (steps : List PlannedStep) (items : List JunosItem) → forms items ≡ forms_of (options_of name defs w steps) → HasFew defs w steps → FitsDefinitions defs → FitsSteps steps → NamesDefinitions name defs w steps → InProfile (name ∷ []) items }
{}

/// The forms of a tree that a text says are those that the check and the meaning look at.
pub fn trees_have_forms()
    ensures { (items : List JunosItem) → forms items ≡ forms_in items }
{}

/// A word whose bytes are all of a sort may name a policy, where no byte that breaks a name is of that sort.
pub fn plain_words_name_policies()
    ensures { (sort : ℕ → Bool) (word : List ℕ) → list_any sort breaks_names ≡ false → 1 ≤ length word → list_all sort word ≡ true → FitsName word }
{}
