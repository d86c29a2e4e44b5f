//! The laws of planned policies, each the contract of a function that does nothing.

ghost use Rattle.std.specs.Prelude.{◌≡◌, ◌∷◌, [], ℕ, List};
ghost use Rattle.prefix_sets.specs.Range.{RangeParts, in_range};
ghost use Rattle.prefix_sets.specs.LongestMatch.{longest_match};
ghost use Rattle.std.specs.List.{list_any};
ghost use Rattle.route_types.specs.Address.{PrefixParts};
ghost use Rattle.route_types.specs.Route.{RouteParts, InRange};
ghost use Rattle.junos_tree.specs.declared.item.JunosItem.{JunosItem};
ghost use Rattle.junos_reader.specs.Facts.{forms_of as forms_in};
ghost use Rattle.junos_reader.specs.Profile.{InProfile};
ghost use Rattle.junos_meaning.specs.Meaning.{junos_meaning};
ghost use Rattle.junos_text.specs.Layout.{forms_of};
ghost use Rattle.junos_plans.specs.Apart.{AreApart};
ghost use Rattle.junos_plans.specs.Conditions.{condition_holds};
ghost use Rattle.junos_plans.specs.Fits.{FitsSteps};
ghost use Rattle.junos_plans.specs.Plans.{planned_outcome};
ghost use Rattle.junos_plans.specs.declared.step.PlannedStep.{PlannedStep};
ghost use Rattle.junos_layout.specs.Options.{Definitions, options_of};
ghost use Rattle.junos_layout.specs.Sharing.{Tells, definitions_of, written_by};
ghost use Rattle.junos_layout.specs.Uses.{FitsDefinitions, HasFew, NamesDefinitions};
ghost use Rattle.junos_layout.specs.Writing.{Writing};

/// Of prefixes that are apart the longest match is the only one.
#[tactic(auto, using(crate::proofs::Apart::longest_alone))]
pub fn lists_answer()
    ensures { (xs : List RangeParts) (q : PrefixParts) → AreApart xs → longest_match xs q ≡ list_any (λ x. in_range x q) xs }
{}

/// Any tree of the definitions of planned steps, which are named by the definitions that stand in front, has the policy in
/// profile under its name: it is there, and no statement has a fault.
pub fn plans_are_in_profile()
    ensures { (name : List ℕ) (defs : Definitions) (w : Writing) (steps : List PlannedStep) (items : List JunosItem) → forms_in items ≡ forms_of (options_of name defs w steps) → HasFew defs w steps → FitsDefinitions defs → FitsSteps steps → NamesDefinitions name defs w steps → InProfile (name ∷ []) items }
{}

/// The definitions of planned steps, which are named by the definitions that stand in front, give every route the outcome of
/// the steps.
pub fn plans_mean_their_steps()
    ensures { (name : List ℕ) (defs : Definitions) (w : Writing) (steps : List PlannedStep) → HasFew defs w steps → FitsDefinitions defs → FitsSteps steps → NamesDefinitions name defs w steps → (r : RouteParts) → InRange r → junos_meaning (forms_of (options_of name defs w steps)) (name ∷ []) r ≡ planned_outcome (condition_holds r) steps r }
{}

/// Where the definitions of steps are taken once each, in the order of their first use, each name is that of its definition.
pub fn plans_name_their_definitions()
    ensures { (tells : Tells) (name : List ℕ) (steps : List PlannedStep) → NamesDefinitions name (definitions_of tells steps) (written_by tells name (definitions_of tells steps)) steps }
{}

/// The definitions of steps whose values fit fit.
pub fn definitions_of_plans_fit()
    ensures { (tells : Tells) (steps : List PlannedStep) → FitsSteps steps → FitsDefinitions (definitions_of tells steps) }
{}
