//! The laws of planned policies, each the contract of a function that does nothing.

ghost use Rattle.std.specs.Prelude.{◌≡◌, ◌∷◌, [], ℕ, Bool, List, true};
ghost use Rattle.route_types.specs.Route.{RouteParts, InRange};
ghost use Rattle.rpl_words.specs.Conditions.{terms_of, is_shaped, ByOr};
ghost use Rattle.rpl_words.specs.declared.condition.RplTest.{RplTest};
ghost use Rattle.rpl_forms.specs.declared.item.RplItem.{RplItem};
ghost use Rattle.rpl_tree.specs.Tree.{forms};
ghost use Rattle.rpl_reader.specs.Profile.{InProfile};
ghost use Rattle.rpl_meaning.specs.Conditions.{terms_hold};
ghost use Rattle.rpl_meaning.specs.Meaning.{rpl_meaning};
ghost use Rattle.rpl_plans.specs.Holds.{planned_holds};
ghost use Rattle.rpl_plans.specs.Plans.{guard_says, planned_outcome};
ghost use Rattle.rpl_plans.specs.declared.step.PlannedLiteral.{PlannedLiteral};
ghost use Rattle.rpl_plans.specs.declared.step.PlannedStep.{PlannedStep};
ghost use Rattle.rpl_layout.specs.Forms.{PlannedSets, HasFew, NamesItsSets, forms_of};
ghost use Rattle.rpl_layout.specs.Guards.{Writing, guard_condition};
ghost use Rattle.rpl_layout.specs.Sharing.{Tells, sets_of, written_by};

/// What the condition of a guard says.
pub fn guards_answer()
    // It holds where all literals of the guard do, by what their tests answer as they are written.
    ensures answers { (test : RplTest → Bool) (written : Writing) (l : PlannedLiteral) (ls : List PlannedLiteral) → terms_hold test [] (terms_of (guard_condition written l ls)) ≡ guard_says (λ t. test (written t)) (l ∷ ls) }
    // Its words bind as they are joined.
    ensures shaped { (written : Writing) (l : PlannedLiteral) (ls : List PlannedLiteral) → is_shaped ByOr (guard_condition written l ls) ≡ true }
{}

/// Any tree of the forms of planned steps, whose tests name the sets that stand in front, has the policy in profile under
/// its name: it is there, and no statement has a fault.
pub fn plans_are_in_profile()
    ensures { (name : List ℕ) (sets : PlannedSets) (written : Writing) (steps : List PlannedStep) (items : List RplItem) → forms items ≡ forms_of name sets written steps → NamesItsSets name sets written steps → InProfile name items }
{}

/// The forms of planned steps, whose tests name the sets that stand in front, give every route the outcome of the steps.
pub fn plans_mean_their_steps()
    ensures { (name : List ℕ) (sets : PlannedSets) (written : Writing) (steps : List PlannedStep) → NamesItsSets name sets written steps → (r : RouteParts) → InRange r → rpl_meaning (forms_of name sets written steps) name r ≡ planned_outcome (planned_holds r) steps r }
{}

/// Where the sets of steps are taken once each, in the order of their first use, each test is written by the name of its set.
pub fn plans_name_their_sets()
    ensures { (tells : Tells) (name : List ℕ) (steps : List PlannedStep) → HasFew (sets_of tells steps) → NamesItsSets name (sets_of tells steps) (written_by tells name (sets_of tells steps)) steps }
{}
