//! The laws of readings and faults, each the contract of a function that does nothing.

ghost use Rattle.std.specs.Prelude.{◌≡◌, List, ◌∷◌, Some, None};
ghost use Rattle.text_words.specs.declared.fault.BrokenKind.{BrokenKind};
ghost use Rattle.text_words.specs.declared.fault.TextFault.{TextFault};
ghost use Rattle.text_words.specs.declared.fault.TextFault.TheVariants.{Broken};
ghost use Rattle.text_words.specs.declared.statement.Span.{Span};
ghost use Rattle.text_words.specs.declared.statement.Statement.{Statement};
ghost use Rattle.rpl_words.specs.declared.condition.Term.{Term};
ghost use Rattle.rpl_forms.specs.declared.item.PolicyStatement.TheVariants.{Else, EndIf};
ghost use Rattle.rpl_forms.specs.declared.item.RplForm.{RplForm};
ghost use Rattle.rpl_forms.specs.declared.item.RplForm.TheVariants.{Statement as Says, End};
ghost use Rattle.rpl_forms.specs.declared.item.RplItem.{RplItem};
ghost use Rattle.rpl_tree.specs.Blocks.{outside};
ghost use Rattle.rpl_tree.specs.Broken.{BreaksFirst, IsFirst, IsWhole, broken};
ghost use Rattle.rpl_tree.specs.Nesting.{Steps, nested, steps_in, spelled, elseif_of, else_if_of};
ghost use Rattle.rpl_tree.specs.Reading.{Reads};
ghost use Rattle.rpl_tree.specs.Tree.{tree_in};

/// Statements read as at most one tree, and as the one that is found.
pub fn one_reading()
    ensures one { (ss : List Statement) (is js : List RplItem) → Reads ss is → Reads ss js → is ≡ js }
    // What is found is read.
    ensures found { (ss : List Statement) (is : List RplItem) → tree_in ss ≡ Some is → Reads ss is }
    // What is read is found.
    ensures only { (ss : List Statement) (is : List RplItem) → Reads ss is → tree_in ss ≡ Some is }
{}

/// The fault that is found in statements is the first one.
pub fn first_faults()
    // Where one is found, statements are broken there, and nowhere before it.
    ensures found { (ss : List Statement) (fault : TextFault) → broken ss ≡ Some fault → IsFirst outside ss fault }
    // Where they are broken first, that is found.
    ensures only { (ss : List Statement) (span : Span) (kind : BrokenKind) → BreaksFirst outside ss span kind → broken ss ≡ Some (Broken span kind) }
    // Where none is found, there is none.
    ensures whole { (ss : List Statement) → broken ss ≡ None → IsWhole ss }
{}

/// The laws of nesting: steps that are spelled as statements nest as these steps.
pub fn statements_nest()
    // Each branch by `if`, `else` and `endif`, up to the end of the policy.
    ensures steps { (steps : Steps) (behind : List RplForm) → steps_in (spelled steps (End ∷ behind)) ≡ steps }
    // `elseif` is an `if` of its own behind `else`.
    ensures elseif { (condition : List Term) (these those : Steps) (rest : List RplForm) → nested (elseif_of condition these those rest) ≡ nested (else_if_of condition these those rest) }
    // A branch that isn't written is an empty one.
    ensures without_else { (rest : List RplForm) → nested (Says EndIf ∷ rest) ≡ nested (Says Else ∷ Says EndIf ∷ rest) }
{}
