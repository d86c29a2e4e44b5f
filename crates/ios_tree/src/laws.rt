ghost use Rattle.std.specs.Prelude.{◌≡◌, ℕ, List, Some};
ghost use Rattle.text_words.specs.declared.statement.Statement.{Statement};
ghost use Rattle.ios_tree.specs.Reading.{Reads};
ghost use Rattle.ios_tree.specs.Spelling.{Spell};
ghost use Rattle.ios_tree.specs.Sorts.{sort_of_form};
ghost use Rattle.ios_tree.specs.Tree.{known_form};
ghost use Rattle.ios_tree.specs.declared.item.IosForm.{IosForm};
ghost use Rattle.ios_tree.specs.declared.item.IosItem.{IosItem};
ghost use Rattle.ios_tree.specs.declared.item.ItemSort.{ItemSort};

/// The law of the forms; its clauses are all that it does. A form that is found is spelled by the
/// words, and words that spell a form are found to be it.
pub fn forms_are_spelled()
    // What is found is spelled.
    ensures found { (ws : List (List ℕ)) (form : IosForm) (sort : ItemSort) → known_form sort ws ≡ Some form → Spell ws form }
    // What is spelled is found.
    ensures only { (ws : List (List ℕ)) (form : IosForm) → Spell ws form → known_form (sort_of_form form) ws ≡ Some form }
{}

/// The law of readings; its clause is all that it does: statements read as at most one tree.
pub fn one_reading()
    ensures { (ss : List Statement) (is js : List IosItem) → Reads ss is → Reads ss js → is ≡ js }
{}
