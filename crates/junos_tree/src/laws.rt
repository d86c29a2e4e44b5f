ghost use Rattle.std.specs.Prelude.{◌≡◌, List, Some};
ghost use Rattle.text_words.specs.declared.statement.Ender.{Ender};
ghost use Rattle.text_words.specs.declared.statement.Statement.{Statement};
ghost use Rattle.text_words.specs.declared.statement.Word.{Word};
ghost use Rattle.junos_tree.specs.Reading.{Reads};
ghost use Rattle.junos_tree.specs.Spelling.{Spell};
ghost use Rattle.junos_tree.specs.Tree.{known_form};
ghost use Rattle.junos_tree.specs.declared.item.JunosForm.{JunosForm};
ghost use Rattle.junos_tree.specs.declared.item.JunosItem.{JunosItem};
ghost use Rattle.junos_tree.specs.declared.place.Place.{Place};

/// The law of the forms; its clauses are all that it does. A form that is found at a place is spelled by the
/// words, and words that spell a form there are found to be it.
pub fn forms_are_spelled()
    // What is found is spelled.
    ensures found { (place : Place) (ender : Ender) (ws : List Word) (form : JunosForm) → known_form place ender ws ≡ Some form → Spell place ender ws form }
    // What is spelled is found.
    ensures only { (place : Place) (ender : Ender) (ws : List Word) (form : JunosForm) → Spell place ender ws form → known_form place ender ws ≡ Some form }
{}

/// The law of readings; its clause is all that it does: statements read as at most one tree.
pub fn one_reading()
    ensures { (ss : List Statement) (is js : List JunosItem) → Reads ss is → Reads ss js → is ≡ js }
{}
