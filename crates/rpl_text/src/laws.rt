//! The law of written forms, the contract of a function that does nothing.

ghost use Rattle.std.specs.Prelude.{◌≡◌, List, Some, None, option_map};
ghost use Rattle.text_words.specs.RplCut.{rpl_cut};
ghost use Rattle.rpl_forms.specs.declared.item.RplForm.{RplForm};
ghost use Rattle.rpl_tree.specs.Tree.{forms, rpl_tree};
ghost use Rattle.rpl_text.specs.Blocks.{ReadsAs, block_names, names_of};
ghost use Rattle.rpl_text.specs.Layout.{text_of};
ghost use Rattle.rpl_text.specs.Written.{MayBeWritten};

/// Forms that may be written are read back from their text.
pub fn written_forms_are_read()
    // The text reads as a tree, which says these forms.
    ensures reads { (fs : List RplForm) → MayBeWritten fs → ReadsAs (text_of fs) fs }
    // The tree that is found says them.
    ensures tree { (fs : List RplForm) → MayBeWritten fs → option_map forms (rpl_tree (text_of fs)) ≡ Some fs }
    // Each statement outside blocks opens one, and the blocks have the names of the forms.
    ensures blocks { (fs : List RplForm) → MayBeWritten fs → block_names None (rpl_cut (text_of fs)) ≡ Some (names_of fs) }
{}
