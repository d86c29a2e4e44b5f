//! The law of written definitions, the contract of a function that does nothing.

ghost use Rattle.std.specs.Prelude.{◌≡◌, List, Some, option_map};
ghost use Rattle.junos_tree.specs.Tree.{junos_tree};
ghost use Rattle.junos_text.specs.Layout.{forms_of, text_of};
ghost use Rattle.junos_text.specs.Written.{MayBeWritten, ReadsAs, forms};
ghost use Rattle.junos_text.specs.declared.option.PolicyOption.{PolicyOption};

/// Definitions that may be written are read back from their text.
pub fn written_options_are_read()
    // The text reads as a tree, which says these definitions.
    ensures reads { (os : List PolicyOption) → MayBeWritten os → ReadsAs (text_of os) os }
    // The tree that is found says them.
    ensures tree { (os : List PolicyOption) → MayBeWritten os → option_map forms (junos_tree (text_of os)) ≡ Some (forms_of os) }
{}
