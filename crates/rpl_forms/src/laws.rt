ghost use Rattle.std.specs.Prelude.{◌≡◌, List, Some};
ghost use Rattle.text_words.specs.declared.rpl_blocks.BlockKind.{BlockKind};
ghost use Rattle.rpl_words.specs.Conditions.{SpellTerms};
ghost use Rattle.rpl_words.specs.Tokens.{Token};
ghost use Rattle.rpl_words.specs.declared.condition.Term.{Term};
ghost use Rattle.rpl_forms.specs.Statements.{SpellHeader, SpellWithin, form_in, header_in};
ghost use Rattle.rpl_forms.specs.Terms.{condition_in};
ghost use Rattle.rpl_forms.specs.declared.item.Header.{Header};
ghost use Rattle.rpl_forms.specs.declared.item.RplForm.{RplForm};

/// The law of the forms; its clauses are all that it does. A header, or a form within a block, that is found is
/// spelled by the words, and words that spell one are found to be it.
pub fn forms_are_spelled()
    // A header that is found is spelled.
    ensures found_header { (kind : BlockKind) (ts : List Token) (header : Header) → header_in kind ts ≡ Some header → SpellHeader kind ts header }
    // A header that is spelled is found.
    ensures only_header { (kind : BlockKind) (ts : List Token) (header : Header) → SpellHeader kind ts header → header_in kind ts ≡ Some header }
    // A form within a block that is found is spelled.
    ensures found { (kind : BlockKind) (ts : List Token) (form : RplForm) → form_in kind ts ≡ Some form → SpellWithin kind ts form }
    // A form within a block that is spelled is found.
    ensures only { (kind : BlockKind) (ts : List Token) (form : RplForm) → SpellWithin kind ts form → form_in kind ts ≡ Some form }
{}

/// The law of conditions; its clauses are all that it does. `not` binds closer than `and`, and `and` closer than
/// `or`: the terms that are found are those of a condition that the words spell so, and of no other.
pub fn conditions_are_spelled()
    // What is found is spelled.
    ensures found { (ts : List Token) (terms : List Term) → condition_in ts ≡ Some terms → SpellTerms ts terms }
    // What is spelled is found.
    ensures only { (ts : List Token) (terms : List Term) → SpellTerms ts terms → condition_in ts ≡ Some terms }
{}
