//! The laws of statements, each a clause of a function that does nothing.

ghost use Rattle.std.specs.Prelude.{◌≡◌, ℕ, true, List, Some, IfSome, length};
ghost use Rattle.std.specs.List.{list_all};
ghost use Rattle.text_words.specs.IosCut.{ios_cut};
ghost use Rattle.text_words.specs.JunosCut.{junos_cut};
ghost use Rattle.text_words.specs.JunosWritten.{JunosLine, may_be_written, junos_text, junos_placed};
ghost use Rattle.text_words.specs.LineText.{is_line, lines_text, lines_placed};
ghost use Rattle.text_words.specs.Pieces.{Piece};
ghost use Rattle.text_words.specs.Rising.{StartsRise, StatementsRise, StatementsStandBehind};
ghost use Rattle.text_words.specs.RplCut.{rpl_cut};
ghost use Rattle.text_words.specs.RplText.{RplLine, MayBeWritten, Outside, rpl_text, rpl_placed};

/// What may be written in a language is cut into the statements that were written, at the places that
/// the written words have.
pub fn written_texts_are_cut()
    // Lines of IOS.
    ensures ios { (lines : List (List Piece)) → list_all is_line lines ≡ true → ios_cut (lines_text lines) ≡ lines_placed 0 lines }
    // Lines of Junos, whose blocks end.
    ensures junos { (lines : List JunosLine) → may_be_written 0 lines ≡ true → junos_cut (junos_text lines) ≡ Some (junos_placed 0 0 lines) }
    // Lines of RPL, whose blocks end.
    ensures rpl { (lines : List RplLine) → MayBeWritten Outside lines → rpl_cut (rpl_text lines) ≡ rpl_placed 0 lines }
{}

/// The statements of a text rise: each starts at or behind the end of the one before it, and the last one
/// ends within the text.
pub fn statements_rise()
    // The statements of an IOS text.
    ensures ios { (text : List ℕ) → StatementsRise 0 (length text) (ios_cut text) }
    // The statements of a Junos text that has a cut.
    ensures junos { (text : List ℕ) → IfSome (junos_cut text) (StatementsRise 0 (length text)) }
    // The statements of an RPL text, where two elements without words may have the span of one comma.
    ensures rpl { (text : List ℕ) → StatementsStandBehind (record { start = 0; end = 0 }) (length text) (rpl_cut text) }
    // So their starts rise.
    ensures rpl_starts { (text : List ℕ) → StartsRise 0 (length text) (rpl_cut text) }
{}
