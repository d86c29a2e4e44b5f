// What lines begin and end with.
ghost use Rattle.std.specs.Prelude.{◌≡◌, ◌++◌, ◌∷◌, [], ◌≤◌, IfOk};
ghost use Rattle.text_words.specs.Pieces.{words_text};
ghost use Rattle.junos_text.specs.Texts.{margin, semi, brace, closing, quoted, opening_text, closing_text};

use crate::words::push;
use text_words::{Memory, push_words};

#[tactic(auto, unfolding(crate::specs::Texts::margin))]
fn margin(level: u8) -> &'static [u8]
    requires { level ≤ 4 }
    ensures { result.now ≡ margin level }
{
    match level {
        0 => b"",
        1 => b"    ",
        2 => b"        ",
        3 => b"            ",
        _ => b"                ",
    }
}

/// Four spaces a level.
pub(crate) fn push_margin(out: &mut Vec<u8>, level: u8) -> Result<(), Memory>
    requires { level ≤ 4 }
    ensures { IfOk result (λ _. out.new.items ≡ out.old.items ++ margin level) }
{
    push(out, margin(level))
}

/// `;` and the end of the line.
#[tactic(auto, unfolding(crate::specs::Texts::semi))]
pub(crate) fn push_semi(out: &mut Vec<u8>) -> Result<(), Memory>
    ensures { IfOk result (λ _. out.new.items ≡ out.old.items ++ semi) }
{
    push(out, b";\n")
}

#[tactic(auto, unfolding(crate::specs::Texts::brace))]
fn push_brace(out: &mut Vec<u8>) -> Result<(), Memory>
    ensures { IfOk result (λ _. out.new.items ≡ out.old.items ++ brace) }
{
    push(out, b" {\n")
}

#[tactic(auto, unfolding(crate::specs::Texts::closing))]
fn push_brace_end(out: &mut Vec<u8>) -> Result<(), Memory>
    ensures { IfOk result (λ _. out.new.items ≡ out.old.items ++ closing) }
{
    push(out, b"}\n")
}

/// A line that ends a block.
pub(crate) fn push_closing(out: &mut Vec<u8>, level: u8) -> Result<(), Memory>
    requires { level ≤ 4 }
    ensures { IfOk result (λ _. out.new.items ≡ out.old.items ++ closing_text level) }
{
    push_margin(out, level)?;
    push_brace_end(out)
}

/// A line of one word that opens a block.
pub(crate) fn push_opening(out: &mut Vec<u8>, level: u8, word: &[u8]) -> Result<(), Memory>
    requires { level ≤ 4 }
    ensures { IfOk result (λ _. out.new.items ≡ out.old.items ++ opening_text level (words_text (word.now ∷ []))) }
{
    push_margin(out, level)?;
    push_words(out, &[word])?;
    push_brace(out)
}

/// A line of a word and a name that opens a block.
pub(crate) fn push_named(
    out: &mut Vec<u8>,
    level: u8,
    word: &[u8],
    name: &[u8],
) -> Result<(), Memory>
    requires { level ≤ 4 }
    ensures { IfOk result (λ _. out.new.items ≡ out.old.items ++ opening_text level (words_text (word.now ∷ name.now ∷ []))) }
{
    push_margin(out, level)?;
    push_words(out, &[word, name])?;
    push_brace(out)
}

/// A text in quotes, behind one space.
#[tactic(auto, unfolding(crate::specs::Texts::quoted))]
pub(crate) fn push_quoted(out: &mut Vec<u8>, text: &[u8]) -> Result<(), Memory>
    ensures { IfOk result (λ _. out.new.items ≡ out.old.items ++ quoted text.now) }
{
    push(out, b" \"")?;
    push(out, text)?;
    push(out, b"\"")
}
