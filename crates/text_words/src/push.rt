ghost use Rattle.std.specs.Prelude.{◌≡◌, ◌++◌, IfOk, map};
ghost use Rattle.text_words.specs.Pieces.{words_text, text_behind};
ghost use Rattle.text_words.specs.LineText.{line_text};

use crate::memory::Memory;

/// Puts words at the end of `out`, one space between each two. The one error is want of memory.
#[tactic(auto, unfolding(crate::specs::Pieces::words_text))]
pub fn push_words(out: &mut Vec<u8>, words: &[&[u8]]) -> Result<(), Memory>
    ensures { IfOk result (λ _. out.new.items ≡ out.old.items ++ words_text (map (λ w. w.now) words.now)) }
{
    let [first, others @ ..] = words else {
        return Ok(());
    };
    out.extend_from_slice(first)?;
    push_behind(out, others)
}

/// Puts a line of words at the end of `out`, one space between each two and an LF behind them. The one
/// error is want of memory.
pub fn push_line(out: &mut Vec<u8>, words: &[&[u8]]) -> Result<(), Memory>
    ensures { IfOk result (λ _. out.new.items ≡ out.old.items ++ line_text (map (λ w. w.now) words.now)) }
{
    push_words(out, words)?;
    out.push(b'\n')?;
    Ok(())
}

// Words, each behind one space.
fn push_behind(out: &mut Vec<u8>, words: &[&[u8]]) -> Result<(), Memory>
    ensures { IfOk result (λ _. out.new.items ≡ out.old.items ++ text_behind (map (λ w. w.now) words.now)) }
{
    let mut rest = words;
    while let [first, others @ ..] = rest {
        out.push(b' ')?;
        out.extend_from_slice(first)?;
        rest = others;
    }
    Ok(())
}
