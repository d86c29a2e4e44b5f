// Texts that are put at the end of another.
ghost use Rattle.std.specs.Prelude.{◌≡◌, ◌*◌, ◌++◌, IfOk, flat_map};
ghost use Rattle.text_words.specs.Pieces.{spaces};

use text_words::Memory;

pub(crate) fn push(out: &mut Vec<u8>, text: &[u8]) -> Result<(), Memory>
    ensures { IfOk result (λ _. out.new.items ≡ out.old.items ++ text.now) }
{
    out.extend_from_slice(text)?;
    Ok(())
}

/// Texts, one behind another.
pub(crate) fn push_all(out: &mut Vec<u8>, texts: &[&[u8]]) -> Result<(), Memory>
    ensures { IfOk result (λ _. out.new.items ≡ out.old.items ++ flat_map (λ t. t.now) texts.now) }
{
    let mut rest = texts;
    while let [first, others @ ..] = rest {
        out.extend_from_slice(first)?;
        rest = others;
    }
    Ok(())
}

/// Two spaces a level.
pub(crate) fn push_margin(out: &mut Vec<u8>, levels: usize) -> Result<(), Memory>
    ensures { IfOk result (λ _. out.new.items ≡ out.old.items ++ spaces (2 * levels)) }
{
    let mut left = levels;
    while left > 0 {
        out.extend_from_slice(b"  ")?;
        left -= 1;
    }
    Ok(())
}
