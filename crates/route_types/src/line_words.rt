ghost use Rattle.std.specs.Prelude.{◌≡◌, option_map};
ghost use Rattle.text_words.specs.Pieces.{texts};
ghost use Rattle.route_types.specs.RouteLines.{words_behind, only_word, word_in};

use text_words::Word;

// The words behind the first one, where that is the name.
pub(crate) fn words_behind<'a>(words: &'a [Word], name: &[u8]) -> Option<&'a [Word]>
    ensures { option_map (λ behind. texts behind.now) result ≡ words_behind name.now (texts words.now) }
{
    let [first, behind @ ..] = words else {
        return None;
    };
    if first.text.as_slice() != name {
        return None;
    }
    Some(behind)
}

// The one word, where there is no other.
fn only_word(words: &[Word]) -> Option<&[u8]>
    ensures { option_map (λ word. word.now) result ≡ only_word (texts words.now) }
{
    match words {
        [word] => Some(word.text.as_slice()),
        _ => None,
    }
}

// The one word behind the name.
#[tactic(auto, unfolding(crate::specs::RouteLines::word_in))]
pub(crate) fn word_behind<'a>(words: &'a [Word], name: &[u8]) -> Option<&'a [u8]>
    ensures { option_map (λ word. word.now) result ≡ word_in name.now (texts words.now) }
{
    let behind = words_behind(words, name)?;
    only_word(behind)
}
