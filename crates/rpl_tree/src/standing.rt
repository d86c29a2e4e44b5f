// Where a statement stands: in which block, and with which `if`s open.
ghost use Rattle.std.specs.Prelude.{◌≡◌, [], ◌∷◌, IfOk, true, false, Some, None};
ghost use Rattle.rpl_tree.specs.Blocks.{opens, ends_block, if_word, begins_with, keyword, branched, closed, ifs_behind, outside};
ghost use Rattle.rpl_tree.specs.Placed.{IsPlaced};

use rpl_forms::IfWord;
use std::alloc::Global;
use text_words::{BlockKind, Memory, Stack, Word, is_word, opened_by};

/// Where a statement stands: the block that is open, and the `if`s that are open in it, each with whether
/// its `else` has come.
#[derive(Drop)]
pub(crate) struct Standing {
    pub(crate) block: Option<BlockKind>,
    pub(crate) ifs: Stack<bool>,
}

/// The block that a statement outside blocks opens.
pub(crate) fn opens(words: &[Word]) -> Option<BlockKind>
    ensures { result ≡ opens words.now }
{
    match words {
        [] => None,
        [first, ..] => opened_by(first),
    }
}

fn is_end_word(kind: BlockKind, word: &Word) -> bool
    ensures { result ≡ ends_block kind (word.now ∷ []) }
{
    match kind {
        BlockKind::Policy => is_word(b"end-policy", word),
        BlockKind::PrefixSet => is_word(b"end-set", word),
        BlockKind::CommunitySet => is_word(b"end-set", word),
        BlockKind::PathSet => is_word(b"end-set", word),
    }
}

/// Whether a statement ends its block.
pub(crate) fn ends_block(kind: BlockKind, words: &[Word]) -> bool
    ensures { result ≡ ends_block kind words.now }
{
    match words {
        [word] => is_end_word(kind, word),
        _ => false,
    }
}

fn if_word(word: &Word) -> Option<IfWord>
    ensures { result ≡ if_word word.now }
{
    if is_word(b"if", word) {
        return Some(IfWord::If);
    }
    if is_word(b"elseif", word) {
        return Some(IfWord::ElseIf);
    }
    if is_word(b"else", word) {
        return Some(IfWord::Else);
    }
    if is_word(b"endif", word) {
        return Some(IfWord::EndIf);
    }
    None
}

fn begins_with(words: &[Word]) -> Option<IfWord>
    ensures { result ≡ begins_with words.now }
{
    match words {
        [] => None,
        [first, ..] => if_word(first),
    }
}

/// The word of `if`s that a statement of a block begins with; a set has no `if`s.
pub(crate) fn keyword(kind: BlockKind, words: &[Word]) -> Option<IfWord>
    ensures { result ≡ keyword kind words.now }
{
    match kind {
        BlockKind::Policy => begins_with(words),
        BlockKind::PrefixSet => None,
        BlockKind::CommunitySet => None,
        BlockKind::PathSet => None,
    }
}

// Another branch of the innermost `if`; says whether it is in its place.
fn branch(ifs: &mut Stack<bool>, last: bool) -> Result<bool, Memory>
    ensures { IfOk result (IsPlaced (branched last ifs.old) ifs.new) }
{
    match ifs.pop() {
        None => Ok(false),
        Some(true) => Ok(false),
        Some(false) => {
            ifs.push(last)?;
            Ok(true)
        }
    }
}

// The innermost `if` ends; says whether there is one.
fn close(ifs: &mut Stack<bool>) -> bool
    ensures { IsPlaced (closed ifs.old) ifs.new result }
{
    match ifs.pop() {
        None => false,
        Some(_) => true,
    }
}

/// Opens, goes on with or closes an `if`, where a statement begins so; says whether it is in its place.
#[tactic(auto, unfolding(crate::specs::Blocks::ifs_behind))]
pub(crate) fn take_keyword(ifs: &mut Stack<bool>, word: Option<IfWord>) -> Result<bool, Memory>
    ensures { IfOk result (IsPlaced (ifs_behind word ifs.old) ifs.new) }
{
    match word {
        None => Ok(true),
        Some(IfWord::If) => {
            ifs.push(false)?;
            Ok(true)
        }
        Some(IfWord::ElseIf) => branch(ifs, false),
        Some(IfWord::Else) => branch(ifs, true),
        Some(IfWord::EndIf) => Ok(close(ifs)),
    }
}

impl Standing {
    /// No block is open.
    pub(crate) fn outside(alloc: Global) -> Standing
        ensures { result ≡ outside }
    {
        Standing {
            block: None,
            ifs: Stack::new(alloc),
        }
    }
}
