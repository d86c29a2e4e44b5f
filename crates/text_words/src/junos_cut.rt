ghost use Rattle.std.specs.Prelude.{◌≡◌, ◌+◌, ◌<◌, ◌^◌, Some, IfOk, IfErr};
ghost use Rattle.text_words.specs.JunosWords.{outside_step, word_step, quote_step, comment_step, star_step, line_step, step_at, end_tokens};
ghost use Rattle.text_words.specs.JunosCut.{cut_or_fault, junos_cut, junos_fault, IsFault, HasOne, Gives};
ghost use Rattle.text_words.specs.JunosWalk.{outcome_behind, Takes};

use crate::fault::{BrokenKind, TextFault};
use crate::junos_bytes::{Sort, is_dropped, sort_at};
use crate::junos_groups::{Groups, broken};
use crate::junos_words::{Begun, Within};
use crate::row::Row;
use crate::statement::{Span, Statement};
use std::alloc::Global;

/// Cuts a Junos text: words are separated by blanks, line ends and comments, `;` and `{` end a statement,
/// and `}` is one without words, which closes a block. Spans count bytes from 0. The error is Broken,
/// with the place and the kind, exactly where the text has a fault, and then it is the first; or it is want
/// of memory.
#[tactic(auto, using(crate::proofs::JunosGiven::given_cut, crate::proofs::JunosGiven::given_fault, crate::proofs::JunosGiven::given_one))]
pub fn junos_statements(alloc: Global, text: &[u8]) -> Result<Row<Statement>, TextFault>
    ensures cut { IfOk result (λ s. junos_cut text.now ≡ Some s) }
    ensures fault { IfErr result (IsFault (junos_fault text.now)) }
    ensures one { HasOne (junos_cut text.now) (junos_fault text.now) }
{
    cut_or_fault(alloc, text)
}

#[tactic(auto, unfolding(crate::specs::JunosWords::tokens_at, crate::specs::JunosCut::cut_or_fault))]
fn cut_or_fault(alloc: Global, text: &[u8]) -> Result<Row<Statement>, TextFault>
    ensures { Gives (cut_or_fault text.now) result }
{
    let mut groups = Groups::new(alloc);
    let mut within = Within::Outside;
    let mut rest = text;
    let mut place: u64 = 0;
    while let [first, tail @ ..] = rest {
        match step(alloc, &mut groups, within, place, *first, tail) {
            Ok(next) => within = next,
            Err(fault) => return Err(fault),
        }
        place += 1;
        rest = tail;
    }
    text_end(groups, within, place)
}

/// Takes one byte, and gives where the next one stands.
#[tactic(auto, unfolding(crate::specs::JunosWords::step_at))]
fn step(
    alloc: Global,
    groups: &mut Groups,
    within: Within,
    place: u64,
    byte: u8,
    behind: &[u8],
) -> Result<Within, TextFault>
    requires { place + 1 < 2 ^ 64 }
    ensures takes { Takes groups.old groups.new (step_at within place byte behind.now).tokens result }
    ensures leads { IfOk result (λ w. w ≡ (step_at within place byte behind.now).within) }
{
    match within {
        Within::Outside => outside_step(alloc, groups, sort_at(byte, behind), place, byte),
        Within::InWord(word) => word_step(alloc, groups, word, sort_at(byte, behind), place, byte),
        Within::InQuote(word) => quote_step(groups, word, place, byte, is_dropped(byte, behind)),
        Within::InLine => Ok(line_step(byte)),
        Within::Opening(start) => Ok(Within::InComment(Span {
            start,
            end: place + 1,
        })),
        Within::InComment(opener) => Ok(comment_step(opener, byte)),
        Within::AtStar(opener) => Ok(star_step(opener, byte)),
    }
}

fn outside_step(
    alloc: Global,
    groups: &mut Groups,
    sort: Sort,
    place: u64,
    byte: u8,
) -> Result<Within, TextFault>
    requires { place + 1 < 2 ^ 64 }
    ensures takes { Takes groups.old groups.new (outside_step sort place byte).tokens result }
    ensures leads { IfOk result (λ w. w ≡ (outside_step sort place byte).within) }
{
    match sort {
        Sort::Gap => Ok(Within::Outside),
        Sort::Quote => Ok(Within::InQuote(Begun::new(alloc, place))),
        Sort::LineComment => Ok(Within::InLine),
        Sort::Comment => Ok(Within::Opening(place)),
        Sort::Bracket => {
            let word = Begun::new(alloc, place).with(byte)?;
            groups.take_word(word.up_to(place + 1, false))?;
            Ok(Within::Outside)
        }
        Sort::Ends(mark) => match groups.take_mark(alloc, mark, place) {
            Ok(()) => Ok(Within::Outside),
            Err(fault) => Err(fault),
        },
        Sort::Plain => {
            let word = Begun::new(alloc, place).with(byte)?;
            Ok(Within::InWord(word))
        }
    }
}

fn word_step(
    alloc: Global,
    groups: &mut Groups,
    word: Begun,
    sort: Sort,
    place: u64,
    byte: u8,
) -> Result<Within, TextFault>
    requires { place + 1 < 2 ^ 64 }
    ensures takes { Takes groups.old groups.new (word_step word sort place byte).tokens result }
    ensures leads { IfOk result (λ w. w ≡ (word_step word sort place byte).within) }
{
    if sort.is_plain() {
        let word = word.with(byte)?;
        return Ok(Within::InWord(word));
    }
    groups.take_word(word.up_to(place, false))?;
    outside_step(alloc, groups, sort, place, byte)
}

fn quote_step(
    groups: &mut Groups,
    word: Begun,
    place: u64,
    byte: u8,
    dropped: bool,
) -> Result<Within, TextFault>
    requires { place + 1 < 2 ^ 64 }
    ensures takes { Takes groups.old groups.new (quote_step word place byte dropped).tokens result }
    ensures leads { IfOk result (λ w. w ≡ (quote_step word place byte dropped).within) }
{
    if byte == b'"' {
        groups.take_word(word.up_to(place + 1, true))?;
        return Ok(Within::Outside);
    }
    if dropped {
        return Ok(Within::InQuote(word));
    }
    let word = word.with(byte)?;
    Ok(Within::InQuote(word))
}

fn line_step(byte: u8) -> Within
    ensures { result ≡ line_step byte }
{
    if byte == b'\n' {
        return Within::Outside;
    }
    Within::InLine
}

fn comment_step(opener: Span, byte: u8) -> Within
    ensures { result ≡ comment_step opener byte }
{
    if byte == b'*' {
        return Within::AtStar(opener);
    }
    Within::InComment(opener)
}

fn star_step(opener: Span, byte: u8) -> Within
    ensures { result ≡ star_step opener byte }
{
    if byte == b'/' {
        return Within::Outside;
    }
    comment_step(opener, byte)
}

/// The statements of a text that ends here.
#[tactic(auto, unfolding(crate::specs::JunosCut::grouped))]
fn text_end(mut groups: Groups, within: Within, place: u64) -> Result<Row<Statement>, TextFault>
    ensures { Gives (outcome_behind groups (end_tokens within place)) result }
{
    match within {
        Within::Outside => groups.text_end(),
        Within::InLine => groups.text_end(),
        Within::InWord(word) => {
            groups.take_word(word.up_to(place, false))?;
            groups.text_end()
        }
        Within::InQuote(word) => Err(broken(word.first, BrokenKind::OpenQuote)),
        Within::Opening(start) => Err(broken(Span { start, end: place }, BrokenKind::OpenComment)),
        Within::InComment(opener) => Err(broken(opener, BrokenKind::OpenComment)),
        Within::AtStar(opener) => Err(broken(opener, BrokenKind::OpenComment)),
    }
}
