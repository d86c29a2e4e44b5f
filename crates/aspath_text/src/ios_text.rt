ghost use Rattle.std.specs.Prelude.{◌≡◌, ◌<◌, ◌+◌, ◌∷◌, ◌++◌, [], IfOk, flat_map, codes, map};
ghost use Rattle.std.specs.List.{AllByRecursion, repeat as repeated};
ghost use Rattle.aspath_text.specs.IosGrammar.{repeat_sign, left_text};
ghost use Rattle.path_patterns.specs.IosForm.{is_free, are_any, closes, behind_first};
ghost use Rattle.aspath_text.specs.IosText.{first_in, least_digit, greatest_digit, run_text, digit_set_text, word_text, group_text, set_text, tail_text, further_text, item_text, rest_text, start_text, starts_text, items_text};
ghost use Rattle.path_patterns.specs.declared.pattern.Mark.TheVariants.{Anchor as IsAnchor};
ghost use Rattle.path_patterns.specs.declared.pattern.Repeat.TheVariants.{Maybe as IsMaybe};

use path_patterns::{DigitSet, DigitWord, Mark, Repeat, WordItem};
use route_types::Memory;

// ---- a set of digit words

#[tactic(auto, unfolding(crate::specs::IosText::first_in))]
fn first_in(set: DigitSet, digits: &[u8]) -> u8
    requires { AllByRecursion (λ d. d < 16) digits.now }
    ensures value { result ≡ first_in set digits.now }
    ensures within { result < 16 }
{
    let mut rest = digits;
    while let [digit, tail @ ..] = rest {
        if set.has(*digit) {
            return *digit;
        }
        rest = tail;
    }
    0
}

fn least_digit(set: DigitSet) -> u8
    ensures value { result ≡ least_digit set }
    ensures within { result < 16 }
{
    first_in(set, &[0, 1, 2, 3, 4, 5, 6, 7, 8, 9])
}

fn greatest_digit(set: DigitSet) -> u8
    ensures value { result ≡ greatest_digit set }
    ensures within { result < 16 }
{
    first_in(set, &[9, 8, 7, 6, 5, 4, 3, 2, 1, 0])
}

fn push_run(out: &mut Vec<u8>, least: u8, most: u8) -> Result<(), Memory>
    requires least_within { least < 16 }
    requires most_within { most < 16 }
    ensures { IfOk result (λ _. out.new.items ≡ out.old.items ++ run_text least most) }
{
    if least == most {
        out.push(b'0' + least)?;
        return Ok(());
    }
    out.extend_from_slice(&[b'[', b'0' + least, b'-', b'0' + most, b']'])?;
    Ok(())
}

fn push_digit_set(out: &mut Vec<u8>, set: DigitSet) -> Result<(), Memory>
    ensures { IfOk result (λ _. out.new.items ≡ out.old.items ++ digit_set_text set) }
{
    push_run(out, least_digit(set), greatest_digit(set))
}

fn push_digits(out: &mut Vec<u8>, sets: &[DigitSet]) -> Result<(), Memory>
    ensures { IfOk result (λ _. out.new.items ≡ out.old.items ++ flat_map digit_set_text sets.now) }
{
    let mut rest = sets;
    while let [set, tail @ ..] = rest {
        push_digit_set(out, *set)?;
        rest = tail;
    }
    Ok(())
}

fn push_word(out: &mut Vec<u8>, word: &DigitWord) -> Result<(), Memory>
    ensures { IfOk result (λ _. out.new.items ≡ out.old.items ++ word_text word.now) }
{
    match word {
        DigitWord::Any => {
            out.extend_from_slice(b"[0-9]+")?;
            Ok(())
        }
        DigitWord::Digits(sets) => push_digits(out, sets.as_slice()),
    }
}

// Words with a `|` before each of them.
fn push_barred(out: &mut Vec<u8>, words: &[DigitWord]) -> Result<(), Memory>
    ensures { IfOk result (λ _. out.new.items ≡ out.old.items ++ flat_map (λ w. 124 ∷ word_text w) words.now) }
{
    let mut rest = words;
    while let [word, tail @ ..] = rest {
        out.push(b'|')?;
        push_word(out, word)?;
        rest = tail;
    }
    Ok(())
}

fn push_group(out: &mut Vec<u8>, first: &DigitWord, others: &[DigitWord]) -> Result<(), Memory>
    ensures { IfOk result (λ _. out.new.items ≡ out.old.items ++ 40 ∷ (word_text first.now ++ (flat_map (λ w. 124 ∷ word_text w) others.now ++ 41 ∷ []))) }
{
    out.push(b'(')?;
    push_word(out, first)?;
    push_barred(out, others)?;
    out.push(b')')?;
    Ok(())
}

#[tactic(auto, using(crate::proofs::SetText::group_is))]
fn push_words(out: &mut Vec<u8>, first: &DigitWord, others: &[DigitWord]) -> Result<(), Memory>
    ensures { IfOk result (λ _. out.new.items ≡ out.old.items ++ set_text (first.now ∷ others.now)) }
{
    match others {
        [] => push_word(out, first),
        _ => push_group(out, first, others),
    }
}

#[tactic(auto, using(crate::proofs::SetText::no_text))]
fn push_set(out: &mut Vec<u8>, words: &[DigitWord]) -> Result<(), Memory>
    ensures { IfOk result (λ _. out.new.items ≡ out.old.items ++ set_text words.now) }
{
    match words {
        [] => {
            out.extend_from_slice(b"()")?;
            Ok(())
        }
        [first, others @ ..] => push_words(out, first, others),
    }
}

// ---- an item behind a piece

fn sign(repeat: Repeat) -> u8
    ensures { result ≡ repeat_sign repeat }
{
    match repeat {
        Repeat::Star => b'*',
        Repeat::Plus => b'+',
        Repeat::Maybe => b'?',
    }
}

fn push_tail(out: &mut Vec<u8>, words: &[DigitWord], repeat: Repeat) -> Result<(), Memory>
    ensures { IfOk result (λ _. out.new.items ≡ out.old.items ++ tail_text words.now repeat) }
{
    out.extend_from_slice(b"(_")?;
    push_set(out, words)?;
    out.push(b')')?;
    out.push(sign(repeat))?;
    Ok(())
}

fn push_piece(out: &mut Vec<u8>, words: &[DigitWord]) -> Result<(), Memory>
    ensures { IfOk result (λ _. out.new.items ≡ out.old.items ++ 95 ∷ set_text words.now) }
{
    out.push(b'_')?;
    push_set(out, words)
}

fn push_pieces(out: &mut Vec<u8>, words: &[DigitWord], count: u32) -> Result<(), Memory>
    ensures { IfOk result (λ _. out.new.items ≡ out.old.items ++ repeated count (95 ∷ set_text words.now)) }
{
    let mut left = count;
    while left > 0 {
        push_piece(out, words)?;
        left -= 1;
    }
    Ok(())
}

fn push_tails(out: &mut Vec<u8>, words: &[DigitWord], count: u32) -> Result<(), Memory>
    ensures { IfOk result (λ _. out.new.items ≡ out.old.items ++ repeated count (tail_text words.now IsMaybe)) }
{
    let mut left = count;
    while left > 0 {
        push_tail(out, words, Repeat::Maybe)?;
        left -= 1;
    }
    Ok(())
}

fn push_further(
    out: &mut Vec<u8>,
    words: &[DigitWord],
    least: u32,
    most: Option<u32>,
) -> Result<(), Memory>
    ensures { IfOk result (λ _. out.new.items ≡ out.old.items ++ further_text words.now least most) }
{
    match most {
        None => push_tail(out, words, Repeat::Star),
        Some(most) => push_tails(out, words, most.saturating_sub(least)),
    }
}

fn push_item(
    out: &mut Vec<u8>,
    words: &[DigitWord],
    least: u32,
    most: Option<u32>,
) -> Result<(), Memory>
    ensures { IfOk result (λ _. out.new.items ≡ out.old.items ++ item_text (record { words = words.now; least = least; most = most })) }
{
    push_pieces(out, words, least)?;
    push_further(out, words, least, most)
}

// ---- items behind the first one

fn are_any(words: &[DigitWord]) -> bool
    ensures { result ≡ are_any words.now }
{
    matches!(words, [DigitWord::Any])
}

fn is_free(item: &WordItem) -> bool
    ensures { result ≡ is_free item.now }
{
    are_any(item.words.as_slice()) && item.least == 0 && item.most.is_none()
}

fn closes(behind: bool, item: &WordItem, others: &[WordItem]) -> bool
    ensures { result ≡ closes behind item.now others.now }
{
    match others {
        [] => behind && is_free(item),
        _ => false,
    }
}

#[tactic(auto, unfolding(crate::specs::IosText::rest_text))]
fn push_rest(out: &mut Vec<u8>, behind: bool, items: &[WordItem]) -> Result<(), Memory>
    ensures { IfOk result (λ _. out.new.items ≡ out.old.items ++ rest_text behind items.now) }
{
    let mut behind = behind;
    let mut rest = items;
    while let [item, tail @ ..] = rest {
        if closes(behind, item, tail) {
            out.push(b'_')?;
            return Ok(());
        }
        push_item(out, item.words.as_slice(), item.least, item.most)?;
        behind = item.least >= 1;
        rest = tail;
    }
    out.push(b'$')?;
    Ok(())
}

// ---- branches

fn push_left(out: &mut Vec<u8>, mark: Mark) -> Result<(), Memory>
    ensures { IfOk result (λ _. out.new.items ≡ out.old.items ++ left_text mark) }
{
    match mark {
        Mark::Anchor => out.push(b'^')?,
        Mark::Under => out.push(b'_')?,
        Mark::Nothing => (),
    }
    Ok(())
}

// What is left of an item behind its first number.
fn push_behind_first(out: &mut Vec<u8>, item: &WordItem) -> Result<(), Memory>
    ensures { IfOk result (λ _. out.new.items ≡ out.old.items ++ item_text (behind_first item.now)) }
{
    let least = item.least.saturating_sub(1);
    let most = item.most.map(|most| most.saturating_sub(1));
    push_item(out, item.words.as_slice(), least, most)
}

fn push_start(
    out: &mut Vec<u8>,
    mark: Mark,
    first: &WordItem,
    others: &[WordItem],
) -> Result<(), Memory>
    ensures { IfOk result (λ _. out.new.items ≡ out.old.items ++ start_text mark first.now others.now) }
{
    push_left(out, mark)?;
    push_set(out, first.words.as_slice())?;
    push_behind_first(out, first)?;
    push_rest(out, true, others)
}

fn push_anchored(out: &mut Vec<u8>, first: &WordItem, others: &[WordItem]) -> Result<(), Memory>
    ensures { IfOk result (λ _. out.new.items ≡ out.old.items ++ 124 ∷ start_text IsAnchor first.now others.now) }
{
    out.push(b'|')?;
    push_start(out, Mark::Anchor, first, others)
}

#[tactic(auto, unfolding(crate::specs::IosText::starts_text))]
fn push_starts(out: &mut Vec<u8>, items: &[WordItem]) -> Result<(), Memory>
    ensures { IfOk result (λ _. out.new.items ≡ out.old.items ++ starts_text items.now) }
{
    let mut rest = items;
    while let [first, tail @ ..] = rest {
        push_anchored(out, first, tail)?;
        if first.least >= 1 {
            return Ok(());
        }
        rest = tail;
    }
    out.extend_from_slice(b"|^$")?;
    Ok(())
}

fn push_alone(out: &mut Vec<u8>, item: &WordItem, items: &[WordItem]) -> Result<(), Memory>
    requires { items.now ≡ item.now ∷ [] }
    ensures { IfOk result (λ _. out.new.items ≡ out.old.items ++ items_text items.now) }
{
    if is_free(item) {
        out.extend_from_slice(b"|.*")?;
        return Ok(());
    }
    push_starts(out, items)
}

/// Puts the text of items at the end of `out`: that of each of their branches, with a `|` before it. Its
/// one error is want of memory.
pub(crate) fn push_items(out: &mut Vec<u8>, items: &[WordItem]) -> Result<(), Memory>
    ensures { IfOk result (λ _. out.new.items ≡ out.old.items ++ items_text items.now) }
{
    match items {
        [item] => push_alone(out, item, items),
        [first, second, others @ ..] if is_free(first) && second.least >= 1 => {
            out.push(b'|')?;
            push_start(out, Mark::Under, second, others)
        }
        _ => push_starts(out, items),
    }
}
