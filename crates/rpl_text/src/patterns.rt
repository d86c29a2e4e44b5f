// The text of an AS-path pattern.
ghost use Rattle.std.specs.Prelude.{◌≡◌, ◌+◌, ◌<◌, ◌||◌, nat_lt, ◌++◌, ◌∷◌, [], IfOk, flat_map, map};
ghost use Rattle.std.specs.List.{AllByRecursion, filter, list_all};
ghost use Rattle.aspath_text.specs.IosGrammar.{left_text, right_text, repeat_sign};
ghost use Rattle.aspath_text.specs.IosText.{first_in, least_digit, greatest_digit, run_text};
ghost use Rattle.path_patterns.specs.PathItems.{has_digit};
ghost use Rattle.rpl_text.specs.Patterns.{all_digits, is_run, set_text, word_text, words_text, tail_text, piece_text, branch_text, between, pattern_text};

use crate::bytes::push;
use aspath_text::{
    DigitSet, DigitWord, IosBranch, IosPattern, Mark, PathPieces, Piece, Repeat, Tail,
};
use text_words::Memory;

// ---- sets of digits

#[tactic(auto, unfolding(aspath_text::specs::IosText::first_in))]
fn first_in(set: DigitSet, digits: &[u8]) -> u8
    requires { AllByRecursion (λ d. d < 16) digits.now }
    ensures value { result ≡ first_in set digits.now }
    ensures within { result < 16 }
{
    let mut rest = digits;
    while let [digit, tail @ ..] = rest {
        if set.has(*digit) {
            return *digit;
        }
        rest = tail;
    }
    0
}

fn least_digit(set: DigitSet) -> u8
    ensures value { result ≡ least_digit set }
    ensures within { result < 16 }
{
    first_in(set, &[0, 1, 2, 3, 4, 5, 6, 7, 8, 9])
}

fn greatest_digit(set: DigitSet) -> u8
    ensures value { result ≡ greatest_digit set }
    ensures within { result < 16 }
{
    first_in(set, &[9, 8, 7, 6, 5, 4, 3, 2, 1, 0])
}

// Whether the set has each of some digits that lies between two.
fn has_between(set: DigitSet, least: u8, most: u8, digits: &[u8]) -> bool
    ensures { result ≡ list_all (λ d. has_digit set d || (nat_lt d least || nat_lt most d)) digits.now }
{
    let mut rest = digits;
    while let [digit, tail @ ..] = rest {
        if !(set.has(*digit) || *digit < least || most < *digit) {
            return false;
        }
        rest = tail;
    }
    true
}

#[tactic(auto, unfolding(crate::specs::Patterns::is_run))]
fn is_run(set: DigitSet) -> bool
    ensures { result ≡ is_run set }
{
    let digits = [0, 1, 2, 3, 4, 5, 6, 7, 8, 9];
    has_between(set, least_digit(set), greatest_digit(set), &digits)
}

fn push_run(out: &mut Vec<u8>, least: u8, most: u8) -> Result<(), Memory>
    requires least_within { least < 16 }
    requires most_within { most < 16 }
    ensures { IfOk result (λ _. out.new.items ≡ out.old.items ++ run_text least most) }
{
    if least == most {
        out.push(b'0' + least)?;
        return Ok(());
    }
    out.extend_from_slice(&[b'[', b'0' + least, b'-', b'0' + most, b']'])?;
    Ok(())
}

// Those of some digits that the set has.
fn push_digits(out: &mut Vec<u8>, set: DigitSet, digits: &[u8]) -> Result<(), Memory>
    requires { AllByRecursion (λ d. d < 16) digits.now }
    ensures { IfOk result (λ _. out.new.items ≡ out.old.items ++ map (λ d. 48 + d) (filter (has_digit set) digits.now)) }
{
    let mut rest = digits;
    while let [digit, tail @ ..] = rest {
        if set.has(*digit) {
            out.push(b'0' + *digit)?;
        }
        rest = tail;
    }
    Ok(())
}

fn push_class(out: &mut Vec<u8>, set: DigitSet) -> Result<(), Memory>
    ensures { IfOk result (λ _. out.new.items ≡ out.old.items ++ 91 ∷ (map (λ d. 48 + d) (filter (has_digit set) all_digits) ++ 93 ∷ [])) }
{
    push(out, b"[")?;
    push_digits(out, set, &[0, 1, 2, 3, 4, 5, 6, 7, 8, 9])?;
    push(out, b"]")
}

fn push_set(out: &mut Vec<u8>, set: DigitSet) -> Result<(), Memory>
    ensures { IfOk result (λ _. out.new.items ≡ out.old.items ++ set_text set) }
{
    if is_run(set) {
        return push_run(out, least_digit(set), greatest_digit(set));
    }
    push_class(out, set)
}

// ---- words

fn push_sets(out: &mut Vec<u8>, sets: &[DigitSet]) -> Result<(), Memory>
    ensures { IfOk result (λ _. out.new.items ≡ out.old.items ++ flat_map set_text sets.now) }
{
    let mut rest = sets;
    while let [set, tail @ ..] = rest {
        push_set(out, *set)?;
        rest = tail;
    }
    Ok(())
}

fn push_word(out: &mut Vec<u8>, word: &DigitWord) -> Result<(), Memory>
    ensures { IfOk result (λ _. out.new.items ≡ out.old.items ++ word_text word.now) }
{
    match word {
        DigitWord::Any => push(out, b"[0-9]+"),
        DigitWord::Digits(sets) => push_sets(out, sets.as_slice()),
    }
}

// Words with a `|` before each of them.
fn push_barred(out: &mut Vec<u8>, words: &[DigitWord]) -> Result<(), Memory>
    ensures { IfOk result (λ _. out.new.items ≡ out.old.items ++ flat_map (λ w. 124 ∷ word_text w) words.now) }
{
    let mut rest = words;
    while let [word, tail @ ..] = rest {
        push(out, b"|")?;
        push_word(out, word)?;
        rest = tail;
    }
    Ok(())
}

fn push_words(out: &mut Vec<u8>, words: &[DigitWord]) -> Result<(), Memory>
    ensures { IfOk result (λ _. out.new.items ≡ out.old.items ++ words_text words.now) }
{
    match words {
        [] => push(out, b"()"),
        [word] => push_word(out, word),
        [first, second, others @ ..] => {
            push(out, b"(")?;
            push_word(out, first)?;
            push(out, b"|")?;
            push_word(out, second)?;
            push_barred(out, others)?;
            push(out, b")")
        }
    }
}

// ---- pieces

fn sign(repeat: Repeat) -> u8
    ensures { result ≡ repeat_sign repeat }
{
    match repeat {
        Repeat::Star => b'*',
        Repeat::Plus => b'+',
        Repeat::Maybe => b'?',
    }
}

fn push_tail(out: &mut Vec<u8>, tail: &Tail) -> Result<(), Memory>
    ensures { IfOk result (λ _. out.new.items ≡ out.old.items ++ tail_text tail.now) }
{
    push(out, b"(_")?;
    push_words(out, tail.words.as_slice())?;
    push(out, &[b')', sign(tail.repeat)])
}

fn push_tails(out: &mut Vec<u8>, tails: &[Tail]) -> Result<(), Memory>
    ensures { IfOk result (λ _. out.new.items ≡ out.old.items ++ flat_map tail_text tails.now) }
{
    let mut rest = tails;
    while let [tail, others @ ..] = rest {
        push_tail(out, tail)?;
        rest = others;
    }
    Ok(())
}

fn push_piece(out: &mut Vec<u8>, piece: &Piece) -> Result<(), Memory>
    ensures { IfOk result (λ _. out.new.items ≡ out.old.items ++ piece_text piece.now) }
{
    match piece {
        Piece::Anything => push(out, b".*"),
        Piece::Set(set) => {
            push_words(out, set.words.as_slice())?;
            push_tails(out, set.tails.as_slice())
        }
    }
}

// Pieces with a `_` before each of them.
fn push_later_pieces(out: &mut Vec<u8>, pieces: &[Piece]) -> Result<(), Memory>
    ensures { IfOk result (λ _. out.new.items ≡ out.old.items ++ flat_map (λ p. 95 ∷ piece_text p) pieces.now) }
{
    let mut rest = pieces;
    while let [piece, tail @ ..] = rest {
        push(out, b"_")?;
        push_piece(out, piece)?;
        rest = tail;
    }
    Ok(())
}

fn push_pieces(out: &mut Vec<u8>, pieces: &[Piece]) -> Result<(), Memory>
    ensures { IfOk result (λ _. out.new.items ≡ out.old.items ++ between 95 piece_text pieces.now) }
{
    match pieces {
        [] => Ok(()),
        [first, others @ ..] => {
            push_piece(out, first)?;
            push_later_pieces(out, others)
        }
    }
}

// ---- branches

fn left(mark: Mark) -> &'static [u8]
    ensures { result.now ≡ left_text mark }
{
    match mark {
        Mark::Anchor => b"^",
        Mark::Under => b"_",
        Mark::Nothing => b"",
    }
}

fn right(mark: Mark) -> &'static [u8]
    ensures { result.now ≡ right_text mark }
{
    match mark {
        Mark::Anchor => b"$",
        Mark::Under => b"_",
        Mark::Nothing => b"",
    }
}

fn push_marked(out: &mut Vec<u8>, branch: &PathPieces) -> Result<(), Memory>
    ensures { IfOk result (λ _. out.new.items ≡ out.old.items ++ (left_text branch.now.left ++ (between 95 piece_text branch.now.pieces ++ right_text branch.now.right))) }
{
    push(out, left(branch.left))?;
    push_pieces(out, branch.pieces.as_slice())?;
    push(out, right(branch.right))
}

fn push_branch(out: &mut Vec<u8>, branch: &IosBranch) -> Result<(), Memory>
    ensures { IfOk result (λ _. out.new.items ≡ out.old.items ++ branch_text branch.now) }
{
    match branch {
        IosBranch::EmptyPath => push(out, b"^$"),
        IosBranch::Pieces(pieces) => push_marked(out, pieces),
    }
}

// Branches with a `|` before each of them.
fn push_later_branches(out: &mut Vec<u8>, branches: &[IosBranch]) -> Result<(), Memory>
    ensures { IfOk result (λ _. out.new.items ≡ out.old.items ++ flat_map (λ b. 124 ∷ branch_text b) branches.now) }
{
    let mut rest = branches;
    while let [branch, tail @ ..] = rest {
        push(out, b"|")?;
        push_branch(out, branch)?;
        rest = tail;
    }
    Ok(())
}

/// The text of a pattern.
pub(crate) fn push_pattern(out: &mut Vec<u8>, pattern: &IosPattern) -> Result<(), Memory>
    ensures { IfOk result (λ _. out.new.items ≡ out.old.items ++ pattern_text pattern.now) }
{
    match pattern.branches() {
        [] => Ok(()),
        [first, others @ ..] => {
            push_branch(out, first)?;
            push_later_branches(out, others)
        }
    }
}
