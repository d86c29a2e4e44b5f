// Lists in parentheses, and sets as a policy writes them.
ghost use Rattle.std.specs.Prelude.{◌≡◌, ◌++◌, ◌∷◌, [], List, ℕ, IfOk, flat_map, map};
ghost use Rattle.text_words.specs.Pieces.{pieces_text};
ghost use Rattle.rpl_text.specs.Words.{Phrase, phrase_text, word, listed, called, given, argument_text, prefix_phrase, rect_phrase, path_phrase, set_phrase};

use crate::bytes::{push, push_all};
use crate::elements::{push_path_element, push_prefix_element, push_rect};
use route_types::Rect;
use rpl_forms::{Argument, PathElement, PrefixElement, RplSet};
use std::alloc::Global;
use text_words::{Memory, Row};

/// How something is put into words.
pub(crate) trait PutsWords<T> {
    ghost phrase: { T → Phrase };

    /// Puts the words at the end of `out`. The error is want of memory.
    fn put(alloc: Global, out: &mut Vec<u8>, thing: &T) -> Result<(), Memory>
        ensures { IfOk result (λ _. out.new.items ≡ out.old.items ++ phrase_text (phrase thing.now)) };
}

pub(crate) struct PrefixWords;

impl PutsWords<PrefixElement> for PrefixWords {
    ghost phrase = { prefix_phrase };

    fn put(alloc: Global, out: &mut Vec<u8>, thing: &PrefixElement) -> Result<(), Memory> {
        push_prefix_element(alloc, out, thing)
    }
}

pub(crate) struct RectWords;

impl PutsWords<Rect> for RectWords {
    ghost phrase = { rect_phrase };

    fn put(alloc: Global, out: &mut Vec<u8>, thing: &Rect) -> Result<(), Memory> {
        push_rect(alloc, out, thing)
    }
}

pub(crate) struct PathWords;

impl PutsWords<PathElement> for PathWords {
    ghost phrase = { path_phrase };

    fn put(alloc: Global, out: &mut Vec<u8>, thing: &PathElement) -> Result<(), Memory> {
        push_path_element(alloc, out, thing)
    }
}

pub(crate) struct GivenWord;

impl PutsWords<Row<u8>> for GivenWord {
    ghost phrase = { λ x. word (given x) };

    #[tactic(auto, unfolding(text_words::specs::Pieces::pieces_text))]
    fn put(_alloc: Global, out: &mut Vec<u8>, thing: &Row<u8>) -> Result<(), Memory> {
        push_all(out, &[b"$", thing.as_slice()])
    }
}

pub(crate) struct ArgumentWord;

impl PutsWords<Argument> for ArgumentWord {
    ghost phrase = { λ a. word (argument_text a) };

    #[tactic(auto, unfolding(text_words::specs::Pieces::pieces_text))]
    fn put(_alloc: Global, out: &mut Vec<u8>, thing: &Argument) -> Result<(), Memory> {
        match thing {
            Argument::Written(text) => push_all(out, &[text.as_slice()]),
            Argument::Parameter(x) => push_all(out, &[b"$", x.as_slice()]),
        }
    }
}

// Things with a comma before each of them.
fn push_later<T, W: PutsWords<T>>(
    alloc: Global,
    out: &mut Vec<u8>,
    things: &[T],
) -> Result<(), Memory>
    ensures { IfOk result (λ _. out.new.items ≡ out.old.items ++ flat_map (λ t. 44 ∷ 32 ∷ phrase_text (W.phrase t)) things.now) }
{
    let mut rest = things;
    while let [thing, tail @ ..] = rest {
        push(out, b", ")?;
        W::put(alloc, out, thing)?;
        rest = tail;
    }
    Ok(())
}

// A parenthesis, things with a comma between each two, and a parenthesis.
fn push_things<T, W: PutsWords<T>>(
    alloc: Global,
    out: &mut Vec<u8>,
    first: &T,
    others: &[T],
) -> Result<(), Memory>
    ensures { IfOk result (λ _. out.new.items ≡ out.old.items ++ (40 ∷ (phrase_text (W.phrase first.now) ++ (flat_map (λ t. 44 ∷ 32 ∷ phrase_text (W.phrase t)) others.now ++ 41 ∷ [])))) }
{
    push(out, b"(")?;
    W::put(alloc, out, first)?;
    push_later::<T, W>(alloc, out, others)?;
    push(out, b")")
}

fn push_listed<T, W: PutsWords<T>>(
    alloc: Global,
    out: &mut Vec<u8>,
    first: &T,
    others: &[T],
) -> Result<(), Memory>
    ensures { IfOk result (λ _. out.new.items ≡ out.old.items ++ phrase_text (listed (map W.phrase (first.now ∷ others.now)))) }
{
    push_things::<T, W>(alloc, out, first, others)
}

/// Things in parentheses, a comma between each two.
#[tactic(auto, unfolding(text_words::specs::Pieces::pieces_text))]
pub(crate) fn push_list<T, W: PutsWords<T>>(
    alloc: Global,
    out: &mut Vec<u8>,
    things: &[T],
) -> Result<(), Memory>
    ensures { IfOk result (λ _. out.new.items ≡ out.old.items ++ phrase_text (listed (map W.phrase things.now))) }
{
    match things {
        [] => push(out, b"()"),
        [first, others @ ..] => push_listed::<T, W>(alloc, out, first, others),
    }
}

/// A set: a name, a parameter, or elements in parentheses.
#[tactic(auto, unfolding(text_words::specs::Pieces::pieces_text))]
pub(crate) fn push_set<T, W: PutsWords<T>>(
    alloc: Global,
    out: &mut Vec<u8>,
    set: &RplSet<T>,
) -> Result<(), Memory>
    ensures { IfOk result (λ _. out.new.items ≡ out.old.items ++ phrase_text (set_phrase W.phrase set.now)) }
{
    match set {
        RplSet::Named(name) => push_all(out, &[name.as_slice()]),
        RplSet::Parameter(x) => push_all(out, &[b"$", x.as_slice()]),
        RplSet::Listed(elements) => push_list::<T, W>(alloc, out, elements.as_slice()),
    }
}

/// A set behind words.
pub(crate) fn push_set_behind<T, W: PutsWords<T>>(
    alloc: Global,
    out: &mut Vec<u8>,
    words: &[u8],
    set: &RplSet<T>,
) -> Result<(), Memory>
    ensures { IfOk result (λ _. out.new.items ≡ out.old.items ++ (words.now ++ phrase_text (set_phrase W.phrase set.now))) }
{
    push(out, words)?;
    push_set::<T, W>(alloc, out, set)
}
