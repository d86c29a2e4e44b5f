// The words of the elements of sets.
ghost use Rattle.std.specs.Prelude.{◌≡◌, ◌++◌, ◌∷◌, [], IfOk};
ghost use Rattle.text_words.specs.Pieces.{pieces_text};
ghost use Rattle.rpl_words.specs.declared.number.RplNumber.TheVariants.{Fixed as IsFixed};
ghost use Rattle.rpl_text.specs.Words.{phrase_text, two_bounds, bounds_words, prefix_phrase, rect_phrase, path_test_phrase, path_phrase, element_phrase};

use crate::bytes::{push, push_all};
use crate::patterns::push_pattern;
use crate::values::{comparison_word, digits, number8, number16, number32, rect};
use route_types::{Rect, push_prefix};
use rpl_forms::{Element, PathElement, PathTest, PrefixElement, RplNumber};
use std::alloc::Global;
use text_words::Memory;

#[tactic(auto, unfolding(text_words::specs::Pieces::pieces_text))]
fn push_two_bounds(
    alloc: Global,
    out: &mut Vec<u8>,
    least: &RplNumber<u8>,
    most: &RplNumber<u8>,
) -> Result<(), Memory>
    ensures { IfOk result (λ _. out.new.items ≡ out.old.items ++ pieces_text 39 (two_bounds least.now most.now)) }
{
    let low = number8(alloc, least)?;
    let high = number8(alloc, most)?;
    push_all(out, &[b" ge ", low.as_slice(), b" le ", high.as_slice()])
}

#[tactic(auto, unfolding(text_words::specs::Pieces::pieces_text))]
fn push_one_bound(alloc: Global, out: &mut Vec<u8>, least: u8, most: u8) -> Result<(), Memory>
    ensures { IfOk result (λ _. out.new.items ≡ out.old.items ++ pieces_text 39 (two_bounds (IsFixed least) (IsFixed most))) }
{
    let low = digits(alloc, u64::from(least))?;
    let high = digits(alloc, u64::from(most))?;
    push_all(out, &[b" ge ", low.as_slice(), b" le ", high.as_slice()])
}

// Two lengths behind a prefix of this length, in the first form that fits.
#[tactic(auto, unfolding(text_words::specs::Pieces::pieces_text))]
fn push_lengths(
    alloc: Global,
    out: &mut Vec<u8>,
    length: u8,
    least: u8,
    most: u8,
) -> Result<(), Memory>
    ensures { IfOk result (λ _. out.new.items ≡ out.old.items ++ pieces_text 39 (bounds_words length (IsFixed least) (IsFixed most))) }
{
    if least == most {
        if least == length {
            return Ok(());
        }
        let bound = digits(alloc, u64::from(most))?;
        return push_all(out, &[b" eq ", bound.as_slice()]);
    }
    if least == length {
        let bound = digits(alloc, u64::from(most))?;
        return push_all(out, &[b" le ", bound.as_slice()]);
    }
    if most == 32 {
        let bound = digits(alloc, u64::from(least))?;
        return push_all(out, &[b" ge ", bound.as_slice()]);
    }
    push_one_bound(alloc, out, least, most)
}

fn push_bounds(
    alloc: Global,
    out: &mut Vec<u8>,
    length: u8,
    least: &RplNumber<u8>,
    most: &RplNumber<u8>,
) -> Result<(), Memory>
    ensures { IfOk result (λ _. out.new.items ≡ out.old.items ++ pieces_text 39 (bounds_words length least.now most.now)) }
{
    match least {
        RplNumber::Parameter(_) => push_two_bounds(alloc, out, least, most),
        RplNumber::Fixed(low) => match most {
            RplNumber::Parameter(_) => push_two_bounds(alloc, out, least, most),
            RplNumber::Fixed(high) => push_lengths(alloc, out, length, *low, *high),
        },
    }
}

/// An element of a prefix set.
pub(crate) fn push_prefix_element(
    alloc: Global,
    out: &mut Vec<u8>,
    element: &PrefixElement,
) -> Result<(), Memory>
    ensures { IfOk result (λ _. out.new.items ≡ out.old.items ++ phrase_text (prefix_phrase element.now)) }
{
    push_prefix(out, &element.prefix)?;
    push_bounds(
        alloc,
        out,
        element.prefix.length(),
        &element.least,
        &element.most,
    )
}

/// An element of a community set.
#[tactic(auto, unfolding(text_words::specs::Pieces::pieces_text))]
pub(crate) fn push_rect(alloc: Global, out: &mut Vec<u8>, element: &Rect) -> Result<(), Memory>
    ensures { IfOk result (λ _. out.new.items ≡ out.old.items ++ phrase_text (rect_phrase element.now)) }
{
    let text = rect(alloc, element)?;
    push_all(out, &[text.as_slice()])
}

/// A test of a path.
#[tactic(auto, unfolding(text_words::specs::Pieces::pieces_text))]
pub(crate) fn push_path_test(
    alloc: Global,
    out: &mut Vec<u8>,
    test: &PathTest,
) -> Result<(), Memory>
    ensures { IfOk result (λ _. out.new.items ≡ out.old.items ++ phrase_text (path_test_phrase test.now)) }
{
    match test {
        PathTest::Length(t) => {
            let number = number16(alloc, &t.length)?;
            push_all(
                out,
                &[
                    b"length ",
                    comparison_word(t.comparison),
                    b" ",
                    number.as_slice(),
                ],
            )
        }
        PathTest::PassesThrough(n) => {
            let number = number32(alloc, n)?;
            push_all(out, &[b"passes-through '", number.as_slice(), b"'"])
        }
        PathTest::OriginatesFrom(n) => {
            let number = number32(alloc, n)?;
            push_all(out, &[b"originates-from '", number.as_slice(), b"'"])
        }
        PathTest::NeighborIs(n) => {
            let number = number32(alloc, n)?;
            push_all(out, &[b"neighbor-is '", number.as_slice(), b"'"])
        }
    }
}

/// An element of a path set.
#[tactic(auto, unfolding(text_words::specs::Pieces::pieces_text))]
pub(crate) fn push_path_element(
    alloc: Global,
    out: &mut Vec<u8>,
    element: &PathElement,
) -> Result<(), Memory>
    ensures { IfOk result (λ _. out.new.items ≡ out.old.items ++ phrase_text (path_phrase element.now)) }
{
    match element {
        PathElement::Pattern(pattern) => {
            push(out, b"ios-regex '")?;
            push_pattern(out, pattern)?;
            push(out, b"'")
        }
        PathElement::Test(test) => push_path_test(alloc, out, test),
    }
}

/// An element of a set.
pub(crate) fn push_element(
    alloc: Global,
    out: &mut Vec<u8>,
    element: &Element,
) -> Result<(), Memory>
    ensures { IfOk result (λ _. out.new.items ≡ out.old.items ++ phrase_text (element_phrase element.now)) }
{
    match element {
        Element::Prefix(element) => push_prefix_element(alloc, out, element),
        Element::Community(element) => push_rect(alloc, out, element),
        Element::Path(element) => push_path_element(alloc, out, element),
    }
}
