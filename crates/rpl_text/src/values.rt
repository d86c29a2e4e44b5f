// The texts of numbers, parameters, comparisons, origins and community elements.
ghost use Rattle.std.specs.Prelude.{◌≡◌, ◌++◌, ◌∷◌, [], IfOk, decimal};
ghost use Rattle.route_types.specs.RouteText.{origin_text};
ghost use Rattle.rpl_text.specs.Words.{given, number_text, comparison_text, half_text, rect_text};

use crate::bytes::push;
use route_types::{Origin, Rect, push_number};
use rpl_forms::{Comparison, RplNumber};
use std::alloc::Global;
use text_words::{Memory, Row};

/// A number's decimal text.
pub(crate) fn digits(alloc: Global, number: u64) -> Result<Row<u8>, Memory>
    ensures { IfOk result (λ r. r ≡ decimal number) }
{
    let mut out = Vec::new(alloc);
    push_number(&mut out, number)?;
    Ok(Row::from_vec(out))
}

/// A parameter: `$` and its name.
pub(crate) fn given(alloc: Global, name: &[u8]) -> Result<Row<u8>, Memory>
    ensures { IfOk result (λ r. r ≡ given name.now) }
{
    let mut out = Vec::new(alloc);
    push(&mut out, b"$")?;
    push(&mut out, name)?;
    Ok(Row::from_vec(out))
}

pub(crate) fn number8(alloc: Global, number: &RplNumber<u8>) -> Result<Row<u8>, Memory>
    ensures { IfOk result (λ r. r ≡ number_text number.now) }
{
    match number {
        RplNumber::Fixed(n) => digits(alloc, u64::from(*n)),
        RplNumber::Parameter(x) => given(alloc, x.as_slice()),
    }
}

pub(crate) fn number16(alloc: Global, number: &RplNumber<u16>) -> Result<Row<u8>, Memory>
    ensures { IfOk result (λ r. r ≡ number_text number.now) }
{
    match number {
        RplNumber::Fixed(n) => digits(alloc, u64::from(*n)),
        RplNumber::Parameter(x) => given(alloc, x.as_slice()),
    }
}

pub(crate) fn number32(alloc: Global, number: &RplNumber<u32>) -> Result<Row<u8>, Memory>
    ensures { IfOk result (λ r. r ≡ number_text number.now) }
{
    match number {
        RplNumber::Fixed(n) => digits(alloc, u64::from(*n)),
        RplNumber::Parameter(x) => given(alloc, x.as_slice()),
    }
}

pub(crate) fn comparison_word(comparison: Comparison) -> &'static [u8]
    ensures { result.now ≡ comparison_text comparison }
{
    match comparison {
        Comparison::Equal => b"eq",
        Comparison::AtLeast => b"ge",
        Comparison::AtMost => b"le",
    }
}

pub(crate) fn origin_word(origin: Origin) -> &'static [u8]
    ensures { result.now ≡ origin_text origin }
{
    match origin {
        Origin::Igp => b"igp",
        Origin::Egp => b"egp",
        Origin::Incomplete => b"incomplete",
    }
}

fn push_half(out: &mut Vec<u8>, least: u16, most: u16) -> Result<(), Memory>
    ensures { IfOk result (λ _. out.new.items ≡ out.old.items ++ half_text least most) }
{
    if least == most {
        return push_number(out, u64::from(least));
    }
    if least == 0 && most == 65535 {
        return push(out, b"*");
    }
    push(out, b"[")?;
    push_number(out, u64::from(least))?;
    push(out, b"..")?;
    push_number(out, u64::from(most))?;
    push(out, b"]")
}

/// An element of a community set.
pub(crate) fn rect(alloc: Global, rect: &Rect) -> Result<Row<u8>, Memory>
    ensures { IfOk result (λ r. r ≡ rect_text rect.now) }
{
    let mut out = Vec::new(alloc);
    push_half(&mut out, rect.high_least(), rect.high_most())?;
    push(&mut out, b":")?;
    push_half(&mut out, rect.low_least(), rect.low_most())?;
    Ok(Row::from_vec(out))
}
