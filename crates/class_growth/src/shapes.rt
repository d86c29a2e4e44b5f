//! Patterns of IOS of one shape over different numbers.

use aspath_text::{PatternFault, TokenPattern, read_ios_pattern, tokens};
use route_types::{Memory, Row, push_number};
use std::alloc::Global;

/// A shape: the texts between which the number stands.
pub type Shape = &'static [&'static [u8]];

/// `^A_`: the path begins with the number.
pub const STARTS: Shape = &[b"^", b"_"];

/// `_A$`: the path ends with the number.
pub const ENDS: Shape = &[b"_", b"$"];

/// `^A(_A)*$`: the path has the number alone, once or more.
pub const REPEATS: Shape = &[b"^", b"(_", b")*$"];

/// `_A_`: the path passes through the number.
pub const PASSES: Shape = &[b"_", b"_"];

// The text of a shape with its number.
fn push_text(out: &mut Vec<u8>, shape: &[&[u8]], number: u32) -> Result<(), Memory> {
    let [first, others @ ..] = shape else {
        return Ok(());
    };
    out.extend_from_slice(first)?;
    for text in others {
        push_number(out, u64::from(number))?;
        out.extend_from_slice(text)?;
    }
    Ok(())
}

/// So many patterns of each shape, over the numbers from 1 on.
pub fn patterns(
    alloc: Global,
    shapes: &[&[&[u8]]],
    count: u32,
) -> Result<Row<TokenPattern>, PatternFault> {
    let mut found = Row::new(alloc);
    for shape in shapes {
        for place in 0..count {
            let mut text = Vec::new(alloc);
            push_text(&mut text, shape, place + 1)?;
            let pattern = read_ios_pattern(alloc, text.as_slice())?;
            found.push(tokens(alloc, &pattern)?)?;
        }
    }
    Ok(found)
}
