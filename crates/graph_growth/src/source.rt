//! The text of the sample: a route-map of so many entries, each with lists of its own.

use route_types::{Memory, push_number};
use std::alloc::Global;

/// The name of the route-map.
pub const NAME: &[u8] = b"SAMPLE";

// A text, and a number behind it.
fn push_with(out: &mut Vec<u8>, text: &[u8], number: u32) -> Result<(), Memory> {
    out.extend_from_slice(text)?;
    push_number(out, u64::from(number))?;
    Ok(())
}

// The prefix list and the community list of one place.
fn push_lists(out: &mut Vec<u8>, place: u32) -> Result<(), Memory> {
    push_with(out, b"ip prefix-list P", place)?;
    push_with(out, b" seq 5 permit 10.", place / 256)?;
    push_with(out, b".", place % 256)?;
    push_with(out, b".0/24 le ", 24 + place % 9)?;
    push_with(out, b"\nip community-list standard C", place)?;
    push_with(out, b" permit 65000:", place)?;
    out.push(b'\n')?;
    Ok(())
}

// What an entry that permits sets.
fn push_sets(out: &mut Vec<u8>, place: u32) -> Result<(), Memory> {
    push_with(out, b" set local-preference ", 100 + place % 50)?;
    push_with(out, b"\n set community 65001:", place % 7)?;
    out.extend_from_slice(b" additive\n")?;
    Ok(())
}

// The entry of one place: each tenth denies.
fn push_entry(out: &mut Vec<u8>, place: u32) -> Result<(), Memory> {
    let permits = place % 10 != 0;
    out.extend_from_slice(b"route-map SAMPLE ")?;
    out.extend_from_slice(if permits {
        b"permit ".as_slice()
    } else {
        b"deny "
    })?;
    push_number(out, u64::from(place) * 10)?;
    push_with(out, b"\n match ip address prefix-list P", place)?;
    push_with(out, b"\n match community C", place)?;
    push_with(out, b"\n match as-path ", place % 6 + 1)?;
    out.push(b'\n')?;
    if permits {
        push_sets(out, place)?;
    }
    Ok(())
}

/// The text of the route-map `SAMPLE` of this many entries: each matches a prefix list and a community list of its
/// own and one of six AS-path lists, and, but for each tenth, which denies, sets the local preference and adds a
/// community. The one error is want of memory.
pub fn sample_text(alloc: Global, entries: u32) -> Result<Vec<u8>, Memory> {
    let mut text = Vec::new(alloc);
    for place in 1..=entries {
        push_lists(&mut text, place)?;
    }
    for list in 1..=6 {
        push_with(&mut text, b"ip as-path access-list ", list)?;
        push_with(&mut text, b" permit _", 64511 + list)?;
        text.extend_from_slice(b"_\n")?;
    }
    for place in 1..=entries {
        push_entry(&mut text, place)?;
    }
    Ok(text)
}
