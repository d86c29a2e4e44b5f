// Texts of routes: a plain one, and others by the lines that differ from it.
use std::alloc::Global;
use std::test::Fail;

/// The lines of the plain route.
const PLAIN: [&str; 8] = [
    "route 10.0.0.0/8",
    "next-hop 192.0.2.1",
    "as-path 65001",
    "origin igp",
    "local-preference 100",
    "med 0",
    "weight 0",
    "communities",
];

/// The line of `changes` that begins with the same word, or the line itself where none does.
fn line_among(line: &'static str, changes: &[&'static str]) -> &'static str {
    for change in changes {
        if change.split(' ').next() == line.split(' ').next() {
            return change;
        }
    }
    line
}

/// The text of the plain route with the lines `given`, and over these the lines `made`.
pub fn route_text(
    alloc: Global,
    given: &[&'static str],
    made: &[&'static str],
) -> Result<String, Fail> {
    let mut text = String::new(alloc);
    for line in PLAIN {
        text.push_str(line_among(line_among(line, given), made))?;
        text.push_str("\n")?;
    }
    Ok(text)
}

/// The text of the plain route without its line at this place, counted from 0.
pub fn route_without(alloc: Global, place: usize) -> Result<String, Fail> {
    let mut text = String::new(alloc);
    for (at, line) in PLAIN.iter().enumerate() {
        if at != place {
            text.push_str(line)?;
            text.push_str("\n")?;
        }
    }
    Ok(text)
}
