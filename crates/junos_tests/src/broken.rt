// Texts that are broken: where the first fault stands, by line and column, and of which kind it is; and neighbours
// that are read.
use crate::places::place;
use junos_tree::read_junos;
use std::alloc::{AllocGlobal, Global};
use std::process::Abort;
use std::str;
use std::test::Fail;
use text_words::{BrokenKind, TextFault};

/// What is to be found: the line, the column and the kind; none where the text is read.
pub type Want = Option<(u64, u64, BrokenKind)>;

/// What is found.
pub fn fault(alloc: Global, text: &str) -> Result<Want, Fail> {
    match read_junos(alloc, text.as_bytes()) {
        Ok(_) => Ok(None),
        Err(TextFault::Broken { span, kind }) => {
            let (line, column) = place(text, span.start);
            Ok(Some((line, column, kind)))
        }
        Err(TextFault::Memory) => Err(Fail::new("memory")),
    }
}

fn check(rt: &(impl Abort + AllocGlobal), rows: &[(&str, Want)]) -> Result<(), Fail> {
    for (text, want) in rows {
        assert_eq!(rt; fault(rt.alloc(), text)?, *want, "{text}");
    }
    Ok(())
}

#[test]
fn quotes_and_comments(rt: HostRuntime) -> Result<(), Fail> {
    check(
        &rt,
        &[
            // A quote that no other closes, and one that is closed two lines below.
            (
                "policy-options {\n    as-path A \"65001 .\n",
                Some((2, 15, BrokenKind::OpenQuote)),
            ),
            ("policy-options {\n    as-path A \"65001 .\n\";\n}\n", None),
            // At the end an open quote comes before words without an end and before open blocks.
            ("a {\n b \"c", Some((2, 4, BrokenKind::OpenQuote))),
            // A backslash closes nothing and opens nothing.
            ("a \"\\\";", None),
            // A comment that is open at the end, behind a star too; stars and a slash close it.
            ("a;\n/* b; *", Some((2, 1, BrokenKind::OpenComment))),
            ("a {\n b /* c", Some((2, 4, BrokenKind::OpenComment))),
            ("a; /*/", Some((1, 4, BrokenKind::OpenComment))),
            ("a; /**/", None),
            ("a; /* * b **/", None),
            // There is no quote in a comment and no comment in a quote.
            ("a; /* \" */ # \" /*\n", None),
            ("a \"/*\";", None),
        ],
    )
}

#[test]
fn blocks(rt: HostRuntime) -> Result<(), Fail> {
    check(
        &rt,
        &[
            // A block that is closed twice, and one that is closed once.
            ("a {\n}\n}\n", Some((3, 1, BrokenKind::StrayBrace))),
            ("a {\n}\n", None),
            // Of the blocks that are open at the end, the innermost.
            ("a {\n  b {\n", Some((2, 3, BrokenKind::OpenBrace))),
            ("a {\n  b {\n  }\n", Some((1, 1, BrokenKind::OpenBrace))),
            ("a {\n  {\n", Some((2, 3, BrokenKind::OpenBrace))),
            // Words before `}` and at the end, also where no block is open.
            ("a {\n  b c\n}\n", Some((2, 3, BrokenKind::NoEnder))),
            ("a }\n", Some((1, 1, BrokenKind::NoEnder))),
            ("a;\nb\n", Some((2, 1, BrokenKind::NoEnder))),
            ("a {\n  b\n", Some((2, 3, BrokenKind::NoEnder))),
            ("a {\n  b c;\n}\n", None),
            // A brace in quotes or in a comment is none.
            ("a \"}\" { # }\n}\n", None),
            // The first fault from the left stands.
            ("}\na \"", Some((1, 1, BrokenKind::StrayBrace))),
            ("a { b } }\n", Some((1, 5, BrokenKind::NoEnder))),
            // No text says nothing.
            ("", None),
            (";{}", None),
        ],
    )
}

/// A policy in which a longer and a shorter prefix are filtered.
const IMPORT: &str = "\
policy-options {
    policy-statement IMP {
        term a {
            from {
                route-filter 10.0.0.0/8 orlonger;
                route-filter 10.1.0.0/16 exact;
            }
            then accept;
        }
        then reject;
    }
}
";

/// The first so many lines of a text.
fn first_lines(text: &str, count: u64) -> &[u8] {
    let bytes = text.as_bytes();
    let mut left = count;
    for at in 0..bytes.len() {
        if left == 0 {
            return &bytes[..at];
        }
        if bytes[at] == b'\n' {
            left = left.saturating_sub(1);
        }
    }
    bytes
}

#[test]
fn cut_behind_lines(rt: HostRuntime) -> Result<(), Fail> {
    // The innermost block that is open behind each line.
    let rows: [(u64, Want); 13] = [
        (0, None),
        (1, Some((1, 1, BrokenKind::OpenBrace))),
        (2, Some((2, 5, BrokenKind::OpenBrace))),
        (3, Some((3, 9, BrokenKind::OpenBrace))),
        (4, Some((4, 13, BrokenKind::OpenBrace))),
        (5, Some((4, 13, BrokenKind::OpenBrace))),
        (6, Some((4, 13, BrokenKind::OpenBrace))),
        (7, Some((3, 9, BrokenKind::OpenBrace))),
        (8, Some((3, 9, BrokenKind::OpenBrace))),
        (9, Some((2, 5, BrokenKind::OpenBrace))),
        (10, Some((2, 5, BrokenKind::OpenBrace))),
        (11, Some((1, 1, BrokenKind::OpenBrace))),
        (12, None),
    ];
    for (lines, want) in rows {
        let text = str::from_utf8(first_lines(IMPORT, lines))?;
        assert_eq!(rt; fault(rt.alloc(), text)?, want, "{lines}");
    }
    Ok(())
}

#[test]
fn cut_short(rt: HostRuntime) -> Result<(), Fail> {
    let bytes = IMPORT.as_bytes();
    let last = bytes.len().saturating_sub(1);
    for length in 0..bytes.len() {
        let is_read = read_junos(rt.alloc(), &bytes[..length]).is_ok();
        assert_eq!(rt; is_read, length == 0 || length == last, "{length}");
    }
    Ok(())
}
