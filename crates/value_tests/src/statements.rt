// The statements of a text as lines: each with its depth, its place and its words, quoted ones in quotes, and the
// sign that ends it; and the cut of IOS texts.
use std::alloc::{AllocGlobal, Global};
use std::process::Abort;
use std::str;
use std::test::Fail;
use text_words::{Ender, Statement, Word, ios_statements};

/// The sign that ends a statement.
fn sign(ender: Ender) -> &'static str {
    match ender {
        Ender::Semi => " ;",
        Ender::Open => " {",
        Ender::Close => " }",
        Ender::Comma => " ,",
        Ender::Line | Ender::Plain => "",
    }
}

fn push_word(alloc: Global, out: &mut String, word: &Word) -> Result<(), Fail> {
    let text = str::from_utf8(word.text.as_slice())?;
    let shown = if word.quoted {
        format!(in alloc; " '{text}'")?
    } else {
        format!(in alloc; " {text}")?
    };
    out.push_str(shown.as_str())?;
    Ok(())
}

/// A line for each statement.
fn listed(alloc: Global, statements: &[Statement]) -> Result<String, Fail> {
    let mut out = String::new(alloc);
    for s in statements {
        let (depth, start, end) = (s.depth, s.span.start, s.span.end);
        let place = format!(in alloc; "{depth} {start}-{end}")?;
        out.push_str(place.as_str())?;
        for word in s.words.as_slice() {
            push_word(alloc, &mut out, word)?;
        }
        out.push_str(sign(s.ender))?;
        out.push_str("\n")?;
    }
    Ok(out)
}

fn push_place(alloc: Global, out: &mut String, word: &Word) -> Result<(), Fail> {
    let (start, end) = (word.span.start, word.span.end);
    let shown = format!(in alloc; " {start}-{end}")?;
    out.push_str(shown.as_str())?;
    Ok(())
}

/// A line for each statement: how many words it has, and their places.
fn placed(alloc: Global, statements: &[Statement]) -> Result<String, Fail> {
    let mut out = String::new(alloc);
    for s in statements {
        let count = s.words.as_slice().len();
        let shown = format!(in alloc; "{count}")?;
        out.push_str(shown.as_str())?;
        for word in s.words.as_slice() {
            push_place(alloc, &mut out, word)?;
        }
        out.push_str("\n")?;
    }
    Ok(out)
}

/// The statements are these.
pub(crate) fn lists(
    rt: &(impl Abort + AllocGlobal),
    statements: &[Statement],
    want: &str,
) -> Result<(), Fail> {
    let found = listed(rt.alloc(), statements)?;
    assert_eq!(rt; found.as_str(), want);
    Ok(())
}

/// Their words lie at these places.
pub(crate) fn places(
    rt: &(impl Abort + AllocGlobal),
    statements: &[Statement],
    want: &str,
) -> Result<(), Fail> {
    let found = placed(rt.alloc(), statements)?;
    assert_eq!(rt; found.as_str(), want);
    Ok(())
}

#[test]
fn ios_texts(rt: HostRuntime) -> Result<(), Fail> {
    for (text, want) in [
        ("", ""),
        ("\n\r\n \t\n! x y\n  !x\n", ""),
        ("a b", "0 0-3 a b\n"),
        ("a b\r\n c\n", "0 0-3 a b\n1 6-7 c\n"),
        ("a\rb\n", "0 0-3 a\rb\n"),
        ("\ta \t!b  \n", "1 1-6 a !b\n"),
    ] {
        let cut = ios_statements(rt.alloc(), text.as_bytes())?;
        lists(&rt, cut.as_slice(), want)?;
    }
    Ok(())
}
