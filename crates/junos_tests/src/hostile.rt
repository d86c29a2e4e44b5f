// Hostile texts are answered as others are: deep blocks, long quotes and comments, many conditions, many policies.
use crate::broken::{Want, fault};
use crate::causes::{calling, found};
use std::alloc::{AllocGlobal, Global};
use std::process::Abort;
use std::str;
use std::test::Fail;
use text_words::BrokenKind;

fn push_times(text: &mut String, times: u32, piece: &str) -> Result<(), Fail> {
    for _ in 0..times {
        text.push_str(piece)?;
    }
    Ok(())
}

/// So many blocks one in another, a line each, and so many lines that close one.
fn nested(alloc: Global, blocks: u32, ends: u32) -> Result<String, Fail> {
    let mut text = String::new(alloc);
    push_times(&mut text, blocks, "a {\n")?;
    push_times(&mut text, ends, "}\n")?;
    Ok(text)
}

#[test]
fn blocks(rt: HostRuntime) -> Result<(), Fail> {
    for (blocks, ends, want) in [
        (100_000, 0, Some((100_000, 1, BrokenKind::OpenBrace))),
        (100_000, 100_000, None),
        (100_000, 100_001, Some((200_001, 1, BrokenKind::StrayBrace))),
    ] {
        let text = nested(rt.alloc(), blocks, ends)?;
        assert_eq!(rt; fault(rt.alloc(), text.as_str())?, want);
    }
    Ok(())
}

/// This many bytes lie between what starts a text and what ends it: with a few more it has the greatest length of a text.
const BETWEEN: usize = 16_777_210;

/// A text of these ends and of one byte again and again between them.
fn filled(alloc: Global, first: &str, byte: u8, last: &str) -> Result<String, Fail> {
    let mut text = String::from_str(alloc, first)?;
    let fill = vec![in alloc; byte; BETWEEN]?;
    text.push_str(str::from_utf8(fill.as_slice())?)?;
    text.push_str(last)?;
    Ok(text)
}

/// What a text of this kind starts with, the byte that fills it, what ends it, and what is to be found.
type Filled<'a> = (&'a str, u8, &'a str, Want);

fn check(rt: &(impl Abort + AllocGlobal), rows: &[Filled<'_>]) -> Result<(), Fail> {
    for (first, byte, last, want) in rows {
        let text = filled(rt.alloc(), first, *byte, last)?;
        assert_eq!(rt; fault(rt.alloc(), text.as_str())?, *want, "{first}{last}");
    }
    Ok(())
}

#[test]
fn quotes(rt: HostRuntime) -> Result<(), Fail> {
    check(
        &rt,
        &[
            ("a \"", b'b', "", Some((1, 3, BrokenKind::OpenQuote))),
            ("a \"", b'b', "\";", None),
        ],
    )
}

#[test]
fn comments(rt: HostRuntime) -> Result<(), Fail> {
    check(
        &rt,
        &[
            ("/*", b'*', " ", Some((1, 1, BrokenKind::OpenComment))),
            ("/*", b'*', "/", None),
            ("#", b'{', "", None),
        ],
    )
}

/// A policy of 100,000 conditions, a line each, that call one policy, and more text.
fn with_conditions(alloc: Global, more: &str) -> Result<String, Fail> {
    let mut text = String::from_str(alloc, "policy-statement P {\n")?;
    push_times(&mut text, 100_000, "    from policy Q;\n")?;
    text.push_str("}\n")?;
    text.push_str(more)?;
    Ok(text)
}

/// A policy with one condition of 100,000 names, and more text.
fn with_names(alloc: Global, more: &str) -> Result<String, Fail> {
    let mut text = String::from_str(alloc, "policy-statement P {\n    from policy [")?;
    push_times(&mut text, 100_000, " Q")?;
    text.push_str(" ];\n}\n")?;
    text.push_str(more)?;
    Ok(text)
}

#[test]
fn conditions(rt: HostRuntime) -> Result<(), Fail> {
    for (more, want) in [
        ("policy-statement Q { }\n", ""),
        ("policy-statement Q { from policy P; }\n", "2:5 cycle"),
        ("", "2:5 undefined"),
    ] {
        let text = with_conditions(rt.alloc(), more)?;
        let answer = found(rt.alloc(), "P", text.as_str())?;
        assert_eq!(rt; answer.as_str(), want, "conditions");
        let text = with_names(rt.alloc(), more)?;
        let answer = found(rt.alloc(), "P", text.as_str())?;
        assert_eq!(rt; answer.as_str(), want, "names");
    }
    Ok(())
}

#[test]
fn policies(rt: HostRuntime) -> Result<(), Fail> {
    for (last, want) in [
        ("policy-statement P20000 { }\n", "129:25 too-deep"),
        (
            "policy-statement P20000 { from policy P0; }\n",
            "1:23 cycle",
        ),
        ("", "129:25 too-deep"),
    ] {
        let text = calling(rt.alloc(), 20_000, last)?;
        let answer = found(rt.alloc(), "P0", text.as_str())?;
        assert_eq!(rt; answer.as_str(), want);
    }
    Ok(())
}
