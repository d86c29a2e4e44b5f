// Hostile texts: 20,000 `if`s one in another and 100,000 parentheses are read, or found broken.
use crate::shown::breaks;
use std::alloc::Global;
use std::test::Fail;

fn push_times(out: &mut String, times: u32, piece: &str) -> Result<(), Fail> {
    for _ in 0..times {
        out.push_str(piece)?;
    }
    Ok(())
}

/// A policy of so many `if`s one in another, and of so many `endif`s.
fn nested_ifs(alloc: Global, ifs: u32, ends: u32) -> Result<String, Fail> {
    let mut text = String::from_str(alloc, "route-policy P\n")?;
    push_times(&mut text, ifs, "if med eq 1 then\n")?;
    push_times(&mut text, ends, "endif\n")?;
    text.push_str("end-policy\n")?;
    Ok(text)
}

/// A policy whose condition stands in so many parentheses.
fn nested_groups(alloc: Global, groups: u32) -> Result<String, Fail> {
    let mut text = String::from_str(alloc, "route-policy P\nif ")?;
    push_times(&mut text, groups, "(")?;
    text.push_str("med eq 1")?;
    push_times(&mut text, groups, ")")?;
    text.push_str(" then endif\nend-policy\n")?;
    Ok(text)
}

#[test]
fn ifs(rt: HostRuntime) -> Result<(), Fail> {
    for (ifs, ends, want) in [
        (20_000, 20_000, ""),
        (1_000, 999, "misplaced 2001:1-2001:11"),
        (1_000, 1_001, "misplaced 2002:1-2002:6"),
    ] {
        let text = nested_ifs(rt.alloc(), ifs, ends)?;
        breaks(&rt, text.as_str(), want)?;
    }
    Ok(())
}

#[test]
fn groups(rt: HostRuntime) -> Result<(), Fail> {
    let text = nested_groups(rt.alloc(), 100_000)?;
    breaks(&rt, text.as_str(), "")
}
