// Policies by their names in a text of Junos or RPL: what they make of routes, and what is told of one that is not judged.
use crate::policies::{Routes, makes};
use crate::runs::{shows, unfailing};
use std::alloc::{AllocGlobal, Global};
use std::process::Abort;
use std::test::Fail;

/// The names of a policy, the text in which they stand, and what it makes of routes.
pub type Named = (&'static str, &'static str, Routes);

/// The names of a policy, a text, the status and the line; where it just is taken, the route is none.
pub type Refused = (&'static str, &'static str, u8, &'static str);

/// The line of a policy that is taken.
pub const TAKEN: &str = "r.txt:1: not a route";

/// The words of a judge by the policy of these names in a language.
fn judge_words(alloc: Global, language: &str, names: &str) -> Result<String, Fail> {
    Ok(format!(in alloc; "judge --from {language} --policy {names} in.cfg r.txt")?)
}

/// Each policy makes of its routes what is said.
pub fn judged(rt: &(impl Abort + AllocGlobal), language: &str, rows: &[Named]) -> Result<(), Fail> {
    for (names, text, routes) in rows {
        let words = judge_words(rt.alloc(), language, names)?;
        for (given, verdict) in *routes {
            makes(rt, words.as_str(), text, given, *verdict)?;
        }
    }
    Ok(())
}

/// A judge by the names in this text shows the status and the line.
pub fn refuses(
    rt: &(impl Abort + AllocGlobal),
    language: &str,
    names: &str,
    text: &str,
    shown: (u8, &str),
) -> Result<(), Fail> {
    let words = judge_words(rt.alloc(), language, names)?;
    let texts = [("in.cfg", text), ("r.txt", "")];
    shows(
        rt,
        &unfailing(words.as_str(), &texts),
        (shown.0, "", shown.1),
    )
}

/// Each policy is refused as is said.
pub fn refused(
    rt: &(impl Abort + AllocGlobal),
    language: &str,
    rows: &[Refused],
) -> Result<(), Fail> {
    for (names, text, status, line) in rows {
        refuses(rt, language, names, text, (*status, line))?;
    }
    Ok(())
}
