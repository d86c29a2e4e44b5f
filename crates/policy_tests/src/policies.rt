// What policies make of routes, a file a subject: each route and each outcome by the lines that differ from a
// plain one's.
use crate::routes::route_text;
use crate::runs::{JUDGE, JUDGE_RPL, TRANSLATE, output_of, shows, unfailing};
use std::alloc::{AllocGlobal, Global};
use std::process::Abort;
use std::test::Fail;

mod community_lists;
mod entries;
mod path_lists;
mod prefix_lists;
mod set_lines;

/// What is made of a route.
#[derive(Clone, Copy)]
pub enum Verdict {
    /// It is rejected.
    Reject,
    /// It is accepted, and these of its lines differ from those that it came with.
    Accept(&'static [&'static str]),
}

/// What is made of routes, each by the lines that differ from the plain route's.
pub type Routes = &'static [(&'static [&'static str], Verdict)];

/// A policy IN, and what it makes of routes.
type Policy = (&'static str, Routes);

/// The text of an outcome for the route with the lines `given`.
fn outcome_text(alloc: Global, given: &[&'static str], verdict: Verdict) -> Result<String, Fail> {
    match verdict {
        Verdict::Reject => Ok(String::from_str(alloc, "reject\n")?),
        Verdict::Accept(made) => {
            let route = route_text(alloc, given, made)?;
            Ok(format!(in alloc; "accept\n{route}")?)
        }
    }
}

/// The policy that these words of a judge name makes this of the route with the lines `given`.
pub fn makes(
    rt: &(impl Abort + AllocGlobal),
    words: &str,
    policy: &str,
    given: &[&'static str],
    verdict: Verdict,
) -> Result<(), Fail> {
    let route = route_text(rt.alloc(), given, &[])?;
    let outcome = outcome_text(rt.alloc(), given, verdict)?;
    let texts = judge_texts(policy, route.as_str());
    shows(rt, &unfailing(words, &texts), (0, outcome.as_str(), ""))
}

/// The texts of a judge: the source, and the route.
fn judge_texts<'a>(policy: &'a str, route: &'a str) -> [(&'a str, &'a str); 2] {
    [("in.cfg", policy), ("r.txt", route)]
}

/// Each policy makes of its routes what is said.
fn judged(rt: &(impl Abort + AllocGlobal), rows: &[Policy]) -> Result<(), Fail> {
    for (policy, routes) in rows {
        for (given, verdict) in *routes {
            makes(rt, JUDGE, policy, given, *verdict)?;
        }
    }
    Ok(())
}

/// The policies of all subjects.
const SUBJECTS: [&[Policy]; 5] = [
    community_lists::POLICIES,
    entries::POLICIES,
    path_lists::POLICIES,
    prefix_lists::POLICIES,
    set_lines::POLICIES,
];

#[test]
fn policies(rt: HostRuntime) -> Result<(), Fail> {
    for rows in SUBJECTS {
        judged(&rt, rows)?;
    }
    Ok(())
}

/// The policy is judged at once, and translation answers want of memory before it makes the ranges.
#[test]
fn patterns_of_many_ranges(rt: HostRuntime) -> Result<(), Fail> {
    judged(&rt, path_lists::MANY_RANGES)?;
    for (source, _) in path_lists::MANY_RANGES {
        let texts = [("in.cfg", *source)];
        shows(&rt, &unfailing(TRANSLATE, &texts), (9, "", "out of memory"))?;
    }
    Ok(())
}

/// RPL can say the policy, and translation takes it.
fn is_translated(policy: &str) -> bool {
    !policy.contains(" exact-match")
}

/// The policy as it is written in RPL makes of its routes what is said.
fn judged_in_rpl(rt: &(impl Abort + AllocGlobal), policy: &Policy) -> Result<(), Fail> {
    let (source, routes) = policy;
    let texts = [("in.cfg", *source)];
    let written = output_of(rt.alloc(), &unfailing(TRANSLATE, &texts))?;
    for (given, verdict) in *routes {
        makes(rt, JUDGE_RPL, written.as_str(), given, *verdict)?;
    }
    Ok(())
}

#[test]
fn policies_in_rpl(rt: HostRuntime) -> Result<(), Fail> {
    for rows in SUBJECTS {
        for policy in rows {
            if is_translated(policy.0) {
                judged_in_rpl(&rt, policy)?;
            }
        }
    }
    Ok(())
}
