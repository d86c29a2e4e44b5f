// Policies of RPL: what they make of routes, and what is told of a text of which none is judged.
use crate::named::{judged, refused, refuses};
use crate::policies::Verdict::{Accept, Reject};
use crate::policies::makes;
use std::alloc::Global;
use std::test::Fail;

mod customer;
mod flows;
mod refused;
mod transit;

/// The words of a judge by the policy P.
const JUDGE_P: &str = "judge --from rpl --policy P in.cfg r.txt";

#[test]
fn policies(rt: HostRuntime) -> Result<(), Fail> {
    for rows in [customer::POLICIES, flows::POLICIES, transit::POLICIES] {
        judged(&rt, "rpl", rows)?;
    }
    Ok(())
}

#[test]
fn refused_policies(rt: HostRuntime) -> Result<(), Fail> {
    refused(&rt, "rpl", refused::REFUSED)
}

/// A policy of so many `if`s one in another, and `pass` within them all.
fn nested_ifs(alloc: Global, ifs: u32) -> Result<String, Fail> {
    let mut text = String::from_str(alloc, "route-policy P\n")?;
    for _ in 0..ifs {
        text.push_str("if med eq 1 then\n")?;
    }
    text.push_str("pass\n")?;
    for _ in 0..ifs {
        text.push_str("endif\n")?;
    }
    text.push_str("end-policy\n")?;
    Ok(text)
}

#[test]
fn deep_policies(rt: HostRuntime) -> Result<(), Fail> {
    let at_limit = nested_ifs(rt.alloc(), 128)?;
    makes(&rt, JUDGE_P, at_limit.as_str(), &["med 1"], Accept(&[]))?;
    makes(&rt, JUDGE_P, at_limit.as_str(), &["med 2"], Reject)?;
    let beyond = nested_ifs(rt.alloc(), 129)?;
    refuses(
        &rt,
        "rpl",
        "P",
        beyond.as_str(),
        (4, "in.cfg:130:1: outside: too-deep"),
    )
}

/// A policy that applies another one twice, that the next, and so on, forty of them: behind the last one stand these
/// statements, and behind the first one those.
fn doubled(alloc: Global, last: &str, first: &str) -> Result<String, Fail> {
    let mut text = format!(in alloc; "route-policy P\n apply D1\n apply D1\n{first}end-policy\n")?;
    for n in 1..40u32 {
        let next = n + 1;
        let policy = format!(in alloc;
            "route-policy D{n}\n apply D{next}\n apply D{next}\nend-policy\n"
        )?;
        text.push_str(policy.as_str())?;
    }
    let policy = format!(in alloc; "route-policy D40\n{last}end-policy\n")?;
    text.push_str(policy.as_str())?;
    Ok(text)
}

/// A policy that applies another one, that the next, and so on, so many of them: the last one sets the MED.
fn chained(alloc: Global, calls: u32) -> Result<String, Fail> {
    let mut text = String::from_str(alloc, "route-policy P\n apply P1\nend-policy\n")?;
    for n in 1..calls {
        let next = n + 1;
        let policy = format!(in alloc; "route-policy P{n}\n apply P{next}\nend-policy\n")?;
        text.push_str(policy.as_str())?;
    }
    let policy = format!(in alloc; "route-policy P{calls}\n set med 7\nend-policy\n")?;
    text.push_str(policy.as_str())?;
    Ok(text)
}

#[test]
fn chained_policies(rt: HostRuntime) -> Result<(), Fail> {
    let at_limit = chained(rt.alloc(), 128)?;
    makes(&rt, JUDGE_P, at_limit.as_str(), &[], Accept(&["med 7"]))?;
    let beyond = chained(rt.alloc(), 129)?;
    refuses(
        &rt,
        "rpl",
        "P",
        beyond.as_str(),
        (4, "in.cfg:386:2: outside: too-deep"),
    )
}

#[test]
fn doubled_policies(rt: HostRuntime) -> Result<(), Fail> {
    let sets = doubled(
        rt.alloc(),
        " set med 7\n set community (65001:1) additive\n delete community in (65001:2)\n",
        "",
    )?;
    makes(
        &rt,
        JUDGE_P,
        sets.as_str(),
        &["communities 65001:2 65001:3"],
        Accept(&["med 7", "communities 65001:1 65001:3"]),
    )?;
    let prepends = doubled(rt.alloc(), " prepend as-path 65001 2\n", " drop\n")?;
    makes(&rt, JUDGE_P, prepends.as_str(), &[], Reject)?;
    let ends = doubled(rt.alloc(), " prepend as-path 65001 2\n done\n", " drop\n")?;
    makes(
        &rt,
        JUDGE_P,
        ends.as_str(),
        &["as-path 65002"],
        Accept(&["as-path 65001 65001 65002"]),
    )
}
