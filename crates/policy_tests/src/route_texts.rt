// Texts of routes: a policy that accepts all prints the route again, or the line is told that is none.
use crate::routes::{route_text, route_without};
use crate::runs::{JUDGE, shows, unfailing};
use std::alloc::AllocGlobal;
use std::process::Abort;
use std::test::Fail;

const ALL: &str = "route-map IN permit 10\n";

/// `judge` by a policy that accepts all shows this of the text of a route.
fn read(rt: &(impl Abort + AllocGlobal), route: &str, shown: (u8, &str, &str)) -> Result<(), Fail> {
    let texts = [("in.cfg", ALL), ("r.txt", route)];
    shows(rt, &unfailing(JUDGE, &texts), shown)
}

#[test]
fn route_texts_read(rt: HostRuntime) -> Result<(), Fail> {
    for (route, outcome) in [
        (
            "  route\t10.9.9.9/8 \nnext-hop   self\r\n\tas-path\t\norigin igp\nlocal-preference 100 \nmed 0\r\nweight 0\n communities ",
            "\
accept
route 10.0.0.0/8
next-hop self
as-path
origin igp
local-preference 100
med 0
weight 0
communities
",
        ),
        (
            "\
route 10.1.0.0/16
next-hop 10.0.0.1
as-path 65001 65001\t7
origin incomplete
local-preference 4294967295
med 50
weight 65535
communities 2:0 1:10 1:2 2:0 1:10
",
            "\
accept
route 10.1.0.0/16
next-hop 10.0.0.1
as-path 65001 65001 7
origin incomplete
local-preference 4294967295
med 50
weight 65535
communities 1:2 1:10 2:0
",
        ),
    ] {
        read(&rt, route, (0, outcome, ""))?;
    }
    Ok(())
}

#[test]
fn route_lines_read(rt: HostRuntime) -> Result<(), Fail> {
    for (line, printed) in [
        ("route 10.1.2.255/25", "route 10.1.2.128/25"),
        ("route 10.1.2.3/32", "route 10.1.2.3/32"),
        ("route 255.255.255.255/0", "route 0.0.0.0/0"),
        ("next-hop 0.0.0.0", "next-hop 0.0.0.0"),
        ("next-hop 255.255.255.255", "next-hop 255.255.255.255"),
        ("as-path 0 4294967295", "as-path 0 4294967295"),
        ("communities 65535:65535 0:0", "communities 0:0 65535:65535"),
    ] {
        let text = route_text(rt.alloc(), &[line], &[])?;
        let route = route_text(rt.alloc(), &[printed], &[])?;
        let outcome = format!(in rt.alloc(); "accept\n{route}")?;
        read(&rt, text.as_str(), (0, outcome.as_str(), ""))?;
    }
    Ok(())
}

#[test]
fn route_lines_refused(rt: HostRuntime) -> Result<(), Fail> {
    for (line, told) in [
        ("route 10.1.0.0", "r.txt:1: not a route"),
        ("route 10.1.0.0/", "r.txt:1: not a route"),
        ("route 10.1.0.0/33", "r.txt:1: not a route"),
        ("route 10.1.0.0/08", "r.txt:1: not a route"),
        ("route 10.1.0.0/+8", "r.txt:1: not a route"),
        ("route 10.1.0.0/8/8", "r.txt:1: not a route"),
        ("route /8", "r.txt:1: not a route"),
        ("route 10.1.0.0/16 10.2.0.0/16", "r.txt:1: not a route"),
        ("next-hop", "r.txt:2: not a route"),
        ("next-hop me", "r.txt:2: not a route"),
        ("next-hop 1", "r.txt:2: not a route"),
        ("next-hop 10.1.2", "r.txt:2: not a route"),
        ("next-hop 10.1.2.", "r.txt:2: not a route"),
        ("next-hop 10.1.2.3.4", "r.txt:2: not a route"),
        ("next-hop 10.1.2.256", "r.txt:2: not a route"),
        ("next-hop 10.1.02.3", "r.txt:2: not a route"),
        ("next-hop 10.1.2.3/32", "r.txt:2: not a route"),
        ("as-path 65001 4294967296", "r.txt:3: not a route"),
        ("as-path 65001,7", "r.txt:3: not a route"),
        ("origin other", "r.txt:4: not a route"),
        ("origin igp egp", "r.txt:4: not a route"),
        ("local-preference 4294967296", "r.txt:5: not a route"),
        ("local-preference 01", "r.txt:5: not a route"),
        ("med -1", "r.txt:6: not a route"),
        ("weight 65536", "r.txt:7: not a route"),
        ("communities 65536:0", "r.txt:8: not a route"),
        ("communities 0:65536", "r.txt:8: not a route"),
        ("communities 65001:01", "r.txt:8: not a route"),
        ("communities 65001:", "r.txt:8: not a route"),
        ("communities 65001", "r.txt:8: not a route"),
        ("communities 1:2:3", "r.txt:8: not a route"),
        ("communities 1:1 internet", "r.txt:8: not a route"),
        ("communities 1:1\r\r", "r.txt:8: not a route"),
    ] {
        let text = route_text(rt.alloc(), &[line], &[])?;
        read(&rt, text.as_str(), (10, "", told))?;
    }
    Ok(())
}

#[test]
fn lines_missing_or_too_many(rt: HostRuntime) -> Result<(), Fail> {
    for (missing, front, behind, told) in [
        (0, "", "", "r.txt:1: not a route"),
        (1, "", "", "r.txt:2: not a route"),
        (2, "", "", "r.txt:3: not a route"),
        (3, "", "", "r.txt:4: not a route"),
        (4, "", "", "r.txt:5: not a route"),
        (5, "", "", "r.txt:6: not a route"),
        (6, "", "", "r.txt:7: not a route"),
        (7, "", "", "r.txt:8: not a route"),
        (0, "Route 10.0.0.0/8\n", "", "r.txt:1: not a route"),
        (7, "", "community 1:1\n", "r.txt:8: not a route"),
        (8, "", "\n", "r.txt:9: not a route"),
    ] {
        let route = route_without(rt.alloc(), missing)?;
        let text = format!(in rt.alloc(); "{front}{route}{behind}")?;
        read(&rt, text.as_str(), (10, "", told))?;
    }
    read(&rt, "", (10, "", "r.txt:1: not a route"))
}

#[test]
fn policy_before_route(rt: HostRuntime) -> Result<(), Fail> {
    for (source, told) in [
        ("route-map OUT permit 10\n", "in.cfg: no policy IN"),
        (
            "ip prefix-list IN seq 5 permit 10.0.0.0/8\n",
            "in.cfg: no policy IN",
        ),
        (
            "route-map IN permit 10\n set colour red\n",
            "in.cfg:2:2: outside: unknown-form",
        ),
    ] {
        let texts = [("in.cfg", source), ("r.txt", "no route")];
        shows(&rt, &unfailing(JUDGE, &texts), (4, "", told))?;
    }
    Ok(())
}
