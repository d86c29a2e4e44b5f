// Runs whose outside fails: a fetch, a put, a text that is longer than may be.
use crate::runs::{JUDGE, Run, Shown, TRANSLATE, shows, unfailing};
use std::alloc::{AllocGlobal, Global};
use std::process::Abort;
use std::test::Fail;

const POLICY: &str = "\
ip prefix-list PL seq 5 permit 10.0.0.0/8 le 24
route-map IN permit 10
 match ip address prefix-list PL
 set local-preference 200
";

const ROUTE: &str = "\
route 10.1.0.0/16
next-hop 192.0.2.1
as-path 65001
origin igp
local-preference 100
med 0
weight 0
communities
";

const ACCEPTED: &str = "\
accept
route 10.1.0.0/16
next-hop 192.0.2.1
as-path 65001
origin igp
local-preference 200
med 0
weight 0
communities
";

const TEXTS: [(&str, &str); 2] = [("in.cfg", POLICY), ("r.txt", ROUTE)];

/// Runs of the example: their words, the call of fetch and that of put to the output that fails, and what they show.
const RUNS: &[(&str, [u64; 2], Shown<'static>)] = &[
    (TRANSLATE, [1, 0], (6, "", "in.cfg: cannot be read")),
    (JUDGE, [1, 0], (6, "", "in.cfg: cannot be read")),
    (JUDGE, [2, 0], (6, "", "r.txt: cannot be read")),
    (JUDGE, [3, 10], (0, ACCEPTED, "")),
    (
        "judge --from ios --policy IN in.cfg other.txt",
        [0, 0],
        (6, "", "other.txt: cannot be read"),
    ),
    (
        "judge --from ios --policy IN in.cfg in.cfg",
        [2, 0],
        (6, "", "in.cfg: cannot be read"),
    ),
    (
        "judge --from ios --policy IN in.cfg in.cfg",
        [0, 0],
        (10, "", "in.cfg:1: not a route"),
    ),
    (
        "translate --from ios --policy IN --to rpl --as M other.cfg",
        [0, 0],
        (6, "", "other.cfg: cannot be read"),
    ),
    (JUDGE, [0, 1], (8, "", "output cannot be written")),
    (JUDGE, [0, 2], (8, "accept\n", "output cannot be written")),
    (
        JUDGE,
        [0, 3],
        (8, "accept\nroute 10.1.0.0/16\n", "output cannot be written"),
    ),
    (TRANSLATE, [0, 1], (8, "", "output cannot be written")),
    (
        TRANSLATE,
        [0, 2],
        (8, "prefix-set M-p1\n", "output cannot be written"),
    ),
    (
        TRANSLATE,
        [0, 5],
        (
            8,
            "\
prefix-set M-p1
  10.0.0.0/8 le 24
end-set
!
",
            "output cannot be written",
        ),
    ),
    (
        TRANSLATE,
        [0, 12],
        (
            8,
            "\
prefix-set M-p1
  10.0.0.0/8 le 24
end-set
!
route-policy M
  if destination in M-p1 then
    set local-preference 200
    done
  endif
  drop
end-policy
",
            "output cannot be written",
        ),
    ),
    (
        TRANSLATE,
        [2, 13],
        (
            0,
            "\
prefix-set M-p1
  10.0.0.0/8 le 24
end-set
!
route-policy M
  if destination in M-p1 then
    set local-preference 200
    done
  endif
  drop
end-policy
!
",
            "",
        ),
    ),
];

/// The example's run shows this, also where the errors take nothing, which changes neither the status nor the output.
fn fails(
    rt: &(impl Abort + AllocGlobal),
    words: &str,
    [fetch, out]: [u64; 2],
    (status, put, line): Shown<'_>,
) -> Result<(), Fail> {
    for (err, told) in [(0, line), (1, "")] {
        let asked = Run {
            words,
            texts: &TEXTS,
            failing: [fetch, out, err],
        };
        shows(rt, &asked, (status, put, told))?;
    }
    Ok(())
}

#[test]
fn outside_that_fails(rt: HostRuntime) -> Result<(), Fail> {
    for (words, failing, shown) in RUNS {
        fails(&rt, words, *failing, *shown)?;
    }
    Ok(())
}

/// The greatest length of a text, in bytes.
const MOST: usize = 16_777_216;

/// Line ends alone.
fn line_ends(alloc: Global, count: usize) -> Result<String, Fail> {
    Ok(String::from_utf8(vec![in alloc; b'\n'; count]?)?)
}

#[test]
fn text_of_the_greatest_length(rt: HostRuntime) -> Result<(), Fail> {
    let longest = line_ends(rt.alloc(), MOST)?;
    let texts = [("in.cfg", longest.as_str())];
    let line = "in.cfg: no policy IN";
    shows(&rt, &unfailing(TRANSLATE, &texts), (4, "", line))
}

#[test]
fn longer_source(rt: HostRuntime) -> Result<(), Fail> {
    let longer = line_ends(rt.alloc(), MOST + 1)?;
    let texts = [("in.cfg", longer.as_str())];
    let line = "in.cfg: longer than 16777216 bytes";
    shows(&rt, &unfailing(TRANSLATE, &texts), (7, "", line))
}

#[test]
fn longer_route(rt: HostRuntime) -> Result<(), Fail> {
    let longer = line_ends(rt.alloc(), MOST + 1)?;
    let texts = [("in.cfg", POLICY), ("r.txt", longer.as_str())];
    let line = "r.txt: longer than 16777216 bytes";
    shows(&rt, &unfailing(JUDGE, &texts), (7, "", line))
}
