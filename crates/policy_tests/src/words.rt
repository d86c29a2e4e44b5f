// Words of the command: over an empty source, a run tells which file and which policy the words name.
use crate::runs::{shows, unfailing};
use std::test::Fail;

const USAGE: &str = "usage: translate, judge, compare or sample";

/// Sources without a policy, and a route that isn't read.
const SOURCES: [(&str, &str); 4] = [
    ("in.cfg", ""),
    ("r.txt", ""),
    ("--help", ""),
    ("translate", ""),
];

#[test]
fn words_that_ask(rt: HostRuntime) -> Result<(), Fail> {
    for (words, line) in [
        (
            "translate --from ios --policy IN --to rpl --as in in.cfg",
            "in.cfg: no policy IN",
        ),
        (
            "translate in.cfg --as in --to rpl --policy IN --from ios",
            "in.cfg: no policy IN",
        ),
        (
            "translate --policy=IN --from=ios in.cfg --to=rpl --as=in",
            "in.cfg: no policy IN",
        ),
        (
            "translate --from ios --policy IN --to rpl --as in -- in.cfg",
            "in.cfg: no policy IN",
        ),
        (
            "translate --from ios --policy A,B --to rpl --as in in.cfg",
            "in.cfg: no policy A,B",
        ),
        (
            "translate --from ios --policy=--to --to rpl --as in in.cfg",
            "in.cfg: no policy --to",
        ),
        (
            "translate --from ios --policy IN --to rpl --as in -- --help",
            "--help: no policy IN",
        ),
        (
            "translate --from ios --policy IN --to rpl --as in translate",
            "translate: no policy IN",
        ),
        (
            "translate --from ios --policy IN --to rpl --as in ",
            ": cannot be read",
        ),
        (
            "translate in.cfg --from ios --to rpl --policy IN --as a23456789012345678901234567890111111111111111111111111111111-_3",
            "in.cfg: no policy IN",
        ),
        (
            "judge --from ios --policy IN in.cfg r.txt",
            "in.cfg: no policy IN",
        ),
        (
            "judge in.cfg --policy=IN r.txt --from ios",
            "in.cfg: no policy IN",
        ),
        (
            "judge in.cfg absent.txt --policy IN --from=ios",
            "absent.txt: cannot be read",
        ),
        (
            "judge --from ios --policy IN -- absent.cfg r.txt",
            "absent.cfg: cannot be read",
        ),
        (
            "judge --from ios --policy A,B,C in.cfg r.txt",
            "in.cfg: no policy A,B,C",
        ),
        (
            "judge --from junos --policy A,B,C in.cfg r.txt",
            "in.cfg: no policy A",
        ),
        (
            "judge --policy=A-B in.cfg r.txt --from=junos",
            "in.cfg: no policy A-B",
        ),
        (
            "judge --from rpl --policy A,B in.cfg r.txt",
            "in.cfg: no policy A,B",
        ),
        (
            "judge --from ios --policy A,,B in.cfg r.txt",
            "in.cfg: no policy A,,B",
        ),
    ] {
        let status = if line.ends_with("read") { 6 } else { 4 };
        shows(&rt, &unfailing(words, &SOURCES), (status, "", line))?;
    }
    Ok(())
}

#[test]
fn words_of_no_request(rt: HostRuntime) -> Result<(), Fail> {
    for words in [
        "",
        "judge",
        "translate",
        "translate --from ios",
        "compare in.cfg r.txt",
        "sample 0",
        "sample 2001",
        "--from ios --policy IN judge in.cfg r.txt",
        "judge --help",
        "judge --from ios --policy IN in.cfg r.txt --help",
        "judge --from ios --policy IN in.cfg r.txt -h",
        "judge --from ios --policy IN in.cfg r.txt --version",
        "judge help",
        "judge --from ios --policy IN --as in in.cfg r.txt",
        "judge --from ios --policy IN --policy IN in.cfg r.txt",
        "judge --from ios in.cfg r.txt --policy",
        "judge --from ios --policy IN in.cfg",
        "judge --from ios --policy IN in.cfg r.txt r.txt",
        "judge --from xr --policy IN in.cfg r.txt",
        "judge --from Junos --policy IN in.cfg r.txt",
        "judge --from junos --policy A,,B in.cfg r.txt",
        "judge --from junos --policy ,A in.cfg r.txt",
        "judge --from junos --policy A, in.cfg r.txt",
        "judge --from junos --policy , in.cfg r.txt",
        "judge --from junos --policy= in.cfg r.txt",
        "translate --from junos --policy IN --to rpl --as in in.cfg",
        "judge --fro ios --policy IN in.cfg r.txt",
        "judge --from ios --policy=I\"N in.cfg r.txt",
        "judge --from ios --policy= in.cfg r.txt",
        "judge --from ios --policy=I'N in.cfg r.txt",
        "judge --from ios --policy=I\tN in.cfg r.txt",
        "judge --from ios --policy=I\x01N in.cfg r.txt",
        "translate in.cfg --from ios --to rpl --policy IN --as abbbbbbbbbbbbbbbbbbbbbbbbbbbbbbbbbbbbbbbbbbbbbbbbbbbbbbbbbbbbbbb",
        "translate --from ios --policy IN --to junos --as in in.cfg",
        "translate --from ios --policy IN --to rpl --as 1in in.cfg",
        "translate --from ios --policy IN --to rpl --as _in in.cfg",
        "translate --from ios --policy IN --to rpl --as in.1 in.cfg",
        "translate --from ios --policy IN --to rpl in.cfg",
        "translate --from ios --policy IN --to rpl --as in",
        "translate --from ios --policy IN --to rpl --as in in.cfg in.cfg",
    ] {
        shows(&rt, &unfailing(words, &SOURCES), (2, "", USAGE))?;
    }
    Ok(())
}
