// Why a chain of policies is not in the profile: each cause with the line and column of the statement, and a neighbour
// where it just doesn't stand.
use crate::places::place;
use junos_reader::check_junos;
use junos_tree::read_junos;
use policy_text::{CheckFault, cause_name};
use route_types::Row;
use std::alloc::{AllocGlobal, Global};
use std::process::Abort;
use std::test::Fail;

/// A chain of names with a comma between two, a text, and what is to be found: nothing where the chain is in the
/// profile, or else the line, the column and the cause.
type Case<'a> = (&'a str, &'a str, &'a str);

fn names_of(alloc: Global, chain: &str) -> Result<Vec<Row<u8>>, Fail> {
    let mut names = Vec::new(alloc);
    for name in chain.split(',') {
        names.push(Row::from_slice(alloc, name.as_bytes())?)?;
    }
    Ok(names)
}

fn shown(alloc: Global, text: &str, fault: CheckFault) -> Result<String, Fail> {
    match fault {
        CheckFault::NoPolicy { place } => Ok(format!(in alloc; "no policy at {place}")?),
        CheckFault::Outside { span, cause } => {
            let (line, column) = place(text, span.start);
            let cause = cause_name(cause);
            Ok(format!(in alloc; "{line}:{column} {cause}")?)
        }
        CheckFault::Memory => Err(Fail::new("want of memory")),
    }
}

/// The answer for the chain.
pub fn found(alloc: Global, chain: &str, text: &str) -> Result<String, Fail> {
    let tree = read_junos(alloc, text.as_bytes())?;
    let names = names_of(alloc, chain)?;
    let names = names.as_slice();
    if names.is_empty() {
        return Err(Fail::new("no name"));
    }
    match check_junos(alloc, tree, names) {
        Ok(_) => Ok(String::new(alloc)),
        Err(fault) => shown(alloc, text, fault),
    }
}

fn check(rt: &(impl Abort + AllocGlobal), cases: &[Case<'_>]) -> Result<(), Fail> {
    for (chain, text, want) in cases {
        let found = found(rt.alloc(), chain, text)?;
        assert_eq!(rt; found.as_str(), *want, "{text}");
    }
    Ok(())
}

#[test]
fn chains(rt: HostRuntime) -> Result<(), Fail> {
    let text = "policy-statement A { then accept; }\npolicy-statement B { foo; }\nprefix-list C;\n";
    check(
        &rt,
        &[
            ("A", text, ""),
            ("A,A", text, ""),
            // The first name that isn't there; a list is no policy.
            ("A,C", text, "no policy at 1"),
            ("D,B", text, "no policy at 0"),
            // Every policy of the chain is looked into, and none but these.
            ("A,B", text, "2:22 unknown-form"),
        ],
    )
}

#[test]
fn unknown_form(rt: HostRuntime) -> Result<(), Fail> {
    check(
        &rt,
        &[
            (
                "P",
                "\
policy-statement P {
    term t {
        from to;
        then accept;
    }
}
",
                "3:9 unknown-form",
            ),
            // The statements of no form that are left out by name.
            (
                "P",
                "policy-statement P { from { route-filter 10.0.0.0/8 through 10.1.0.0/16; } }",
                "1:29 unknown-form",
            ),
            (
                "P",
                "policy-statement P { then default-action accept; }",
                "1:22 unknown-form",
            ),
            ("P", "policy-statement P;", "1:1 unknown-form"),
            // A statement without words, by the byte that ends it.
            (
                "P",
                "policy-statement P { then accept; ; }",
                "1:35 unknown-form",
            ),
            // What is not reached has no fault.
            (
                "P",
                "policy-statement P { then accept; }\npolicy-statement Q { from to; }\ncommunity C members 1;\n",
                "",
            ),
            (
                "P",
                "policy-statement P { from community C; }\ncommunity C members 1;\n",
                "2:1 unknown-form",
            ),
        ],
    )
}

#[test]
fn defined_twice(rt: HostRuntime) -> Result<(), Fail> {
    check(
        &rt,
        &[
            (
                "P",
                "policy-statement P { }\npolicy-options { policy-statement P { } }\n",
                "2:18 defined-twice",
            ),
            (
                "P",
                "policy-statement P { from prefix-list L; }\nprefix-list L;\nprefix-list L { 10.0.0.0/8; }\n",
                "3:1 defined-twice",
            ),
            // Two sorts have names of their own, and what is not reached may stand twice.
            (
                "P",
                "policy-statement P { from prefix-list P; }\nprefix-list P;\ncommunity P members 1:1;\ncommunity P members 1:1;\n",
                "",
            ),
            // A second term of one name.
            (
                "P",
                "policy-statement P {\n    term t { }\n    term u { }\n    term t { }\n}\n",
                "4:5 defined-twice",
            ),
            (
                "P,Q",
                "policy-statement P {\n    term t { }\n}\npolicy-statement Q {\n    term t { }\n}\n",
                "",
            ),
        ],
    )
}

#[test]
fn undefined(rt: HostRuntime) -> Result<(), Fail> {
    check(
        &rt,
        &[
            (
                "P",
                "policy-statement P {\n    from community [ C D ];\n}\ncommunity C members 1:1;\n",
                "2:5 undefined",
            ),
            (
                "P",
                "policy-statement P {\n    from community C;\n}\ncommunity C members 1:1;\n",
                "",
            ),
            // A definition of another sort is none.
            (
                "P",
                "policy-statement P {\n    from as-path C;\n}\ncommunity C members 1:1;\n",
                "2:5 undefined",
            ),
            (
                "P",
                "policy-statement P {\n    then community add C;\n}\n",
                "2:5 undefined",
            ),
            (
                "P",
                "policy-statement P {\n    from { prefix-list-filter L exact; }\n}\n",
                "2:12 undefined",
            ),
            (
                "P",
                "policy-statement P {\n    from policy Q;\n}\n",
                "2:5 undefined",
            ),
            // Names of protocols are no definitions.
            ("P", "policy-statement P {\n    from protocol Q;\n}\n", ""),
        ],
    )
}

#[test]
fn same_kind_twice(rt: HostRuntime) -> Result<(), Fail> {
    check(
        &rt,
        &[
            // A second `from` of the term goes on where the first one ends.
            (
                "P",
                "policy-statement P {\n    term t {\n        from metric 5;\n        from { metric 6; }\n    }\n}\n",
                "4:16 same-kind-twice",
            ),
            (
                "P",
                "policy-statement P {\n    term t {\n        from metric 5;\n    }\n    from metric 6;\n}\n",
                "",
            ),
            (
                "P",
                "policy-statement P {\n    then {\n        accept;\n        next term;\n    }\n}\n",
                "4:9 same-kind-twice",
            ),
            // Changes may stand twice, and values of one condition too.
            (
                "P",
                "policy-statement P {\n    from protocol bgp;\n    from protocol direct;\n    then metric 5;\n    then metric 6;\n    then accept;\n}\n",
                "",
            ),
        ],
    )
}

#[test]
fn not_plain(rt: HostRuntime) -> Result<(), Fail> {
    let communities = "community C members [ 1:1 1:* ];\ncommunity D members no-export;\n";
    for (policy, want) in [
        (
            "policy-statement P { then community set C; }\n",
            "1:22 not-plain",
        ),
        (
            "policy-statement P { then { community + C; } }\n",
            "1:29 not-plain",
        ),
        ("policy-statement P { then community delete C; }\n", ""),
        ("policy-statement P { then community = D; }\n", ""),
    ] {
        let text = format!(in rt.alloc(); "{policy}{communities}")?;
        check(&rt, &[("P", text.as_str(), want)])?;
    }
    Ok(())
}

#[test]
fn prefix_tests(rt: HostRuntime) -> Result<(), Fail> {
    check(
        &rt,
        &[
            (
                "P",
                "\
policy-statement P {
    from {
        route-filter 10.0.0.0/8 exact;
        prefix-list L;
    }
}
prefix-list L;
",
                "4:9 mixed-prefix-tests",
            ),
            (
                "P",
                "\
policy-statement P {
    from prefix-list-filter L exact;
    from prefix-list-filter L orlonger;
}
prefix-list L;
",
                "3:5 mixed-prefix-tests",
            ),
            (
                "P",
                "\
policy-statement P {
    from prefix-list-filter L exact;
    from prefix-list-filter M exact;
}
prefix-list L;
prefix-list M;
",
                "",
            ),
            // One prefix twice, after host bits are masked off.
            (
                "P",
                "\
policy-statement P {
    from route-filter 10.0.0.0/8 orlonger;
    from route-filter 10.1.2.3/8 exact;
}
",
                "3:5 same-prefix-twice",
            ),
            (
                "P",
                "\
policy-statement P {
    from route-filter 10.0.0.0/8 orlonger;
    from route-filter 10.1.2.3/9 exact;
    term t {
        from route-filter 10.0.0.0/8 orlonger;
    }
}
",
                "",
            ),
        ],
    )
}

#[test]
fn path_tests(rt: HostRuntime) -> Result<(), Fail> {
    check(
        &rt,
        &[
            (
                "P",
                "\
policy-statement P {
    term a {
        then as-path-prepend 65001;
    }
    term b {
        from as-path A;
    }
}
as-path A .*;
",
                "6:9 path-test-after-prepend",
            ),
            (
                "P",
                "\
policy-statement P {
    term a {
        then as-path-prepend 65001;
        then reject;
    }
    term b {
        from as-path A;
    }
}
as-path A .*;
",
                "",
            ),
            // In a later policy of the chain, and by a policy that tests the path.
            (
                "P,Q",
                "\
policy-statement P {
    then as-path-prepend 65001;
}
policy-statement Q {
    from policy R;
}
policy-statement R {
    from as-path A;
}
as-path A .*;
",
                "5:5 path-test-after-prepend",
            ),
            // The unnamed term is the last one, wherever it stands.
            (
                "P",
                "\
policy-statement P {
    then as-path-prepend 65001;
    term b {
        from as-path A;
    }
}
as-path A .*;
",
                "",
            ),
        ],
    )
}

#[test]
fn subroutines(rt: HostRuntime) -> Result<(), Fail> {
    check(
        &rt,
        &[
            (
                "P",
                "policy-statement P {\n    from policy Q;\n}\npolicy-statement Q {\n    then metric 5;\n}\n",
                "5:5 subroutine-changes",
            ),
            (
                "P,Q",
                "policy-statement P {\n}\npolicy-statement Q {\n    then metric 5;\n}\n",
                "",
            ),
            (
                "P",
                "policy-statement P {\n    from policy Q;\n}\npolicy-statement Q {\n    then next policy;\n}\n",
                "5:5 next-policy-in-subroutine",
            ),
            (
                "P",
                "policy-statement P {\n    from policy Q;\n    then next policy;\n}\npolicy-statement Q {\n    then next term;\n}\n",
                "",
            ),
            // A policy that leads back to itself.
            (
                "P",
                "policy-statement P {\n    from policy Q;\n}\npolicy-statement Q {\n    from policy Q;\n}\n",
                "5:5 cycle",
            ),
            (
                "P",
                "policy-statement P {\n    from policy Q;\n}\npolicy-statement Q {\n    from policy P;\n}\n",
                "2:5 cycle",
            ),
            (
                "P",
                "policy-statement P {\n    from policy [ Q Q ];\n}\npolicy-statement Q {\n}\n",
                "",
            ),
        ],
    )
}

/// So many policies, a line each, of which each calls the next, and more text.
pub fn calling(alloc: Global, count: u32, more: &str) -> Result<String, Fail> {
    let mut text = String::new(alloc);
    for number in 0..count {
        let next = number + 1;
        let line = format!(in alloc; "policy-statement P{number} {{ from policy P{next}; }}\n")?;
        text.push_str(line.as_str())?;
    }
    text.push_str(more)?;
    Ok(text)
}

#[test]
fn too_deep(rt: HostRuntime) -> Result<(), Fail> {
    let deepest = calling(rt.alloc(), 128, "policy-statement P128 { }\n")?;
    let too_deep = calling(rt.alloc(), 129, "policy-statement P129 { }\n")?;
    check(
        &rt,
        &[
            ("P0", deepest.as_str(), ""),
            ("P0", too_deep.as_str(), "129:25 too-deep"),
            ("P1", too_deep.as_str(), ""),
        ],
    )
}
