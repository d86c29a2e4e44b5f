// Why a policy is not in the profile: each cause with the line and column of its statement, and a neighbour where it
// just doesn't stand.
use crate::shown::place_of;
use policy_text::{CheckFault, cause_name};
use rpl_reader::check_rpl;
use rpl_tree::read_rpl;
use std::alloc::{AllocGlobal, Global};
use std::process::Abort;
use std::test::Fail;

fn fault_shown(alloc: Global, text: &str, fault: CheckFault) -> Result<String, Fail> {
    match fault {
        CheckFault::NoPolicy { place } => Ok(format!(in alloc; "no policy at {place}")?),
        CheckFault::Outside { span, cause } => {
            let (line, column) = place_of(text.as_bytes(), span.start);
            let cause = cause_name(cause);
            Ok(format!(in alloc; "{line}:{column} {cause}")?)
        }
        CheckFault::Memory => Err(Fail::new("want of memory")),
    }
}

/// What is found of the policy of this name: nothing where it is in the profile, or else the line, the column and the
/// cause.
fn finds(rt: &(impl Abort + AllocGlobal), name: &str, text: &str, want: &str) -> Result<(), Fail> {
    let alloc = rt.alloc();
    let tree = read_rpl(alloc, text.as_bytes())?;
    let found = match check_rpl(alloc, tree, name.as_bytes()) {
        Ok(_) => String::new(alloc),
        Err(fault) => fault_shown(alloc, text, fault)?,
    };
    assert_eq!(rt; found.as_str(), want, "{text}");
    Ok(())
}

#[test]
fn names(rt: HostRuntime) -> Result<(), Fail> {
    for (text, want) in [
        ("route-policy P\npass\nend-policy\n", ""),
        ("route-policy Q\npass\nend-policy\n", "no policy at 0"),
        // A set is no policy.
        ("prefix-set P\n10.0.0.0/8\nend-set\n", "no policy at 0"),
        ("", "no policy at 0"),
        // A first line of no form stands under its second word.
        ("route-policy P($a\npass\nend-policy\n", "1:1 unknown-form"),
        // The policy that is asked for has no parameters.
        (
            "route-policy P($a)\nset med $a\nend-policy\n",
            "1:1 argument-count",
        ),
        (
            "route-policy P($a, $a)\npass\nend-policy\n",
            "1:1 defined-twice",
        ),
    ] {
        finds(&rt, "P", text, want)?;
    }
    Ok(())
}

/// Blocks, the statements of the policy P behind them, and what is found of P.
const CASES: [(&str, &str, &str); 64] = [
    // A statement of no form, in P or in a policy that P leads to.
    ("", "pass foo", "2:1 unknown-form"),
    ("", "pass", ""),
    (
        "route-policy Q\nfoo\nend-policy\n",
        "apply Q",
        "2:1 unknown-form",
    ),
    ("route-policy Q\nfoo\nend-policy\n", "pass", ""),
    // In a set of this sort that is named.
    (
        "prefix-set S\nfoo\nend-set\n",
        "if destination in S then drop endif",
        "2:1 unknown-form",
    ),
    ("prefix-set S\nfoo\nend-set\n", "pass", ""),
    (
        "community-set S\nfoo\nend-set\nprefix-set S\n10.0.0.0/8\nend-set\n",
        "if destination in S then drop endif",
        "",
    ),
    // In a set whose name is handed on, where it is used.
    (
        "prefix-set S\nfoo\nend-set\nroute-policy Q($s)\nif destination in $s then drop endif\nend-policy\n",
        "apply Q(S)",
        "2:1 unknown-form",
    ),
    (
        "prefix-set S\nfoo\nend-set\nroute-policy Q($s)\npass\nend-policy\n",
        "apply Q(S)",
        "",
    ),
    (
        "prefix-set S\nfoo\nend-set\nroute-policy R($t)\nif destination in $t then drop endif\nend-policy\nroute-policy Q($s)\napply R($s)\nend-policy\n",
        "apply Q(S)",
        "2:1 unknown-form",
    ),
    // A second block of the name.
    (
        "route-policy P\npass\nend-policy\n",
        "drop",
        "4:1 defined-twice",
    ),
    (
        "route-policy Q\npass\nend-policy\nroute-policy Q\ndrop\nend-policy\n",
        "apply Q",
        "4:1 defined-twice",
    ),
    (
        "route-policy Q\npass\nend-policy\nroute-policy Q\ndrop\nend-policy\n",
        "pass",
        "",
    ),
    (
        "prefix-set S\n10.0.0.0/8\nend-set\nprefix-set S\n\nend-set\n",
        "if destination in S then drop endif",
        "4:1 defined-twice",
    ),
    // A second parameter of the name.
    (
        "route-policy Q($a, $a)\npass\nend-policy\n",
        "apply Q(1, 2)",
        "1:1 defined-twice",
    ),
    (
        "route-policy Q($a, $b)\npass\nend-policy\n",
        "apply Q(1, 2)",
        "",
    ),
    // What isn't there.
    ("", "if destination in S then drop endif", "2:1 undefined"),
    (
        "prefix-set S\n\nend-set\n",
        "if destination in S then drop endif",
        "",
    ),
    (
        "community-set S\n\nend-set\n",
        "if destination in S then drop endif",
        "5:1 undefined",
    ),
    ("", "apply Q", "2:1 undefined"),
    ("prefix-set Q\n\nend-set\n", "apply Q", "5:1 undefined"),
    ("", "set med $x", "2:1 undefined"),
    (
        "route-policy Q($x)\nset med $x\nend-policy\n",
        "apply Q(5)",
        "",
    ),
    (
        "route-policy Q($y)\nset med $x\nend-policy\n",
        "apply Q(5)",
        "2:1 undefined",
    ),
    // Communities that are set and are not single ones.
    (
        "community-set C\n1:*\nend-set\n",
        "set community C",
        "5:1 not-plain",
    ),
    ("community-set C\n1:2\nend-set\n", "set community C", ""),
    (
        "community-set C\n1:*\nend-set\n",
        "delete community in C",
        "",
    ),
    ("", "set community (1:2, 1:[3..4])", "2:1 not-plain"),
    ("", "set community (1:2, 1:[4..4])", ""),
    (
        "community-set C\n1:*\nend-set\nroute-policy Q($c)\nset community $c\nend-policy\n",
        "apply Q(C)",
        "5:1 not-plain",
    ),
    (
        "community-set C\n1:2\nend-set\nroute-policy Q($c)\nset community $c\nend-policy\n",
        "apply Q(C)",
        "",
    ),
    // A policy that leads back.
    ("", "apply P", "2:1 cycle"),
    (
        "route-policy Q\napply P\nend-policy\n",
        "apply Q",
        "2:1 cycle",
    ),
    ("route-policy Q\npass\nend-policy\n", "apply Q", ""),
    ("route-policy R\napply R\nend-policy\n", "pass", ""),
    // Another number of arguments.
    (
        "route-policy Q($a)\npass\nend-policy\n",
        "apply Q",
        "5:1 argument-count",
    ),
    ("route-policy Q($a)\npass\nend-policy\n", "apply Q(1)", ""),
    (
        "route-policy Q\npass\nend-policy\n",
        "apply Q(1)",
        "5:1 argument-count",
    ),
    // A number out of its range, also where it is handed on.
    (
        "route-policy Q($a)\nset weight $a\nend-policy\n",
        "apply Q(65536)",
        "5:1 bad-argument",
    ),
    (
        "route-policy Q($a)\nset weight $a\nend-policy\n",
        "apply Q(65535)",
        "",
    ),
    (
        "route-policy R($b)\nset weight $b\nend-policy\nroute-policy Q($a)\napply R($a)\nend-policy\n",
        "apply Q(65536)",
        "8:1 bad-argument",
    ),
    (
        "route-policy R($b)\nset weight $b\nend-policy\nroute-policy Q($a)\napply R($a)\nend-policy\n",
        "apply Q(65535)",
        "",
    ),
    // Each call of a policy is asked.
    (
        "route-policy Q($a)\nset weight $a\nend-policy\n",
        "apply Q(65536)\napply Q(65535)",
        "5:1 bad-argument",
    ),
    (
        "route-policy Q($a)\nset weight $a\nend-policy\n",
        "apply Q(65535)\napply Q(65536)",
        "6:1 bad-argument",
    ),
    // Communities of a set that isn't plain are set by what is handed on; another parameter may be such a set.
    (
        "community-set W\n[1..2]:3\nend-set\nroute-policy R($x, $y)\nset community $x\nset community $y\nend-policy\nroute-policy Q($a, $b)\napply R($b, $a)\nend-policy\ncommunity-set S\n1:3\nend-set\n",
        "apply Q(W, S)",
        "6:1 not-plain",
    ),
    (
        "community-set W\n[1..2]:3\nend-set\nroute-policy R($x, $y)\nset community $x\nset community $y\nend-policy\nroute-policy Q($a, $b)\napply R($b, $a)\nend-policy\ncommunity-set S\n1:3\nend-set\n",
        "apply Q(S, W)",
        "5:1 not-plain",
    ),
    (
        "community-set W\n[1..2]:3\nend-set\nroute-policy R($x, $y)\nset community $x\ndelete community in $y\nend-policy\nroute-policy Q($a, $b)\napply R($b, $a)\nend-policy\ncommunity-set S\n1:3\nend-set\n",
        "apply Q(W, S)",
        "",
    ),
    // What a policy hands on that isn't reached is not looked at.
    (
        "community-set W\n[1..2]:3\nend-set\nroute-policy R($x)\nset community $x\nend-policy\nroute-policy U\napply R(W)\nend-policy\ncommunity-set S\n1:3\nend-set\n",
        "apply R(S)",
        "",
    ),
    // A name of no set of the sort; what isn't used may be anything.
    (
        "route-policy Q($a)\nif destination in $a then drop endif\nend-policy\n",
        "apply Q(S)",
        "5:1 bad-argument",
    ),
    (
        "prefix-set S\n\nend-set\nroute-policy Q($a)\nif destination in $a then drop endif\nend-policy\n",
        "apply Q(S)",
        "",
    ),
    (
        "community-set S\n\nend-set\nroute-policy Q($a)\nif destination in $a then drop endif\nend-policy\n",
        "apply Q(S)",
        "8:1 bad-argument",
    ),
    ("route-policy Q($a)\npass\nend-policy\n", "apply Q(S)", ""),
    // Bounds that don't rise: the second one's argument, or the first one's where the second stands in the element.
    (
        "route-policy Q($a, $b)\nif destination in (10.0.0.0/8 ge $a le $b) then drop endif\nend-policy\n",
        "apply Q(20, 19)",
        "5:1 bad-argument",
    ),
    (
        "route-policy Q($a, $b)\nif destination in (10.0.0.0/8 ge $a le $b) then drop endif\nend-policy\n",
        "apply Q(20, 20)",
        "",
    ),
    (
        "route-policy Q($a, $b)\nif destination in (10.0.0.0/8 ge $a le $b) then drop endif\nend-policy\nroute-policy R($b)\napply Q(20, $b)\nend-policy\n",
        "apply R(19)",
        "8:1 bad-argument",
    ),
    (
        "route-policy Q($a, $b)\nif destination in (10.0.0.0/8 ge $a le $b) then drop endif\nend-policy\nroute-policy R($a)\napply Q($a, 19)\nend-policy\n",
        "apply R(20)",
        "5:1 bad-argument",
    ),
    (
        "route-policy Q($a, $b)\nif destination in (10.0.0.0/8 ge $a le $b) then drop endif\nend-policy\nroute-policy R($a)\napply Q($a, 19)\nend-policy\nroute-policy T($a)\napply R($a)\nend-policy\n",
        "apply T(19) apply T(20)",
        "5:1 bad-argument",
    ),
    (
        "route-policy Q($a, $b)\nif destination in (10.0.0.0/8 ge $a le $b) then drop endif\nend-policy\nroute-policy R($a)\napply Q($a, 19)\nend-policy\nroute-policy T($a)\napply R($a)\nend-policy\n",
        "apply T(19) apply T(18)",
        "",
    ),
    (
        "route-policy Q($a)\nif destination in (10.0.0.0/8 ge $a le 20) then drop endif\nend-policy\n",
        "apply Q(21)",
        "5:1 bad-argument",
    ),
    (
        "route-policy Q($a)\nif destination in (10.0.0.0/8 ge $a le 20) then drop endif\nend-policy\n",
        "apply Q(20)",
        "",
    ),
    // The first of two statements, and the first of two causes of one.
    ("", "pass foo apply Q", "2:1 unknown-form"),
    ("", "apply Q foo", "2:1 unknown-form"),
    ("", "apply Q pass foo", "2:1 undefined"),
    ("", "apply P(1)", "2:1 cycle"),
];

#[test]
fn causes(rt: HostRuntime) -> Result<(), Fail> {
    for (blocks, statements, want) in CASES {
        let text = format!(in rt.alloc(); "{blocks}route-policy P\n{statements}\nend-policy\n")?;
        finds(&rt, "P", text.as_str(), want)?;
    }
    Ok(())
}

#[test]
fn arguments_of_a_call(rt: HostRuntime) -> Result<(), Fail> {
    for (arguments, want) in [("300", ""), ("300, 4", "6:3 argument-count")] {
        let text = format!(in rt.alloc();
            "route-policy SETLP($x)
  set local-preference $x
  done
end-policy
route-policy P
  apply SETLP({arguments})
  drop
end-policy
"
        )?;
        finds(&rt, "P", text.as_str(), want)?;
    }
    Ok(())
}

/// A chain of policies, each but the last of which applies the next one twice.
fn chain(alloc: Global, length: u64) -> Result<String, Fail> {
    let mut text = String::new(alloc);
    for n in 1..length {
        let next = n + 1;
        let block = format!(in alloc;
            "route-policy P{n}\napply P{next}\napply P{next}\nend-policy\n"
        )?;
        text.push_str(block.as_str())?;
    }
    let last = format!(in alloc; "route-policy P{length}\npass\nend-policy\n")?;
    text.push_str(last.as_str())?;
    Ok(text)
}

#[test]
fn calls(rt: HostRuntime) -> Result<(), Fail> {
    for (length, want) in [(40, ""), (129, ""), (130, "514:1 too-deep")] {
        let text = chain(rt.alloc(), length)?;
        finds(&rt, "P1", text.as_str(), want)?;
    }
    Ok(())
}

/// So many pieces, what stands between, and so many pieces behind it.
fn nested(
    alloc: Global,
    times: u32,
    front: &str,
    middle: &str,
    behind: &str,
) -> Result<String, Fail> {
    let mut text = String::new(alloc);
    for _ in 0..times {
        text.push_str(front)?;
    }
    text.push_str(middle)?;
    for _ in 0..times {
        text.push_str(behind)?;
    }
    Ok(text)
}

#[test]
fn ifs(rt: HostRuntime) -> Result<(), Fail> {
    for (times, want) in [
        (128, ""),
        (129, "130:1 too-deep"),
        (1_000, "130:1 too-deep"),
    ] {
        let nest = nested(rt.alloc(), times, "if med eq 1 then\n", "pass\n", "endif\n")?;
        let nest = nest.as_str();
        let text = format!(in rt.alloc(); "route-policy P\n{nest}end-policy\n")?;
        finds(&rt, "P", text.as_str(), want)?;
    }
    Ok(())
}

#[test]
fn groups(rt: HostRuntime) -> Result<(), Fail> {
    for (times, want) in [(128, ""), (129, "2:1 too-deep"), (1_000, "2:1 too-deep")] {
        let nest = nested(rt.alloc(), times, "(", "med eq 1", ")")?;
        let nest = nest.as_str();
        let text = format!(in rt.alloc(); "route-policy P\nif {nest} then endif\nend-policy\n")?;
        finds(&rt, "P", text.as_str(), want)?;
    }
    Ok(())
}
