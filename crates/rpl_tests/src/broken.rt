// Where RPL texts are broken, by line and column: statements out of their place, and blocks that don't end.
use crate::shown::breaks;
use std::test::Fail;

/// The statements of a policy, and where the text is broken.
const STATEMENTS: [(&str, &str); 22] = [
    // `endif`, `else` and `elseif` without an open `if`, and within one.
    ("endif", "misplaced 2:1-2:6"),
    ("if med eq 1 then endif", ""),
    ("else", "misplaced 2:1-2:5"),
    ("if med eq 1 then else endif", ""),
    ("elseif med eq 1 then", "misplaced 2:1-2:21"),
    ("if med eq 1 then elseif med eq 2 then endif", ""),
    // Behind its `endif` an `if` is open no more; one `endif` closes one `if`.
    ("if med eq 1 then endif else", "misplaced 2:24-2:28"),
    ("if med eq 1 then endif endif", "misplaced 2:24-2:29"),
    ("if med eq 1 then if med eq 2 then endif endif", ""),
    (
        "if med eq 1 then if med eq 2 then endif",
        "misplaced 3:1-3:11",
    ),
    // Nothing but `endif` behind an `else`.
    ("if med eq 1 then else else endif", "misplaced 2:23-2:27"),
    (
        "if med eq 1 then else elseif med eq 2 then endif",
        "misplaced 2:23-2:43",
    ),
    (
        "if med eq 1 then else if med eq 2 then else endif endif",
        "",
    ),
    // The end of a policy while an `if` is open.
    ("if med eq 1 then", "misplaced 3:1-3:11"),
    // A statement of no form opens, goes on with and closes an `if` too.
    ("if foo then pass endif", ""),
    ("if foo then pass", "misplaced 3:1-3:11"),
    ("elseif foo then", "misplaced 2:1-2:16"),
    // Without `then` a condition runs to the end of the policy.
    ("if med eq 1 endif", "misplaced 3:1-3:11"),
    // A quoted word is none of these.
    ("'endif'", ""),
    ("if med eq 1 then 'endif'", "misplaced 3:1-3:11"),
    // The first of two faults.
    ("else endif", "misplaced 2:1-2:5"),
    ("pass done drop", ""),
];

#[test]
fn statements_of_a_policy(rt: HostRuntime) -> Result<(), Fail> {
    for (statements, want) in STATEMENTS {
        let text = format!(in rt.alloc(); "route-policy P\n{statements}\nend-policy\n")?;
        breaks(&rt, text.as_str(), want)?;
    }
    Ok(())
}

#[test]
fn blocks(rt: HostRuntime) -> Result<(), Fail> {
    for (text, want) in [
        // A block that doesn't end; the place is its first line.
        ("prefix-set S\n10.0.0.0/8\n", "unended 1:1-1:13"),
        ("prefix-set S\n10.0.0.0/8\nend-set\n", ""),
        ("route-policy P\npass", "unended 1:1-1:15"),
        ("  route-policy P", "unended 1:3-1:17"),
        // Each sort of block has its own end.
        ("community-set S\nend-policy\n", "unended 1:1-1:16"),
        ("as-path-set S\n'end-set'\n", "unended 1:1-1:14"),
        ("route-policy P\nend-set\n", "unended 1:1-1:15"),
        ("route-policy P\nend-set\nend-policy\n", ""),
        // A policy that doesn't end and has a statement out of its place: its first line comes first.
        ("route-policy P\nendif\n", "unended 1:1-1:15"),
        // A statement out of its place before a block that doesn't end.
        (
            "route-policy P\nendif\nend-policy\nprefix-set S\n",
            "misplaced 2:1-2:6",
        ),
        // Of two policies the first, and each has its own `if`s.
        (
            "route-policy P\nend-policy\nroute-policy Q\nelse\nend-policy\nroute-policy R\nendif\nend-policy\n",
            "misplaced 4:1-4:5",
        ),
        (
            "route-policy P\nif med eq 1 then\nend-policy\nroute-policy Q\nendif\nend-policy\n",
            "misplaced 3:1-3:11",
        ),
        // In sets and outside blocks these are words as others.
        ("else\nendif\nend-policy\nend-set\n", ""),
        ("prefix-set S\nendif, else\nend-set\n", ""),
        ("", ""),
    ] {
        breaks(&rt, text, want)?;
    }
    Ok(())
}

/// The lines of a text, each with the fault of the text that ends behind it.
const LINES: [(&str, &str); 16] = [
    ("hostname r1", ""),
    ("prefix-set S", "unended 2:1-2:13"),
    ("  10.0.0.0/8,", "unended 2:1-2:13"),
    ("  172.16.0.0/12", "unended 2:1-2:13"),
    ("end-set", ""),
    ("!", ""),
    ("route-policy P", "unended 7:1-7:15"),
    ("  if destination in S then", "unended 7:1-7:15"),
    ("    set med 5", "unended 7:1-7:15"),
    ("    done", "unended 7:1-7:15"),
    ("  else", "unended 7:1-7:15"),
    ("    drop", "unended 7:1-7:15"),
    ("  endif", "unended 7:1-7:15"),
    ("end-policy", ""),
    ("community-set C", "unended 15:1-15:16"),
    ("end-set", ""),
];

#[test]
fn cut_after_each_line(rt: HostRuntime) -> Result<(), Fail> {
    let mut text = String::new(rt.alloc());
    for (line, want) in LINES {
        text.push_str(line)?;
        text.push_str("\n")?;
        breaks(&rt, text.as_str(), want)?;
    }
    Ok(())
}
