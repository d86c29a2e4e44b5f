// What the tree of a text is: each item with its line and column.
use crate::shown::shown;
use junos_tree::read_junos;
use std::alloc::AllocGlobal;
use std::process::Abort;
use std::test::Fail;

/// Texts, and the items of each.
fn check(rt: &(impl Abort + AllocGlobal), rows: &[(&str, &str)]) -> Result<(), Fail> {
    for (text, want) in rows {
        let tree = read_junos(rt.alloc(), text.as_bytes())?;
        let found = shown(rt.alloc(), text, &tree)?;
        assert_eq!(rt; found.as_str(), *want, "{text}");
    }
    Ok(())
}

#[test]
fn definitions(rt: HostRuntime) -> Result<(), Fail> {
    check(
        &rt,
        &[
            // Directly in `policy-options`, and outside blocks.
            (
                "\
policy-options {
    prefix-list L {
        10.1.2.3/8;
        192.0.2.1;
    }
    prefix-list EMPTY;
    community C members 65001:1;
    community D members [ 65001:* *:5 *:* no-export no-advertise no-export-subconfed ];
    as-path A \"(65001|65002)+ .*\";
    as-path B 65001;
}
as-path E .*;
",
                "\
2:5 prefix-list L
3:9 member 10.0.0.0/8
4:9 member 192.0.2.1/32
6:5 prefix-list EMPTY
7:5 community C 65001-65001:1-1
8:5 community D 65001-65001:0-65535 0-65535:5-5 0-65535:0-65535 65535-65535:65281-65281 65535-65535:65282-65282 65535-65535:65283-65283
9:5 as-path A (65001|65002)+ .*
10:5 as-path B 65001
12:1 as-path E .*
",
            ),
            // Everything else is foreign, with its block, whatever stands in it.
            (
                "\
interfaces {
    policy-options { as-path A 65001; }
    as-path A 65001;
}
policy-options extra { as-path A 65001; }
\"policy-options\" { as-path A 65001; }
policy-options {
    policy-options { as-path A 65001; }
    inactive { as-path A 65001; }
    as-path;
    \"as-path\" A 65001;
    as-path \"A\" 65001;
    as-path [ A ] 65001;
    ;
    { as-path A 65001; }
}
;
{ as-path A 65001; }
policy-options;
as-path A 65001;
",
                "20:1 as-path A 65001\n",
            ),
            // A keyword and a name without a form: an item under this name, and its block is passed over.
            (
                "\
community C members [ ];
community C members 65001;
community C members \"65001:1\";
community C members [ 65001:1;
as-path A \"5-4\";
as-path A { as-path B 65001; }
policy-statement P;
policy-statement P from { term t { then accept; } }
prefix-list L 10.0.0.0/8;
community C;
",
                "\
1:1 other community C
2:1 other community C
3:1 other community C
4:1 other community C
5:1 other as-path A
6:1 other as-path A
7:1 other policy-statement P
8:1 other policy-statement P
9:1 other prefix-list L
10:1 other community C
",
            ),
            // A statement of no form in a prefix list.
            (
                "\
prefix-list L {
    10.0.0.0/33;
    10.0.0.0/8 exact;
    \"10.0.0.0/8\";
    ;
    10.0.0.0/8 { 10.1.0.0/16; }
    10.2.0.0/16;
}
",
                "\
1:1 prefix-list L
2:5 other
3:5 other
4:5 other
5:5 other
6:5 other
7:5 member 10.2.0.0/16
",
            ),
        ],
    )
}

#[test]
fn policies(rt: HostRuntime) -> Result<(), Fail> {
    check(
        &rt,
        &[
            // `from` and `then` in one statement and in a block, several of each, and directly in the policy.
            (
                "\
policy-statement P {
    then reject;
    term t {
        from protocol [ bgp direct ];
        from {
            community C;
            as-path [ A B ];
        }
        then metric 5;
        then {
            next term;
        }
    }
    from { }
    then { }
    from local-preference 100;
    term u { }
}
",
                "\
1:1 policy-statement P
2:5 unnamed then reject
3:5 term t
4:9 from protocol bgp direct
6:13 from community C
7:13 from as-path A B
9:9 then metric 5
11:13 then next term
16:5 unnamed from local-preference 100
17:5 term u
",
            ),
            // Conditions and actions of no form, and blocks that are none.
            (
                "\
policy-statement P {
    from;
    then;
    from protocol;
    from { { metric 5; } ; metric 5 { } accept; }
    then { from metric 5; next; \"accept\"; }
    \"then\" accept;
    term \"t\" { then accept; }
    term t;
    term t { term u { } to { metric 5; } }
    ;
    { then accept; }
    accept;
}
",
                "\
1:1 policy-statement P
2:5 other
3:5 other
4:5 other
5:12 other
5:26 other
5:28 other
5:41 other
6:12 other
6:27 other
6:33 other
7:5 other
8:5 other
9:5 other
10:5 term t
10:14 other
10:25 other
11:5 other
12:5 other
13:5 other
",
            ),
        ],
    )
}

#[test]
fn conditions(rt: HostRuntime) -> Result<(), Fail> {
    check(
        &rt,
        &[(
            "\
policy-statement P { term t { from {
next-hop 192.0.2.1;
next-hop [ 192.0.2.1 192.0.2.2 ];
policy [ P Q ];
prefix-list L;
prefix-list-filter L exact;
prefix-list-filter L orlonger;
route-filter 10.1.2.3/16 exact;
route-filter 10.1.0.0/16 longer;
route-filter 10.1.0.0/16 orlonger;
route-filter 10.1.0.0/16 upto /16;
route-filter 10.1.0.0/16 prefix-length-range /18-/24;
route-filter 192.0.2.1/32 longer;
metric 4294967295;
origin egp;
prefix-list-filter L longer;
route-filter 10.1.0.0/16 upto /15;
route-filter 10.1.0.0/16 prefix-length-range /24-/18;
route-filter 10.1.0.0/16;
route-filter 10.1.0.0/16 through 10.2.0.0/16;
metric 4294967296;
metric 05;
community [ ];
community [ C;
community C D;
} } }
",
            "\
1:1 policy-statement P
1:22 term t
2:1 from next-hop  192.0.2.1
3:1 from next-hop  192.0.2.1 192.0.2.2
4:1 from policy P Q
5:1 from prefix-list L
6:1 from exact L
7:1 from orlonger L
8:1 from route-filter 10.1.0.0/16 16-16
9:1 from route-filter 10.1.0.0/16 17-32
10:1 from route-filter 10.1.0.0/16 16-32
11:1 from route-filter 10.1.0.0/16 16-16
12:1 from route-filter 10.1.0.0/16 18-24
13:1 from route-filter 192.0.2.1/32 33-32
14:1 from metric 4294967295
15:1 from origin egp
16:1 other
17:1 other
18:1 other
19:1 other
20:1 other
21:1 other
22:1 other
23:1 other
24:1 other
25:1 other
",
        )],
    )
}

#[test]
fn actions(rt: HostRuntime) -> Result<(), Fail> {
    check(
        &rt,
        &[(
            "\
policy-statement P { then {
accept;
next policy;
origin incomplete;
local-preference 200;
next-hop self;
next-hop 192.0.2.1;
community set C;
community = C;
community add C;
community + C;
community delete C;
community - C;
as-path-prepend \"65001 65002\";
as-path-prepend 65001;
as-path-prepend \"65001  65002\";
as-path-prepend 65001 65002;
as-path-prepend \"4294967296\";
community none;
next-hop discard;
load-balance per-packet;
} }
",
            "\
1:1 policy-statement P
2:1 unnamed then accept
3:1 unnamed then next policy
4:1 unnamed then origin incomplete
5:1 unnamed then local-preference 200
6:1 unnamed then next-hop self
7:1 unnamed then next-hop  192.0.2.1
8:1 unnamed then set C
9:1 unnamed then set C
10:1 unnamed then add C
11:1 unnamed then add C
12:1 unnamed then delete C
13:1 unnamed then delete C
14:1 unnamed then prepend 65001 65002
15:1 unnamed then prepend 65001
16:1 other
17:1 other
18:1 other
19:1 other
20:1 other
21:1 other
",
        )],
    )
}
