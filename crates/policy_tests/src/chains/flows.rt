// How a chain runs: its terms and policies in order, changes that later terms see, subroutines, the end of the chain.
use crate::named::Named;
use crate::policies::Verdict::{Accept, Reject};

/// Two policies that test and set the MED.
const METRICS: &str = "\
policy-statement A {
    term a {
        from metric 5;
        then {
            metric 6;
            next policy;
        }
    }
}
policy-statement B {
    term b {
        from metric 5;
        then reject;
    }
}
";

pub const CHAINS: &[Named] = &[
    // Of two filters the one of the longer prefix decides, by its lengths alone.
    (
        "IMP",
        "\
policy-options {
    policy-statement IMP {
        term a {
            from {
                route-filter 10.0.0.0/8 orlonger;
                route-filter 10.1.0.0/16 exact;
            }
            then accept;
        }
        then reject;
    }
}
",
        &[
            (&["route 10.1.0.0/16"], Accept(&[])),
            (&["route 10.1.5.0/24"], Reject),
            (&["route 10.2.0.0/16"], Accept(&[])),
            (&["route 172.16.0.0/12"], Reject),
        ],
    ),
    // A later term sees what an earlier one has changed.
    (
        "TAG-IN",
        "\
community TAG members 65001:7;
policy-statement TAG-IN {
    term a {
        from {
            route-filter 10.0.0.0/8 orlonger;
        }
        then {
            community add TAG;
            next term;
        }
    }
    term b {
        from community TAG;
        then accept;
    }
    then reject;
}
",
        &[
            (&["route 10.1.0.0/16"], Accept(&["communities 65001:7"])),
            (&["route 172.16.0.0/12"], Reject),
            (&["route 172.16.0.0/12", "communities 65001:7"], Accept(&[])),
        ],
    ),
    // `next policy` goes on with the changed route; behind the last policy the route is accepted.
    (
        "A,B",
        METRICS,
        &[(&["med 5"], Accept(&["med 6"])), (&["med 4"], Accept(&[]))],
    ),
    // In the other order the MED is still the one that came.
    (
        "B,A",
        METRICS,
        &[(&["med 5"], Reject), (&["med 6"], Accept(&[]))],
    ),
    // A policy that stands twice runs twice.
    (
        "C,C",
        "\
policy-statement C {
    term late {
        from metric 6;
        then {
            metric 7;
            next policy;
        }
    }
    term first {
        from metric 5;
        then metric 6;
    }
}
",
        &[(&["med 5"], Accept(&["med 7"])), (&["med 4"], Accept(&[]))],
    ),
    // Numbers are put before any path, where `accept` stands behind.
    (
        "P",
        "\
policy-options {
    as-path A \".*\";
    policy-statement P {
        term a {
            then {
                as-path-prepend \"65001\";
                accept;
            }
        }
        term b {
            from {
                as-path A;
            }
            then accept;
        }
    }
}
",
        &[
            (&["as-path 65002"], Accept(&["as-path 65001 65002"])),
            (&["as-path"], Accept(&["as-path 65001"])),
            (
                &["route 0.0.0.0/0", "med 7", "communities 1:1"],
                Accept(&["as-path 65001 65001"]),
            ),
        ],
    ),
    // A subroutine changes nothing and accepts past its end.
    (
        "CALLS",
        "\
policy-statement CALLS {
    term a {
        from policy [ LOW HIGH ];
        then metric 1;
    }
}
policy-statement LOW {
    term a {
        from local-preference 100;
        then reject;
    }
}
policy-statement HIGH {
    term a {
        from local-preference 100;
        then next term;
    }
    then reject;
}
",
        &[
            (&["local-preference 99"], Accept(&["med 1"])),
            (&["local-preference 100"], Accept(&[])),
        ],
    ),
];
