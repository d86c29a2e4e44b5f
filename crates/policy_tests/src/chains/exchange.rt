// The export to an exchange: terms without a name, actions behind `accept`, a subroutine among other conditions.
use crate::named::Named;
use crate::policies::Verdict::{Accept, Reject};

/// The text of examples/exchange-junos.cfg.
const EXCHANGE: &str = "\
version 21.4R3;
system {
    host-name edge2;
}
protocols {
    bgp {
        group exchange {
            type external;
            export [ NO-TRANSIT EXCHANGE-OUT ];
            neighbor 192.0.2.65 {
                peer-as 65040;
            }
        }
    }
}
policy-options {
    prefix-list AGGREGATES {
        198.51.100.0/24;
        203.0.112.0/22;
    }
    policy-statement NO-TRANSIT {
        from {
            protocol bgp;
            community [ PEER TRANSIT ];
        }
        then reject;
    }
    policy-statement EXCHANGE-OUT {
        term blackhole {
            from community BLACKHOLE;
            then reject;
        }
        term ours {
            from prefix-list AGGREGATES;
            then {
                metric 10;
                origin igp;
                community = ANNOUNCED;
                accept;
            }
        }
        term customers {
            from {
                community CUSTOMER;
                policy WIDE;
            }
            then {
                accept;
                as-path-prepend \"65000 65000\";
                next-hop self;
                community - INTERNAL;
                community + ANNOUNCED;
            }
        }
        then reject;
    }
    /* Nothing longer than a /24, but within our own block. */
    policy-statement WIDE {
        term lengths {
            from {
                route-filter 0.0.0.0/0 upto /24;
                route-filter 203.0.112.0/22 longer;
            }
            then accept;
        }
        then reject;
    }
    community ANNOUNCED members 65000:1;
    community BLACKHOLE members 65535:666;
    community CUSTOMER members 65000:20;
    community INTERNAL members 65000:*;
    community PEER members 65000:30;
    community TRANSIT members 65000:100;
}
routing-options {
    static {
        route 203.0.112.0/22 discard;
    }
    autonomous-system 65000;
}
";

pub const CHAINS: &[Named] = &[
    (
        "NO-TRANSIT,EXCHANGE-OUT",
        EXCHANGE,
        &[
            (
                &[
                    "route 203.0.112.0/22",
                    "as-path",
                    "origin incomplete",
                    "communities 65000:5",
                ],
                Accept(&["origin igp", "med 10", "communities 65000:1"]),
            ),
            (
                &[
                    "route 192.0.2.0/24",
                    "as-path 65020",
                    "communities 65000:20 65020:7",
                ],
                Accept(&[
                    "as-path 65000 65000 65020",
                    "next-hop self",
                    "communities 65000:1 65020:7",
                ]),
            ),
            (&["route 192.0.2.0/25", "communities 65000:20"], Reject),
            // The longest filter decides alone.
            (
                &["route 203.0.113.0/25", "communities 65000:20"],
                Accept(&[
                    "as-path 65000 65000 65001",
                    "next-hop self",
                    "communities 65000:1",
                ]),
            ),
            (
                &["route 192.0.2.0/24", "communities 65000:20 65535:666"],
                Reject,
            ),
            (
                &["route 192.0.2.0/24", "communities 65000:20 65000:30"],
                Reject,
            ),
            (&["route 192.0.2.0/24"], Reject),
        ],
    ),
    (
        "EXCHANGE-OUT",
        EXCHANGE,
        &[(
            &["route 192.0.2.0/24", "communities 65000:20 65000:30"],
            Accept(&[
                "as-path 65000 65000 65001",
                "next-hop self",
                "communities 65000:1",
            ]),
        )],
    ),
];
