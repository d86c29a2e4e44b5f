// The import of a customer: a subroutine, route-filters one in the other, communities that are taken off and added.
use crate::named::Named;
use crate::policies::Verdict::{Accept, Reject};

/// The text of examples/customer-junos.cfg.
const CUSTOMER: &str = "\
## Last commit: 2024-05-14 07:12:43 UTC by ops
version 22.4R1;
system {
    host-name pe1;
}
interfaces {
    xe-0/0/1 {
        description \"to the customer; AS 65020\";
        unit 0 {
            family inet {
                address 198.51.100.5/30;
            }
        }
    }
}
protocols {
    bgp {
        group customers {
            type external;
            import [ SANITY CUSTOMER-IN ];
            peer-as 65020;
            neighbor 198.51.100.6;
        }
    }
}
policy-options {
    prefix-list OWN {
        198.51.100.0/24;
    }
    /* What nobody may send is refused, and tags that are ours to set are taken off. */
    policy-statement SANITY {
        term unroutable {
            from policy UNROUTABLE;
            then reject;
        }
        term tags {
            then {
                community delete OURS;
                next policy;
            }
        }
    }
    policy-statement UNROUTABLE {
        term own {
            from {
                prefix-list-filter OWN orlonger;
            }
            then accept;
        }
        term private {
            from {
                route-filter 0.0.0.0/0 prefix-length-range /25-/32;
                route-filter 10.0.0.0/8 orlonger;
                route-filter 172.16.0.0/12 orlonger;
                route-filter 192.168.0.0/16 orlonger;
            }
            then accept;
        }
        then reject;
    }
    /* The customer's block, of which one part comes as a whole alone. */
    policy-statement CUSTOMER-IN {
        term block {
            from {
                as-path CUSTOMER;
                route-filter 203.0.112.0/20 upto /24;
                route-filter 203.0.118.0/23 exact;
            }
            then {
                local-preference 200;
                community add CUSTOMER;
                next term;
            }
        }
        term low {
            from community LOW;
            then {
                local-preference 80;
                community delete LOW;
            }
        }
        term known {
            from community CUSTOMER;
            then accept;
        }
        then reject;
    }
    community CUSTOMER members 65000:20;
    community LOW members 65020:80;
    community OURS members 65000:*;
    as-path CUSTOMER \"65020+\";
}
routing-options {
    autonomous-system 65000;
}
";

pub const CHAINS: &[Named] = &[
    (
        "SANITY,CUSTOMER-IN",
        CUSTOMER,
        &[
            (
                &[
                    "route 203.0.113.0/24",
                    "as-path 65020",
                    "communities 65000:999 65020:80",
                ],
                Accept(&["local-preference 80", "communities 65000:20"]),
            ),
            (
                &[
                    "route 203.0.113.0/24",
                    "as-path 65020 65020",
                    "communities 65000:999 65020:81",
                ],
                Accept(&["local-preference 200", "communities 65000:20 65020:81"]),
            ),
            // The longest filter decides alone.
            (
                &["route 203.0.118.0/23", "as-path 65020"],
                Accept(&["local-preference 200", "communities 65000:20"]),
            ),
            (&["route 203.0.118.0/24", "as-path 65020"], Reject),
            (&["route 203.0.113.0/24", "as-path 65020 65030"], Reject),
            // What the subroutine accepts is refused.
            (&["route 203.0.113.0/25", "as-path 65020"], Reject),
            (&["route 198.51.100.0/24", "as-path 65020"], Reject),
            (&["route 172.31.0.0/16", "as-path 65020"], Reject),
            // A tag that isn't the neighbour's to set.
            (
                &[
                    "route 203.0.113.0/24",
                    "as-path 65030",
                    "communities 65000:20",
                ],
                Reject,
            ),
        ],
    ),
    (
        "CUSTOMER-IN",
        CUSTOMER,
        &[(
            &[
                "route 203.0.113.0/24",
                "as-path 65030",
                "communities 65000:20",
            ],
            Accept(&[]),
        )],
    ),
    (
        "SANITY",
        CUSTOMER,
        &[
            (&["communities 65000:20 65020:80"], Reject),
            (
                &["route 11.0.0.0/8", "communities 65000:20 65020:80"],
                Accept(&["communities 65020:80"]),
            ),
        ],
    ),
];
