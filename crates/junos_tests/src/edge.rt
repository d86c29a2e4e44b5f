// A whole configuration, of which only the policies are read.
use crate::shown::shown;
use junos_tree::read_junos;
use std::test::Fail;

/// The text of examples/edge-junos.cfg.
pub const EDGE: &str = "\
## Last commit: 2024-03-01 09:00:00 UTC by ops
version 22.4R1;
system {
    host-name edge1;
    login {
        user ops {
            class super-user;
            authentication {
                encrypted-password \"$6$a{;}#b/*\"; ## SECRET-DATA
            }
        }
    }
}
interfaces {
    ge-0/0/0 {
        description \"to transit; AS 65010\";
        unit 0 {
            family inet {
                address 192.0.2.1/30;
            }
        }
    }
    lo0 {
        unit 0 {
            family inet {
                address 198.51.100.1/32;
            }
        }
    }
}
protocols {
    bgp {
        group transit {
            type external;
            import TRANSIT-IN;
            export TRANSIT-OUT;
            peer-as 65010;
            neighbor 192.0.2.2;
        }
    }
}
policy-options {
    prefix-list OWN {
        198.51.100.0/24;
        203.0.113.0/24;
    }
    /* What transit may send us:
       no prefix of ours, no default, nothing longer than a /24. */
    policy-statement TRANSIT-IN {
        term own {
            from {
                prefix-list-filter OWN orlonger;
            }
            then reject;
        }
        term default {
            from {
                route-filter 0.0.0.0/0 exact;
            }
            then reject;
        }
        term blackhole {
            from community BLACKHOLE;
            then {
                next-hop 192.0.2.255;
                community add KEEP;
                accept;
            }
        }
        term peers {
            from as-path PEERS;
            from {
                route-filter 0.0.0.0/0 upto /24;
            }
            then {
                local-preference 90;
                community = TRANSIT;
                accept;
            }
        }
        then reject;
    }
    policy-statement TRANSIT-OUT {
        term own {
            from policy OWN-ROUTES;
            then {
                as-path-prepend \"65000 65000\";
                community delete INTERNAL;
                accept;
            }
        }
        then reject;
    }
    policy-statement OWN-ROUTES {
        term own {
            from prefix-list OWN;
            then accept;
        }
        then reject;
    }
    community BLACKHOLE members 65535:666;
    community INTERNAL members 65000:*;
    community KEEP members [ no-export 65000:666 ];
    community TRANSIT members 65000:100;
    as-path PEERS \"65010 (65011|65012)? .*\";
}
routing-options {
    static {
        route 0.0.0.0/0 next-hop 192.0.2.2;
    }
    autonomous-system 65000;
}
firewall {
    family inet {
        filter edge {
            term bgp {
                from {
                    protocol tcp;
                    prefix-list {
                        OWN;
                    }
                }
                then accept;
            }
        }
    }
}
";

#[test]
fn only_policies_are_read(rt: HostRuntime) -> Result<(), Fail> {
    let tree = read_junos(rt.alloc(), EDGE.as_bytes())?;
    let found = shown(rt.alloc(), EDGE, &tree)?;
    let want = "\
43:5 prefix-list OWN
44:9 member 198.51.100.0/24
45:9 member 203.0.113.0/24
49:5 policy-statement TRANSIT-IN
50:9 term own
52:17 from orlonger OWN
54:13 then reject
56:9 term default
58:17 from route-filter 0.0.0.0/0 0-0
60:13 then reject
62:9 term blackhole
63:13 from community BLACKHOLE
65:17 then next-hop  192.0.2.255
66:17 then add KEEP
67:17 then accept
70:9 term peers
71:13 from as-path PEERS
73:17 from route-filter 0.0.0.0/0 0-24
76:17 then local-preference 90
77:17 then set TRANSIT
78:17 then accept
81:9 unnamed then reject
83:5 policy-statement TRANSIT-OUT
84:9 term own
85:13 from policy OWN-ROUTES
87:17 then prepend 65000 65000
88:17 then delete INTERNAL
89:17 then accept
92:9 unnamed then reject
94:5 policy-statement OWN-ROUTES
95:9 term own
96:13 from prefix-list OWN
97:13 then accept
99:9 unnamed then reject
101:5 community BLACKHOLE 65535-65535:666-666
102:5 community INTERNAL 65000-65000:0-65535
103:5 community KEEP 65535-65535:65281-65281 65000-65000:666-666
104:5 community TRANSIT 65000-65000:100-100
105:5 as-path PEERS 65010 (65011|65012)? .*
";
    assert_eq!(rt; found.as_str(), want);
    Ok(())
}
