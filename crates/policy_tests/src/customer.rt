// The route-map of a whole router configuration.
use crate::routes::route_text;
use crate::runs::{shows, unfailing};
use std::test::Fail;

/// The text of examples/edge.cfg.
const EDGE: &str = "\
!
version 15.6
hostname edge1
!
interface GigabitEthernet0/0
 description to customer B
 ip address 198.51.100.1 255.255.255.252
 no shutdown
!
router bgp 65000
 bgp log-neighbor-changes
 neighbor 198.51.100.2 remote-as 65001
 neighbor 198.51.100.2 description customer B
 !
 address-family ipv4
  neighbor 198.51.100.2 activate
  neighbor 198.51.100.2 send-community
  neighbor 198.51.100.2 route-map CUST in
 exit-address-family
!
ip forward-protocol nd
ip bgp-community new-format
!
ip prefix-list CUST-IN seq 5 permit 203.0.113.0/24 le 28
ip as-path access-list 10 permit ^65001(_65001)*$
ip community-list standard BLACKHOLE permit 65000:666
!
route-map CUST deny 10
 match community BLACKHOLE
!
route-map CUST permit 20
 description customer routes
 match ip address prefix-list CUST-IN
 match as-path 10
 set local-preference 200
 set community 65000:100 additive
!
line vty 0 4
 transport input ssh
!
end
";

/// What CUST is in RPL.
const EDGE_IN_RPL: &str = "\
prefix-set CUST-p1
  203.0.113.0/24 le 28
end-set
!
community-set CUST-c1
  65000:666
end-set
!
as-path-set CUST-a1
  ios-regex '^65001(_65001)*$'
end-set
!
route-policy CUST
  if community matches-any CUST-c1 then
    drop
  endif
  if destination in CUST-p1 and as-path in CUST-a1 then
    set local-preference 200
    set community (65000:100) additive
    done
  endif
  drop
end-policy
!
";

/// A judge by CUST in each of the two texts.
const JUDGES: [(&str, &str); 2] = [
    ("judge --from ios --policy CUST edge r.txt", EDGE),
    ("judge --from rpl --policy CUST edge r.txt", EDGE_IN_RPL),
];

const TAGGED: &str = "\
accept
route 203.0.113.0/24
next-hop 192.0.2.1
as-path 65001 65001
origin igp
local-preference 200
med 0
weight 0
communities 65000:100
";

#[test]
fn customer_policy_in_rpl(rt: HostRuntime) -> Result<(), Fail> {
    let words = "translate --from ios --policy CUST --to rpl --as CUST edge.cfg";
    let texts = [("edge.cfg", EDGE)];
    shows(&rt, &unfailing(words, &texts), (0, EDGE_IN_RPL, ""))
}

#[test]
fn customer_routes(rt: HostRuntime) -> Result<(), Fail> {
    for (prefix, path, communities, outcome) in [
        (
            "route 203.0.113.0/24",
            "as-path 65001 65001",
            "communities",
            TAGGED,
        ),
        (
            "route 203.0.113.0/24",
            "as-path 65001 65001",
            "communities 65000:666",
            "reject\n",
        ),
        (
            "route 203.0.113.0/24",
            "as-path 65001 65002",
            "communities",
            "reject\n",
        ),
        ("route 203.0.113.0/24", "as-path", "communities", "reject\n"),
        (
            "route 203.0.113.0/29",
            "as-path 65001",
            "communities",
            "reject\n",
        ),
    ] {
        let route = route_text(rt.alloc(), &[prefix, path, communities], &[])?;
        for (words, policy) in JUDGES {
            let texts = [("edge", policy), ("r.txt", route.as_str())];
            shows(&rt, &unfailing(words, &texts), (0, outcome, ""))?;
        }
    }
    Ok(())
}
