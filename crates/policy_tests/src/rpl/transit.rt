// The policies of a router at its border, in the text of its configuration.
use crate::named::Named;
use crate::policies::Verdict::{Accept, Reject};

/// The text of examples/edge.rpl.
const EDGE: &str = "\
!! IOS XR Configuration 7.5.2
!! Last configuration change at Fri Mar  1 09:00:00 2024 by ops
hostname edge1
logging console disable
interface Loopback0
 ipv4 address 198.51.100.1 255.255.255.255
!
interface GigabitEthernet0/0/0/0
 description transit; AS 65010 (do not shut)
 ipv4 address 192.0.2.1 255.255.255.252
!
prefix-set OWN
  198.51.100.0/24,
  203.0.113.0/24
end-set
!
community-set INTERNAL
  65000:*
end-set
!
community-set PEER-BLACKHOLE
  65535:666
end-set
!
as-path-set PEERS
  ios-regex '^65010_6501[1-2]_.*$',
  originates-from '65010'
end-set
!
route-policy OWN-ROUTES
  if destination in OWN then
    pass
  else
    drop
  endif
end-policy
!
route-policy TRANSIT-IN
  # no prefix of ours, no default, nothing longer than a /24
  if destination in (198.51.100.0/24 le 32, 203.0.113.0/24 le 32) then
    drop
  endif
  if destination in (0.0.0.0/0) then
    drop
  endif
  if community matches-every PEER-BLACKHOLE then
    set next-hop 192.0.2.255
    set community (no-export, 65000:666) additive
    done
  endif
  if as-path in PEERS and destination in (0.0.0.0/0 le 24) then
    set local-preference 90
    set community (65000:100)
    done
  endif
  drop
end-policy
!
route-policy TRANSIT-OUT
  apply OWN-ROUTES
  delete community in INTERNAL
  prepend as-path 65000 2
  done
end-policy
!
router static
 address-family ipv4 unicast
  0.0.0.0/0 192.0.2.2
 !
!
router bgp 65000
 bgp router-id 198.51.100.1
 address-family ipv4 unicast
  network 198.51.100.0/24
 !
 neighbor 192.0.2.2
  remote-as 65010
  use neighbor-group TRANSIT
 !
!
end
";

pub const POLICIES: &[Named] = &[
    (
        "TRANSIT-IN",
        EDGE,
        &[
            (
                &[
                    "route 192.0.2.0/24",
                    "as-path 65010 65012",
                    "communities 65010:1",
                ],
                Accept(&["local-preference 90", "communities 65000:100"]),
            ),
            (
                &["route 192.0.2.0/24", "as-path 65020 65010"],
                Accept(&["local-preference 90", "communities 65000:100"]),
            ),
            (&["route 192.0.2.0/24", "as-path 65010 65013"], Reject),
            (&["route 192.0.2.0/25", "as-path 65010"], Reject),
            (&["route 0.0.0.0/0", "as-path 65010"], Reject),
            (&["route 203.0.113.0/25", "as-path 65010"], Reject),
            (
                &["route 192.0.2.1/32", "communities 65535:666"],
                Accept(&[
                    "next-hop 192.0.2.255",
                    "communities 65000:666 65535:666 65535:65281",
                ]),
            ),
        ],
    ),
    // `drop` of an applied policy ends the run, and `pass` lets it go on.
    (
        "TRANSIT-OUT",
        EDGE,
        &[
            (
                &["route 203.0.113.0/24", "communities 65000:1 65010:1"],
                Accept(&["as-path 65000 65000 65001", "communities 65010:1"]),
            ),
            (&["route 192.0.2.0/24"], Reject),
        ],
    ),
];
