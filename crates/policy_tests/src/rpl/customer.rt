// The import of a customer: sets of each sort, a policy with parameters, tests that read the route as it arrived.
use crate::named::Named;
use crate::policies::Verdict::{Accept, Reject};

/// The text of examples/customer.rpl.
const CUSTOMER: &str = "\
! What a customer may send us, and what we make of it.
prefix-set CUSTOMER-NETS
  203.0.113.0/24 le 26,
  198.51.100.0/24
end-set
!
prefix-set NEVER
  # the default route, and private space
  0.0.0.0/0,
  10.0.0.0/8 le 32,
  172.16.0.0/12 le 32,
  192.168.0.0/16 le 32
end-set
!
community-set BLACKHOLE
  65000:666
end-set
!
community-set OURS
  65000:*
end-set
!
community-set FROM-CUSTOMER
  65000:100
end-set
!
community-set STAY-INSIDE
  no-export
end-set
!
as-path-set CUSTOMER-PATHS
  ios-regex '^64512(_64512)*$',
  ios-regex '^64512(_64512)*_64513$'
end-set
!
route-policy MARK($preference, $tag)
  set local-preference $preference
  set community $tag additive
end-policy
!
route-policy CUSTOMER-IN
  if destination in NEVER or not as-path in CUSTOMER-PATHS then
    drop
  endif
  delete community in OURS
  if community matches-any BLACKHOLE and destination in (203.0.113.0/24 ge 32) then
    set next-hop 192.0.2.1
    set community STAY-INSIDE additive
    done
  elseif not destination in CUSTOMER-NETS then
    drop
  elseif med ge 100 then
    apply MARK(90, FROM-CUSTOMER)
  elseif as-path length ge 3 then
    apply MARK(110, FROM-CUSTOMER)
  else
    apply MARK(120, FROM-CUSTOMER)
  endif
end-policy
";

pub const POLICIES: &[Named] = &[(
    "CUSTOMER-IN",
    CUSTOMER,
    &[
        (
            &[
                "route 203.0.113.0/24",
                "as-path 64512",
                "communities 64512:7 65000:5",
            ],
            Accept(&["local-preference 120", "communities 64512:7 65000:100"]),
        ),
        (
            &["route 198.51.100.0/24", "as-path 64512 64512 64513"],
            Accept(&["local-preference 110", "communities 65000:100"]),
        ),
        (
            &["route 203.0.113.64/26", "as-path 64512", "med 100"],
            Accept(&["local-preference 90", "communities 65000:100"]),
        ),
        // A community is tested as it came, also behind its deletion.
        (
            &[
                "route 203.0.113.9/32",
                "next-hop 198.51.100.2",
                "as-path 64512",
                "communities 65000:666",
            ],
            Accept(&["next-hop 192.0.2.1", "communities 65535:65281"]),
        ),
        (&["route 203.0.113.9/32", "as-path 64512"], Reject),
        (&["route 198.51.100.0/25", "as-path 64512"], Reject),
        (&["route 203.0.113.0/24", "as-path 65001"], Reject),
        (&["route 10.1.0.0/16", "as-path 64512"], Reject),
    ],
)];
