// The texts in RPL of policies whose tests are of every sort, by hand from the layout, and what they make of routes.
use crate::policies::Verdict::{Accept, Reject};
use crate::policies::{Routes, makes};
use crate::runs::{JUDGE, JUDGE_RPL, TRANSLATE, shows, unfailing};
use std::test::Fail;

/// A policy IN, what M is in RPL, and what both make of routes.
type Written = (&'static str, &'static str, Routes);

/// Lists of prefixes.
const PREFIXES: &[Written] = &[
    // Deny before a wider permit.
    (
        "\
ip prefix-list PL seq 5 deny 10.1.0.0/16
ip prefix-list PL seq 10 permit 10.0.0.0/8 le 24
route-map IN permit 10
 match ip address prefix-list PL
",
        "\
prefix-set M-p1
  10.1.0.0/16
end-set
!
prefix-set M-p2
  10.0.0.0/8 le 24
end-set
!
route-policy M
  if not destination in M-p1 and destination in M-p2 then
    done
  endif
  drop
end-policy
!
",
        &[
            (&["route 10.1.0.0/16"], Reject),
            (&["route 10.2.0.0/16"], Accept(&[])),
            (&["route 10.1.0.0/24"], Accept(&[])),
            (&["route 10.0.0.0/25"], Reject),
        ],
    ),
    // A list that only denies is an empty set.
    (
        "\
ip prefix-list D seq 5 deny 10.0.0.0/8
route-map IN permit 10
 match ip address prefix-list D
",
        "\
prefix-set M-p1
end-set
!
route-policy M
  if destination in M-p1 then
    done
  endif
  drop
end-policy
!
",
        &[
            (&["route 10.0.0.0/8"], Reject),
            (&["route 0.0.0.0/0"], Reject),
        ],
    ),
    // Two lists, of which one has to hold; neighbouring entries of one action are one set.
    (
        "\
ip prefix-list A permit 10.0.0.0/8
ip prefix-list B permit 11.1.0.0/16
ip prefix-list B permit 11.2.0.0/16
ip prefix-list B deny 11.0.0.0/8 le 16
ip prefix-list B permit 11.0.0.0/8 le 24
route-map IN permit 10
 match ip address prefix-list A B
",
        "\
prefix-set M-p1
  10.0.0.0/8
end-set
!
prefix-set M-p2
  11.1.0.0/16,
  11.2.0.0/16
end-set
!
prefix-set M-p3
  11.0.0.0/8 le 16
end-set
!
prefix-set M-p4
  11.0.0.0/8 le 24
end-set
!
route-policy M
  if destination in M-p1 or destination in M-p2 or not destination in M-p3 and destination in M-p4 then
    done
  endif
  drop
end-policy
!
",
        &[
            (&["route 10.0.0.0/8"], Accept(&[])),
            (&["route 11.2.0.0/16"], Accept(&[])),
            (&["route 11.3.0.0/16"], Reject),
            (&["route 11.3.3.0/24"], Accept(&[])),
        ],
    ),
    // Next hops.
    (
        "\
ip prefix-list HOPS permit 192.0.2.0/24 ge 32
route-map IN permit 10
 match ip next-hop prefix-list HOPS
",
        "\
prefix-set M-p1
  192.0.2.0/24 eq 32
end-set
!
route-policy M
  if next-hop in M-p1 then
    done
  endif
  drop
end-policy
!
",
        &[
            (&[], Accept(&[])),
            (&["next-hop 192.0.3.1"], Reject),
            (&["next-hop self"], Reject),
        ],
    ),
];

/// Lists of communities.
const COMMUNITIES: &[Written] = &[(
    "\
ip community-list standard C permit 65001:1 65001:2
ip community-list standard C deny 65001:3
ip community-list standard C deny 65001:4
ip community-list standard C permit no-export
ip community-list standard C permit 65001:5
route-map IN permit 10
 match community C
",
    "\
community-set M-c1
  65001:1,
  65001:2
end-set
!
community-set M-c2
  65001:3,
  65001:4
end-set
!
community-set M-c3
  65535:65281,
  65001:5
end-set
!
route-policy M
  if community matches-every M-c1 or not community matches-any M-c2 and community matches-any M-c3 then
    done
  endif
  drop
end-policy
!
",
    &[
        (&["communities 65001:1 65001:2 65001:3"], Accept(&[])),
        (&["communities 65001:1"], Reject),
        (&["communities 65001:1 65001:5"], Accept(&[])),
        (&["communities 65001:3 65001:5"], Reject),
        (&["communities 65535:65281"], Accept(&[])),
    ],
)];

/// Tests of paths and of the MED, beside others.
const OTHERS: &[Written] = &[
    (
        "\
ip as-path access-list 1 deny _65002$
ip as-path access-list 1 permit ^65001_
ip as-path access-list 1 permit ^$
route-map IN permit 10
 match as-path 1
",
        "\
as-path-set M-a1
  ios-regex '_65002$'
end-set
!
as-path-set M-a2
  ios-regex '^65001_',
  ios-regex '^$'
end-set
!
route-policy M
  if not as-path in M-a1 and as-path in M-a2 then
    done
  endif
  drop
end-policy
!
",
        &[
            (&[], Accept(&[])),
            (&["as-path"], Accept(&[])),
            (&["as-path 65001 65002"], Reject),
            (&["as-path 65003"], Reject),
        ],
    ),
    (
        "\
ip prefix-list PL permit 10.0.0.0/8
route-map IN deny 10
 match metric 7
route-map IN permit 20
 match metric 5 10
 match ip address prefix-list PL
route-map IN permit 30
 match metric 20 30
 set metric 1
",
        "\
prefix-set M-p1
  10.0.0.0/8
end-set
!
route-policy M
  if med eq 7 then
    drop
  endif
  if (med eq 5 or med eq 10) and destination in M-p1 then
    done
  endif
  if med eq 20 or med eq 30 then
    set med 1
    done
  endif
  drop
end-policy
!
",
        &[
            (&["med 7"], Reject),
            (&["med 10"], Accept(&[])),
            (&["med 10", "route 11.0.0.0/8"], Reject),
            (&["med 30"], Accept(&["med 1"])),
        ],
    ),
];

/// What is set, in one order.
const SETTINGS: &[Written] = &[
    (
        "\
ip community-list standard D permit 65000:1
ip community-list expanded D2 permit _65010:[0-9]+_
route-map IN permit 10
 set comm-list D delete
 set community 65001:7 65001:8 additive
 set as-path prepend 65010 65010 65020
 set ip next-hop 192.0.2.9
 set origin incomplete
 set weight 5
 set metric 10
 set local-preference 200
",
        "\
route-policy M
  set local-preference 200
  set med 10
  set weight 5
  set origin incomplete
  set next-hop 192.0.2.9
  prepend as-path 65020
  prepend as-path 65010 2
  delete community in (65000:1)
  set community (65001:7, 65001:8) additive
  done
end-policy
!
",
        &[(
            &["communities 65000:1 65000:2"],
            Accept(&[
                "next-hop 192.0.2.9",
                "as-path 65010 65010 65020 65001",
                "origin incomplete",
                "local-preference 200",
                "med 10",
                "weight 5",
                "communities 65000:2 65001:7 65001:8",
            ]),
        )],
    ),
    (
        "\
ip community-list expanded ALL permit _65010:[0-9]+_
route-map IN permit 10
 match community ALL
 set comm-list ALL delete
route-map IN permit 20
 match metric 1
 set community 65001:1 no-export
route-map IN permit 30
 set community none
",
        "\
community-set M-c1
  65010:*
end-set
!
route-policy M
  if community matches-any M-c1 then
    delete community in (65010:*)
    done
  endif
  if med eq 1 then
    set community (65001:1, 65535:65281)
    done
  endif
  delete community in (*:*)
  done
end-policy
!
",
        &[
            (
                &["communities 65010:1 65011:1"],
                Accept(&["communities 65011:1"]),
            ),
            (
                &["communities 65011:1", "med 1"],
                Accept(&["communities 65001:1 65535:65281"]),
            ),
            (&["communities 65011:1"], Accept(&["communities"])),
        ],
    ),
];

/// What an entry that goes on sets is set where the run ends.
const CONTINUES: &[Written] = &[
    // Past a deny.
    (
        "\
ip prefix-list A seq 5 permit 10.0.0.0/8
ip prefix-list B seq 5 permit 172.16.0.0/12
route-map IN permit 10
 match ip address prefix-list A
 set metric 50
 continue 30
route-map IN deny 20
route-map IN permit 30
 match ip address prefix-list B
 set metric 70
",
        "\
prefix-set M-p1
  10.0.0.0/8
end-set
!
prefix-set M-p2
  172.16.0.0/12
end-set
!
route-policy M
  if destination in M-p1 and destination in M-p2 then
    set med 70
    done
  endif
  if destination in M-p1 then
    set med 50
    done
  endif
  drop
end-policy
!
",
        &[
            (&["route 10.0.0.0/8"], Accept(&["med 50"])),
            (&["route 172.16.0.0/12"], Reject),
        ],
    ),
    // An entry that always goes on changes nothing of the tests behind it.
    (
        "\
ip prefix-list A seq 5 permit 10.0.0.0/8
route-map IN permit 10
 set community 65000:1 additive
 continue
route-map IN permit 20
 match ip address prefix-list A
 set local-preference 200
",
        "\
prefix-set M-p1
  10.0.0.0/8
end-set
!
route-policy M
  if destination in M-p1 then
    set local-preference 200
    set community (65000:1) additive
    done
  endif
  set community (65000:1) additive
  done
end-policy
!
",
        &[
            (
                &["route 10.0.0.0/8"],
                Accept(&["local-preference 200", "communities 65000:1"]),
            ),
            (
                &["route 11.0.0.0/8", "communities 65000:7"],
                Accept(&["communities 65000:1 65000:7"]),
            ),
        ],
    ),
];

#[test]
fn written(rt: HostRuntime) -> Result<(), Fail> {
    for rows in [PREFIXES, COMMUNITIES, OTHERS, SETTINGS, CONTINUES] {
        for (source, text, routes) in rows {
            let texts = [("in.cfg", *source)];
            shows(&rt, &unfailing(TRANSLATE, &texts), (0, text, ""))?;
            for (given, verdict) in *routes {
                makes(&rt, JUDGE, source, given, *verdict)?;
                makes(&rt, JUDGE_RPL, text, given, *verdict)?;
            }
        }
    }
    Ok(())
}
