// Prefix lists: which entry decides, and which prefixes and next hops a range holds.
use super::Policy;
use super::Verdict::{Accept, Reject};

pub const POLICIES: &[Policy] = &[
    (
        "\
ip prefix-list PL seq 5 deny 10.1.0.0/16
ip prefix-list PL seq 10 permit 10.0.0.0/8 le 24
route-map IN permit 10
 match ip address prefix-list PL
",
        &[
            (&["route 10.1.0.0/16"], Reject),
            (&["route 10.2.0.0/16"], Accept(&[])),
            (&["route 10.1.0.0/24"], Accept(&[])),
            (&["route 10.0.0.0/25"], Reject),
        ],
    ),
    (
        "\
ip prefix-list PL seq 10 permit 10.0.0.0/8 le 32
ip prefix-list PL seq 5 deny 10.1.0.0/16 le 32
route-map IN permit 10
 match ip address prefix-list PL
",
        &[
            (&["route 10.1.2.0/24"], Reject),
            (&["route 10.2.0.0/16"], Accept(&[])),
        ],
    ),
    (
        "\
ip prefix-list PL seq 5 permit 10.0.0.0/8 le 24
ip prefix-list PL seq 10 permit 10.1.0.0/16
route-map IN permit 10
 match ip address prefix-list PL
",
        &[
            (&["route 10.1.5.0/24"], Accept(&[])),
            (&["route 10.1.0.0/16"], Accept(&[])),
            (&["route 10.1.5.0/25"], Reject),
        ],
    ),
    (
        "\
ip prefix-list PL seq 5 permit 0.0.0.0/0 ge 32
ip prefix-list PL seq 10 permit 255.255.255.255/32
route-map IN permit 10
 match ip address prefix-list PL
",
        &[
            (&["route 255.255.255.255/32"], Accept(&[])),
            (&["route 0.0.0.0/32"], Accept(&[])),
            (&["route 0.0.0.0/0"], Reject),
            (&["route 10.0.0.0/31"], Reject),
        ],
    ),
    (
        "\
ip prefix-list PL permit 10.0.0.0/8
ip prefix-list PL seq 7 deny 10.0.0.0/9
ip prefix-list PL permit 10.0.0.0/9
route-map IN permit 10
 match ip address prefix-list PL
",
        &[
            (&["route 10.0.0.0/8"], Accept(&[])),
            (&["route 10.0.0.0/9"], Reject),
        ],
    ),
    (
        "\
ip prefix-list PL permit 10.0.0.0/8 ge 9 le 24
route-map IN permit 10
 match ip address prefix-list PL
",
        &[
            (&["route 10.0.0.0/8"], Reject),
            (&["route 10.0.0.0/9"], Accept(&[])),
            (&["route 10.255.0.0/24"], Accept(&[])),
            (&["route 10.0.0.0/25"], Reject),
            (&["route 11.0.0.0/9"], Reject),
            (&["route 0.0.0.0/0"], Reject),
        ],
    ),
    (
        "\
ip prefix-list PL deny 10.1.0.0/16
ip prefix-list PL permit 10.0.0.0/8 le 24
ip prefix-list PL permit 0.0.0.0/0 ge 32
route-map IN permit 10
 match ip address prefix-list PL
",
        &[
            (&["route 10.1.0.0/16"], Reject),
            (&["route 10.1.0.0/17"], Accept(&[])),
            (&["route 10.0.0.0/25"], Reject),
            (&["route 10.0.0.1/32"], Accept(&[])),
            (&["route 0.0.0.0/0"], Reject),
        ],
    ),
    (
        "\
ip prefix-list A permit 10.0.0.0/8
ip prefix-list B permit 11.0.0.0/8
route-map IN permit 10
 match ip address prefix-list A B
",
        &[
            (&["route 10.0.0.0/8"], Accept(&[])),
            (&["route 11.0.0.0/8"], Accept(&[])),
            (&["route 12.0.0.0/8"], Reject),
        ],
    ),
    (
        "\
ip prefix-list HOPS permit 192.0.2.0/24 le 32
route-map IN permit 10
 match ip next-hop prefix-list HOPS
",
        &[
            (&["next-hop 192.0.2.1"], Accept(&[])),
            (&["next-hop 192.0.3.1"], Reject),
            (&["next-hop self"], Reject),
        ],
    ),
    (
        "\
ip prefix-list HOPS permit 192.0.2.0/24
route-map IN permit 10
 match ip next-hop prefix-list HOPS
",
        &[(&["next-hop 192.0.2.0"], Reject)],
    ),
];
