// What the lines that set do: deletion first, whatever their order.
use super::Policy;
use super::Verdict::{Accept, Reject};

pub const POLICIES: &[Policy] = &[
    (
        "\
route-map IN permit 10
 set local-preference 200
 set metric 4294967295
 set weight 65535
 set origin incomplete
 set ip next-hop 192.0.2.9
",
        &[
            (
                &[],
                Accept(&[
                    "next-hop 192.0.2.9",
                    "origin incomplete",
                    "local-preference 200",
                    "med 4294967295",
                    "weight 65535",
                ]),
            ),
            (
                &["next-hop self", "origin egp", "local-preference 0"],
                Accept(&[
                    "next-hop 192.0.2.9",
                    "origin incomplete",
                    "local-preference 200",
                    "med 4294967295",
                    "weight 65535",
                ]),
            ),
        ],
    ),
    (
        "\
route-map IN permit 10
 set as-path prepend 65010 65020
 set origin igp
",
        &[
            (&[], Accept(&["as-path 65010 65020 65001"])),
            (
                &["as-path", "origin egp"],
                Accept(&["as-path 65010 65020", "origin igp"]),
            ),
        ],
    ),
    (
        "\
route-map IN permit 10
 set community 65001:1 65000:1 65001:1
",
        &[(
            &["communities 65000:2"],
            Accept(&["communities 65000:1 65001:1"]),
        )],
    ),
    (
        "\
route-map IN permit 10
 set community 65001:1 no-export additive
",
        &[
            (
                &["communities 65001:2"],
                Accept(&["communities 65001:1 65001:2 65535:65281"]),
            ),
            (&["communities 65001:1 65535:65281"], Accept(&[])),
        ],
    ),
    (
        "\
route-map IN permit 10
 set community none
",
        &[(&["communities 65001:2 65001:3"], Accept(&["communities"]))],
    ),
    (
        "\
ip community-list standard D permit 65001:1
route-map IN permit 10
 set comm-list D delete
 set community 65001:1 65001:2 additive
",
        &[
            (
                &["communities 65001:1 65001:9"],
                Accept(&["communities 65001:1 65001:2 65001:9"]),
            ),
            (
                &["communities 65001:9"],
                Accept(&["communities 65001:1 65001:2 65001:9"]),
            ),
        ],
    ),
    (
        "\
ip community-list standard D permit 65000:1
route-map IN permit 10
 set community 65000:1 65000:4 additive
 set comm-list D delete
",
        &[(
            &["communities 65000:1 65000:3"],
            Accept(&["communities 65000:1 65000:3 65000:4"]),
        )],
    ),
    (
        "\
ip community-list expanded D deny _65000:3_
ip community-list expanded D permit _65000:[0-9]+_
route-map IN permit 10
 set comm-list D delete
",
        &[(
            &["communities 65000:1 65000:3 65001:1"],
            Accept(&["communities 65000:3 65001:1"]),
        )],
    ),
    (
        "\
ip community-list expanded D permit _[0-9]+:1_
ip community-list expanded D deny _65000:[0-9]+_
ip community-list expanded D permit _[0-9]+:[0-9]+_
route-map IN permit 10
 set comm-list D delete
",
        &[(
            &["communities 65000:1 65000:3 65001:9"],
            Accept(&["communities 65000:3"]),
        )],
    ),
    (
        "\
ip community-list standard D deny 65000:1 65000:3
ip community-list standard D permit 65000:3 65000:3
route-map IN permit 10
 set comm-list D delete
",
        &[(
            &["communities 65000:1 65000:3"],
            Accept(&["communities 65000:1"]),
        )],
    ),
];
