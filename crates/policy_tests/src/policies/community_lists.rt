// Community lists: the first entry that holds decides.
use super::Policy;
use super::Verdict::{Accept, Reject};

pub const POLICIES: &[Policy] = &[
    (
        "\
ip community-list standard C deny 65001:1 65001:2
ip community-list standard C permit 65001:1
ip community-list standard C permit 65001:2
ip community-list standard C permit 65002:7
route-map IN permit 10
 match community C
",
        &[
            (&["communities"], Reject),
            (&["communities 65001:1"], Accept(&[])),
            (&["communities 65001:1 65001:2"], Reject),
            (&["communities 65001:1 65001:2 65002:7"], Reject),
            (&["communities 65001:2 65002:7"], Accept(&[])),
            (&["communities 0:0"], Reject),
        ],
    ),
    (
        "\
ip community-list standard C permit 65000:3 65000:1
route-map IN permit 10
 match community C exact-match
",
        &[
            (&["communities 65000:1 65000:3"], Accept(&[])),
            (&["communities 65000:3"], Reject),
            (&["communities 65000:1 65000:2 65000:3"], Reject),
        ],
    ),
    (
        "\
ip community-list expanded C deny _65000:3_
ip community-list expanded C permit _65000:[0-9]+_
route-map IN permit 10
 match community C
",
        &[
            (&["communities 65000:1"], Accept(&[])),
            (&["communities 65000:1 65000:3"], Reject),
            (&["communities 65001:1"], Reject),
        ],
    ),
    (
        "\
ip community-list 100 permit _[0-9]+:1_
ip community-list 1 permit no-export
route-map IN permit 10
 match community 1 100
",
        &[
            (&["communities 7:1"], Accept(&[])),
            (&["communities 7:10"], Reject),
            (&["communities 65535:65281"], Accept(&[])),
            (&["communities 65535:65282"], Reject),
        ],
    ),
    (
        "\
ip community-list standard C permit 4259905537 local-AS
route-map IN permit 10
 match community C
",
        &[
            (&["communities 65001:1 65535:65283"], Accept(&[])),
            (&["communities 65001:1"], Reject),
        ],
    ),
    (
        "\
ip community-list expanded C permit _[0-9]+:[0-9]+_
route-map IN permit 10
 match community C
",
        &[
            (&["communities 0:0"], Accept(&[])),
            (&["communities"], Reject),
        ],
    ),
];
