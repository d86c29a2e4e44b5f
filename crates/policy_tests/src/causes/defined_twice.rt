// A community list that is both standard and expanded.
use super::Row;

pub const ROWS: &[Row] = &[
    (
        "\
ip community-list standard C permit 65001:1
ip community-list expanded C permit _65001:1_
route-map IN permit 10
 match community C
",
        "in.cfg:2:1: outside: defined-twice",
        "\
ip community-list standard C permit 65001:1
ip community-list standard C permit 65001:1
route-map IN permit 10
 match community C
",
    ),
    (
        "\
ip community-list expanded C permit _1:1_
ip community-list expanded C permit _1:1_
ip community-list standard C permit 1:1
ip community-list expanded C permit _1:1_
route-map IN permit 10
 match community C
",
        "in.cfg:3:1: outside: defined-twice",
        "\
ip community-list expanded C permit _1:1_
ip community-list standard D permit 1:1
route-map IN permit 10
 match community C D
",
    ),
    (
        "\
ip community-list 1 permit 1:1
ip community-list expanded 01 permit _1:1_
route-map IN permit 10
 set comm-list 1 delete
",
        "in.cfg:2:1: outside: defined-twice",
        "\
ip community-list 1 permit 1:1
ip community-list expanded 01 permit _1:1_
route-map IN permit 10
",
    ),
];
