// `exact-match` with an expanded community list.
use super::Row;

pub const ROWS: &[Row] = &[
    (
        "\
ip community-list expanded C permit _65001:1_
route-map IN permit 10
 match community C exact-match
",
        "in.cfg:3:2: outside: exact-expanded",
        "\
ip community-list standard C permit 65001:1
route-map IN permit 10
 match community C exact-match
",
    ),
    (
        "\
ip community-list standard C permit 1:1
ip community-list 100 permit _1:1_
route-map IN permit 10
 match community C 100 exact-match
",
        "in.cfg:4:2: outside: exact-expanded",
        "\
ip community-list standard C permit 1:1
ip community-list 100 permit _1:1_
route-map IN permit 10
 match community C 100
",
    ),
    (
        "\
ip community-list expanded exact-match permit _1:1_
route-map IN permit 10
 match community exact-match exact-match
",
        "in.cfg:3:2: outside: exact-expanded",
        "\
ip community-list expanded exact-match permit _1:1_
route-map IN permit 10
 match community exact-match
",
    ),
];
