// A list, or an entry to go on at, that isn't there.
use super::Row;

pub const ROWS: &[Row] = &[
    (
        "\
route-map IN permit 10
 match ip address prefix-list NONE
",
        "in.cfg:2:2: outside: undefined",
        "\
route-map IN permit 10
 match ip address prefix-list NONE
ip prefix-list NONE permit 10.0.0.0/8
",
    ),
    (
        "\
ip prefix-list PL description no entry
route-map IN permit 10
 match ip next-hop prefix-list PL
",
        "in.cfg:3:2: outside: undefined",
        "\
ip prefix-list PL description an entry
ip prefix-list PL permit 10.0.0.0/8
route-map IN permit 10
 match ip next-hop prefix-list PL
",
    ),
    (
        "\
ip prefix-list A seq 5 permit 10.0.0.0/8
route-map IN permit 10
 match ip address prefix-list A B
",
        "in.cfg:3:2: outside: undefined",
        "\
ip prefix-list A seq 5 permit 10.0.0.0/8
ip prefix-list B seq 5 permit 10.0.0.0/8
route-map IN permit 10
 match ip address prefix-list A B
",
    ),
    (
        "\
ip prefix-list C seq 5 permit 10.0.0.0/8
route-map IN permit 10
 match community C
",
        "in.cfg:3:2: outside: undefined",
        "\
ip prefix-list C seq 5 permit 10.0.0.0/8
ip community-list standard C permit 1:1
route-map IN permit 10
 match community C
",
    ),
    (
        "\
ip community-list standard exact-match permit 1:1
route-map IN permit 10
 match community C exact-match
",
        "in.cfg:3:2: outside: undefined",
        "\
ip community-list standard exact-match permit 1:1
route-map IN permit 10
 match community exact-match
",
    ),
    (
        "\
ip community-list standard PL permit 1:1
route-map IN permit 10
 match ip address prefix-list PL
",
        "in.cfg:3:2: outside: undefined",
        "\
ip community-list standard PL permit 1:1
ip prefix-list PL permit 10.0.0.0/8
route-map IN permit 10
 match ip address prefix-list PL
",
    ),
    (
        "\
route-map IN permit 10
 set comm-list D delete
",
        "in.cfg:2:2: outside: undefined",
        "\
route-map IN permit 10
 set comm-list D delete
ip community-list expanded D permit _1:1_
",
    ),
    (
        "\
ip as-path access-list 10 permit _65001_
route-map IN permit 10
 match as-path 10 11
",
        "in.cfg:3:2: outside: undefined",
        "\
ip as-path access-list 10 permit _65001_
ip as-path access-list 11 permit ^$
route-map IN permit 10
 match as-path 10 11
",
    ),
    (
        "\
route-map IN permit 10
 continue 20
route-map OUT permit 20
",
        "in.cfg:2:2: outside: undefined",
        "\
route-map IN permit 10
 continue 20
route-map IN permit 20
",
    ),
    (
        "\
route-map IN permit 10
 continue 30
route-map IN permit 20
",
        "in.cfg:2:2: outside: undefined",
        "\
route-map IN permit 10
 continue
",
    ),
    (
        "\
route-map IN permit 10
 continue 30
route-map IN allow 30
",
        "in.cfg:2:2: outside: undefined",
        "\
route-map IN permit 30
route-map IN permit 10
 continue 30
",
    ),
];
