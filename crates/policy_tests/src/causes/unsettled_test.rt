// A test of what an earlier entry that goes on has set.
use super::Row;

pub const ROWS: &[Row] = &[
    (
        "\
route-map IN permit 10
 set metric 5
 continue
route-map IN permit 20
 match metric 5
",
        "in.cfg:5:2: outside: unsettled-test",
        "\
route-map IN permit 10
 set metric 5
 continue
route-map IN permit 20
 set local-preference 5
",
    ),
    (
        "\
route-map IN permit 10
 continue 30
 set metric 5
route-map IN permit 20
route-map IN permit 30
 match metric 5
",
        "in.cfg:6:2: outside: unsettled-test",
        "\
route-map IN permit 10
 match metric 5
 set metric 5
 continue
",
    ),
    (
        "\
route-map IN permit 20
 match metric 5
route-map IN permit 10
 set metric 5
 continue
",
        "in.cfg:2:2: outside: unsettled-test",
        "\
route-map IN permit 20
 match metric 5
route-map IN permit 30
 set metric 5
 continue
",
    ),
    (
        "\
ip prefix-list PL seq 5 permit 10.0.0.0/8
route-map IN permit 10
 set ip next-hop 1.1.1.1
 continue
route-map IN permit 20
 match ip next-hop prefix-list PL
",
        "in.cfg:6:2: outside: unsettled-test",
        "\
ip prefix-list PL seq 5 permit 10.0.0.0/8
route-map IN permit 10
 set ip next-hop 1.1.1.1
 continue
route-map IN permit 20
 match ip address prefix-list PL
",
    ),
    (
        "\
ip community-list standard C permit 1:1
route-map IN permit 10
 set community none
 continue
route-map IN permit 20
 match community C
",
        "in.cfg:6:2: outside: unsettled-test",
        "\
ip community-list standard C permit 1:1
route-map IN permit 10
 set metric 5
 continue
route-map IN permit 20
 match community C
",
    ),
    (
        "\
ip community-list standard C permit 1:1
route-map IN permit 10
 set comm-list C delete
 continue
route-map IN permit 20
 match community C
",
        "in.cfg:6:2: outside: unsettled-test",
        "\
ip community-list standard C permit 1:1
route-map IN permit 10
 set comm-list C delete
route-map IN permit 20
 match community C
 continue
route-map IN permit 30
 match community C
",
    ),
    (
        "\
ip as-path access-list 10 permit _65001_
route-map IN permit 10
 set as-path prepend 65000
 continue
route-map IN permit 20
 match as-path 10
",
        "in.cfg:6:2: outside: unsettled-test",
        "\
ip as-path access-list 10 permit _65001_
route-map IN permit 10
 set metric 5
 continue
route-map IN permit 20
 match as-path 10
",
    ),
    (
        "\
route-map IN permit 10
 set metric 5
 continue
route-map IN permit 20
 match metric 5
",
        "in.cfg:5:2: outside: unsettled-test",
        "\
route-map OUT permit 10
 set metric 5
 continue
route-map IN permit 20
 match metric 5
",
    ),
];
