// Where causes stand together, the first place, and there the first cause of the table; and how a place is told.
use super::Row;

pub const ROWS: &[Row] = &[
    (
        "\
route-map IN permit 10
 match ip address prefix-list PL
ip prefix-list PL seq 5 allow 10.0.0.0/8
",
        "in.cfg:3:1: outside: unknown-form",
        "\
route-map IN permit 10
 match ip address prefix-list PL
ip prefix-list PL seq 5 permit 10.0.0.0/8
",
    ),
    (
        "\
route-map IN permit 10
 match ip next-hop prefix-list PL
 match ip address prefix-list PL
 match ip address prefix-list PL
",
        "in.cfg:2:2: outside: undefined",
        "\
route-map IN permit 10
 match ip next-hop prefix-list PL
 match ip address prefix-list PL
 match community C
 set comm-list C delete
ip prefix-list PL seq 5 permit 10.0.0.0/8
ip prefix-list PL description x
ip community-list standard C permit 1:1
",
    ),
    (
        "\
ip prefix-list PL seq 5 allow 10.0.0.0/8
route-map IN permit 10
 match ip address prefix-list PL
 match tag 5
",
        "in.cfg:1:1: outside: unknown-form",
        "\
ip prefix-list PL seq 5 allow 10.0.0.0/8
route-map OUT permit 10
 match ip address prefix-list PL
 match tag 5
route-map IN permit 10
",
    ),
    (
        "\
ip prefix-list A seq 5 permit 10.0.0.0/8
route-map IN permit 10
 match ip address prefix-list A
 match ip address prefix-list B
",
        "in.cfg:4:2: outside: undefined",
        "\
ip prefix-list A seq 5 permit 10.0.0.0/8
route-map IN permit 10
 match ip address prefix-list A
route-map IN permit 20
 match ip address prefix-list A
",
    ),
    (
        "\
route-map IN permit 10
 continue
 continue 10
",
        "in.cfg:3:2: outside: same-kind-twice",
        "\
route-map IN permit 10
 continue
",
    ),
    (
        "\
route-map IN deny 10
 continue 10
",
        "in.cfg:2:2: outside: backward-continue",
        "\
route-map IN deny 10
",
    ),
    (
        "\
ip community-list expanded C permit _1:1_
route-map IN permit 10
 set community none
 continue
route-map IN permit 20
 match community C exact-match
",
        "in.cfg:6:2: outside: unsettled-test",
        "\
ip community-list expanded C permit _1:1_
route-map IN permit 10
 set community none
 continue
route-map IN permit 20
",
    ),
    (
        "\
route-map IN permit 20
 match metric 5
route-map IN allow 10
 set metric 5
 continue
",
        "in.cfg:3:1: outside: unknown-form",
        "\
route-map IN permit 20
 match metric 5
route-map OUT allow 10
 set metric 5
 continue
",
    ),
    (
        "\
ip community-list standard C permit 1:1
ip community-list expanded C permit x
route-map IN permit 10
 match community C
",
        "in.cfg:2:1: outside: unknown-form",
        "\
ip community-list standard C permit 1:1
ip community-list expanded C permit x
route-map IN permit 10
",
    ),
    (
        "\
!\r
\r
route-map IN permit 10\r
  match ip address prefix-list PL\r
",
        "in.cfg:4:3: outside: undefined",
        "\
!\r
\r
route-map IN permit 10\r
  !match ip address prefix-list PL\r
",
    ),
];
