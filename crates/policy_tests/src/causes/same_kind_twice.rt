// A second line of one kind in an entry.
use super::Row;

/// Two lines of one kind, and one of another.
pub const LINES: &[Row] = &[
    (
        "match ip address prefix-list PL",
        "match ip address prefix-list PL",
        "match ip next-hop prefix-list PL",
    ),
    (
        "match ip next-hop prefix-list PL",
        "match ip next-hop prefix-list PL",
        "match ip address prefix-list PL",
    ),
    (
        "match community C",
        "match community C exact-match",
        "match as-path 10",
    ),
    (
        "match as-path 10",
        "match as-path 10",
        "set as-path prepend 10",
    ),
    ("match metric 1", "match metric 2 3", "set metric 2"),
    (
        "set local-preference 1",
        "set local-preference 2",
        "set weight 2",
    ),
    ("set metric 1", "set metric 1", "match metric 1"),
    ("set weight 1", "set weight 2", "set local-preference 2"),
    (
        "set as-path prepend 1",
        "set as-path prepend 2",
        "match as-path 10",
    ),
    ("set origin igp", "set origin incomplete", "set metric 1"),
    (
        "set ip next-hop 1.1.1.1",
        "set ip next-hop 2.2.2.2",
        "match ip next-hop prefix-list PL",
    ),
    (
        "set community none",
        "set community 1:1",
        "set comm-list C delete",
    ),
    (
        "set comm-list C delete",
        "set comm-list C delete",
        "set community none",
    ),
    ("continue", "continue 30", "set metric 1"),
];

pub const ROWS: &[Row] = &[
    (
        "\
ip prefix-list PL seq 5 permit 10.0.0.0/8
route-map IN permit 10
 match ip address prefix-list PL
 set local-preference 200
\t  match ip address prefix-list PL
",
        "in.cfg:5:4: outside: same-kind-twice",
        "\
ip prefix-list PL seq 5 permit 10.0.0.0/8
route-map IN permit 10
 description one
 match ip address prefix-list PL
 description two
",
    ),
    (
        "\
route-map IN permit 10
 set metric 1
route-map IN permit 20
 set metric 1
 set metric 1
",
        "in.cfg:5:2: outside: same-kind-twice",
        "\
route-map IN permit 10
 set metric 1
route-map IN permit 20
 set metric 1
route-map OUT permit 10
 set metric 1
 set metric 1
interface x
 set metric 1
",
    ),
];
