// A second entry of a number, where an entry of a prefix list without one has 5 more than the one before.
use super::Row;

pub const ROWS: &[Row] = &[
    (
        "\
route-map IN permit 10
route-map OUT permit 10
route-map IN deny 10
",
        "in.cfg:3:1: outside: sequence-twice",
        "\
route-map IN permit 10
route-map OUT permit 10
route-map OUT permit 10
",
    ),
    (
        "\
ip prefix-list PL seq 5 permit 10.0.0.0/8
ip prefix-list PL seq 5 deny 11.0.0.0/8
route-map IN permit 10
 match ip address prefix-list PL
",
        "in.cfg:2:1: outside: sequence-twice",
        "\
ip prefix-list PL seq 5 permit 10.0.0.0/8
ip prefix-list OTHER seq 5 deny 11.0.0.0/8
route-map IN permit 10
 match ip address prefix-list PL
",
    ),
    (
        "\
ip prefix-list PL permit 10.0.0.0/8
ip prefix-list PL seq 7 deny 10.0.0.0/9
ip prefix-list PL permit 10.0.0.0/9
ip prefix-list PL seq 7 permit 0.0.0.0/0
route-map IN permit 10
 match ip address prefix-list PL
",
        "in.cfg:4:1: outside: sequence-twice",
        "\
ip prefix-list PL permit 10.0.0.0/8
ip prefix-list PL seq 7 deny 10.0.0.0/9
ip prefix-list PL permit 10.0.0.0/9
ip prefix-list PL seq 8 permit 0.0.0.0/0
route-map IN permit 10
 match ip address prefix-list PL
",
    ),
    (
        "\
ip prefix-list PL permit 10.0.0.0/8
ip prefix-list PL seq 5 permit 11.0.0.0/8
route-map IN permit 10
 match ip address prefix-list PL
",
        "in.cfg:2:1: outside: sequence-twice",
        "\
ip prefix-list PL seq 5 description x
ip prefix-list PL permit 10.0.0.0/8
route-map IN permit 10
 match ip address prefix-list PL
",
    ),
    (
        "\
ip prefix-list PL seq 5 permit 10.0.0.0/8
ip prefix-list PL permit 11.0.0.0/8
ip prefix-list PL seq 10 permit 12.0.0.0/8
route-map IN permit 10
 match ip address prefix-list PL
",
        "in.cfg:3:1: outside: sequence-twice",
        "\
ip prefix-list PL seq 5 permit 10.0.0.0/8
ip prefix-list PL seq 10 permit 11.0.0.0/8
ip prefix-list PL permit 12.0.0.0/8
route-map IN permit 10
 match ip address prefix-list PL
",
    ),
    (
        "\
ip prefix-list 1 seq 7 permit 10.0.0.0/8
ip prefix-list 01 permit 10.0.0.0/9
ip prefix-list 1 seq 12 permit 12.0.0.0/8
route-map IN permit 10
 match ip address prefix-list 1
",
        "in.cfg:3:1: outside: sequence-twice",
        "\
ip prefix-list 1 seq 7 permit 10.0.0.0/8
ip prefix-list 2 permit 10.0.0.0/9
ip prefix-list 1 seq 12 permit 12.0.0.0/8
route-map IN permit 10
 match ip address prefix-list 1
",
    ),
];
