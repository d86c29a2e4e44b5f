// A statement that is no form of the language, in what the policy reaches.
use super::Row;

pub const ROWS: &[Row] = &[
    (
        "\
route-map IN permit 10
 match colour red
",
        "in.cfg:2:2: outside: unknown-form",
        "\
route-map IN permit 10
 description match colour red
",
    ),
    (
        "\
route-map IN permit 10
 match tag 5
",
        "in.cfg:2:2: outside: unknown-form",
        "\
route-map OUT allow 10
 match tag 5
route-map IN permit 10
",
    ),
    (
        "\
route-map IN allow 10
",
        "in.cfg:1:1: outside: unknown-form",
        "\
route-map IN deny 10
",
    ),
    (
        "\
route-map IN permit 10
route-map IN permit 18446744073709551616
",
        "in.cfg:2:1: outside: unknown-form",
        "\
route-map IN permit 10
route-map IN permit 18446744073709551615
",
    ),
    (
        "\
ip prefix-list PL seq 5 allow 10.0.0.0/8
route-map IN permit 10
 match ip address prefix-list PL
",
        "in.cfg:1:1: outside: unknown-form",
        "\
ip prefix-list OTHER seq 5 allow 10.0.0.0/8
ip prefix-list PL seq 5 permit 10.0.0.0/8
route-map IN permit 10
 match ip address prefix-list PL
",
    ),
    (
        "\
ip prefix-list PL seq 5 permit 10.0.0.0/8 le 33
route-map IN permit 10
 match ip address prefix-list PL
",
        "in.cfg:1:1: outside: unknown-form",
        "\
ip prefix-list PL seq 5 permit 10.0.0.0/8 le 32
route-map IN permit 10
 match ip address prefix-list PL
",
    ),
    (
        "\
ip prefix-list PL seq 5 permit 10.0.0.0/8
ip prefix-list PL seq 10 permit 10.0.0.0/8 ge 7
route-map IN permit 10
 match ip address prefix-list PL
",
        "in.cfg:2:1: outside: unknown-form",
        "\
ip prefix-list PL seq 5 permit 10.0.0.0/8
ip prefix-list PL seq 10 permit 10.0.0.0/8 ge 8
route-map IN permit 10
 match ip address prefix-list PL
",
    ),
    (
        "\
ip prefix-list PL seq 18446744073709551611 permit 10.0.0.0/8
ip prefix-list PL permit 11.0.0.0/8
route-map IN permit 10
 match ip address prefix-list PL
",
        "in.cfg:2:1: outside: unknown-form",
        "\
ip prefix-list PL seq 18446744073709551610 permit 10.0.0.0/8
ip prefix-list PL permit 11.0.0.0/8
route-map IN permit 10
 match ip address prefix-list PL
",
    ),
    (
        "\
ip community-list standard C permit 1:x
route-map IN permit 10
 match community C
",
        "in.cfg:1:1: outside: unknown-form",
        "\
ip community-list standard C permit 1:x
route-map IN permit 10
",
    ),
    (
        "\
ip community-list 0 permit 1:1
route-map IN permit 10
 match community 0
",
        "in.cfg:1:1: outside: unknown-form",
        "\
ip community-list 1 permit 1:1
route-map IN permit 10
 match community 1
",
    ),
    (
        "\
ip as-path access-list 010 permit _65001_
route-map IN permit 10
 match as-path 10
",
        "in.cfg:1:1: outside: unknown-form",
        "\
ip as-path access-list 10 permit _65001_
route-map IN permit 10
 match as-path 10
",
    ),
    (
        "\
ip as-path access-list 10 permit 65001
route-map IN permit 10
 match as-path 10
",
        "in.cfg:1:1: outside: unknown-form",
        "\
ip as-path access-list 10 permit 65001
route-map IN permit 10
",
    ),
    (
        "\
ip as-path access-list 10 permit ^$
ip as-path access-list 10 permit ^[3-5]+$
route-map IN permit 10
 match as-path 10
",
        "in.cfg:2:1: outside: unknown-form",
        "\
ip as-path access-list 10 permit ^$
ip as-path access-list 10 deny _1_|^[0-9]+(_2)?$
route-map IN permit 10
 match as-path 10
",
    ),
    (
        "\
ip as-path access-list 10 permit _65001_ _65002_
route-map IN permit 10
 match as-path 10
",
        "in.cfg:1:1: outside: unknown-form",
        "\
ip as-path access-list 10 permit _65001_|_65002_
route-map IN permit 10
 match as-path 10
",
    ),
    (
        "\
ip as-path access-list 10 permit
route-map IN permit 10
 match as-path 10
",
        "in.cfg:1:1: outside: unknown-form",
        "\
ip as-path access-list 10 permit .*
route-map IN permit 10
 match as-path 10
",
    ),
    (
        "\
ip as-path access-list PATHS permit _65001_
route-map IN permit 10
 match as-path PATHS
",
        "in.cfg:3:2: outside: unknown-form",
        "\
ip as-path access-list 1 permit _65001_
route-map IN permit 10
 match as-path 1
",
    ),
    (
        "\
route-map IN permit 10
 match as-path 18446744073709551616
",
        "in.cfg:2:2: outside: unknown-form",
        "\
ip as-path access-list 18446744073709551615 permit .*
route-map IN permit 10
 match as-path 18446744073709551615
",
    ),
    (
        "\
route-map IN permit 10
 set local-preference 0200
",
        "in.cfg:2:2: outside: unknown-form",
        "\
route-map IN permit 10
 set local-preference 200
",
    ),
    (
        "\
route-map IN permit 10
 set metric 4294967296
",
        "in.cfg:2:2: outside: unknown-form",
        "\
route-map IN permit 10
 set  metric 4294967295 
",
    ),
    (
        "\
route-map IN permit 10
 set metric 5 6
",
        "in.cfg:2:2: outside: unknown-form",
        "\
route-map IN permit 10
 match metric 5 6
",
    ),
    (
        "\
route-map IN permit 10
 set weight 65536
",
        "in.cfg:2:2: outside: unknown-form",
        "\
route-map IN permit 10
 set weight 65535
",
    ),
    (
        "\
route-map IN permit 10
 set as-path prepend 3 x 9
",
        "in.cfg:2:2: outside: unknown-form",
        "\
route-map IN permit 10
 set as-path prepend 3 0 9
",
    ),
    (
        "\
route-map IN permit 10
 set as-path prepend
",
        "in.cfg:2:2: outside: unknown-form",
        "\
route-map IN permit 10
 set as-path prepend 4294967295
",
    ),
    (
        "\
route-map IN permit 10
 set origin egp
",
        "in.cfg:2:2: outside: unknown-form",
        "\
route-map IN permit 10
 set origin incomplete
",
    ),
    (
        "\
route-map IN permit 10
 set community 65536:1
",
        "in.cfg:2:2: outside: unknown-form",
        "\
route-map IN permit 10
 set community 65535:65535 additive
",
    ),
];
