// Entries of a route-map: their order, which one ends a run, and what `continue` does.
use super::Policy;
use super::Verdict::{Accept, Reject};

pub const POLICIES: &[Policy] = &[
    (
        "\
ip prefix-list A seq 5 permit 10.0.0.0/8
ip prefix-list B seq 5 permit 172.16.0.0/12
route-map IN permit 10
 match ip address prefix-list A
 set metric 50
 continue 30
route-map IN deny 20
route-map IN permit 30
 match ip address prefix-list B
 set metric 70
",
        &[
            (&["route 10.0.0.0/8"], Accept(&["med 50"])),
            (&["route 172.16.0.0/12"], Reject),
        ],
    ),
    (
        "\
route-map IN permit 20
 set metric 7
 continue
route-map IN permit 10
 set metric 5
 set community 65000:4
 continue
",
        &[(&[], Accept(&["med 7", "communities 65000:4"]))],
    ),
    (
        "\
route-map IN permit 10
 set local-preference 200
 continue 30
route-map IN permit 20
 set metric 20
route-map IN permit 30
 set weight 30
",
        &[(&[], Accept(&["local-preference 200", "weight 30"]))],
    ),
    (
        "\
route-map IN permit 10
 set metric 1
 continue
route-map IN deny 20
",
        &[(&[], Reject)],
    ),
    (
        "\
route-map IN permit 10
 set metric 1
route-map IN permit 20
 set metric 2
",
        &[(&[], Accept(&["med 1"]))],
    ),
    (
        "\
route-map IN deny 10
 set local-preference 50
",
        &[(&[], Reject)],
    ),
    (
        "\
route-map IN deny 10
 match metric 7
route-map IN permit 20
 match metric 1 2
 match as-path 9
ip as-path access-list 9 permit ^65001$
",
        &[
            (&["med 7"], Reject),
            (&["med 1"], Accept(&[])),
            (&["med 2"], Accept(&[])),
            (&["med 3"], Reject),
            (&["med 2", "as-path 65002"], Reject),
        ],
    ),
];
