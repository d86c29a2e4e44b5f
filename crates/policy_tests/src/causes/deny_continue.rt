// `continue` in an entry that denies.
use super::Row;

pub const ROWS: &[Row] = &[
    (
        "\
route-map IN deny 10
 continue
route-map IN permit 20
",
        "in.cfg:2:2: outside: deny-continue",
        "\
route-map IN permit 10
 continue
route-map IN deny 20
",
    ),
    (
        "\
route-map IN deny 10
 continue 20
route-map IN permit 20
",
        "in.cfg:2:2: outside: deny-continue",
        "\
route-map OUT deny 10
 continue 20
route-map IN deny 10
 set metric 1
",
    ),
];
